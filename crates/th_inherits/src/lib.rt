//! What classes are for and what they inherit. docs/LANGUAGE.md, "Rules of modules", states the rule.
#![tactic(auto)]

mod heights;
mod judge;
mod loops;
mod order;
mod places;
mod row;
mod table;

pub use judge::judge_inheriting;
pub use row::{Inherited, Row};
