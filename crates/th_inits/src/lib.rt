//! Initializers: what they assign, their super calls, and the where-clauses of inherited classes. docs/LANGUAGE.md, "Rules of
//! modules", states the rules.
#![tactic(auto)]

mod above;
mod assign;
mod init;
mod shape;
mod super_call;

pub use above::{Above, above_of, judge_inherits};
pub use init::walk_init;
