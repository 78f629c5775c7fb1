//! The rules on interfaces and modules outside bodies and initializers. docs/LANGUAGE.md, "Which failure is named", states the order in
//! which they are judged.
#![tactic(auto)]

mod fulls;
mod hierarchy;
mod inheriting;
mod least;
mod lists;
mod stages;

pub use stages::judge_outlines;
