//! The rules on bodies, initializers and definitions in all texts, which are judged last. docs/LANGUAGE.md, "Which failure is named",
//! states the order in which rules are judged.
#![tactic(auto)]

mod bodies;
mod exported;
mod known;
mod modules;

pub use bodies::{Bodies, judge_bodies};
