//! The rules on what the classes of a module inherit, override and define anew. docs/LANGUAGE.md, "Rules of modules", states them.
#![tactic(auto)]

mod ancestor;
mod bodies;
mod chain;
mod conform;
mod defined;
mod judge;
mod lacking;
mod overriding;
mod reached;
mod same;

pub use defined::is_redefined;
pub use judge::judge_class;
