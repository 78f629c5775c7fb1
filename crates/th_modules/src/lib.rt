//! The definitions of modules, judged: routines, methods, initializers and classes, and their checked units. docs/LANGUAGE.md,
//! "Rules of modules", states the rules.
#![tactic(auto)]

mod class;
mod judging;
mod method;
mod module;
mod routine;
mod unit;
mod within;

pub use judging::Judging;
pub use module::judge_module;
