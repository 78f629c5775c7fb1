//! The rules on names, clauses and `main` in modules, and in interfaces as far as they come after the rules on names. docs/LANGUAGE.md,
//! "Rules of modules", states the rules.
#![tactic(auto)]

mod clauses;
mod heads;
mod kinds;
mod names;
mod numbers;

pub use clauses::{judge_interface_items, judge_module_items};
pub use heads::{judge_fields, judge_heads};
pub use names::judge_module_names;
pub use numbers::{home_of, implemented, own_items};
