//! The rules of modules and programs: definitions and their laws. docs/LANGUAGE.md, "Rules of modules", states them.
#![tactic(auto)]

mod laws;

pub use laws::refusals_law;
