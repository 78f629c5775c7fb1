//! The rules of expressions: definitions and their laws. docs/LANGUAGE.md, "Rules of expressions", states them.
#![tactic(auto)]

mod laws;

pub use laws::{failures_law, subtypes_law, types_law};
