//! The rules of statements: definitions and their laws. docs/LANGUAGE.md, "Rules of statements", states them.
#![tactic(auto)]

mod key;
mod laws;

pub use key::Key;
pub use laws::failures_law;
