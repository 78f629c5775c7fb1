//! The checker of statements. docs/LANGUAGE.md, "Rules of statements", states their rules.
#![tactic(auto)]

mod check;
mod walk;

pub use check::{check_body, walk_unit};
