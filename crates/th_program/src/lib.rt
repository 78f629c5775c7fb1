//! The trees of a program's texts, and why a rule refuses them.
#![tactic(auto)]

mod error;
mod trees;

pub use error::RuleError;
pub use trees::Trees;
