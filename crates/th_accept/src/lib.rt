//! Acceptance of texts: from the texts of a program to its checked modules, or why they are refused. docs/LANGUAGE.md, "Which
//! failure is named", states the order.
#![tactic(auto)]

mod laws;
mod limits;
mod refusal;
mod rules;
mod texts;

pub use laws::answers_law;
pub use refusal::Refusal;
pub use texts::{accept, accept_all};
