//! What stands for the where-clauses of an item at a call. docs/LANGUAGE.md, "Where-clauses", states it.
#![tactic(auto)]

mod candidates;
mod satisfy;

pub use candidates::{Candidate, CandidateList};
pub use satisfy::{WhereError, satisfies};
