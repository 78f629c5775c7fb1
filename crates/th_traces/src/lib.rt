//! What the machine that does a program step by step did so far: laws of its trace.
#![tactic(auto)]

mod laws;

pub use laws::{beginning_law, outcome_law};
