//! What a run does without waiting for a value: short expressions of numbers, truth values and locals, and statements that
//! bind a local to one.
#![tactic(auto)]

mod operators;
mod statements;
mod values;

pub use statements::quick_stmt;
pub use values::quick;
