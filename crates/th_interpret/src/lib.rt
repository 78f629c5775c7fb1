//! The interpreter of checked programs: one step after another, over lists of its own.
#![tactic(auto)]

mod main_unit;
mod run;

pub use run::{End, Run, interpret};
pub use th_acts::InterpretError;
