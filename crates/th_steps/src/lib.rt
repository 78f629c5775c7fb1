//! What programs do, step by step: a machine that keeps what is still to do as a list, and the law that it stops with the
//! outcome of the program's run.
#![tactic(auto)]

mod laws;

pub use laws::steps_law;
