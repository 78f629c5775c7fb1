//! What a run does to its world, one act after another: turns and room, objects, calls, and bytes that are taken and put.
#![tactic(auto)]

mod calls;
mod errors;
mod objects;
mod perform;
mod puts;
mod runner;
mod streams;
mod target;
mod values;

pub use errors::InterpretError;
pub use runner::{Next, Over, Runner, Tables};
