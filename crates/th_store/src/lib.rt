//! The turns, the room and the objects of a run, and the effects on them.
#![tactic(auto)]

mod object;
mod store;

pub use object::{Miss, RunObject, RunSlot};
pub use store::{Short, Store};
