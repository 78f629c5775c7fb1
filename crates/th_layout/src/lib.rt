//! The object layout: header words, slots, distances, fields and sizes of a program's types and classes.
#![tactic(auto)]

mod layout;
mod limits;
mod sides;
mod tables;

pub use layout::{Held, Layout};
pub use limits::LayoutError;
