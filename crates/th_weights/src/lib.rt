//! The room of objects: how many bytes an object of a class takes.
#![tactic(auto)]

mod size;
mod table;
mod types;
mod weights;
mod words;

pub use weights::Weights;
