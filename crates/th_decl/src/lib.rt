//! Reads modules and interfaces.
#![tactic(auto)]

mod heads;
mod items;
mod lists;
mod parse;

pub use parse::{parse_interface, parse_module};
