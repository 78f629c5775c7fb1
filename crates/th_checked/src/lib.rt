//! The checked modules of a program.
#![tactic(auto)]

mod chosen;
mod classes;
mod common;
mod modules;
mod places;
mod reach;

pub use modules::core_modules;
