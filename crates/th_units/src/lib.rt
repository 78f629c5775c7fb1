//! The units of a program by their numbers and names.
#![tactic(auto)]

mod units;

pub use units::{UnitRow, UnitTable};
