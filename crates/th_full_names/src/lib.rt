//! The full names of items, put into the table of names; and names after `uses` and `implements`, each of which is that of an
//! interface.
#![tactic(auto)]

mod full_names;
mod given;

pub use full_names::number_items;
pub use given::{Missing, demand_interfaces};
