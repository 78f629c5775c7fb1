//! What is known where the units of a module stand: the items that can be named there, with their heads. docs/LANGUAGE.md, "Rules of
//! modules", states the rules.
#![tactic(auto)]

mod base;
mod base_row;
mod bases;
mod field;
mod first;
mod head;
mod interface;
mod known;
mod listed;
mod own;
mod unit;

pub use base::{has_method, number_of};
pub use base_row::Base;
pub use bases::Bases;
pub use field::fields_of;
pub use head::{class_item, routine_item};
pub use interface::interface_items;
pub use known::{Known, known_in};
pub use unit::ModuleEnv;
