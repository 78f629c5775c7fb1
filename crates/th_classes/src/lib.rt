//! The classes of a program by their numbers and names, and the walk from a class up.
#![tactic(auto)]

mod classes;
mod list;
mod row;

pub use classes::ClassTable;
pub use row::{ClassRow, init_unit};
