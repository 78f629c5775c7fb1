//! The tables of a program's classes, and their dump. docs/LAYOUT.md says what both are.
#![tactic(auto)]

mod lines;
mod making;
mod put;
mod shown;

pub use lines::dump;
pub use making::tables;
pub use shown::{Table, TableClass, Tables};
