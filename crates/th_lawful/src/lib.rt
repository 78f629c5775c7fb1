//! Whether a layout can be made of classes, and the layout with its tables.
#![tactic(auto)]

mod lawful;

pub use lawful::{are_lawful, laid_out};
