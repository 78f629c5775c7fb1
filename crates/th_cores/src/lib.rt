//! Declarations and classes as checked modules have them, with full names in place of numbers.
#![tactic(auto)]

mod class;
mod interface;
mod signature;

pub use class::core_class;
pub use interface::core_interface;
pub use signature::{core_clauses, core_sig};
