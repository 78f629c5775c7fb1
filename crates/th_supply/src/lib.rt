//! Supplies: what stands for the where-clauses of an item that is used with type arguments.
#![tactic(auto)]

mod supply;

pub use supply::{ClausePart, own_clause, supplies_of};
