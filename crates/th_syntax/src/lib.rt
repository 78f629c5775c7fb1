//! Reads lexemes, types and expressions.
#![tactic(auto)]

mod exprs;
mod numbering;
mod parts;
mod step;
mod types;

pub use exprs::{Level, ReadExpr, ReadExprs};
pub use numbering::lexemes;
pub use step::{Reader, Step, Stop, at_symbol, at_word, name, reference, symbol, word};
pub use types::{ReadNamed, ReadType, ReadTypes};
