//! Why modules do not agree.
use std::fmt::{Debug, Display, Error as FormatError, Formatter, Write};
use th_tree::Name;
use thiserror::Error;

/// Why modules do not agree: the first condition that fails, in this order, with the bytewise least name of which it fails.
#[derive(Drop, Error)]
pub enum AgreeError {
    /// Two modules keep different texts of the interface of this name.
    #[error("the texts of an interface differ")]
    Differs(Name),
    /// Two modules have this name, or define a class or a routine of it, or, where it is `main`, each define this.
    #[error("a name is defined twice")]
    Twice(Name),
    /// An interface exports a class or a routine of this name, and no module defines it.
    #[error("an exported name is not defined")]
    Missing(Name),
    /// No module defines a routine `main`.
    #[error("no routine main")]
    NoMain,
    /// There is not enough memory.
    #[error("out of memory")]
    Memory,
}

impl Debug for AgreeError {
    fn fmt<W: Write>(&self, f: &mut Formatter<W>) -> Result<(), FormatError> {
        Display::fmt(self, f)
    }
}
