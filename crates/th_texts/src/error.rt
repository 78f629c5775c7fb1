//! Why texts are not read.
use std::fmt::{Debug, Display, Error as FormatError, Formatter, Write};
use th_type::Place;
use thiserror::Error;

/// Why texts are not read. Places number the texts in the order in which they are given, from 0.
#[derive(Drop, Error)]
pub enum TextError {
    /// No token begins at this place, the first such, and no number that is too great stands there.
    #[error("no token begins at byte {} of text {}", .0.at, .0.text)]
    BadByte(Place),
    /// A number above 2147483647 begins at this place, the first without a token.
    #[error("the number at byte {} of text {} is too great", .0.at, .0.text)]
    WideNumber(Place),
    /// No tree of the text's form goes on with what begins at this place.
    #[error("syntax at byte {} of text {}", .0.at, .0.text)]
    Syntax(Place),
    /// There is not enough memory.
    #[error("out of memory")]
    Memory,
}

impl Debug for TextError {
    fn fmt<W: Write>(&self, f: &mut Formatter<W>) -> Result<(), FormatError> {
        Display::fmt(self, f)
    }
}
