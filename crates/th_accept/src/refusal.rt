//! Why texts are refused.
use std::fmt::{Debug, Display, Error as FormatError, Formatter, Write};
use th_tree::Name;
use th_type::{Place, What};
use thiserror::Error;

/// Why texts are refused. Places number the texts in the order in which they are given, from 0.
#[derive(Drop, Error)]
pub enum Refusal {
    /// No token begins at this place, the first such, and no number that is too great stands there.
    #[error("no token begins at byte {} of text {}", .0.at, .0.text)]
    BadByte(Place),
    /// A number above 2147483647 begins at this place, the first without a token.
    #[error("the number at byte {} of text {} is too great", .0.at, .0.text)]
    WideNumber(Place),
    /// No tree of the text's form goes on with what begins at this place.
    #[error("syntax at byte {} of text {}", .0.at, .0.text)]
    Syntax(Place),
    /// The name after `uses` or `implements` at this place is not that of a given interface.
    #[error("no interface of the name at byte {} of text {}", .0.at, .0.text)]
    MissingInterface(Place, Name),
    /// The rule with this number fails at this place.
    #[error("rule {number} at byte {} of text {}", place.at, place.text)]
    Rule {
        number: u32,
        place: Place,
    },
    /// There is too much of something where this place is.
    #[error("{count} are too many at byte {} of text {}", place.at, place.text)]
    TooLarge {
        what: What,
        count: u64,
        place: Place,
    },
    /// There is not enough memory.
    #[error("out of memory")]
    Memory,
}

impl Debug for Refusal {
    fn fmt<W: Write>(&self, f: &mut Formatter<W>) -> Result<(), FormatError> {
        Display::fmt(self, f)
    }
}
