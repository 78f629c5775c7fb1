//! Tokens as the grammar sees them.
use crate::tokens::{Reserved, Sym};

/// What a lexeme is: a token's kind, with the number that a name or the value of a literal has in the table of names.
#[derive(Clone, Copy, Debug, PartialEq, Eq)]
pub enum Mark {
    /// A name, by its number.
    Name(u32),
    /// A reserved word.
    Word(Reserved),
    /// A number, by its value.
    Number(u32),
    /// A symbol.
    Symbol(Sym),
    /// A string literal, by the number of its value.
    Text(u32),
}

/// A token as the grammar sees it, and the byte where it starts.
#[derive(Clone, Copy, Debug, PartialEq, Eq)]
pub struct Lexeme {
    pub mark: Mark,
    pub at: u32,
}
