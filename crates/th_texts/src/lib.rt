//! The texts of a program, read: their tokens and their trees. docs/LANGUAGE.md, "Which failure is named", states the order in which
//! texts are judged.
#![tactic(auto)]

mod error;
mod one_text;
mod source;
mod trees;

pub use error::TextError;
pub use source::lex_all;
pub use trees::{read_all, read_with};
