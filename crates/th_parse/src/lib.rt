//! Reads statements.
#![tactic(auto)]

mod body;
mod parts;
mod plain;
mod stmts;

pub use body::{HEIGHT_LIMIT, ParseError, parse_body, place_of};
pub use stmts::body_tree;
