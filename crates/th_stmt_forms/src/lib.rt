//! Forms of statements and lists of them, built from their checked parts. docs/LANGUAGE.md, "Rules of statements", states the
//! rules.
#![tactic(auto)]

mod form;
mod lists;

pub use form::{
    LoopHead, begin_stmt, boxed, break_stmt, for_stmt, if_stmt, only_if, put_byte, put_int,
    put_text, return_stmt, while_stmt,
};
pub use lists::{
    Heading, turned_body, turned_else, turned_onto, turned_whens, with_elseif, with_stmt, with_when,
};
