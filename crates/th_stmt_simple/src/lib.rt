//! The checker of statements without others in them, and of the heads of loops. docs/LANGUAGE.md, "Rules of statements", states
//! their rules.
#![tactic(auto)]

mod give;
mod given;
mod put;
mod simple;
mod target;

pub use put::{walk_put_byte, walk_put_int, walk_put_text, walk_truth};
pub use simple::{
    walk_assign, walk_loop, walk_plain, walk_raise_value, walk_return_value, walk_var, walk_yield,
};
