//! Second types, equality of types, and arguments in place of parameters. docs/LANGUAGE.md, "Types", states what they mean.
#![tactic(auto)]

mod arguments;
mod copies;
mod same;
mod signature;

pub use arguments::{list_with_args, with_args};
pub use copies::{copy_of, copy_of_list, copy_of_names, copy_of_sig};
pub use same::{is_exact, is_same, is_same_list, is_within, length_of, type_at};
pub use signature::{formals_of, sig_with_args};
