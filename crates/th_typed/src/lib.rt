//! Checked expressions with their types: values that are given to what has a type, operators, and the forms that are built from their checked parts.
#![tactic(auto)]

mod form;
mod operator;
mod typed;

pub use form::{element, is_self, length, negative, new_array, not, own_self, plain_name};
pub use operator::{binary, ok_binary, ok_bool, ok_index, ok_indexed, ok_int, ok_text};
pub use typed::{GivenAll, GivenOne, Typed, TypedList, are_fit, give, give_opt, is_fit};
