//! The programs that put bytes, and what they do.
#![tactic(auto)]

mod form;
mod laws;

pub use form::{Puts, puts_of};
pub use laws::puts_law;
