//! Several files, read in order.
#![tactic(auto)]

mod files;

pub use files::{ReadError, read_files};
