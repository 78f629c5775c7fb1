//! Whether the modules of a program agree, so that they can be linked.
#![tactic(auto)]

mod decide;
mod error;
mod lacking;
mod least;
mod marks;
mod texts;

pub use decide::agree;
pub use error::AgreeError;
