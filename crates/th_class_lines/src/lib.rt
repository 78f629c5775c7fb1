//! Whether a layout can be made of classes, in whatever order they stand.
#![tactic(auto)]

mod fit;
mod ranks;

pub use fit::are_fit;
