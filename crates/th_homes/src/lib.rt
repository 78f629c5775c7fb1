//! The types that the interfaces of a checked module declare, by name, and the homes of their methods (docs/LOWERING.md).
#![tactic(auto)]

mod types;

pub use types::Types;
