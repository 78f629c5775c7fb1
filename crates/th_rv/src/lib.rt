//! Instructions of RV32IM: the words that spell them, and what each does.
#![tactic(auto)]

mod decoding;
mod encoding;
mod instr;

pub use decoding::decode;
pub use encoding::encode;
pub use instr::{Cause, Instr};
