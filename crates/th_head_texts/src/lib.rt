//! The canonical texts of the heads of classes.
#![tactic(auto)]

mod bare;
mod head_text;
mod head_tokens;
mod kinds;
mod words;

pub use head_text::{declared_head_text, private_head_text};
pub use head_tokens::HeadTokens;
