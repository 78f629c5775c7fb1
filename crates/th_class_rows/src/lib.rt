//! The classes of texts, as far as the rule on what they inherit looks at them. docs/LANGUAGE.md, "Rules of modules", states the
//! rule.
#![tactic(auto)]

mod class;
mod texts;

pub use class::class_row;
pub use texts::{interfaces_rows, module_rows};
