//! The limits on texts, judged. docs/LANGUAGE.md, "Limits", states each.
#![tactic(auto)]

mod excess;
mod heads;
mod laws;
mod units;
mod words;

pub use excess::{Excess, measure};
pub use heads::{measure_interface, measure_module_heads};
pub use laws::limits_law;
pub use units::measure_module;
pub use words::measure_tokens;
