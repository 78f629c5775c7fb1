//! Why a rule refuses the texts of a program.
use th_type::Failure;
use thiserror::Error;

/// Why texts that have trees are refused: a rule fails, or memory runs out.
#[derive(Clone, Copy, Debug, PartialEq, Eq, Error)]
pub enum RuleError {
    #[error("rule {} at {} of text {}", .0.rule, .0.place.at, .0.place.text)]
    Rule(Failure),
    #[error("out of memory")]
    Memory,
}
