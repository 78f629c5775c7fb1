//! The registers of code: which one holds what. docs/CODE.md has them in words.

/// It always reads 0.
pub(crate) const ZERO: u32 = 0;

/// The address after the linking jump that opened the activation.
pub(crate) const LINK: u32 = 1;

/// The header of the activation at work.
pub(crate) const HEADER: u32 = 3;

/// A free register.
pub(crate) const FREE: u32 = 5;

/// A second free register.
pub(crate) const SECOND: u32 = 6;

/// The free register in which results are computed.
pub(crate) const RESULT: u32 = 7;

/// Local word 0 of the frame.
pub(crate) const LOCALS: u32 = 8;

/// Place 0 of the frame's stack.
pub(crate) const STACK: u32 = 9;

/// The operand of an environment call.
pub(crate) const OPERAND: u32 = 10;

/// The number of an environment call.
pub(crate) const CALL_NUMBER: u32 = 17;

/// The status.
pub(crate) const STATUS: u32 = 24;

/// The value word.
pub(crate) const VALUE: u32 = 25;

/// The address after the room that there is.
pub(crate) const LIMIT: u32 = 26;

/// The address after all open frames.
pub(crate) const TOP: u32 = 27;

/// A third free register.
pub(crate) const THIRD: u32 = 28;

/// A fourth free register.
pub(crate) const FOURTH: u32 = 29;

/// The loop body of the next call.
pub(crate) const BODY: u32 = 30;

/// Local word 0 of the home of the next call's loop body.
pub(crate) const HOME_LOCALS: u32 = 31;
