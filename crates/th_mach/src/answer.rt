//! What the machine answers of one instruction and of a run.

use th_rv::Cause;

/// What one call of `step` did (docs/MACHINE.md).
#[derive(Clone, Copy, PartialEq, Eq, Debug, Drop)]
pub enum Step {
    /// The machine goes on at the next instruction.
    Next,
    /// A byte is put, and the machine goes on.
    Put(u8),
    /// The machine waits for a byte of the input.
    Get,
    /// The run ended.
    Ended,
    /// The run raised an exception: place and length of its name in memory.
    Raised { at: u32, length: u32 },
    /// The run stopped for room.
    RoomUsed,
    /// The instruction at `pc` trapped.
    Trap { cause: Cause, pc: u32 },
}

/// How one call of `run` came to its end (docs/MACHINE.md).
#[derive(Clone, Copy, PartialEq, Eq, Debug, Drop)]
pub enum Outcome {
    /// The run ended.
    Ended,
    /// The run raised an exception: place and length of its name in memory.
    Raised { at: u32, length: u32 },
    /// The run stopped for room.
    RoomUsed,
    /// As many instructions were retired as the call allowed, and the machine goes on.
    StepsUsed,
    /// The instruction at `pc` trapped.
    Trap { cause: Cause, pc: u32 },
    /// The source failed; a further call asks it again.
    ReadFault,
    /// The sink failed; a further call puts the same byte again.
    WriteFault,
}
