//! How a command ends.

ghost use Rattle.std.specs.Prelude.{◌≡◌};
ghost use Rattle.th_top.specs.Answers.{status_of};
ghost use Rattle.th_top.specs.Verdict.{verdict_of};

use arrayvec::ArrayVec;
use th_accept::Refusal;
use th_elf::Field;
use th_rv::Cause;

/// The most bytes of an exception's name.
pub const LONGEST_NAME: usize = 129;

/// How a command ended.
#[derive(Drop)]
pub enum Verdict<'a> {
    /// All was done.
    Done,
    /// This file couldn't be read or written.
    BadFile(&'a str),
    /// The text of this file is refused.
    Refused(&'a str, Refusal),
    /// The texts are accepted, and this file's isn't built yet.
    NotBuilt(&'a str),
    /// This file isn't loadable, by the condition on the field.
    BadElf(&'a str, Field),
    /// The run raised the exception of this name.
    RunRaised(ArrayVec<u8, LONGEST_NAME>),
    /// The run stopped for room.
    NoRoom,
    /// The run used up its steps.
    NoSteps,
    /// The run trapped at an address.
    Trapped(Cause, u32),
    /// There was no memory.
    NoMemory,
    /// The input or the output failed.
    StreamFailed,
}

impl Verdict<'_> {
    /// The status that the program answers.
    pub fn status(&self) -> u8
        ensures { result ≡ status_of (verdict_of self.now) }
    {
        match self {
            Verdict::Done => 0,
            Verdict::BadFile(_) => 2,
            Verdict::Refused(..) => 3,
            Verdict::NotBuilt(_) => 3,
            Verdict::BadElf(..) => 5,
            Verdict::RunRaised(_) => 6,
            Verdict::NoRoom => 7,
            Verdict::NoSteps => 8,
            Verdict::NoMemory => 9,
            Verdict::Trapped(..) => 10,
            Verdict::StreamFailed => 11,
        }
    }
}
