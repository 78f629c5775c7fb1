//! Why a file can't be read.
ghost use Rattle.std.specs.Prelude.{◌≡◌};
ghost use Rattle.th_elf.specs.Named.{name_of};
ghost use Rattle.th_elf.specs.declared.error.ElfError.TheVariants.{Memory};

use std::alloc::AllocError;
use thiserror::Error;

/// What of a file is judged, in the order in which it is judged (docs/FORMATS.md).
#[derive(Clone, Copy, PartialEq, Eq, Debug, Drop)]
pub enum Field {
    /// The file has at least the 52 bytes of the header.
    Length,
    /// The first four bytes are `7F 45 4C 46`.
    Magic,
    /// Byte 4 is 1: words of 32 bits.
    Class,
    /// Byte 5 is 1: the low byte of a number comes first.
    Order,
    /// Byte 6 and the version are 1.
    Version,
    /// The type is 2: an executable file.
    Kind,
    /// The machine is 243: RISC-V.
    Machine,
    /// Bit 0 of the flags is clear: no compressed instructions.
    Flags,
    /// There are no program headers, or each has 32 bytes and all lie in the file.
    Entries,
    /// Each segment that is loaded has its bytes in the file, its addresses below 0x08000000, and none of an earlier one.
    Segment,
}

impl Field {
    /// The field's name in a report: one word in small letters.
    pub fn name(self) -> &'static str
        ensures { result.now ≡ name_of self }
    {
        match self {
            Field::Length => "length",
            Field::Magic => "magic",
            Field::Class => "class",
            Field::Order => "order",
            Field::Version => "version",
            Field::Kind => "kind",
            Field::Machine => "machine",
            Field::Flags => "flags",
            Field::Entries => "entries",
            Field::Segment => "segment",
        }
    }
}

/// Why a file can't be read.
#[derive(Debug, Drop, Error)]
pub enum ElfError {
    /// The first condition that the file doesn't meet.
    #[error("bad elf {}", .0.name())]
    BadElf(Field),
    /// There is no memory for the segments.
    #[error("out of memory")]
    Memory,
}

impl From<AllocError> for ElfError {
    ghost from_gives = { λ _ e. e ≡ Memory };

    fn from(_error: AllocError) -> ElfError {
        ElfError::Memory
    }
}
