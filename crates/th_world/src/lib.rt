//! The outside: a source of bytes, a sink of bytes, files by their names, and
//! all three in memory. Each has a count of faults, and answers that a call
//! failed only where that count rose in the call.
#![tactic(auto)]

ghost use Rattle.std.specs.Prelude.{◌≡◌, ℕ, ◌+◌, ◌<◌, ◌≤◌, List, [], ◌∷◌, ◌++◌, length, Option, None, option_map, IfOk, IfErr, IfSome, IfNone, OnOk, OnErr, IsSomeAnd, MatchOption};
ghost use Rattle.std.specs.String.{string_bytes};
ghost use Rattle.th_world.specs.Outside.{Rose, first_byte, without_first, with_file};
ghost use Rattle.th_world.specs.Refusal.{OnAbsent, OnTooLarge, OnFailed, OnMemory};

mod calls;
mod mem_files;
mod memory;

pub use mem_files::MemFiles;
pub use memory::{MemSink, MemSource};
use std::alloc::Global;
use thiserror::Error;

/// A fault of the outside: the call did nothing, and the count of faults rose.
#[derive(Clone, Copy, PartialEq, Eq, Debug, Drop, Error)]
#[error("the call failed")]
pub struct Failed;

/// Why a file was not read (docs/DEFINITIONS.md).
#[derive(Clone, Copy, PartialEq, Eq, Debug, Drop, Error)]
pub enum FileError {
    /// No file has this name.
    #[error("no file has this name")]
    Absent,
    /// The file has more bytes than the limit.
    #[error("the file has more bytes than the limit")]
    TooLarge,
    /// A fault: the count of faults rose.
    #[error("the file could not be read")]
    Failed,
    /// Want of memory.
    #[error("no memory for the bytes of the file")]
    Memory,
}

/// A source of bytes. It means the bytes that are left, where it tells them,
/// and a count of faults that never falls (docs/DEFINITIONS.md).
pub trait Source {
    /// The bytes that are left, the next one first; None where they are not told.
    ghost left: { Self → Option (List ℕ) };
    /// The count of faults.
    ghost faults: { Self → ℕ };

    /// Takes the next byte; `None` exactly where no byte is left.
    fn next(&mut self) -> Result<Option<u8>, Failed>
        ensures first { IfOk result (λ byte. IfSome (left self.old) (λ bytes. byte ≡ first_byte bytes)) }
        ensures rest { OnOk result (left self.new ≡ option_map without_first (left self.old)) }
        ensures no_fault { OnOk result (faults self.new ≡ faults self.old) }
        ensures fault { OnErr result (Rose (faults self.old) (faults self.new)) }
        ensures not_taken { OnErr result (left self.new ≡ left self.old) }
        ensures never_falls { faults self.old ≤ faults self.new };
}

/// A sink of bytes. It means the bytes put, where it tells them, and a count
/// of faults that never falls.
pub trait Sink {
    /// The bytes put, the oldest first; None where they are not told.
    ghost put_bytes: { Self → Option (List ℕ) };
    /// The count of faults.
    ghost faults: { Self → ℕ };

    /// Puts one byte after those that were put before.
    fn put(&mut self, byte: u8) -> Result<(), Failed>
        ensures appended { OnOk result (put_bytes self.new ≡ option_map (λ bytes. bytes ++ byte ∷ []) (put_bytes self.old)) }
        ensures no_fault { OnOk result (faults self.new ≡ faults self.old) }
        ensures fault { OnErr result (Rose (faults self.old) (faults self.new)) }
        ensures not_put { OnErr result (put_bytes self.new ≡ put_bytes self.old) }
        ensures never_falls { faults self.old ≤ faults self.new };
}

/// Files by their names. They mean a map from names to bytes and the list of
/// the names written, where they tell them, and a count of faults that never
/// falls.
pub trait Files {
    /// The bytes of each name; None where they are not told.
    ghost map: { Self → Option (List ℕ → Option (List ℕ)) };
    /// The names written, the oldest first; None where they are not told.
    ghost written: { Self → Option (List (List ℕ)) };
    /// The count of faults.
    ghost faults: { Self → ℕ };

    /// The bytes of the file `name`, at most `limit` of them.
    fn read(&mut self, alloc: Global, name: &str, limit: u32) -> Result<Vec<u8>, FileError>
        ensures found { IfOk result (λ bytes. IfSome (map self.old) (λ files. files name.now ≡ Some bytes.items)) }
        ensures within { IfOk result (λ bytes. length bytes.items ≤ limit) }
        ensures no_fault { OnOk result (faults self.new ≡ faults self.old) }
        ensures absent { IfErr result (λ e. OnAbsent e (MatchOption (map self.old)
            (Rose (faults self.old) (faults self.new))
            (λ files. (files name.now ≡ None) × (faults self.new ≡ faults self.old)))) }
        ensures too_large { IfErr result (λ e. OnTooLarge e (MatchOption (map self.old)
            (Rose (faults self.old) (faults self.new))
            (λ files. IsSomeAnd (files name.now) (λ bytes. limit < length bytes) × (faults self.new ≡ faults self.old)))) }
        ensures failed { IfErr result (λ e. OnFailed e (Rose (faults self.old) (faults self.new))) }
        ensures memory { IfErr result (λ e. OnMemory e (faults self.new ≡ faults self.old)) }
        ensures same_files { map self.new ≡ map self.old }
        ensures same_written { written self.new ≡ written self.old }
        ensures never_falls { faults self.old ≤ faults self.new };

    /// Sets the bytes of the file `name`. It takes no memory.
    fn write(&mut self, name: String, bytes: Vec<u8>) -> Result<(), Failed>
        ensures set { OnOk result (map self.new ≡ option_map (with_file (string_bytes name) bytes.items) (map self.old)) }
        ensures listed { OnOk result (written self.new ≡ option_map (λ names. names ++ string_bytes name ∷ []) (written self.old)) }
        ensures no_fault { OnOk result (faults self.new ≡ faults self.old) }
        ensures fault { OnErr result (Rose (faults self.old) (faults self.new)) }
        ensures same_files { OnErr result (map self.new ≡ map self.old) }
        ensures same_written { OnErr result (written self.new ≡ written self.old) }
        ensures never_falls { faults self.old ≤ faults self.new };
}
