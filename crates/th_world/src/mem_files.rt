//! Files in memory.

ghost use Rattle.std.specs.Prelude.{◌≡◌, ℕ, ◌≤◌, ◌<◌, [], ◌∷◌, ◌++◌, length, ◌↔◌, ◌⊎◌, IsErr, IfOk, IfErr, Err, OnOk, OnErr, Some, None, option_map, IsSomeAnd, find, reverse};
ghost use Rattle.std.specs.Option.{option_copied};
ghost use Rattle.std.specs.Str.{bytes_eq};
ghost use Rattle.std.specs.String.{string_bytes};
ghost use Rattle.th_world.specs.Calls.{AreFresh, IsToFail, after_success, after_fault};
ghost use Rattle.th_world.specs.Memory.{files_of, last_of, map_of, names_of};
ghost use Rattle.th_world.specs.Outside.{with_file};
ghost use Rattle.th_world.specs.Refusal.{OnAbsent, OnTooLarge, OnFailed, OnMemory};

use crate::calls::CallCounter;
use crate::{Failed, FileError, Files};
use std::alloc::{AllocError, Global};
use std::marker::Model;

/// Files in memory, some of whose calls fail, with room for a number of writes.
#[derive(Drop)]
pub struct MemFiles {
    start: Vec<(String, Vec<u8>)>,
    writes: Vec<(String, Vec<u8>)>,
    spare: u32,
    calls: CallCounter,
}

impl Model for MemFiles {
    ghost use Rattle.std.specs.Prelude.{◌≤◌};
    ghost use Rattle.std.specs.Vec.{vec_capacity, vec_len};
    ghost use Rattle.th_world.specs.Memory.{FilesState, files_of};

    ghost Value = { FilesState };

    ghost view = { λ s. record { start = files_of s.start.items; writes = files_of s.writes.items; spare = s.spare; calls = s.calls } };

    ghost invariant = { λ s. (s.spare ≤ vec_capacity s.writes) × (vec_len s.writes ≤ s.spare) };
}

/// The last entry of this name.
fn last_entry<'a>(entries: &'a [(String, Vec<u8>)], name: &str) -> Option<&'a (String, Vec<u8>)>
    ensures { option_copied result ≡ find (λ e. bytes_eq (string_bytes e.0) name.now) (reverse entries.now) }
{
    entries.iter().rev().find(|entry| entry.0.as_str() == name)
}

/// The bytes of the last entry of this name.
fn last_bytes<'a>(entries: &'a [(String, Vec<u8>)], name: &str) -> Option<&'a [u8]>
    ensures { option_map (λ bytes. bytes.now) result ≡ last_of (files_of entries.now) name.now }
{
    match last_entry(entries, name) {
        Some((_, bytes)) => Some(bytes.as_slice()),
        None => None,
    }
}

impl MemFiles {
    /// The files of `contents`; of equal names the last holds. Reads and
    /// writes are counted together from 0; a call whose number is in `fail`
    /// is `Failed`, and so is a write after `spare` successful writes. A
    /// call's number stays at the greatest `u64` once there, and a call of
    /// that number is no fault by `fail`.
    pub fn new(
        alloc: Global,
        contents: Vec<(String, Vec<u8>)>,
        spare: u32,
        fail: Vec<u64>,
    ) -> Result<MemFiles, AllocError>
        ensures start { IfOk result (λ files. files.start ≡ files_of contents.items) }
        ensures writes { IfOk result (λ files. files.writes ≡ []) }
        ensures spare { IfOk result (λ files. files.spare ≡ spare) }
        ensures calls { IfOk result (λ files. AreFresh fail.items files.calls) }
    {
        Ok(MemFiles {
            start: contents,
            writes: Vec::with_capacity(alloc, spare as usize)?,
            spare,
            calls: CallCounter::new(fail),
        })
    }

    /// The bytes of the file `name`; `None` exactly where there is none.
    pub fn get(&self, name: &str) -> Option<&[u8]>
        ensures { option_map (λ bytes. bytes.now) result ≡ map_of self.now name.now }
    {
        match last_bytes(&self.writes, name) {
            Some(bytes) => Some(bytes),
            None => last_bytes(&self.start, name),
        }
    }

    /// How many writes succeeded.
    pub fn written(&self) -> u32
        ensures { result ≡ length (names_of self.now) }
    {
        // The range of the room for writes bounds their count.
        let _room = self.spare;
        self.writes.len() as u32
    }
}

impl Files for MemFiles {
    ghost map = { λ s. Some (map_of s) };

    ghost written = { λ s. Some (names_of s) };

    ghost faults = { λ s. s.calls.faults };

    /// The bytes of the file `name`, at most `limit` of them. It is `Failed`
    /// exactly where this call is to fail, whatever `name` is.
    fn read(&mut self, alloc: Global, name: &str, limit: u32) -> Result<Vec<u8>, FileError>
        ensures fails { (result ≡ Err FileError.Failed) ↔ IsToFail self.old.calls }
        ensures found { IfOk result (λ bytes. map_of self.old name.now ≡ Some bytes.items) }
        ensures within { IfOk result (λ bytes. length bytes.items ≤ limit) }
        ensures absent { IfErr result (λ e. OnAbsent e (map_of self.old name.now ≡ None)) }
        ensures too_large { IfErr result (λ e. OnTooLarge e (IsSomeAnd (map_of self.old name.now) (λ bytes. limit < length bytes))) }
        ensures success { ¬ IsToFail self.old.calls → self.new.calls ≡ after_success self.old.calls }
        ensures fault { IsToFail self.old.calls → self.new.calls ≡ after_fault self.old.calls }
        ensures never_falls { self.old.calls.faults ≤ self.new.calls.faults }
        ensures unchanged { self.new ≡ record self.old { calls = self.new.calls } }
    {
        if self.calls.is_to_fail() {
            self.calls.fault();
            return Err(FileError::Failed);
        }
        self.calls.succeed();
        match self.get(name) {
            None => Err(FileError::Absent),
            Some(bytes) if bytes.len() > limit as usize => Err(FileError::TooLarge),
            Some(bytes) => Vec::from_slice(alloc, bytes).map_err(|_| FileError::Memory),
        }
    }

    /// Sets the bytes of the file `name`. It fails exactly where this call is
    /// to fail or no write is left.
    fn write(&mut self, name: String, bytes: Vec<u8>) -> Result<(), Failed>
        ensures fails { IsErr result ↔ (IsToFail self.old.calls ⊎ self.old.spare ≤ length self.old.writes) }
        ensures added { OnOk result (self.new.writes ≡ self.old.writes ++ files_of ((name, bytes) ∷ [])) }
        ensures set { OnOk result (map_of self.new ≡ with_file (string_bytes name) bytes.items (map_of self.old)) }
        ensures listed { OnOk result (names_of self.new ≡ names_of self.old ++ string_bytes name ∷ []) }
        ensures success { OnOk result (self.new.calls ≡ after_success self.old.calls) }
        ensures not_added { OnErr result (self.new.writes ≡ self.old.writes) }
        ensures fault { OnErr result (self.new.calls ≡ after_fault self.old.calls) }
        ensures never_falls { self.old.calls.faults ≤ self.new.calls.faults }
        ensures same_start { self.new.start ≡ self.old.start }
        ensures same_spare { self.new.spare ≡ self.old.spare }
    {
        let full = self.spare as usize <= self.writes.len();
        if full || self.calls.is_to_fail() || self.writes.push((name, bytes)).is_err() {
            self.calls.fault();
            return Err(Failed);
        }
        self.calls.succeed();
        Ok(())
    }
}
