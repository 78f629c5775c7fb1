//! A source and a sink in memory.

ghost use Rattle.std.specs.Prelude.{◌≡◌, ℕ, ◌≤◌, [], ◌∷◌, ◌++◌, length, ◌↔◌, ◌⊎◌, IsErr, IfOk, OnOk, OnErr, Some};
ghost use Rattle.th_world.specs.Outside.{first_byte, without_first};
ghost use Rattle.th_world.specs.Calls.{AreFresh, IsToFail, after_success, after_fault};

use crate::calls::CallCounter;
use crate::{Failed, Sink, Source};
use std::alloc::{AllocError, Global};
use std::marker::Model;

/// A source of the bytes of a list, some of whose calls fail.
#[derive(Drop)]
pub struct MemSource {
    bytes: Vec<u8>,
    at: usize,
    calls: CallCounter,
}

impl Model for MemSource {
    ghost use Rattle.std.specs.Prelude.{drop};
    ghost use Rattle.th_world.specs.Memory.{SourceState};

    ghost Value = { SourceState };

    ghost view = { λ s. record { left = drop s.at s.bytes.items; calls = s.calls } };
}

impl MemSource {
    /// A source of `bytes`. The calls of `next` whose numbers, from 0, are in
    /// `fail` are faults; a call's number stays at the greatest `u64` once
    /// there, and a call of that number is none. It takes no memory.
    pub fn new(bytes: Vec<u8>, fail: Vec<u64>) -> MemSource
        ensures left { result.left ≡ bytes.items }
        ensures calls { AreFresh fail.items result.calls }
    {
        MemSource {
            bytes,
            at: 0,
            calls: CallCounter::new(fail),
        }
    }
}

impl Source for MemSource {
    ghost left = { λ s. Some s.left };

    ghost faults = { λ s. s.calls.faults };

    /// Takes the next byte. It fails exactly where this call is to fail.
    fn next(&mut self) -> Result<Option<u8>, Failed>
        ensures fails { IsErr result ↔ IsToFail self.old.calls }
        ensures first { IfOk result (λ byte. byte ≡ first_byte self.old.left) }
        ensures rest { OnOk result (self.new.left ≡ without_first self.old.left) }
        ensures success { OnOk result (self.new.calls ≡ after_success self.old.calls) }
        ensures not_taken { OnErr result (self.new.left ≡ self.old.left) }
        ensures fault { OnErr result (self.new.calls ≡ after_fault self.old.calls) }
        ensures never_falls { self.old.calls.faults ≤ self.new.calls.faults }
    {
        if self.calls.is_to_fail() {
            self.calls.fault();
            return Err(Failed);
        }
        self.calls.succeed();
        if self.at < self.bytes.len() {
            let byte = self.bytes[self.at];
            self.at += 1;
            Ok(Some(byte))
        } else {
            Ok(None)
        }
    }
}

/// A sink that keeps what is put, with room for a number of bytes.
#[derive(Drop)]
pub struct MemSink {
    bytes: Vec<u8>,
    room: u32,
    calls: CallCounter,
}

impl Model for MemSink {
    ghost use Rattle.std.specs.Prelude.{◌≤◌};
    ghost use Rattle.std.specs.Vec.{vec_capacity};
    ghost use Rattle.th_world.specs.Memory.{SinkState};

    ghost Value = { SinkState };

    ghost view = { λ s. record { put = s.bytes.items; room = s.room; calls = s.calls } };

    ghost invariant = { λ s. s.room ≤ vec_capacity s.bytes };
}

impl MemSink {
    /// A sink with room for `room` bytes; a put beyond them is a fault. The
    /// calls of `put` whose numbers, from 0, are in `fail` are faults, too; a
    /// call's number stays at the greatest `u64` once there, and a call of
    /// that number is none by `fail`.
    pub fn new(alloc: Global, room: u32, fail: Vec<u64>) -> Result<MemSink, AllocError>
        ensures empty { IfOk result (λ sink. sink.put ≡ []) }
        ensures room { IfOk result (λ sink. sink.room ≡ room) }
        ensures calls { IfOk result (λ sink. AreFresh fail.items sink.calls) }
    {
        Ok(MemSink {
            bytes: Vec::with_capacity(alloc, room as usize)?,
            room,
            calls: CallCounter::new(fail),
        })
    }

    /// The bytes put, the oldest first.
    pub fn bytes(&self) -> &[u8]
        ensures { result.now ≡ self.now.put }
    {
        self.bytes.as_slice()
    }
}

impl Sink for MemSink {
    ghost put_bytes = { λ s. Some s.put };

    ghost faults = { λ s. s.calls.faults };

    /// Puts one byte. It fails exactly where this call is to fail or no room
    /// is left.
    fn put(&mut self, byte: u8) -> Result<(), Failed>
        ensures fails { IsErr result ↔ (IsToFail self.old.calls ⊎ self.old.room ≤ length self.old.put) }
        ensures appended { OnOk result (self.new.put ≡ self.old.put ++ byte ∷ []) }
        ensures success { OnOk result (self.new.calls ≡ after_success self.old.calls) }
        ensures not_put { OnErr result (self.new.put ≡ self.old.put) }
        ensures fault { OnErr result (self.new.calls ≡ after_fault self.old.calls) }
        ensures never_falls { self.old.calls.faults ≤ self.new.calls.faults }
        ensures same_room { self.new.room ≡ self.old.room }
    {
        let full = self.room as usize <= self.bytes.len();
        if full || self.calls.is_to_fail() || self.bytes.push(byte).is_err() {
            self.calls.fault();
            return Err(Failed);
        }
        self.calls.succeed();
        Ok(())
    }
}
