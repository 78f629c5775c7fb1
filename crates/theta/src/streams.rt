//! Sources and sinks over readers and writers. They tell nothing of their content.

ghost use Rattle.std.specs.Prelude.{◌≡◌, ℕ, None};

use std::io::{Read, Write};
use th_world::{Failed, Sink, Source};

/// A source of the bytes of a reader, taken one at a time.
#[derive(Drop)]
pub struct FromReader<R> {
    reader: R,
    faults: u64,
}

impl<R> FromReader<R> {
    /// The source of a reader's bytes, without a fault so far.
    pub fn new(reader: R) -> Self {
        FromReader { reader, faults: 0 }
    }
}

impl<R: Read + Drop> Source for FromReader<R> {
    ghost left = { λ _. None };

    ghost faults = { λ s. s.faults };

    fn next(&mut self) -> Result<Option<u8>, Failed> {
        let mut byte = [0];
        match self.reader.read(&mut byte) {
            Ok(0) => Ok(None),
            Ok(_) => Ok(Some(byte[0])),
            Err(_) => {
                self.faults = self.faults.saturating_add(1);
                Err(Failed)
            }
        }
    }
}

/// A sink that hands each byte to a writer at once.
#[derive(Drop)]
pub struct ToWriter<W> {
    writer: W,
    faults: u64,
}

impl<W> ToWriter<W> {
    /// The sink over a writer, without a fault so far.
    pub fn new(writer: W) -> Self {
        ToWriter { writer, faults: 0 }
    }
}

impl<W: Write + Drop> Sink for ToWriter<W> {
    ghost put_bytes = { λ _. None };

    ghost faults = { λ s. s.faults };

    /// A write that takes nothing is a fault.
    fn put(&mut self, byte: u8) -> Result<(), Failed> {
        match self.writer.write(&[byte]) {
            Ok(1) => Ok(()),
            _ => {
                self.faults = self.faults.saturating_add(1);
                Err(Failed)
            }
        }
    }
}
