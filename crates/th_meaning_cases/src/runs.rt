//! Runs of programs, and what is seen of them.

use crate::settings::Settings;
use crate::show::{put_bytes, put_entered, put_name};
use anyhow::Result;
use std::alloc::{AllocError, Global};
use th_interpret::{End, InterpretError, Run, interpret};
use th_meaning::CoreModule;
use th_world::{MemSink, MemSource, Source};

/// The most bytes that a run can put.
const MOST: u32 = 10_000;

/// Puts how a run ended.
fn put_end(text: &mut String, end: &End) -> Result<(), AllocError> {
    match end {
        End::Ended => text.push_str("ended"),
        End::Raised(name) => {
            text.push_str("raised ")?;
            put_name(text, name)
        }
        End::NoTurns => text.push_str("out of turns"),
        End::NoRoom => text.push_str("out of room"),
    }
}

/// The word for why there is no end.
fn word_of(error: &InterpretError) -> &'static str {
    match error {
        InterpretError::ReadFault => "read fault",
        InterpretError::WriteFault => "write fault",
        InterpretError::Memory => "out of memory",
    }
}

/// Puts the end of a run, the bytes that it put, and the units that it entered.
fn put_run(
    alloc: Global,
    text: &mut String,
    modules: &[CoreModule],
    run: &Run,
    bytes: &[u8],
) -> Result<(), AllocError> {
    put_end(text, &run.end)?;
    put_bytes(alloc, text, bytes)?;
    put_entered(alloc, text, modules, run.entered.as_slice())
}

/// Puts how many bytes of an input are left, where it has any.
fn put_left(alloc: Global, text: &mut String, mut source: MemSource) -> Result<(), AllocError> {
    let mut bytes = Vec::new(alloc);
    for count in 0..u32::MAX {
        match source.next() {
            Ok(Some(byte)) => bytes.push(byte)?,
            Ok(None) | Err(_) => break,
        }
    }
    if !bytes.is_empty() {
        text.push_str(", left")?;
        put_bytes(alloc, text, &bytes)?;
    }
    Ok(())
}

/// What is seen of a run.
pub fn shown_run(alloc: Global, modules: &[CoreModule], settings: Settings) -> Result<String> {
    let Settings {
        turns,
        room,
        input,
        read_faults,
        write_faults,
    } = settings;
    let mut source = MemSource::new(input, read_faults);
    let mut sink = MemSink::new(alloc, MOST, write_faults)?;
    let mut text = String::new(alloc);
    match interpret(alloc, modules, &mut source, &mut sink, turns, room) {
        Ok(run) => put_run(alloc, &mut text, modules, &run, sink.bytes())?,
        Err(error) => {
            text.push_str(word_of(&error))?;
            put_bytes(alloc, &mut text, sink.bytes())?;
        }
    }
    put_left(alloc, &mut text, source)?;
    Ok(text)
}
