//! `theta`: builds and runs programs (README.md says how to call it).
#![tactic(auto)]

mod real_files;
mod streams;

use real_files::RealFiles;
use std::alloc::Global;
use std::env::{self, Env};
use std::io;
use std::process::ExitCode;
use streams::{FromReader, ToWriter};
use th_top::theta;
use th_world::Sink;

/// The status where the words are no command.
const WORDS: u8 = 1;

/// The status where there is no memory.
const MEMORY: u8 = 9;

/// The words after the program's name.
fn words<R: Env + Alloc<A = Global>>(rt: &R) -> io::Result<Vec<String>> {
    let mut words = Vec::new(rt.alloc());
    for word in env::args(rt)?.skip(1) {
        words.push(word)?;
    }
    Ok(words)
}

/// Puts a line at the report, as far as that can be done.
fn say<K: Sink>(report: &mut K, line: &[u8]) {
    for byte in line {
        if report.put(*byte).is_err() {
            return;
        }
    }
}

fn main(rt: HostRuntime) -> ExitCode {
    let mut report = ToWriter::new(rt.stderr());
    let status = match words(&rt) {
        Ok(words) => {
            let mut files = RealFiles::new(&rt);
            let mut input = FromReader::new(rt.stdin());
            let mut output = ToWriter::new(rt.stdout());
            theta(
                rt.alloc(),
                &words,
                &mut files,
                &mut input,
                &mut output,
                &mut report,
            )
        }
        Err(error) if error.kind() == io::ErrorKind::OutOfMemory => {
            say(&mut report, b"memory\n");
            MEMORY
        }
        Err(_) => {
            say(&mut report, b"words\n");
            WORDS
        }
    };
    ExitCode::from(status)
}
