//! `meaning_bench COUNT`: runs a checked program that sums the remainders of the numbers below COUNT by 7 in a loop, and
//! prints what the program put.
#![tactic(auto)]

mod sums;

use crate::sums::sums;
use anyhow::{Result, bail};
use std::env;
use th_interpret::interpret;
use th_world::{MemSink, MemSource};

/// More turns than the loop takes.
const TURNS: u64 = 10_000_000_000;

fn main(rt: HostRuntime) -> Result<()> {
    let mut words = env::args(&rt)?.skip(1);
    let Some(word) = words.next() else {
        bail!("the word is COUNT");
    };
    let Ok(count) = word.parse::<u32>() else {
        bail!("{word} is no number");
    };
    let alloc = rt.alloc();
    let modules = sums(alloc, count)?;
    let mut input = MemSource::new(Vec::new(alloc), Vec::new(alloc));
    let mut output = MemSink::new(alloc, 100, Vec::new(alloc))?;
    interpret(alloc, &modules, &mut input, &mut output, TURNS, None)?;
    println!(rt; "{}", String::from_utf8_lossy(alloc, output.bytes())?)?;
    Ok(())
}
