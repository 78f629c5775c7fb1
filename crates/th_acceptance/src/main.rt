//! `th_acceptance`: reads cases of whole texts from standard input, and prints for each whether the texts are accepted, or why they
//! are refused. README.md says what a case is.
#![tactic(auto)]

mod answers;
mod cases;
mod repeats;
mod show;
mod texts;

use anyhow::Result;
use cases::Case;

fn main(rt: HostRuntime) -> Result<()> {
    let mut case = Case::none(rt.alloc());
    for line in rt.lines(rt.alloc()) {
        let line = line?;
        if let Some(answer) = case.take(rt.alloc(), &line)? {
            println!(rt; "{answer}")?;
        }
    }
    if let Some(answer) = case.ended(rt.alloc())? {
        println!(rt; "{answer}")?;
    }
    Ok(())
}
