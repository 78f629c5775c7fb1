//! `th_meaning_cases`: reads programs and runs of them from standard input, and prints for each run how it ends and what is seen of
//! it. README.md says what a case is.
#![tactic(auto)]

mod cases;
mod programs;
mod runs;
mod settings;
mod show;
mod texts;

use anyhow::Result;
use cases::Cases;

fn main(rt: HostRuntime) -> Result<()> {
    let mut cases = Cases::new(rt.alloc());
    for line in rt.lines(rt.alloc()) {
        let line = line?;
        if let Some(answer) = cases.take(rt.alloc(), &line)? {
            println!(rt; "{answer}")?;
        }
    }
    Ok(())
}
