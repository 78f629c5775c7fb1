//! `th_cases`: reads cases of the types of interfaces, and of the layouts of classes, from standard input, and prints each with
//! its answer. README.md says what a case is.
#![tactic(auto)]

mod answers;
mod calls;
mod cases;
mod judged;
mod layouts;
mod lookups;
mod meanings;
mod repeats;
mod show;
mod texts;

use anyhow::Result;
use cases::Cases;

fn main(rt: HostRuntime) -> Result<()> {
    let mut cases = Cases::new(rt.alloc());
    for line in rt.lines(rt.alloc()) {
        let line = line?;
        println!(rt; "{line}")?;
        if let Some(answer) = cases.take(rt.alloc(), &line)? {
            for line in answer.lines() {
                println!(rt; "= {line}")?;
            }
        }
    }
    Ok(())
}
