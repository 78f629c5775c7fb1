//! The programs of texts.

use crate::runs::shown_run;
use crate::settings::Settings;
use crate::texts::are_short;
use anyhow::{Result, bail, ensure};
use std::alloc::Global;
use th_accept::accept_all;
use th_meaning::CoreModule;

/// The most texts of a program.
const MOST: usize = 64;

/// What the texts of a program come to.
#[derive(Drop)]
pub enum Program {
    /// They were not judged yet.
    Unjudged,
    /// They are accepted, and these are the checked modules.
    Accepted(Vec<CoreModule>),
    /// They are refused, for this reason.
    Refused(String),
}

/// The program of texts.
fn judged(alloc: Global, texts: &[Vec<u8>]) -> Result<Program> {
    ensure!(
        texts.len() <= MOST && are_short(texts),
        "the texts are too many or too long"
    );
    match accept_all(alloc, texts) {
        Ok(modules) => Ok(Program::Accepted(modules)),
        Err(refusal) => Ok(Program::Refused(format!(in alloc; "refused: {refusal}")?)),
    }
}

impl Program {
    /// Judges the texts, unless that is done.
    pub fn judge(&mut self, alloc: Global, texts: &[Vec<u8>]) -> Result<()> {
        if matches!(self, Program::Unjudged) {
            *self = judged(alloc, texts)?;
        }
        Ok(())
    }

    /// What a run with these words comes to.
    pub fn answer(&self, alloc: Global, words: &str) -> Result<String> {
        match self {
            Program::Unjudged => bail!("there is no text"),
            Program::Refused(reason) => Ok(reason.to_string(alloc)?),
            Program::Accepted(modules) => {
                let settings = Settings::of(alloc, words)?;
                shown_run(alloc, modules, settings)
            }
        }
    }
}
