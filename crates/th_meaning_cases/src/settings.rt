//! What a run is given.

use anyhow::{Result, bail};
use std::alloc::Global;

/// The turns of a run of which no turns are said.
const TURNS: u64 = 1_000_000;

/// What a run is given.
#[derive(Drop)]
pub struct Settings {
    /// Its turns.
    pub turns: u64,
    /// Its room in bytes; unlimited where there is none.
    pub room: Option<u64>,
    /// The bytes of its input.
    pub input: Vec<u8>,
    /// The calls of the input that are faults, by their numbers from 0.
    pub read_faults: Vec<u64>,
    /// The calls of the output that are faults, by their numbers from 0.
    pub write_faults: Vec<u64>,
}

impl Settings {
    /// Many turns, unlimited room, an empty input and no fault.
    fn new(alloc: Global) -> Self {
        Settings {
            turns: TURNS,
            room: None,
            input: Vec::new(alloc),
            read_faults: Vec::new(alloc),
            write_faults: Vec::new(alloc),
        }
    }

    /// Takes a number of this key.
    fn set(&mut self, key: &str, number: u64) -> Result<()> {
        match key {
            "turns" => self.turns = number,
            "room" => self.room = Some(number),
            "read_fault" => self.read_faults.push(number)?,
            "write_fault" => self.write_faults.push(number)?,
            _ => bail!("{key} is no word of a run"),
        }
        Ok(())
    }

    /// Takes a word `KEY=VALUE`.
    fn take(&mut self, word: &str) -> Result<()> {
        let Some((key, value)) = word.split_once('=') else {
            bail!("{word} is no word of a run");
        };
        if key == "input" {
            self.input.extend_from_slice(value.as_bytes())?;
            return Ok(());
        }
        self.set(key, value.parse::<u64>()?)
    }

    /// What the words of a run say, each with a blank before it.
    pub fn of(alloc: Global, words: &str) -> Result<Settings> {
        let mut settings = Settings::new(alloc);
        for word in words.split(' ') {
            if !word.is_empty() {
                settings.take(word)?;
            }
        }
        Ok(settings)
    }
}
