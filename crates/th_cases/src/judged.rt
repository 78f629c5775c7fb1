//! Whether interfaces keep the rules.

use crate::texts::interfaces_of;
use anyhow::{Result, bail, ensure};
use std::alloc::{AllocError, Global};
use th_hier::{HierError, Hierarchy, has_room};
use th_tree::NameTable;
use th_type::Place;

/// How many letters of a text are shown.
const SHOWN: usize = 24;

/// The letters at a place of texts with `&` between them.
pub fn letters_at(alloc: Global, texts: &str, place: Place) -> Result<String, AllocError> {
    let text = texts.split('&').nth(place.text as usize).unwrap_or("");
    text.chars()
        .skip(place.at as usize)
        .take(SHOWN)
        .filter(|letter| *letter != '\n')
        .collect(alloc)
}

/// The rule that is named of the interfaces in texts, and where it fails; `lawful` where none fails.
pub fn judged(alloc: Global, texts: &str) -> Result<String> {
    let mut names = NameTable::new(alloc);
    let interfaces = interfaces_of(alloc, &mut names, texts)?;
    ensure!(has_room(&names, &interfaces), "there are too many items");
    match Hierarchy::of(alloc, &mut names, &interfaces) {
        Ok(_) => Ok(format!(in alloc; "lawful")?),
        Err(HierError::Rule { number, place }) => {
            let letters = letters_at(alloc, texts, place)?;
            let Place { text, at } = place;
            Ok(format!(in alloc; "rule {number} at {at} of text {text}: {letters}")?)
        }
        Err(HierError::Memory) => bail!("out of memory"),
    }
}
