//! The acceptance of the texts in files.
ghost use Rattle.std.specs.Prelude.{◌≡◌, ◌≤◌, ℕ, List, IsTrue, Some, length, map, slice_get};

use anyhow::{Result, ensure};
use std::alloc::Global;
use th_accept::accept_all;

/// The most texts of a program.
const MOST: usize = 64;

/// The most bytes of a text.
const MOST_BYTES: usize = 2_097_152;

/// Whether each text is so short that it can be judged.
fn are_short(texts: &[Vec<u8>]) -> bool
    ensures { IsTrue result → (k : ℕ) (t : List ℕ) → slice_get (map (λ x. x.items) texts.now) k ≡ Some t → length t ≤ 2097152 }
{
    for text in texts {
        if text.len() > MOST_BYTES {
            return false;
        }
    }
    true
}

/// How many modules and units the texts have, where they are accepted.
pub fn accepted(alloc: Global, texts: &[Vec<u8>]) -> Result<String> {
    ensure!(
        texts.len() <= MOST && are_short(texts),
        "the texts are too many or too long"
    );
    let modules = accept_all(alloc, texts)?;
    let mut units: usize = 0;
    for program in &modules {
        units = units.saturating_add(program.units.len());
    }
    Ok(format!(in alloc; "{} modules, {units} units", modules.len())?)
}
