//! Parts of a text that are written once and repeated.

use anyhow::{Result, bail, ensure};
use std::alloc::{AllocError, Global};

/// The most repetitions of a part.
const MOST: u32 = 100_000;

/// Puts a part, with the number of the repetition in place of `%` and the next number in place of `^`.
fn put_part(alloc: Global, text: &mut String, part: &str, number: u32) -> Result<(), AllocError> {
    let next = number.saturating_add(1);
    for letter in part.chars() {
        match letter {
            '%' => text.push_str(&number.to_string(alloc)?)?,
            '^' => text.push_str(&next.to_string(alloc)?)?,
            _ => text.push(letter)?,
        }
    }
    Ok(())
}

/// Puts a part as often as the number before it says.
fn put_repeated(alloc: Global, text: &mut String, repeated: &str) -> Result<()> {
    let Some((count, part)) = repeated.split_once(' ') else {
        bail!("a repeated part has no number");
    };
    let count = count.parse::<u32>()?;
    ensure!(count <= MOST, "a part is repeated at most {MOST} times");
    for number in 0..count {
        put_part(alloc, text, part, number)?;
    }
    Ok(())
}

/// The text with `{N PART}` written out: N times the part, with the number of the repetition, from 0, in place of `%`, and with
/// the next number in place of `^`.
pub fn written_out(alloc: Global, brief: &str) -> Result<String> {
    let mut text = String::new(alloc);
    let mut pieces = brief.split('{');
    text.push_str(pieces.next().unwrap_or(""))?;
    for piece in pieces {
        let Some((repeated, behind)) = piece.split_once('}') else {
            bail!("a repeated part has no end");
        };
        put_repeated(alloc, &mut text, repeated)?;
        text.push_str(behind)?;
    }
    Ok(text)
}
