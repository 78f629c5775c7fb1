//! Bytes and units as texts.

use std::alloc::{AllocError, Global};
use th_meaning::{CoreModule, CoreUnit};
use th_tree::Name;

/// Puts the letters of a name.
pub fn put_name(text: &mut String, name: &Name) -> Result<(), AllocError> {
    for byte in name.as_bytes() {
        text.push(char::from(*byte))?;
    }
    Ok(())
}

/// Puts a byte: a letter as it is, a line feed as `\n`, and any other as `\` and its number.
fn put_byte(alloc: Global, text: &mut String, byte: u8) -> Result<(), AllocError> {
    match byte {
        b'\n' => text.push_str("\\n"),
        b'"' => text.push_str("\\\""),
        b'\\' => text.push_str("\\\\"),
        32..=126 => text.push(char::from(byte)),
        _ => {
            text.push('\\')?;
            text.push_str(&u32::from(byte).to_string(alloc)?)
        }
    }
}

/// Puts bytes in quotes, with a blank before.
pub fn put_bytes(alloc: Global, text: &mut String, bytes: &[u8]) -> Result<(), AllocError> {
    text.push_str(" \"")?;
    for byte in bytes {
        put_byte(alloc, text, *byte)?;
    }
    text.push('"')
}

/// The unit of a number, in the order of the modules.
fn unit_of(modules: &[CoreModule], number: u32) -> Option<&CoreUnit> {
    let mut place = number as usize;
    for module in modules {
        match module.units.get(place) {
            Some(unit) => return Some(unit),
            None => place = place.saturating_sub(module.units.len()),
        }
    }
    None
}

/// Puts the name of a unit that was entered so often in a row.
fn put_entries(
    alloc: Global,
    text: &mut String,
    modules: &[CoreModule],
    number: u32,
    count: u32,
) -> Result<(), AllocError> {
    let Some(unit) = unit_of(modules, number) else {
        return Ok(());
    };
    text.push(' ')?;
    put_name(text, &unit.name)?;
    if count > 1 {
        text.push_str("*")?;
        text.push_str(&count.to_string(alloc)?)?;
    }
    Ok(())
}

/// Puts the names of the units that were entered, and how often where one was entered again and again.
pub fn put_entered(
    alloc: Global,
    text: &mut String,
    modules: &[CoreModule],
    numbers: &[u32],
) -> Result<(), AllocError> {
    let mut last = 0;
    let mut count: u32 = 0;
    for number in numbers {
        if count > 0 && *number == last {
            count = count.saturating_add(1);
            continue;
        }
        if count > 0 {
            put_entries(alloc, text, modules, last, count)?;
        }
        last = *number;
        count = 1;
    }
    if count > 0 {
        put_entries(alloc, text, modules, last, count)?;
    }
    Ok(())
}
