//! Which classes reach themselves.
ghost use Rattle.std.specs.Prelude.{◌≡◌, true, IfOk, OnOk};
ghost use Rattle.th_module_rules.specs.Inheriting.{reaches_itself};
ghost use Rattle.th_inherits.specs.Rows.{rows_of};
ghost use Rattle.th_inherits.specs.Tables.{ArePlaces};
ghost use Rattle.th_inherits.specs.Loops.{AreFree, AreLooped, is_free_by};

use crate::places::{comes_back, next_class};
use crate::row::Row;
use indexmap::IndexMap;
use std::alloc::{AllocError, Global};
use th_hier::Numbers;

/// Whether a class whose next one is this one does not reach itself, unless it is one of `looped`.
fn is_free_by(free: &Numbers, looped: &Numbers, next: Option<u32>) -> bool
    ensures { result ≡ is_free_by free.now looped.now next }
{
    match next {
        None => true,
        Some(next) => free.has(next) || looped.has(next),
    }
}

/// Notes the class, which reaches itself, and all that it reaches.
fn note_loop(
    places: &IndexMap<u32, usize>,
    rows: &[Row],
    looped: &mut Numbers,
    full: u32,
) -> Result<(), AllocError>
    requires places { ArePlaces (rows_of rows.now) places.now.entries }
    requires looped { AreLooped (rows_of rows.now) looped.old }
    requires itself { reaches_itself (rows_of rows.now) full ≡ true }
    ensures { OnOk result (AreLooped (rows_of rows.now) looped.new) }
{
    let mut at = full;
    for step in 0..rows.len() {
        looped.add(at)?;
        match next_class(places, rows, at) {
            None => unreachable!(),
            Some(next) => {
                if next == full {
                    return Ok(());
                }
                at = next;
            }
        }
    }
    unreachable!()
}

/// Notes whether a class reaches itself.
fn note(
    places: &IndexMap<u32, usize>,
    rows: &[Row],
    free: &mut Numbers,
    looped: &mut Numbers,
    full: u32,
) -> Result<(), AllocError>
    requires places { ArePlaces (rows_of rows.now) places.now.entries }
    requires free { AreFree (rows_of rows.now) free.old }
    requires looped { AreLooped (rows_of rows.now) looped.old }
    ensures free { OnOk result (AreFree (rows_of rows.now) free.new) }
    ensures looped { OnOk result (AreLooped (rows_of rows.now) looped.new) }
{
    if looped.has(full) {
        return Ok(());
    }
    if is_free_by(free, looped, next_class(places, rows, full)) {
        free.add(full)?;
        return Ok(());
    }
    if comes_back(places, rows, full) {
        return note_loop(places, rows, looped, full);
    }
    free.add(full)?;
    Ok(())
}

/// Classes that do not reach themselves, and classes that do.
pub(crate) fn known_of(
    alloc: Global,
    places: &IndexMap<u32, usize>,
    rows: &[Row],
    order: &[u32],
) -> Result<(Numbers, Numbers), AllocError>
    requires { ArePlaces (rows_of rows.now) places.now.entries }
    ensures free { IfOk result (λ r. AreFree (rows_of rows.now) r.0) }
    ensures looped { IfOk result (λ r. AreLooped (rows_of rows.now) r.1) }
{
    let mut free = Numbers::new(alloc);
    let mut looped = Numbers::new(alloc);
    for full in order {
        note(places, rows, &mut free, &mut looped, *full)?;
    }
    Ok((free, looped))
}

/// The numbers of the list that are among the others, in order.
pub(crate) fn among(
    alloc: Global,
    list: &[u32],
    numbers: &Numbers,
) -> Result<Vec<u32>, AllocError> {
    let mut found = Vec::new(alloc);
    for number in list {
        if numbers.has(*number) {
            found.push(*number)?;
        }
    }
    Ok(found)
}

/// Whether the class of that full name reaches itself, where some classes are known that do not and some that do.
pub(crate) fn reaches_itself(
    places: &IndexMap<u32, usize>,
    rows: &[Row],
    free: &Numbers,
    looped: &Numbers,
    full: u32,
) -> bool
    requires places { ArePlaces (rows_of rows.now) places.now.entries }
    requires free { AreFree (rows_of rows.now) free.now }
    requires looped { AreLooped (rows_of rows.now) looped.now }
    ensures { result ≡ reaches_itself (rows_of rows.now) full }
{
    if looped.has(full) {
        return true;
    }
    if free.has(full) {
        return false;
    }
    comes_back(places, rows, full)
}
