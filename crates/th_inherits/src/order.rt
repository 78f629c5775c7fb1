//! The order in which classes are visited: a class after the class that it inherits.
ghost use Rattle.th_inherits.specs.Rows.{rows_of};
ghost use Rattle.th_inherits.specs.Tables.{ArePlaces};

use crate::places::next_class;
use crate::row::Row;
use indexmap::IndexMap;
use std::alloc::{AllocError, Global};
use th_hier::Numbers;

/// Puts the class and those above it that were not seen on the stack.
fn climb(
    places: &IndexMap<u32, usize>,
    rows: &[Row],
    seen: &mut Numbers,
    stack: &mut Vec<u32>,
    full: u32,
) -> Result<(), AllocError>
    requires { ArePlaces (rows_of rows.now) places.now.entries }
{
    let mut at = full;
    for _step in 0..rows.len() {
        if !seen.add(at)? {
            return Ok(());
        }
        stack.push(at)?;
        match next_class(places, rows, at) {
            None => return Ok(()),
            Some(next) => at = next,
        }
    }
    Ok(())
}

/// Moves what is on the stack to the end of the list, from the top on.
fn unload(stack: &mut Vec<u32>, list: &mut Vec<u32>) -> Result<(), AllocError> {
    while let Some(full) = stack.pop() {
        list.push(full)?;
    }
    Ok(())
}

/// The numbers of the classes, each after that of the class that it inherits, but where classes reach themselves. Only the time
/// that the judging takes depends on it.
pub(crate) fn order_of(
    alloc: Global,
    places: &IndexMap<u32, usize>,
    rows: &[Row],
) -> Result<Vec<u32>, AllocError>
    requires { ArePlaces (rows_of rows.now) places.now.entries }
{
    let mut seen = Numbers::new(alloc);
    let mut stack = Vec::new(alloc);
    let mut order = Vec::new(alloc);
    for row in rows {
        climb(places, rows, &mut seen, &mut stack, row.full)?;
        unload(&mut stack, &mut order)?;
    }
    Ok(order)
}
