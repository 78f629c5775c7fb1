//! The heights that classes reach.
ghost use Rattle.std.specs.Prelude.{◌≡◌, ◌≢◌, ◌<◌, ℕ, [], List, Some, length, map, option_map, replicate, slice_set, IfOk, OnOk, IsTrue};
ghost use Rattle.std.specs.Bool.{MatchBool};
ghost use Rattle.th_type.specs.Types.{tys_of};
ghost use Rattle.th_inherits.specs.Heights.{stepped};
ghost use Rattle.th_inherits.specs.Rows.{inherited_of, rows_of};
ghost use Rattle.th_module_rules.specs.Inheriting.{ClassRow, ReachesHigh};
ghost use Rattle.th_inherits.specs.Tables.{ArePlaces, list_at, lists_of, heights_of, whole_in, TookFrom, Took, Passed, Kept, Settled, is_high};

use crate::heights::step;
use crate::places::place_at;
use crate::row::{Inherited, Row};
use indexmap::IndexMap;
use std::alloc::{AllocError, Global};
use th_type::{Meaning, TyList};

/// The greatest height that is allowed.
const HEIGHT_LIMIT: u32 = 600;

/// The list at a place; empty where there is none.
fn list_at(table: &[Vec<u32>], place: Option<usize>) -> &[u32]
    ensures { result.now ≡ list_at (lists_of table.now) place }
{
    match place {
        None => &[],
        Some(k) => match table.get(k) {
            None => &[],
            Some(list) => list,
        },
    }
}

/// A second list.
fn copy(alloc: Global, list: &[u32]) -> Result<Vec<u32>, AllocError>
    ensures { IfOk result (λ r. r.items ≡ list.now) }
{
    list.iter().copied().collect(alloc)
}

/// The list at a place after the class there took over what it inherits.
fn taken(
    alloc: Global,
    table: &[Vec<u32>],
    place: usize,
    inherited: Option<usize>,
    args: &TyList,
) -> Result<Vec<u32>, AllocError>
    ensures { IfOk result (λ r. r.items ≡ stepped (list_at (lists_of table.now) inherited) (tys_of args.now) (list_at (lists_of table.now) (Some place))) }
{
    let mut heights = copy(alloc, list_at(table, Some(place)))?;
    step(&mut heights, list_at(table, inherited), args)?;
    Ok(heights)
}

/// Whether the lists are equal.
fn is_same(a: &[u32], b: &[u32]) -> bool
    ensures { IsTrue result → a.now ≡ b.now }
{
    a == b
}

/// Puts a list at a place; false where it is there already.
fn put_list(table: &mut Vec<Vec<u32>>, place: usize, list: Vec<u32>) -> bool
    requires { place < length table.old.items }
    ensures { MatchBool result (lists_of table.new.items ≡ slice_set (lists_of table.old.items) place list.items) ((lists_of table.new.items ≡ lists_of table.old.items) × (list.items ≡ list_at (lists_of table.old.items) (Some place))) }
{
    if is_same(&list, list_at(table, Some(place))) {
        return false;
    }
    table[place] = list;
    true
}

/// The class that is inherited, by its number, and its arguments, where these resolve.
fn whole_in(inherits: &Option<Inherited>) -> Option<(u32, &TyList)>
    ensures { option_map (λ i. (i.0, tys_of i.1.now)) result ≡ whole_in (option_map inherited_of inherits.now) }
{
    match inherits {
        None => None,
        Some(inherited) => match &inherited.meaning {
            Meaning::Unresolved => None,
            Meaning::Param => None,
            Meaning::Head(_) => None,
            Meaning::Whole(full, args) => Some((*full, args)),
        },
    }
}

/// Whether the place is there and is the other.
fn is_place(place: Option<usize>, other: usize) -> bool
    ensures { MatchBool result (place ≡ Some other) (place ≢ Some other) }
{
    match place {
        None => false,
        Some(place) => place == other,
    }
}

/// Takes over what a class inherits at the arguments, where it is the first of its full name; false where nothing grows.
fn take_from(
    alloc: Global,
    places: &IndexMap<u32, usize>,
    table: &mut Vec<Vec<u32>>,
    place: usize,
    full: u32,
    inherited: u32,
    args: &TyList,
) -> Result<bool, AllocError>
    requires { place < length table.old.items }
    ensures { (rows : List ClassRow) → ArePlaces rows places.now.entries → IfOk result (λ grew. TookFrom rows place full inherited (tys_of args.now) (lists_of table.old.items) (lists_of table.new.items) grew) }
{
    if !is_place(place_at(places, full), place) {
        return Ok(false);
    }
    let list = taken(alloc, table, place, place_at(places, inherited), args)?;
    Ok(put_list(table, place, list))
}

/// Takes over what the class at the place inherits; false where nothing grows.
fn take_over(
    alloc: Global,
    places: &IndexMap<u32, usize>,
    rows: &[Row],
    table: &mut Vec<Vec<u32>>,
    place: usize,
) -> Result<bool, AllocError>
    requires places { ArePlaces (rows_of rows.now) places.now.entries }
    requires within { place < length rows.now }
    requires long { length table.old.items ≡ length rows.now }
    ensures { IfOk result (λ grew. Took (rows_of rows.now) place (lists_of table.old.items) (lists_of table.new.items) grew) }
{
    let row = &rows[place];
    match whole_in(&row.inherits) {
        None => Ok(false),
        Some((inherited, args)) => {
            take_from(alloc, places, table, place, row.full, inherited, args)
        }
    }
}

/// Takes over once what each class inherits; false where nothing grows.
fn pass(
    alloc: Global,
    places: &IndexMap<u32, usize>,
    rows: &[Row],
    table: &mut Vec<Vec<u32>>,
) -> Result<bool, AllocError>
    requires places { ArePlaces (rows_of rows.now) places.now.entries }
    requires long { length table.old.items ≡ length rows.now }
    ensures { IfOk result (λ grew. Passed (rows_of rows.now) (length rows.now) (lists_of table.old.items) (lists_of table.new.items) grew) }
{
    let mut grew = false;
    for place in 0..rows.len() {
        if take_over(alloc, places, rows, table, place)? {
            grew = true;
        }
    }
    Ok(grew)
}

/// Takes over what the class of the number inherits; false where nothing grows.
fn take_in(
    alloc: Global,
    places: &IndexMap<u32, usize>,
    rows: &[Row],
    table: &mut Vec<Vec<u32>>,
    full: u32,
) -> Result<bool, AllocError>
    requires places { ArePlaces (rows_of rows.now) places.now.entries }
    requires long { length table.old.items ≡ length rows.now }
    ensures { OnOk result (Kept (rows_of rows.now) (lists_of table.old.items) (lists_of table.new.items)) }
{
    match place_at(places, full) {
        None => Ok(false),
        Some(place) => {
            if place < rows.len() {
                return take_over(alloc, places, rows, table, place);
            }
            Ok(false)
        }
    }
}

/// Takes over once what each of the classes inherits, in this order; false where nothing grows.
fn pass_in(
    alloc: Global,
    places: &IndexMap<u32, usize>,
    rows: &[Row],
    table: &mut Vec<Vec<u32>>,
    order: &[u32],
) -> Result<bool, AllocError>
    requires places { ArePlaces (rows_of rows.now) places.now.entries }
    requires long { length table.old.items ≡ length rows.now }
    ensures { OnOk result (Kept (rows_of rows.now) (lists_of table.old.items) (lists_of table.new.items)) }
{
    let mut grew = false;
    for full in order {
        if take_in(alloc, places, rows, table, *full)? {
            grew = true;
        }
    }
    Ok(grew)
}

/// Takes over what classes inherit that reach themselves, until nothing grows.
fn spin(
    alloc: Global,
    places: &IndexMap<u32, usize>,
    rows: &[Row],
    table: &mut Vec<Vec<u32>>,
    loops: &[u32],
) -> Result<(), AllocError>
    requires places { ArePlaces (rows_of rows.now) places.now.entries }
    requires long { length table.old.items ≡ length rows.now }
    ensures { OnOk result (Kept (rows_of rows.now) (lists_of table.old.items) (lists_of table.new.items)) }
{
    for _turn in 0..u64::MAX {
        if !pass_in(alloc, places, rows, table, loops)? {
            return Ok(());
        }
    }
    Ok(())
}

/// As many empty lists.
fn empty_lists(alloc: Global, count: usize) -> Result<Vec<Vec<u32>>, AllocError>
    ensures { IfOk result (λ table. lists_of table.items ≡ replicate count []) }
{
    let mut table = Vec::new(alloc);
    for _k in 0..count {
        table.push(Vec::new(alloc))?;
    }
    Ok(table)
}

/// The heights that each class reaches: what classes inherit is taken over until nothing grows. More than 2^64 - 1 turns are want
/// of memory. One turn does where `loops` are the classes that reach themselves, and the order has each class after the one that it
/// inherits.
pub(crate) fn settle(
    alloc: Global,
    places: &IndexMap<u32, usize>,
    rows: &[Row],
    order: &[u32],
    loops: &[u32],
) -> Result<Vec<Vec<u32>>, AllocError>
    requires { ArePlaces (rows_of rows.now) places.now.entries }
    ensures { IfOk result (λ table. Settled (rows_of rows.now) (lists_of table.items)) }
{
    let mut table = empty_lists(alloc, rows.len())?;
    for _turn in 0..u64::MAX {
        spin(alloc, places, rows, &mut table, loops)?;
        pass_in(alloc, places, rows, &mut table, order)?;
        if !pass(alloc, places, rows, &mut table)? {
            return Ok(table);
        }
    }
    Err(AllocError)
}

/// Whether a height is above 600.
fn is_high(heights: &[u32]) -> bool
    ensures { result ≡ is_high heights.now }
{
    for height in heights {
        if *height > HEIGHT_LIMIT {
            return true;
        }
    }
    false
}

/// Whether the class of that full name reaches a height above 600.
pub(crate) fn reaches_high(places: &IndexMap<u32, usize>, table: &[Vec<u32>], full: u32) -> bool
    ensures { (rows : List ClassRow) → ArePlaces rows places.now.entries → Settled rows (lists_of table.now) → MatchBool result (ReachesHigh rows full) (¬ ReachesHigh rows full) }
{
    is_high(list_at(table, place_at(places, full)))
}
