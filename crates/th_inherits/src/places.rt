//! Classes by the numbers of their full names.
ghost use Rattle.std.specs.Prelude.{◌≡◌, ◌∷◌, ◌++◌, [], List, length, map, nat_eq, option_map, IfOk, OnOk};
ghost use Rattle.std.specs.Map.{lookup};
ghost use Rattle.th_module_rules.specs.Inheriting.{ClassRow, row_at, inherits_number, next_class, reaches_itself};
ghost use Rattle.th_inherits.specs.Rows.{inherited_of, row_of, rows_of};
ghost use Rattle.th_inherits.specs.Tables.{ArePlaces, row_in};

use crate::row::{Inherited, Row};
use indexmap::IndexMap;
use std::alloc::{AllocError, Global};
use th_type::Meaning;

/// The place that is known of a class.
pub(crate) fn place_at(places: &IndexMap<u32, usize>, full: u32) -> Option<usize>
    ensures { result ≡ lookup (nat_eq full) places.now.entries }
{
    places.get(&full).copied()
}

/// Notes the place of a class that comes last, unless a class of its full name came before.
fn note(places: &mut IndexMap<u32, usize>, full: u32, place: usize) -> Result<(), AllocError>
    ensures { OnOk result ((rows : List ClassRow) (r : ClassRow) → ArePlaces rows places.old.entries → length rows ≡ place → r.full ≡ full → ArePlaces (rows ++ r ∷ []) places.new.entries) }
{
    match place_at(places, full) {
        Some(_) => Ok(()),
        None => match places.insert(full, place) {
            Ok(_) => Ok(()),
            Err(_) => Err(AllocError),
        },
    }
}

/// For each full name the place of the first class that has it.
pub(crate) fn places_of(alloc: Global, rows: &[Row]) -> Result<IndexMap<u32, usize>, AllocError>
    ensures { IfOk result (λ places. ArePlaces (rows_of rows.now) places.entries) }
{
    let mut places = IndexMap::new(alloc);
    for k in 0..rows.len() {
        note(&mut places, rows[k].full, k)?;
    }
    Ok(places)
}

/// The number of the class that is meant.
fn inherits_number(inherits: &Option<Inherited>) -> Option<u32>
    ensures { result ≡ inherits_number (option_map inherited_of inherits.now) }
{
    match inherits {
        None => None,
        Some(inherited) => match &inherited.meaning {
            Meaning::Unresolved => None,
            Meaning::Param => None,
            Meaning::Head(full) => Some(*full),
            Meaning::Whole(full, _) => Some(*full),
        },
    }
}

/// The class at a place.
fn row_in(rows: &[Row], place: Option<usize>) -> Option<&Row>
    ensures { option_map (λ r. row_of r.now) result ≡ row_in (rows_of rows.now) place }
{
    match place {
        None => None,
        Some(place) => rows.get(place),
    }
}

/// The first class of that full name.
fn row_at<'a>(places: &IndexMap<u32, usize>, rows: &'a [Row], full: u32) -> Option<&'a Row>
    requires { ArePlaces (rows_of rows.now) places.now.entries }
    ensures { option_map (λ r. row_of r.now) result ≡ row_at (rows_of rows.now) full }
{
    row_in(rows, place_at(places, full))
}

/// The number of the class that the class of that full name inherits.
pub(crate) fn next_class(places: &IndexMap<u32, usize>, rows: &[Row], full: u32) -> Option<u32>
    requires { ArePlaces (rows_of rows.now) places.now.entries }
    ensures { result ≡ next_class (row_at (rows_of rows.now) full) }
{
    match row_at(places, rows, full) {
        None => None,
        Some(row) => inherits_number(&row.inherits),
    }
}

/// Whether the chain from the class of that full name up comes back to it.
pub(crate) fn comes_back(places: &IndexMap<u32, usize>, rows: &[Row], full: u32) -> bool
    requires { ArePlaces (rows_of rows.now) places.now.entries }
    ensures { result ≡ reaches_itself (rows_of rows.now) full }
{
    let mut at = full;
    for step in 0..rows.len() {
        match next_class(places, rows, at) {
            None => return false,
            Some(next) => {
                if next == full {
                    return true;
                }
                at = next;
            }
        }
    }
    false
}
