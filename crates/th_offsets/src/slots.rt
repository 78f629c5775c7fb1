//! The slots of types' methods, and the numbers of slots downward.
ghost use Rattle.std.specs.HashMap.{get};
ghost use Rattle.std.specs.Prelude.{◌≡◌, ◌≤◌, ◌+◌, ◌<◌, ℕ, length, IfOk, OnOk, nat_eq, option_map};
ghost use Rattle.th_offsets.specs.Known.{Done, Homed, Placed, Shallow, Spotted, Within};
ghost use Rattle.th_offsets.specs.Maps.{or_else, offset_in};
ghost use Rattle.th_views.specs.Listed.{spots};
ghost use Rattle.th_views.specs.Lookups.{offset, own_place};
ghost use Rattle.th_views.specs.Objects.{raised};
ghost use Rattle.th_views.specs.Rows.{tree_of, Ordered};
ghost use Rattle.th_views.specs.Tree.{depth};

use crate::counts::first_known;
use crate::heads::Facts;
use crate::maps::{Offsets, add_run};
use crate::views::Spots;
use std::alloc::{AllocError, Global};
use std::collections::HashMap;
use th_views::{Spot, TypeRow};

fn depth_of(rows: &[TypeRow], number: usize, facts: &[Facts], done: &[u32]) -> u32
    requires within { number < length rows.now }
    requires before { length done.now ≡ number }
    requires ordered { Ordered rows.now }
    requires shallow { Shallow rows.now }
    requires known { (length facts.now ≡ length rows.now) × Done rows.now facts.now }
    requires done { Placed rows.now done.now }
    ensures { result ≡ depth (tree_of rows.now number) }
{
    let row = &rows[number];
    if facts[number].upward {
        return 0;
    }
    first_known(row.supers.as_slice(), done) + row.own.len() as u32
}

/// The slots downward of each type, at its own view.
pub fn all_depths(alloc: Global, rows: &[TypeRow], facts: &[Facts]) -> Result<Vec<u32>, AllocError>
    requires ordered { Ordered rows.now }
    requires shallow { Shallow rows.now }
    requires known { (length facts.now ≡ length rows.now) × Done rows.now facts.now }
    ensures { IfOk result (λ depths. (length depths.items ≡ length rows.now) × Placed rows.now depths.items) }
{
    let mut all = Vec::new(alloc);
    for number in 0..rows.len() {
        let depth = depth_of(rows, number, facts, &all);
        all.push(depth)?;
    }
    Ok(all)
}

/// Adds the own methods of a type, where the map has none of a method yet.
fn add_own(
    map: &mut HashMap<u32, i32>,
    rows: &[TypeRow],
    number: usize,
    facts: &[Facts],
    depths: &[u32],
) -> Result<(), AllocError>
    requires within { number < length rows.now }
    requires ordered { Ordered rows.now }
    requires shallow { Shallow rows.now }
    requires known { (length facts.now ≡ length rows.now) × Done rows.now facts.now }
    requires depths { (length depths.now ≡ length rows.now) × Placed rows.now depths.now }
    ensures { OnOk result ((q : ℕ) → get nat_eq map.new q ≡ or_else (get nat_eq map.old q) (option_map offset (own_place q (tree_of rows.now number)))) }
{
    let row = &rows[number];
    let base = first_known(row.supers.as_slice(), depths);
    add_run(map, row.own.as_slice(), facts[number].upward, base)?;
    Ok(())
}

/// The offset of each method of a type, in the table of its home: the first type seen that owns it.
pub fn offsets_of(
    alloc: Global,
    rows: &[TypeRow],
    seen: &[Spot],
    facts: &[Facts],
    depths: &[u32],
) -> Result<HashMap<u32, i32>, AllocError>
    requires within { Within (length rows.now) seen.now }
    requires ordered { Ordered rows.now }
    requires shallow { Shallow rows.now }
    requires known { (length facts.now ≡ length rows.now) × Done rows.now facts.now }
    requires depths { (length depths.now ≡ length rows.now) × Placed rows.now depths.now }
    ensures { IfOk result (λ m. (q : ℕ) → get nat_eq m q ≡ offset_in rows.now seen.now q) }
{
    let mut map = HashMap::new(alloc);
    for spot in seen {
        add_own(&mut map, rows, spot.name as usize, facts, depths)?;
    }
    Ok(map)
}

/// The offsets of the methods of all types.
pub fn all_offsets(
    alloc: Global,
    rows: &[TypeRow],
    spots: &[Spots],
    facts: &[Facts],
    depths: &[u32],
) -> Result<Vec<Offsets>, AllocError>
    requires ordered { Ordered rows.now }
    requires shallow { Shallow rows.now }
    requires known { (length facts.now ≡ length rows.now) × Done rows.now facts.now }
    requires depths { (length depths.now ≡ length rows.now) × Placed rows.now depths.now }
    requires spots { (length spots.now ≡ length rows.now) × Spotted rows.now spots.now }
    ensures { IfOk result (λ all. (length all.items ≡ length rows.now) × Homed rows.now all.items) }
{
    let mut all = Vec::new(alloc);
    for number in 0..rows.len() {
        let bytes = offsets_of(alloc, rows, &spots[number].list, facts, depths)?;
        all.push(Offsets { bytes })?;
    }
    Ok(all)
}

/// The greatest number of own methods of an upward type.
pub fn raised_of(rows: &[TypeRow]) -> u32
    requires { Shallow rows.now }
    ensures { result ≡ raised rows.now }
{
    let mut most = 0;
    for row in rows {
        if row.marked && row.supers.as_slice().is_empty() {
            most = most.max(row.own.len() as u32);
        }
    }
    most
}
