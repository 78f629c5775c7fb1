//! The views of types: which types are seen at which of a type's header words.
ghost use Rattle.std.specs.Prelude.{◌≡◌, ◌<◌, ◌+◌, ◌^◌, ℕ, length, IfOk, OnOk, get_or, ◌++◌};
ghost use Rattle.th_offsets.specs.Known.{Done, Few, Spotted};
ghost use Rattle.th_views.specs.Listed.{spots, lowered};
ghost use Rattle.th_views.specs.Rows.{tree_of, Ordered};
ghost use Rattle.th_views.specs.Tree.{at, merged_at};

use crate::heads::{Facts, Walk, merges, step};
use std::alloc::{AllocError, Global};
use th_views::{Spot, Turn, TypeRow};

/// The views of a type, in the order in which its declared supertypes reach them.
#[derive(Drop)]
pub struct Spots {
    pub list: Vec<Spot>,
}

/// Adds views, so many words lower.
pub fn lower_onto(into: &mut Vec<Spot>, from: &[Spot], low: u32) -> Result<(), AllocError>
    requires { (k : ℕ) → low + (get_or from.now k (record { name = 0; word = 0 })).word < 2 ^ 32 }
    ensures { OnOk result (into.new.items ≡ into.old.items ++ lowered low from.now) }
{
    for spot in from {
        into.push(Spot {
            name: spot.name,
            word: low + spot.word,
        })?;
    }
    Ok(())
}

fn low_of(walk: Walk, upward: bool) -> u32
    ensures { result ≡ at (merged_at walk.turn upward) walk.span }
{
    if merges(walk.turn, upward) {
        0
    } else {
        walk.span
    }
}

fn spots_of(
    alloc: Global,
    rows: &[TypeRow],
    number: u32,
    facts: &[Facts],
    done: &[Spots],
) -> Result<Vec<Spot>, AllocError>
    requires within { number < length rows.now }
    requires before { length done.now ≡ number }
    requires ordered { Ordered rows.now }
    requires known { Done rows.now facts.now }
    requires all { length facts.now ≡ length rows.now }
    requires done { Spotted rows.now done.now }
    requires few { Few rows.now }
    ensures { IfOk result (λ list. list.items ≡ spots (tree_of rows.now number)) }
{
    let mut list = Vec::new(alloc);
    list.push(Spot {
        name: number,
        word: 0,
    })?;
    let supers = rows[number as usize].supers.as_slice();
    let mut walk = Walk {
        turn: Turn::First,
        span: 0,
        topped: false,
    };
    for s in supers {
        let known = &facts[*s as usize];
        lower_onto(
            &mut list,
            &done[*s as usize].list,
            low_of(walk, known.upward),
        )?;
        walk = step(walk, known);
    }
    Ok(list)
}

/// The views of all types, in the types' order.
pub fn all_spots(alloc: Global, rows: &[TypeRow], facts: &[Facts]) -> Result<Vec<Spots>, AllocError>
    requires ordered { Ordered rows.now }
    requires small { length rows.now < 2 ^ 32 }
    requires known { Done rows.now facts.now }
    requires all { length facts.now ≡ length rows.now }
    requires few { Few rows.now }
    ensures { IfOk result (λ all. (length all.items ≡ length rows.now) × Spotted rows.now all.items) }
{
    let mut all = Vec::new(alloc);
    for number in 0..rows.len() {
        let list = spots_of(alloc, rows, number as u32, facts, &all)?;
        all.push(Spots { list })?;
    }
    Ok(all)
}
