//! Ranks of classes: 1 where a class inherits none, else 1 more than that of the inherited class. On a cycle they are anything.
ghost use Rattle.std.specs.Prelude.{◌≡◌, get_or};

use std::alloc::{AllocError, Global};

/// The rank that is known of a place, 0 where none is.
pub(crate) fn rank_at(ranks: &[u32], place: u32) -> u32
    ensures { result ≡ get_or ranks.now place 0 }
{
    match ranks.get(place as usize) {
        Some(rank) => *rank,
        None => 0,
    }
}

/// What a place leads to.
fn next_of(ups: &[Option<u32>], place: u32) -> Option<u32> {
    match ups.get(place as usize) {
        Some(next) => *next,
        None => None,
    }
}

/// Lists the places from one up whose ranks aren't known, and answers the rank of what the last leads to. More of them than
/// there are places stand on a cycle.
fn climb(
    ups: &[Option<u32>],
    ranks: &[u32],
    from: u32,
    path: &mut Vec<u32>,
) -> Result<u32, AllocError> {
    let mut next = Some(from);
    for _turn in 0..=ups.len() {
        let Some(place) = next else {
            return Ok(0);
        };
        let rank = rank_at(ranks, place);
        if rank > 0 {
            return Ok(rank);
        }
        path.push(place)?;
        next = next_of(ups, place);
    }
    Ok(0)
}

/// Sets the rank of a place.
fn set_rank(ranks: &mut [u32], place: u32, rank: u32) {
    if let Some(old) = ranks.get_mut(place as usize) {
        *old = rank;
    }
}

/// Gives the places of a path, from its end on, the ranks after this one.
fn mark(ranks: &mut [u32], path: &[u32], below: u32) {
    let mut rank = below;
    for place in path.iter().rev() {
        rank = rank.saturating_add(1);
        set_rank(ranks, *place, rank);
    }
}

/// Ranks none of which is known.
fn unknown(alloc: Global, count: usize) -> Result<Vec<u32>, AllocError> {
    let mut ranks = Vec::new(alloc);
    for _place in 0..count {
        ranks.push(0)?;
    }
    Ok(ranks)
}

/// A place as one of 32 bits; a greater one is want of memory.
fn place_of(place: usize) -> Result<u32, AllocError> {
    match u32::try_from(place) {
        Ok(place) => Ok(place),
        Err(_) => Err(AllocError),
    }
}

/// The ranks of places each of which leads to none or to another one.
pub(crate) fn ranks_of(alloc: Global, ups: &[Option<u32>]) -> Result<Vec<u32>, AllocError> {
    let mut ranks = unknown(alloc, ups.len())?;
    for k in 0..ups.len() {
        let mut path = Vec::new(alloc);
        let below = climb(ups, &ranks, place_of(k)?, &mut path)?;
        mark(&mut ranks, &path, below);
    }
    Ok(ranks)
}
