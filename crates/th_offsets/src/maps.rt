//! Look-ups: from numbers to places, from types to words, from methods to offsets. The first entry counts.
ghost use Rattle.std.specs.HashMap.{get};
ghost use Rattle.std.specs.Prelude.{◌≡◌, ◌≤◌, ◌+◌, ◌^◌, ◌<◌, ℕ, length, IfOk, OnOk, nat_eq};
ghost use Rattle.th_offsets.specs.Known.{Cast};
ghost use Rattle.th_offsets.specs.Maps.{or_else, offset_from, placed};
ghost use Rattle.th_views.specs.Listed.{first_of};
ghost use Rattle.th_views.specs.Lookups.{index_of, offset};

use crate::views::Spots;
use std::alloc::{AllocError, Global};
use std::collections::HashMap;
use th_views::Spot;

/// The first place of each number.
pub fn places(alloc: Global, numbers: &[u32]) -> Result<HashMap<u32, u32>, AllocError>
    requires { length numbers.now < 2 ^ 32 }
    ensures { IfOk result (λ m. (q : ℕ) → get nat_eq m q ≡ index_of q numbers.now) }
{
    let mut map = HashMap::new(alloc);
    for k in 0..numbers.len() {
        if !map.contains_key(&numbers[k]) {
            map.insert(numbers[k], k as u32)?;
        }
    }
    Ok(map)
}

/// The word of the first view of each type.
pub fn words_by_type(alloc: Global, spots: &[Spot]) -> Result<HashMap<u32, u32>, AllocError>
    ensures { IfOk result (λ m. (q : ℕ) → get nat_eq m q ≡ first_of q spots.now) }
{
    let mut map = HashMap::new(alloc);
    for spot in spots {
        if !map.contains_key(&spot.name) {
            map.insert(spot.name, spot.word)?;
        }
    }
    Ok(map)
}

/// The offset in bytes of a slot from the middle word of its table: the k-th upward or downward, from 0.
pub fn offset_of(upward: bool, k: u32) -> i32
    requires { k < 1000 }
    ensures { result ≡ offset (placed upward k) }
{
    let bytes = 4 * (k as i32 + 1);
    if upward { bytes } else { -bytes }
}

/// Adds methods whose slots follow one another, where the map has none of a method yet.
pub fn add_run(
    into: &mut HashMap<u32, i32>,
    methods: &[u32],
    upward: bool,
    from: u32,
) -> Result<(), AllocError>
    requires { from + length methods.now ≤ 1000 }
    ensures { OnOk result ((q : ℕ) → get nat_eq into.new q ≡ or_else (get nat_eq into.old q) (offset_from upward from methods.now q)) }
{
    let mut k = from;
    for method in methods {
        if !into.contains_key(method) {
            into.insert(*method, offset_of(upward, k))?;
        }
        k += 1;
    }
    Ok(())
}

/// For each type seen, the word of its first view.
#[derive(Drop)]
pub struct Casts {
    pub words: HashMap<u32, u32>,
}

/// For each method, the offset of its slot in bytes.
#[derive(Drop)]
pub struct Offsets {
    pub bytes: HashMap<u32, i32>,
}

/// The words of the first views, for all types.
pub fn all_casts(alloc: Global, spots: &[Spots]) -> Result<Vec<Casts>, AllocError>
    ensures { IfOk result (λ all. (length all.items ≡ length spots.now) × Cast spots.now all.items) }
{
    let mut all = Vec::new(alloc);
    for number in 0..spots.len() {
        let words = words_by_type(alloc, &spots[number].list)?;
        all.push(Casts { words })?;
    }
    Ok(all)
}
