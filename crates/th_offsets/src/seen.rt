//! What the objects of classes see: types by header word, and hidden methods.
ghost use Rattle.std.specs.HashMap.{get};
ghost use Rattle.std.specs.Option.{ForSome};
ghost use Rattle.std.specs.Prelude.{◌≡◌, ◌≤◌, ◌+◌, ◌++◌, ◌<◌, ℕ, length, IfOk, OnOk, nat_eq, true};
ghost use Rattle.th_offsets.specs.Known.{Few, FewWords, Formed, HiddenAts, HiddenNames, Shallow, Spotted, Typed, Viewed};
ghost use Rattle.th_offsets.specs.Maps.{offset_from};
ghost use Rattle.th_views.specs.Objects.{object_spots};
ghost use Rattle.th_views.specs.Objects.{raised as raised_types};
ghost use Rattle.th_views.specs.Sums.{class_slots};
ghost use Rattle.th_views.specs.Rows.{chain_of, inherited, Inherited};

use crate::maps::{Offsets, add_run};
use crate::objects::Object;
use crate::views::{Spots, lower_onto};
use std::alloc::{AllocError, Global};
use std::collections::HashMap;
use th_type::NumberList;
use th_views::{ClassRow, Spot, TypeRow};

/// Adds what the inherited class sees, if there is one.
fn add_inherited(
    into: &mut Vec<Spot>,
    types: &[TypeRow],
    classes: &[ClassRow],
    inherits: Option<u32>,
    done: &[Spots],
) -> Result<(), AllocError>
    requires done { Viewed (record { types = types.now; classes = classes.now }) done.now }
    requires before { ForSome inherits (λ d. d < length done.now) }
    ensures { OnOk result (into.new.items ≡ into.old.items ++ object_spots (inherited (chain_of (record { types = types.now; classes = classes.now })) inherits)) }
{
    if let Some(d) = inherits {
        into.extend_from_slice(&done[d as usize].list)?;
    }
    Ok(())
}

fn seen_of(
    alloc: Global,
    types: &[TypeRow],
    classes: &[ClassRow],
    number: usize,
    objects: &[Object],
    spots: &[Spots],
    done: &[Spots],
) -> Result<Vec<Spot>, AllocError>
    requires within { number < length classes.now }
    requires before { length done.now ≡ number }
    requires inherited { Inherited classes.now }
    requires typed { Typed (record { types = types.now; classes = classes.now }) }
    requires few { Few types.now }
    requires words { FewWords (record { types = types.now; classes = classes.now }) }
    requires objects { (length objects.now ≡ length classes.now) × Formed (record { types = types.now; classes = classes.now }) objects.now }
    requires spots { (length spots.now ≡ length types.now) × Spotted types.now spots.now }
    requires done { Viewed (record { types = types.now; classes = classes.now }) done.now }
    ensures { IfOk result (λ list. list.items ≡ object_spots (chain_of (record { types = types.now; classes = classes.now }) number)) }
{
    let class = &classes[number];
    let start = objects[number].start;
    let mut list = Vec::new(alloc);
    lower_onto(&mut list, &spots[class.of as usize].list, start)?;
    add_inherited(&mut list, types, classes, class.inherits, done)?;
    Ok(list)
}

/// The types that the objects of all classes see.
pub fn all_seen(
    alloc: Global,
    types: &[TypeRow],
    classes: &[ClassRow],
    objects: &[Object],
    spots: &[Spots],
) -> Result<Vec<Spots>, AllocError>
    requires inherited { Inherited classes.now }
    requires typed { Typed (record { types = types.now; classes = classes.now }) }
    requires few { Few types.now }
    requires words { FewWords (record { types = types.now; classes = classes.now }) }
    requires objects { (length objects.now ≡ length classes.now) × Formed (record { types = types.now; classes = classes.now }) objects.now }
    requires spots { (length spots.now ≡ length types.now) × Spotted types.now spots.now }
    ensures { IfOk result (λ all. (length all.items ≡ length classes.now) × Viewed (record { types = types.now; classes = classes.now }) all.items) }
{
    let mut all = Vec::new(alloc);
    for number in 0..classes.len() {
        let list = seen_of(alloc, types, classes, number, objects, spots, &all)?;
        all.push(Spots { list })?;
    }
    Ok(all)
}

fn hidden_offsets(
    alloc: Global,
    names: &[u32],
    raised: u32,
) -> Result<HashMap<u32, i32>, AllocError>
    requires { raised + length names.now ≤ 1000 }
    ensures { IfOk result (λ m. (q : ℕ) → get nat_eq m q ≡ offset_from true raised names.now q) }
{
    let mut map = HashMap::new(alloc);
    add_run(&mut map, names, true, raised)?;
    Ok(map)
}

/// The offsets of the hidden methods of all classes.
pub fn all_hidden_offsets(
    alloc: Global,
    types: &[TypeRow],
    classes: &[ClassRow],
    names: &[NumberList],
    raised: u32,
) -> Result<Vec<Offsets>, AllocError>
    requires names { (length names.now ≡ length classes.now) × HiddenNames (record { types = types.now; classes = classes.now }) names.now }
    requires raised { raised ≡ raised_types types.now }
    requires shallow { Shallow types.now }
    requires slots { (c : ℕ) → class_slots (chain_of (record { types = types.now; classes = classes.now }) c) ≤ 250 }
    ensures { IfOk result (λ all. (length all.items ≡ length classes.now) × HiddenAts (record { types = types.now; classes = classes.now }) all.items) }
{
    let mut all = Vec::new(alloc);
    for number in 0..classes.len() {
        let bytes = hidden_offsets(alloc, names[number].as_slice(), raised)?;
        all.push(Offsets { bytes })?;
    }
    Ok(all)
}
