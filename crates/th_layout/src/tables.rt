//! The contents of the tables of classes.
ghost use Rattle.std.specs.BTreeMap.{get, IsOrdered};
ghost use Rattle.std.specs.HashMap.{get as hash_get};
ghost use Rattle.std.specs.Ordering.{int_cmp};
ghost use Rattle.std.specs.Prelude.{◌≡◌, ◌≤◌, ◌<◌, ◌+◌, ℤ, length, IfOk, OnOk, [], ◌∷◌, slice_get, ◌*◌, ℕ, cond, nat_eq, option_map, unwrap_or};
ghost use Rattle.std.specs.Prelude.{map as map_list};
ghost use Rattle.th_offsets.specs.Given.{Arriving, Bodied, GivenClasses, GivenTypes};
ghost use Rattle.th_offsets.specs.Known.{Few};
ghost use Rattle.th_layout.specs.Laid.{Casted, IsClassSide, IsTypeSide};
ghost use Rattle.th_offsets.specs.Maps.{or_else};
ghost use Rattle.th_layout.specs.Runs.{IsTable, own_run, spot_slots};
ghost use Rattle.th_views.specs.Contents.{body_of, first_at, hidden_slots, own_slots, seen_slots, slot_at};
ghost use Rattle.th_views.specs.Lookups.{between, given_in, class_arrives, class_gives, lowering, to_class, to_type, type_gives};
ghost use Rattle.th_views.specs.Objects.{object_spots};
ghost use Rattle.th_views.specs.Rows.{chain_of, tree_of, Ordered};
ghost use Rattle.th_views.specs.Tree.{own_of};

use crate::sides::{ClassSide, TypeSide};
use std::alloc::{AllocError, Global};
use std::collections::BTreeMap;
use th_offsets::{Casts, Heads, first_known, offset_of};
use th_views::{ClassRow, Slot, Spot, TypeRow};

/// Keeps a slot where there is none at its offset yet.
fn keep_first(map: &mut BTreeMap<i32, Slot>, slot: Slot) -> Result<(), AllocError>
    ensures { OnOk result ((o : ℤ) → get int_cmp map.new o ≡ or_else (get int_cmp map.old o) (first_at (slot ∷ []) o)) }
{
    if !map.contains_key(&slot.offset) {
        map.insert(slot.offset, slot)?;
    }
    Ok(())
}

/// The bytes down to the first view of a type, 0 where it is not seen.
fn bytes_to(casts: &Casts, to: u32) -> u32
    requires { (w : ℕ) → hash_get nat_eq casts.now.words to ≡ Some w → w < 64 }
    ensures { result ≡ unwrap_or (option_map (λ w. 4 * w) (hash_get nat_eq casts.now.words to)) 0 }
{
    match casts.words.get(&to) {
        Some(word) => 4 * *word,
        None => 0,
    }
}

/// The distance in bytes from one type down to another, 0 where it does not reach it.
fn lowering_of(types: &[TypeRow], classes: &[ClassRow], casts: &[Casts], from: u32, to: u32) -> u32
    requires casts { (length casts.now ≡ length types.now) × Casted types.now casts.now }
    requires few { Few types.now }
    ensures { result ≡ lowering (record { types = types.now; classes = classes.now }) from to }
{
    match casts.get(from as usize) {
        Some(from) => bytes_to(from, to),
        None => 0,
    }
}

/// The distance from a first result to a second.
fn between_of(
    types: &[TypeRow],
    classes: &[ClassRow],
    casts: &[Casts],
    from: Option<u32>,
    to: Option<u32>,
) -> u32
    requires casts { (length casts.now ≡ length types.now) × Casted types.now casts.now }
    requires few { Few types.now }
    ensures { result ≡ between (record { types = types.now; classes = classes.now }) from to }
{
    match (from, to) {
        (Some(from), Some(to)) => lowering_of(types, classes, casts, from, to),
        (Some(_), None) => 0,
        (None, _) => 0,
    }
}

/// The type that arrives for a class's method.
fn arrival(classes: &[ClassRow], arrivals: &[Heads], class: usize, method: u32) -> Option<u32>
    requires within { class < length arrivals.now }
    requires arrivals { Arriving classes.now arrivals.now }
    ensures { result ≡ given_in (class_arrives (slice_get classes.now class)) method }
{
    arrivals[class].of.get(&method).copied()
}

/// The type that a type's method gives.
fn given(types: &[TypeRow], gives: &[Heads], place: usize, method: u32) -> Option<u32>
    requires within { place < length gives.now }
    requires gives { GivenTypes types.now gives.now }
    ensures { result ≡ given_in (type_gives (slice_get types.now place)) method }
{
    gives[place].of.get(&method).copied()
}

/// The class whose body the walk of a class finds.
fn body(types: &[TypeRow], classes: &[ClassRow], bodies: &[Heads], class: usize, method: u32) -> u32
    requires within { class < length bodies.now }
    requires bodies { Bodied (record { types = types.now; classes = classes.now }) bodies.now }
    ensures { result ≡ body_of (record { types = types.now; classes = classes.now }) class method }
{
    match bodies[class].of.get(&method) {
        Some(class) => *class,
        None => 0,
    }
}

/// The type that a class says that a method gives.
fn class_given(classes: &[ClassRow], gives: &[Heads], place: usize, method: u32) -> Option<u32>
    requires within { place < length gives.now }
    requires gives { GivenClasses classes.now gives.now }
    ensures { result ≡ given_in (class_gives (slice_get classes.now place)) method }
{
    gives[place].of.get(&method).copied()
}

/// The distance by which a bridge before a class's body lowers the result for a class's callers.
pub fn class_bridge(
    types: &[TypeRow],
    classes: &[ClassRow],
    type_side: &TypeSide,
    class_side: &ClassSide,
    class: usize,
    to: usize,
    method: u32,
) -> u32
    requires within { class < length classes.now }
    requires to { to < length classes.now }
    requires types { IsTypeSide types.now type_side.now }
    requires classes { IsClassSide (record { types = types.now; classes = classes.now }) class_side.now }
    ensures { result ≡ to_class (record { types = types.now; classes = classes.now }) class method to }
{
    let from = arrival(classes, &class_side.arrives, class, method);
    let to = class_given(classes, &class_side.gives, to, method);
    between_of(types, classes, &type_side.casts, from, to)
}

/// The distance by which a bridge before a class's body lowers the result for a type's readers.
pub fn bridge_of(
    types: &[TypeRow],
    classes: &[ClassRow],
    type_side: &TypeSide,
    class_side: &ClassSide,
    class: usize,
    place: usize,
    method: u32,
) -> u32
    requires within { class < length classes.now }
    requires place { place < length types.now }
    requires types { IsTypeSide types.now type_side.now }
    requires classes { IsClassSide (record { types = types.now; classes = classes.now }) class_side.now }
    ensures { result ≡ to_type (record { types = types.now; classes = classes.now }) class method place }
{
    let from = arrival(classes, &class_side.arrives, class, method);
    let to = given(types, &type_side.gives, place, method);
    between_of(types, classes, &type_side.casts, from, to)
}

/// Adds the slots of a type's methods, from the k-th place upward or downward on.
fn add_run_slots(
    map: &mut BTreeMap<i32, Slot>,
    types: &[TypeRow],
    classes: &[ClassRow],
    type_side: &TypeSide,
    class_side: &ClassSide,
    class: usize,
    place: usize,
    methods: &[u32],
    upward: bool,
    from: u32,
) -> Result<(), AllocError>
    requires within { class < length classes.now }
    requires place { place < length types.now }
    requires types { IsTypeSide types.now type_side.now }
    requires classes { IsClassSide (record { types = types.now; classes = classes.now }) class_side.now }
    requires few { from + length methods.now ≤ 1000 }
    ensures { OnOk result ((o : ℤ) → get int_cmp map.new o
        ≡ or_else (get int_cmp map.old o) (first_at (own_run (record { types = types.now; classes = classes.now }) class place upward from methods.now) o)) }
{
    let mut k = from;
    for method in methods {
        let body = body(types, classes, &class_side.bodies, class, *method);
        let bridge = bridge_of(types, classes, type_side, class_side, class, place, *method);
        keep_first(
            map,
            Slot {
                offset: offset_of(upward, k),
                method: *method,
                body,
                bridge,
            },
        )?;
        k += 1;
    }
    Ok(())
}

/// Adds the slots of the own methods of a type.
fn add_type_slots(
    map: &mut BTreeMap<i32, Slot>,
    types: &[TypeRow],
    classes: &[ClassRow],
    type_side: &TypeSide,
    class_side: &ClassSide,
    class: usize,
    place: usize,
) -> Result<(), AllocError>
    requires within { class < length classes.now }
    requires place { place < length types.now }
    requires ordered { Ordered types.now }
    requires types { IsTypeSide types.now type_side.now }
    requires classes { IsClassSide (record { types = types.now; classes = classes.now }) class_side.now }
    ensures { OnOk result ((o : ℤ) → get int_cmp map.new o
        ≡ or_else (get int_cmp map.old o) (first_at (own_slots (record { types = types.now; classes = classes.now }) class place 0 (own_of (tree_of types.now place))) o)) }
{
    let row = &types[place];
    let base = first_known(row.supers.as_slice(), &type_side.depths);
    let upward = type_side.facts[place].upward;
    add_run_slots(
        map,
        types,
        classes,
        type_side,
        class_side,
        class,
        place,
        row.own.as_slice(),
        upward,
        base,
    )?;
    Ok(())
}

/// Adds the slots of a type seen, where it is seen at this word.
fn add_spot_slots(
    map: &mut BTreeMap<i32, Slot>,
    types: &[TypeRow],
    classes: &[ClassRow],
    type_side: &TypeSide,
    class_side: &ClassSide,
    class: usize,
    word: u32,
    spot: Spot,
) -> Result<(), AllocError>
    requires within { class < length classes.now }
    requires place { spot.name < length types.now }
    requires ordered { Ordered types.now }
    requires types { IsTypeSide types.now type_side.now }
    requires classes { IsClassSide (record { types = types.now; classes = classes.now }) class_side.now }
    ensures { OnOk result ((o : ℤ) → get int_cmp map.new o
        ≡ or_else (get int_cmp map.old o) (first_at (spot_slots (record { types = types.now; classes = classes.now }) class word spot) o)) }
{
    if spot.word == word {
        let place = spot.name as usize;
        add_type_slots(map, types, classes, type_side, class_side, class, place)?;
    }
    Ok(())
}

/// Adds the slots of the types seen at a word.
fn add_seen_slots(
    map: &mut BTreeMap<i32, Slot>,
    types: &[TypeRow],
    classes: &[ClassRow],
    type_side: &TypeSide,
    class_side: &ClassSide,
    class: usize,
    word: u32,
) -> Result<(), AllocError>
    requires within { class < length classes.now }
    requires ordered { Ordered types.now }
    requires types { IsTypeSide types.now type_side.now }
    requires classes { IsClassSide (record { types = types.now; classes = classes.now }) class_side.now }
    ensures { OnOk result ((o : ℤ) → get int_cmp map.new o
        ≡ or_else (get int_cmp map.old o) (first_at (seen_slots (record { types = types.now; classes = classes.now }) class word (object_spots (chain_of (record { types = types.now; classes = classes.now }) class))) o)) }
{
    let seen: &[Spot] = &class_side.seen[class].list;
    for spot in seen {
        add_spot_slots(
            map, types, classes, type_side, class_side, class, word, *spot,
        )?;
    }
    Ok(())
}

/// Adds the slots of a class's hidden methods, from the k-th place upward on.
fn add_hidden_slots(
    map: &mut BTreeMap<i32, Slot>,
    types: &[TypeRow],
    classes: &[ClassRow],
    bodies: &[Heads],
    class: usize,
    methods: &[u32],
    from: u32,
) -> Result<(), AllocError>
    requires within { class < length bodies.now }
    requires bodies { Bodied (record { types = types.now; classes = classes.now }) bodies.now }
    requires few { from + length methods.now ≤ 1000 }
    ensures { OnOk result ((o : ℤ) → get int_cmp map.new o
        ≡ or_else (get int_cmp map.old o) (first_at (hidden_slots (record { types = types.now; classes = classes.now }) class from methods.now) o)) }
{
    let mut k = from;
    for method in methods {
        let body = body(types, classes, bodies, class, *method);
        keep_first(
            map,
            Slot {
                offset: offset_of(true, k),
                method: *method,
                body,
                bridge: 0,
            },
        )?;
        k += 1;
    }
    Ok(())
}

/// Adds the slots of hidden methods where the word is the anchor.
fn add_anchor_slots(
    map: &mut BTreeMap<i32, Slot>,
    types: &[TypeRow],
    classes: &[ClassRow],
    bodies: &[Heads],
    class: usize,
    methods: &[u32],
    from: u32,
    word: u32,
) -> Result<(), AllocError>
    requires within { class < length bodies.now }
    requires bodies { Bodied (record { types = types.now; classes = classes.now }) bodies.now }
    requires few { from + length methods.now ≤ 1000 }
    ensures { OnOk result ((o : ℤ) → get int_cmp map.new o
        ≡ or_else (get int_cmp map.old o) (first_at (cond (nat_eq word 0) (hidden_slots (record { types = types.now; classes = classes.now }) class from methods.now) []) o)) }
{
    if word == 0 {
        add_hidden_slots(map, types, classes, bodies, class, methods, from)?;
    }
    Ok(())
}

/// The slots of the table at a word of a class, by their offsets.
fn contents(
    alloc: Global,
    types: &[TypeRow],
    classes: &[ClassRow],
    type_side: &TypeSide,
    class_side: &ClassSide,
    class: usize,
    word: u32,
) -> Result<BTreeMap<i32, Slot>, AllocError>
    requires within { class < length classes.now }
    requires ordered { Ordered types.now }
    requires types { IsTypeSide types.now type_side.now }
    requires classes { IsClassSide (record { types = types.now; classes = classes.now }) class_side.now }
    ensures { IfOk result (λ m. (o : ℤ) → get int_cmp m o ≡ slot_at (record { types = types.now; classes = classes.now }) class word o) }
{
    let mut map = BTreeMap::new(alloc);
    add_seen_slots(&mut map, types, classes, type_side, class_side, class, word)?;
    let methods = class_side.names[class].as_slice();
    let bodies = &class_side.bodies;
    add_anchor_slots(
        &mut map,
        types,
        classes,
        bodies,
        class,
        methods,
        class_side.raised,
        word,
    )?;
    Ok(map)
}

/// The slots of a map, in its order.
fn slots_of(alloc: Global, map: &BTreeMap<i32, Slot>) -> Result<Vec<Slot>, AllocError>
    ensures values { IfOk result (λ v. v.items ≡ map_list (λ e. e.1) map.now.entries) }
    ensures ordered { IsOrdered int_cmp map.now }
{
    map.values().copied().collect(alloc)
}

/// The slots of the table at a word of a class, from the lowest offset up.
pub fn table_at(
    alloc: Global,
    types: &[TypeRow],
    classes: &[ClassRow],
    type_side: &TypeSide,
    class_side: &ClassSide,
    class: usize,
    word: u32,
) -> Result<Vec<Slot>, AllocError>
    requires within { class < length classes.now }
    requires ordered { Ordered types.now }
    requires types { IsTypeSide types.now type_side.now }
    requires classes { IsClassSide (record { types = types.now; classes = classes.now }) class_side.now }
    ensures { IfOk result (λ v. IsTable (record { types = types.now; classes = classes.now }) class word v.items) }
{
    let map = contents(alloc, types, classes, type_side, class_side, class, word)?;
    let slots = slots_of(alloc, &map)?;
    Ok(slots)
}
