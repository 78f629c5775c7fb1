//! What a layout keeps of its types and of its classes.
ghost use Rattle.std.specs.HashMap.{get};
ghost use Rattle.std.specs.Prelude.{◌≡◌, ◌≤◌, ◌<◌, ◌^◌, ℕ, length, nat_eq, IfOk, MatchResult};
ghost use Rattle.th_offsets.specs.Known.{Few, FewFields, FewWords, Shallow, Typed};
ghost use Rattle.th_layout.specs.Laid.{IsClassSide, IsPlaces, IsSums, IsTypeSide};
ghost use Rattle.th_layout.specs.Refusals.{Accepted, RefusedBy};
ghost use Rattle.th_views.specs.Lookups.{class_numbers, index_of, type_numbers};
ghost use Rattle.th_views.specs.Rows.{chain_of, Inherited, Ordered};
ghost use Rattle.th_views.specs.Sums.{class_slots};

use crate::limits::{LayoutError, class_names, judge, type_names};
use std::alloc::{AllocError, Global};
use std::collections::HashMap;
use th_offsets::{
    Casts, Facts, Heads, Object, Offsets, Spots, Tally, WordTypes, all_arrivals, all_bodies,
    all_casts, all_class_heads, all_depths, all_facts, all_greatest, all_hidden,
    all_hidden_offsets, all_objects, all_offsets, all_owned, all_plain, all_seen, all_spots,
    all_sums, all_tallies, all_type_heads, all_views, places, raised_of,
};
use th_type::NumberList;
use th_views::{ClassRow, TypeRow};

/// The places of types and of classes by their numbers.
#[derive(Drop)]
pub struct Places {
    pub types: HashMap<u32, u32>,
    pub classes: HashMap<u32, u32>,
}

/// The header words of types and of classes by the sum over supertypes.
#[derive(Drop)]
pub struct Sums {
    pub types: Vec<u32>,
    pub classes: Vec<Tally>,
}

/// What is known of each type, by its place.
#[derive(Drop)]
pub struct TypeSide {
    pub facts: Vec<Facts>,
    pub spots: Vec<Spots>,
    pub casts: Vec<Casts>,
    pub offsets: Vec<Offsets>,
    pub depths: Vec<u32>,
    pub gives: Vec<Heads>,
}

/// What is known of each class, by its place.
#[derive(Drop)]
pub struct ClassSide {
    pub objects: Vec<Object>,
    pub hidden: Vec<Offsets>,
    pub seen: Vec<Spots>,
    pub owned: Vec<Offsets>,
    pub views: Vec<WordTypes>,
    pub names: Vec<NumberList>,
    /// The greatest number of own methods of an upward type.
    pub raised: u32,
    pub gives: Vec<Heads>,
    pub arrives: Vec<Heads>,
    pub bodies: Vec<Heads>,
}

fn type_index(alloc: Global, types: &[TypeRow]) -> Result<HashMap<u32, u32>, AllocError>
    requires { length types.now < 2 ^ 32 }
    ensures { IfOk result (λ m. (q : ℕ) → get nat_eq m q ≡ index_of q (type_numbers types.now)) }
{
    let names = type_names(alloc, types)?;
    places(alloc, &names)
}

fn class_index(alloc: Global, classes: &[ClassRow]) -> Result<HashMap<u32, u32>, AllocError>
    requires { length classes.now < 2 ^ 32 }
    ensures { IfOk result (λ m. (q : ℕ) → get nat_eq m q ≡ index_of q (class_numbers classes.now)) }
{
    let names = class_names(alloc, classes)?;
    places(alloc, &names)
}

/// The places of all numbers.
pub fn all_places(
    alloc: Global,
    types: &[TypeRow],
    classes: &[ClassRow],
) -> Result<Places, AllocError>
    requires types { length types.now < 2 ^ 32 }
    requires classes { length classes.now < 2 ^ 32 }
    ensures { IfOk result (λ a. IsPlaces (record { types = types.now; classes = classes.now }) a) }
{
    let types = type_index(alloc, types)?;
    let classes = class_index(alloc, classes)?;
    Ok(Places { types, classes })
}

/// The sums of types and classes that are within the limits; else which one is not.
pub fn sums_within(
    alloc: Global,
    types: &[TypeRow],
    classes: &[ClassRow],
    limit: u32,
) -> Result<Sums, LayoutError>
    requires limit { limit ≤ 64 }
    requires ordered { Ordered types.now }
    requires inherited { Inherited classes.now }
    requires typed { Typed (record { types = types.now; classes = classes.now }) }
    ensures { MatchResult result (λ a. IsSums (record { types = types.now; classes = classes.now }) a × Accepted limit (record { types = types.now; classes = classes.now }))
        (λ e. RefusedBy limit (record { types = types.now; classes = classes.now }) e) }
{
    let sums = all_sums(alloc, types)?;
    let plain = all_plain(alloc, types)?;
    let most = all_greatest(alloc, types, &plain)?;
    let tallies = all_tallies(alloc, types, classes, &sums, &most)?;
    judge(alloc, types, classes, &sums, &plain, &tallies, limit)?;
    Ok(Sums {
        types: sums,
        classes: tallies,
    })
}

/// What is known of the types.
pub fn type_side(alloc: Global, types: &[TypeRow]) -> Result<TypeSide, AllocError>
    requires small { length types.now < 2 ^ 32 }
    requires ordered { Ordered types.now }
    requires few { Few types.now }
    requires shallow { Shallow types.now }
    ensures { IfOk result (λ a. IsTypeSide types.now a) }
{
    let facts = all_facts(alloc, types)?;
    let spots = all_spots(alloc, types, &facts)?;
    let casts = all_casts(alloc, &spots)?;
    let depths = all_depths(alloc, types, &facts)?;
    let offsets = all_offsets(alloc, types, &spots, &facts, &depths)?;
    let gives = all_type_heads(alloc, types)?;
    Ok(TypeSide {
        facts,
        spots,
        casts,
        offsets,
        depths,
        gives,
    })
}

/// What is known of the classes.
pub fn class_side(
    alloc: Global,
    types: &[TypeRow],
    classes: &[ClassRow],
    side: &TypeSide,
) -> Result<ClassSide, AllocError>
    requires ordered { Ordered types.now }
    requires inherited { Inherited classes.now }
    requires typed { Typed (record { types = types.now; classes = classes.now }) }
    requires side { IsTypeSide types.now side.now }
    requires few { Few types.now }
    requires shallow { Shallow types.now }
    requires words { FewWords (record { types = types.now; classes = classes.now }) }
    requires fields { FewFields (record { types = types.now; classes = classes.now }) }
    requires slots { (c : ℕ) → class_slots (chain_of (record { types = types.now; classes = classes.now }) c) ≤ 250 }
    ensures { IfOk result (λ a. IsClassSide (record { types = types.now; classes = classes.now }) a) }
{
    let objects = all_objects(alloc, types, classes, &side.facts)?;
    let names = all_hidden(alloc, types, classes)?;
    let raised = raised_of(types);
    let hidden = all_hidden_offsets(alloc, types, classes, &names, raised)?;
    let seen = all_seen(alloc, types, classes, &objects, &side.spots)?;
    let owned = all_owned(alloc, types, classes, &seen, &side.facts, &side.depths)?;
    let views = all_views(alloc, types, classes, &objects, &seen)?;
    let gives = all_class_heads(alloc, classes)?;
    let arrives = all_arrivals(alloc, classes)?;
    let bodies = all_bodies(alloc, types, classes)?;
    Ok(ClassSide {
        objects,
        hidden,
        seen,
        owned,
        views,
        names,
        raised,
        gives,
        arrives,
        bodies,
    })
}
