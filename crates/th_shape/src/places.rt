//! The places of numbers in a list.
ghost use Rattle.std.specs.HashMap.{get};
ghost use Rattle.std.specs.Prelude.{◌≡◌, ◌^◌, ◌<◌, ◌∷◌, ◌++◌, [], ℕ, length, map, IfOk, OnOk, nat_eq};
ghost use Rattle.th_shape.specs.Placed.{place_by, places_by, somes};
ghost use Rattle.th_type.specs.Types.{ty_of};
ghost use Rattle.th_type.specs.Subtypes.{head_of};
ghost use Rattle.th_views.specs.Lookups.{index_of};

use std::alloc::{AllocError, Global};
use std::collections::HashMap;
use th_type::Ty;

/// The first place of each number.
pub fn first_places(alloc: Global, numbers: &[u32]) -> Result<HashMap<u32, u32>, AllocError>
    requires { length numbers.now < 2 ^ 32 }
    ensures { IfOk result (λ m. (q : ℕ) → get nat_eq m q ≡ index_of q numbers.now) }
{
    let mut map = HashMap::new(alloc);
    for k in 0..numbers.len() {
        if !map.contains_key(&numbers[k]) {
            map.insert(numbers[k], k as u32)?;
        }
    }
    Ok(map)
}

/// The number of the declared type, or class, that a type names.
pub fn head_of(ty: &Ty) -> Option<u32>
    ensures { result ≡ head_of (ty_of ty.now) }
{
    match ty {
        Ty::Named(name, _) => Some(*name),
        _ => None,
    }
}

/// The place of what a type names.
pub fn place_of(places: &HashMap<u32, u32>, ty: &Ty) -> Option<u32>
    ensures { result ≡ place_by (get nat_eq places.now) (ty_of ty.now) }
{
    match head_of(ty) {
        Some(name) => places.get(&name).copied(),
        None => None,
    }
}

/// Adds a number, where there is one.
fn push_some(found: &mut Vec<u32>, place: Option<u32>) -> Result<(), AllocError>
    ensures { OnOk result (found.new.items ≡ found.old.items ++ somes (place ∷ [])) }
{
    match place {
        Some(place) => {
            found.push(place)?;
            Ok(())
        }
        None => Ok(()),
    }
}

/// The places of types that have places.
pub fn places_of(
    alloc: Global,
    places: &HashMap<u32, u32>,
    types: &[Ty],
) -> Result<Vec<u32>, AllocError>
    ensures { IfOk result (λ v. v.items ≡ places_by (get nat_eq places.now) (map ty_of types.now)) }
{
    let mut found = Vec::new(alloc);
    for ty in types {
        let place = place_of(places, ty);
        push_some(&mut found, place)?;
    }
    Ok(found)
}
