//! Chains of first supertypes, and which class extends the group of the class that it inherits.
ghost use Rattle.std.specs.HashMap.{get};
ghost use Rattle.std.specs.List.Sorted.{IsPermutation};
ghost use Rattle.std.specs.Prelude.{◌≡◌, ◌↔◌, ℕ, map, nat_eq, IfOk, IsTrue, option_map};
ghost use Rattle.th_shape.specs.Lines.{OnChain, first_parent};
ghost use Rattle.th_type.specs.Ordering.{SupersFirst};
ghost use Rattle.th_type.specs.Types.{ty_of};
ghost use Rattle.th_views.specs.Lookups.{index_of};

use crate::places::place_of;
use std::alloc::{AllocError, Global};
use std::collections::HashMap;
use th_hier::Hierarchy;
use th_type::Ty;

/// The first of a type's declared supertypes.
fn first_parent(alloc: Global, hierarchy: &Hierarchy, ty: &Ty) -> Result<Option<Ty>, AllocError>
    ensures { IfOk result (λ o. option_map ty_of o ≡ first_parent hierarchy.now.types (ty_of ty.now)) }
{
    let Ty::Named(name, args) = ty else {
        return Ok(None);
    };
    match hierarchy.supertypes_of(*name).first() {
        Some(parent) => Ok(Some(parent.apply(alloc, args)?)),
        None => Ok(None),
    }
}

/// Whether a type is another or has it on its chain of first supertypes.
pub fn is_on_chain(
    alloc: Global,
    hierarchy: &Hierarchy,
    order: &[u32],
    places: &HashMap<u32, u32>,
    from: &Ty,
    to: &Ty,
) -> Result<bool, AllocError>
    requires order { SupersFirst hierarchy.now.types order.now }
    requires all { IsPermutation (map (λ d. d.name) hierarchy.now.types) order.now }
    requires places { (q : ℕ) → get nat_eq places.now q ≡ index_of q order.now }
    ensures { IfOk result (λ r. IsTrue r ↔ OnChain hierarchy.now.types (ty_of from.now) (ty_of to.now)) }
{
    let mut at = from.try_clone(alloc)?;
    loop {
        if at.is_same(to) {
            return Ok(true);
        }
        let found = first_parent(alloc, hierarchy, &at)?;
        match found {
            Some(parent) => at = parent,
            None => return Ok(false),
        }
    }
}
