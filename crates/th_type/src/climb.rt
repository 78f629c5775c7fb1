//! All supertypes that a declared type reaches, with arguments substituted.
ghost use Rattle.std.specs.Prelude.{◌≡◌, ◌∷◌, [], map, IfOk, OnOk, MatchOption, IfSome, ◌⊎◌, None};
ghost use Rattle.std.specs.Bool.{MatchBool};
ghost use Rattle.th_type.specs.Types.{named_ty};
ghost use Rattle.th_type.specs.Declarations.{declared_types, super_of, meant_of};
ghost use Rattle.th_type.specs.Rules.{WellFormed, HasTwo, IsHigh};
ghost use Rattle.th_type.specs.Closure.{Clashes, Climbed, taken, all_taken};
ghost use Rattle.th_type.specs.Pool.{tys_at, shapes_tys, IsListed, AllFit, Grows};
ghost use Rattle.th_type.specs.Tables.{defs_of, above_of, Held, TookIn};

use crate::above::Above;
use crate::defs::Defs;
use crate::pool::{Pool, Shape};
use crate::typedef::{Meaning, Supertype};
use std::alloc::{AllocError, Global};

/// Puts a declared type with arguments that are a list of the pool; false where it stands there with other arguments.
fn put(pool: &Pool, above: &mut Above, name: u32, list: u32) -> Result<bool, AllocError>
    requires held { Held pool.now above.old }
    requires list { IsListed pool.now list }
    ensures { IfOk result (λ fits. MatchBool fits (TookIn pool.now above.old (named_ty name (tys_at pool.now list) ∷ []) pool.now above.new) (Clashes (above_of pool.now above.old) (named_ty name (tys_at pool.now list) ∷ []))) }
{
    match above.find(name) {
        Some(known) => Ok(pool.is_same(known, list)),
        None => {
            above.push(name, list)?;
            Ok(true)
        }
    }
}

/// Takes in the type of a member of a list of supertypes, with arguments substituted; false where the type is too high, or
/// stands there with other arguments.
fn take(
    alloc: Global,
    pool: &mut Pool,
    above: &mut Above,
    meaning: &Meaning,
    args: &[Shape],
) -> Result<bool, AllocError>
    requires fit { AllFit pool.old args.now }
    requires held { Held pool.old above.old }
    ensures took { IfOk result (λ fits. MatchBool fits (TookIn pool.old above.old (taken (shapes_tys pool.old args.now) (meant_of meaning.now)) pool.new above.new) (Clashes (above_of pool.old above.old) (taken (shapes_tys pool.old args.now) (meant_of meaning.now)))) }
    ensures grown { OnOk result (Grows pool.old pool.new) }
{
    let Meaning::Whole(name, list) = meaning else {
        return Ok(true);
    };
    match pool.list_with(alloc, list, args)? {
        Some(list) => put(pool, above, *name, list),
        None => Ok(false),
    }
}

/// The same of all members.
fn take_all(
    alloc: Global,
    pool: &mut Pool,
    above: &mut Above,
    members: &[Supertype],
    args: &[Shape],
) -> Result<bool, AllocError>
    requires fit { AllFit pool.old args.now }
    requires held { Held pool.old above.old }
    ensures took { IfOk result (λ fits. MatchBool fits (TookIn pool.old above.old (all_taken (shapes_tys pool.old args.now) (map super_of members.now)) pool.new above.new) (Clashes (above_of pool.old above.old) (all_taken (shapes_tys pool.old args.now) (map super_of members.now)))) }
    ensures grown { OnOk result (Grows pool.old pool.new) }
{
    for member in members {
        if !take(alloc, pool, above, &member.meaning, args)? {
            return Ok(false);
        }
    }
    Ok(true)
}

/// The supertypes that the declared type reaches; None exactly where it has two of one name with different arguments, or one
/// of a height above 600.
pub(crate) fn climb(
    alloc: Global,
    defs: &Defs,
    pool: &mut Pool,
    name: u32,
) -> Result<Option<Above>, AllocError>
    requires { WellFormed (defs_of defs.now) }
    ensures climbed { IfOk result (λ r. MatchOption r (HasTwo (declared_types (defs_of defs.now)) name ⊎ IsHigh (declared_types (defs_of defs.now)) name) (λ above. Climbed (declared_types (defs_of defs.now)) name (above_of pool.new above))) }
    ensures held { IfOk result (λ r. IfSome r (λ above. Held pool.new above)) }
    ensures grown { OnOk result (Grows pool.old pool.new) }
{
    let mut above = Above::new(alloc);
    if !take_all(alloc, pool, &mut above, defs.members(name), &[])? {
        return Ok(None);
    }
    let mut done = 0;
    while done < above.len() {
        let (next, list) = above.entry_at(done);
        let args = pool.shapes(alloc, list)?;
        if !take_all(alloc, pool, &mut above, defs.members(next), &args)? {
            return Ok(None);
        }
        done += 1;
    }
    Ok(Some(above))
}
