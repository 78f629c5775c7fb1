//! The rule on supertypes. docs/LANGUAGE.md, "Subtypes", states it.
ghost use Rattle.std.specs.Prelude.{◌≡◌, ◌<◌, [], length, map, slice_get, IfOk, OnOk, Some};
ghost use Rattle.indexmap.specs.IndexSet.{keys};
ghost use Rattle.th_type.specs.Declarations.{declared_types, super_of, meant_of, named_decl};
ghost use Rattle.th_type.specs.Failures.{lowest};
ghost use Rattle.th_type.specs.Rules.{WellFormed, list_failures, member_failures};
ghost use Rattle.th_type.specs.Judged.{Listed, Judged, Judging};
ghost use Rattle.th_type.specs.Pool.{Grows};
ghost use Rattle.th_type.specs.Tables.{defs_of, above_of, Held};

use crate::above::{Above, Ancestors};
use crate::climb::climb;
use crate::cycles::reaches_itself;
use crate::defs::Defs;
use crate::place::{Failure, Place, demand};
use crate::pool::Pool;
use crate::typedef::{Meaning, Supertype, TypeDef};
use indexmap::IndexSet;
use std::alloc::{AllocError, Global};

/// The number of the rule on supertypes.
const SUPERTYPES: u32 = 6;

/// Judges a member of a list of supertypes, of which the earlier ones name the types of `seen`.
fn judge_member(
    found: &mut Option<Failure>,
    seen: &mut IndexSet<u32>,
    text: u32,
    member: &Supertype,
) -> Result<(), AllocError>
    ensures { IfOk result (λ _. Listed found.old found.new (keys seen.old) (keys seen.new) text (super_of member.now)) }
{
    let at = member.at;
    match &member.meaning {
        Meaning::Unresolved => Ok(()),
        Meaning::Param => {
            demand(found, false, SUPERTYPES, Place { text, at });
            Ok(())
        }
        Meaning::Head(name) | Meaning::Whole(name, _) => match seen.insert_full(*name) {
            Ok((_, new)) => {
                demand(found, new, SUPERTYPES, Place { text, at });
                Ok(())
            }
            Err(_) => Err(AllocError),
        },
    }
}

/// Judges the members of a list of supertypes.
fn judge_list(
    alloc: Global,
    found: &mut Option<Failure>,
    text: u32,
    members: &[Supertype],
) -> Result<(), AllocError>
    ensures { IfOk result (λ _. found.new ≡ lowest found.old (list_failures text [] (map super_of members.now))) }
{
    let mut seen = IndexSet::new(alloc);
    for member in members {
        judge_member(found, &mut seen, text, member)?;
    }
    Ok(())
}

/// Judges a declared type, and gives the supertypes that it reaches; none where it fails.
fn judge_type(
    alloc: Global,
    defs: &Defs,
    pool: &mut Pool,
    name: u32,
    def: &TypeDef,
    found: &mut Option<Failure>,
) -> Result<Above, AllocError>
    requires { WellFormed (defs_of defs.now) }
    ensures judged { IfOk result (λ above. Judged (defs_of defs.now) (named_decl name def.now) found.old found.new (above_of pool.new above)) }
    ensures held { IfOk result (λ above. Held pool.new above) }
    ensures grown { OnOk result (Grows pool.old pool.new) }
{
    judge_list(alloc, found, def.place.text, &def.supertypes)?;
    let is_cyclic = reaches_itself(alloc, defs, name)?;
    match climb(alloc, defs, pool, name)? {
        Some(above) => {
            demand(found, !is_cyclic, SUPERTYPES, def.place);
            Ok(above)
        }
        None => {
            demand(found, false, SUPERTYPES, def.place);
            Ok(Above::new(alloc))
        }
    }
}

/// Judges all declared types, and gives the supertypes that each reaches.
pub(crate) fn judge_supertypes(
    alloc: Global,
    defs: &Defs,
    found: &mut Option<Failure>,
) -> Result<Ancestors, AllocError>
    requires { WellFormed (defs_of defs.now) }
    ensures { IfOk result (λ table. Judging (defs_of defs.now) (defs_of defs.now) found.old found.new table) }
{
    let mut table = Ancestors::new(alloc);
    for k in 0..defs.len() {
        let (name, def) = defs.at(k);
        let above = judge_type(alloc, defs, &mut table.pool, name, def, found)?;
        table.put(name, above)?;
    }
    Ok(table)
}
