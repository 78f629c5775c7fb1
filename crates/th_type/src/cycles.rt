//! Declared types that reach themselves.
ghost use Rattle.std.specs.Prelude.{◌≡◌, map, IfOk, IsTrue, ◌↔◌};
ghost use Rattle.indexmap.specs.IndexSet.{keys};
ghost use Rattle.th_type.specs.Declarations.{super_of, meant_of};
ghost use Rattle.th_type.specs.Rules.{WellFormed, ReachesItself, names_meant, named};
ghost use Rattle.th_type.specs.Cycles.{Noted};
ghost use Rattle.th_type.specs.Tables.{defs_of};

use crate::defs::Defs;
use crate::typedef::{Meaning, Supertype};
use indexmap::IndexSet;
use std::alloc::{AllocError, Global};

/// Notes the declared type that a member of a list of supertypes names.
fn note(seen: &mut IndexSet<u32>, meaning: &Meaning) -> Result<(), AllocError>
    ensures { IfOk result (λ _. Noted (keys seen.old) (names_meant (meant_of meaning.now)) (keys seen.new)) }
{
    match meaning {
        Meaning::Unresolved | Meaning::Param => Ok(()),
        Meaning::Head(name) | Meaning::Whole(name, _) => match seen.insert_full(*name) {
            Ok(_) => Ok(()),
            Err(_) => Err(AllocError),
        },
    }
}

/// The same of all members.
fn note_all(seen: &mut IndexSet<u32>, members: &[Supertype]) -> Result<(), AllocError>
    ensures { IfOk result (λ _. Noted (keys seen.old) (named (map super_of members.now)) (keys seen.new)) }
{
    for member in members {
        note(seen, &member.meaning)?;
    }
    Ok(())
}

/// Whether the declared type reaches itself by the names in the lists of supertypes.
pub(crate) fn reaches_itself(alloc: Global, defs: &Defs, name: u32) -> Result<bool, AllocError>
    requires { WellFormed (defs_of defs.now) }
    ensures { IfOk result (λ found. IsTrue found ↔ ReachesItself (defs_of defs.now) name) }
{
    let mut seen = IndexSet::new(alloc);
    note_all(&mut seen, defs.members(name))?;
    let mut done = 0;
    while done < seen.len() {
        match seen.get_index(done) {
            Some(next) => {
                let next = *next;
                note_all(&mut seen, defs.members(next))?;
            }
            None => unreachable!(),
        }
        done += 1;
    }
    Ok(seen.contains(&name))
}
