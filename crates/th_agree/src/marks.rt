//! The names of modules, each with the place of its module.
ghost use Rattle.std.specs.Prelude.{◌≡◌, ◌++◌, [], ◌∷◌, ℕ, List, map, OnOk, IfOk, bytes_eq, codes, nat_eq};
ghost use Rattle.std.specs.HashMap.{get_by};
ghost use Rattle.th_meaning.specs.Program.{full_name};
ghost use Rattle.th_meaning.specs.View.{class_of, unit_of, module_of, program_of};
ghost use Rattle.th_units.specs.Units.{Named};
ghost use Rattle.th_agree.specs.Names.{kept};
ghost use Rattle.th_agree.specs.Agree.{class_names, routine_names, defined, main_names};
ghost use Rattle.th_agree.specs.Noted.{Entry, entry, Noted, clashing, all_with, placed, names_by, mains_in, place_seen};

use crate::least::lesser;
use std::alloc::{AllocError, Global};
use std::collections::HashMap;
use th_meaning::{CoreClass, CoreModule, CoreUnit, UnitKind};

/// A kind of names that a module has.
#[derive(Clone, Copy)]
pub(crate) enum Kind {
    /// The module's own name.
    Own,
    /// The full names of the classes and routines that it defines.
    Defined,
    /// The name `main`, where it defines this.
    Main,
}

/// The names of a kind, each with the place of the first module that has it, and the least name that two modules have.
#[derive(Drop)]
pub(crate) struct Marks<'a> {
    pub(crate) places: HashMap<&'a [u8], usize>,
    pub(crate) least: Option<&'a [u8]>,
}

/// The place that is noted of a name.
pub(crate) fn place_of(places: &HashMap<&[u8], usize>, name: &[u8]) -> Option<usize>
    ensures { result ≡ get_by (λ k. bytes_eq name.now k.now) places.now }
{
    places.get(name).copied()
}

/// Gives a name its place, unless the name is there.
#[tactic(auto, using(th_units::proofs::Adding::gets_name, th_units::proofs::Adding::keeps_name))]
fn add_place<'a>(
    places: &mut HashMap<&'a [u8], usize>,
    name: &'a [u8],
    place: usize,
) -> Result<(), AllocError>
    ensures { OnOk result (Named name.now place places.old places.new) }
{
    match places.get(name) {
        Some(_) => Ok(()),
        None => match places.insert(name, place) {
            Ok(_) => Ok(()),
            Err(_) => Err(AllocError),
        },
    }
}

/// What is kept after a name with a place, where this place of the name was noted before.
fn clash_places<'a>(
    noted: Option<usize>,
    place: usize,
    least: Option<&'a [u8]>,
    name: &'a [u8],
) -> Option<&'a [u8]>
    ensures { kept result ≡ clashing nat_eq noted place (kept least.entry) name.now }
{
    match noted {
        None => least,
        Some(old) => {
            if old == place {
                least
            } else {
                lesser(least, name)
            }
        }
    }
}

/// Notes a name with a place.
fn note_place<'a>(
    places: &mut HashMap<&'a [u8], usize>,
    name: &'a [u8],
    place: usize,
    least: &mut Option<&'a [u8]>,
) -> Result<(), AllocError>
    ensures { OnOk result ((done : List (Entry ℕ)) → Noted place_seen done places.old (kept least.old) → Noted place_seen (done ++ entry name.now place ∷ []) places.new (kept least.new)) }
{
    let noted = place_of(places, name);
    add_place(places, name, place)?;
    *least = clash_places(noted, place, *least, name);
    Ok(())
}

/// Notes classes.
fn note_classes<'a>(
    places: &mut HashMap<&'a [u8], usize>,
    classes: &'a [CoreClass],
    place: usize,
    least: &mut Option<&'a [u8]>,
) -> Result<(), AllocError>
    ensures { OnOk result ((done : List (Entry ℕ)) → Noted place_seen done places.old (kept least.old) → Noted place_seen (done ++ all_with place (class_names (map class_of classes.now))) places.new (kept least.new)) }
{
    for class in classes {
        note_place(places, class.head.name.as_bytes(), place, least)?;
    }
    Ok(())
}

/// Notes a unit, where it is a routine or an iterator.
fn note_unit<'a>(
    places: &mut HashMap<&'a [u8], usize>,
    unit: &'a CoreUnit,
    place: usize,
    least: &mut Option<&'a [u8]>,
) -> Result<(), AllocError>
    ensures { OnOk result ((done : List (Entry ℕ)) → Noted place_seen done places.old (kept least.old) → Noted place_seen (done ++ all_with place (routine_names (unit_of unit.now ∷ []))) places.new (kept least.new)) }
{
    match &unit.kind {
        UnitKind::Routine => {
            note_place(places, unit.name.as_bytes(), place, least)?;
            Ok(())
        }
        UnitKind::Method(_, _) => Ok(()),
        UnitKind::Init(_) => Ok(()),
    }
}

/// Notes the routines among units.
fn note_units<'a>(
    places: &mut HashMap<&'a [u8], usize>,
    units: &'a [CoreUnit],
    place: usize,
    least: &mut Option<&'a [u8]>,
) -> Result<(), AllocError>
    ensures { OnOk result ((done : List (Entry ℕ)) → Noted place_seen done places.old (kept least.old) → Noted place_seen (done ++ all_with place (routine_names (map unit_of units.now))) places.new (kept least.new)) }
{
    for unit in units {
        note_unit(places, unit, place, least)?;
    }
    Ok(())
}

/// The full name of a module's `main`.
fn name_of_main(alloc: Global, home: &[u8]) -> Result<Vec<u8>, AllocError>
    ensures { IfOk result (λ name. name.items ≡ full_name home.now (codes "main")) }
{
    let mut name = Vec::from_slice(alloc, home)?;
    name.extend_from_slice(b"/main")?;
    Ok(name)
}

/// Whether a unit has a name.
fn is_named(unit: &CoreUnit, name: &[u8]) -> bool
    ensures { result ≡ bytes_eq (unit_of unit.now).name name.now }
{
    unit.name.as_bytes() == name
}

/// Notes the name `main`, where the unit has this full name.
fn note_main<'a>(
    places: &mut HashMap<&'a [u8], usize>,
    unit: &CoreUnit,
    full: &[u8],
    place: usize,
    least: &mut Option<&'a [u8]>,
) -> Result<(), AllocError>
    ensures { OnOk result ((done : List (Entry ℕ)) → Noted place_seen done places.old (kept least.old) → Noted place_seen (done ++ all_with place (mains_in full.now (unit_of unit.now ∷ []))) places.new (kept least.new)) }
{
    if is_named(unit, full) {
        note_place(places, b"main".as_slice(), place, least)?;
        Ok(())
    } else {
        Ok(())
    }
}

/// Notes the name `main` for each unit of this full name.
fn note_mains<'a>(
    places: &mut HashMap<&'a [u8], usize>,
    units: &[CoreUnit],
    full: &[u8],
    place: usize,
    least: &mut Option<&'a [u8]>,
) -> Result<(), AllocError>
    ensures { OnOk result ((done : List (Entry ℕ)) → Noted place_seen done places.old (kept least.old) → Noted place_seen (done ++ all_with place (mains_in full.now (map unit_of units.now))) places.new (kept least.new)) }
{
    for unit in units {
        note_main(places, unit, full, place, least)?;
    }
    Ok(())
}

/// Notes the classes and routines that a module defines.
fn note_defined<'a>(
    places: &mut HashMap<&'a [u8], usize>,
    home: &'a CoreModule,
    place: usize,
    least: &mut Option<&'a [u8]>,
) -> Result<(), AllocError>
    ensures { OnOk result ((done : List (Entry ℕ)) → Noted place_seen done places.old (kept least.old) → Noted place_seen (done ++ all_with place (defined (module_of home.now))) places.new (kept least.new)) }
{
    note_classes(places, home.classes.as_slice(), place, least)?;
    note_units(places, home.units.as_slice(), place, least)?;
    Ok(())
}

/// Notes the name `main`, where a module defines this.
fn note_own_main<'a>(
    alloc: Global,
    places: &mut HashMap<&'a [u8], usize>,
    home: &CoreModule,
    place: usize,
    least: &mut Option<&'a [u8]>,
) -> Result<(), AllocError>
    ensures { OnOk result ((done : List (Entry ℕ)) → Noted place_seen done places.old (kept least.old) → Noted place_seen (done ++ all_with place (main_names (module_of home.now))) places.new (kept least.new)) }
{
    let full = name_of_main(alloc, home.name.as_bytes())?;
    note_mains(places, home.units.as_slice(), full.as_slice(), place, least)?;
    Ok(())
}

/// Notes a module's names of a kind.
fn note_module<'a>(
    alloc: Global,
    places: &mut HashMap<&'a [u8], usize>,
    home: &'a CoreModule,
    kind: Kind,
    place: usize,
    least: &mut Option<&'a [u8]>,
) -> Result<(), AllocError>
    ensures { OnOk result ((done : List (Entry ℕ)) → Noted place_seen done places.old (kept least.old) → Noted place_seen (done ++ all_with place (names_by kind (module_of home.now))) places.new (kept least.new)) }
{
    match kind {
        Kind::Own => note_place(places, home.name.as_bytes(), place, least),
        Kind::Defined => note_defined(places, home, place, least),
        Kind::Main => note_own_main(alloc, places, home, place, least),
    }
}

/// The names of a kind that modules have.
pub(crate) fn marks_of(
    alloc: Global,
    modules: &[CoreModule],
    kind: Kind,
) -> Result<Marks<'_>, AllocError>
    ensures { IfOk result (λ marks. Noted place_seen (placed (names_by kind) 0 (program_of modules.now)) marks.places (kept marks.least)) }
{
    let mut places = HashMap::new(alloc);
    let mut least = None;
    for k in 0..modules.len() {
        note_module(alloc, &mut places, &modules[k], kind, k, &mut least)?;
    }
    Ok(Marks { places, least })
}
