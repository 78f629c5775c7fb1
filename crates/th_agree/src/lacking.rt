//! The exported names that no module defines.
ghost use Rattle.std.specs.Prelude.{◌≡◌, [], ◌∷◌, map, flat_map, is_none, bytes_eq};
ghost use Rattle.std.specs.HashMap.{get_by};
ghost use Rattle.th_meaning.specs.View.{class_decl_of, routine_decl_of, interface_of, program_of};
ghost use Rattle.th_agree.specs.Names.{kept, least_of};
ghost use Rattle.th_agree.specs.Agree.{exported, kept_interfaces};
ghost use Rattle.th_agree.specs.Noted.{lacks};

use crate::least::lesser;
use crate::marks::place_of;
use std::collections::HashMap;
use th_meaning::{CoreClassDecl, CoreInterface, CoreModule, CoreRoutineDecl};

/// Whether the name isn't there.
fn is_absent(places: &HashMap<&[u8], usize>, name: &[u8]) -> bool
    ensures { result ≡ is_none (get_by (λ k. bytes_eq name.now k.now) places.now) }
{
    place_of(places, name).is_none()
}

/// Keeps the name, where it isn't there and none that stands before it is kept.
fn keep_absent<'a>(
    places: &HashMap<&[u8], usize>,
    name: &'a [u8],
    least: Option<&'a [u8]>,
) -> Option<&'a [u8]>
    ensures { kept result ≡ least_of (kept least.entry) (lacks places.now (name.now ∷ [])) }
{
    if is_absent(places, name) {
        lesser(least, name)
    } else {
        least
    }
}

/// Keeps the least of the classes' names that aren't there.
fn keep_classes<'a>(
    places: &HashMap<&[u8], usize>,
    classes: &'a [CoreClassDecl],
    least: Option<&'a [u8]>,
) -> Option<&'a [u8]>
    ensures { kept result ≡ least_of (kept least.entry) (lacks places.now (map (λ c. c.head.name) (map class_decl_of classes.now))) }
{
    let mut low = least;
    for class in classes {
        low = keep_absent(places, class.head.name.as_bytes(), low);
    }
    low
}

/// Keeps the least of the routines' names that aren't there.
fn keep_routines<'a>(
    places: &HashMap<&[u8], usize>,
    routines: &'a [CoreRoutineDecl],
    least: Option<&'a [u8]>,
) -> Option<&'a [u8]>
    ensures { kept result ≡ least_of (kept least.entry) (lacks places.now (map (λ r. r.name) (map routine_decl_of routines.now))) }
{
    let mut low = least;
    for routine in routines {
        low = keep_absent(places, routine.name.as_bytes(), low);
    }
    low
}

/// Keeps the least of the exported names that aren't there.
#[tactic(auto, using(crate::proofs::Exported::kept_two))]
fn keep_interface<'a>(
    places: &HashMap<&[u8], usize>,
    interface: &'a CoreInterface,
    least: Option<&'a [u8]>,
) -> Option<&'a [u8]>
    ensures { kept result ≡ least_of (kept least.entry) (lacks places.now (exported (interface_of interface.now))) }
{
    let low = keep_classes(places, interface.classes.as_slice(), least);
    keep_routines(places, interface.routines.as_slice(), low)
}

/// The same of interfaces.
fn keep_interfaces<'a>(
    places: &HashMap<&[u8], usize>,
    interfaces: &'a [CoreInterface],
    least: Option<&'a [u8]>,
) -> Option<&'a [u8]>
    ensures { kept result ≡ least_of (kept least.entry) (lacks places.now (flat_map exported (map interface_of interfaces.now))) }
{
    let mut low = least;
    for interface in interfaces {
        low = keep_interface(places, interface, low);
    }
    low
}

/// The least exported name that isn't there.
pub(crate) fn lacking<'a>(
    places: &HashMap<&[u8], usize>,
    modules: &'a [CoreModule],
) -> Option<&'a [u8]>
    ensures { kept result ≡ least_of None (lacks places.now (flat_map exported (kept_interfaces (program_of modules.now)))) }
{
    let mut low = None;
    for module in modules {
        low = keep_interfaces(places, &module.interfaces, low);
    }
    low
}
