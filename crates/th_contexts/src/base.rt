//! What is asked of the classes above a class. docs/LANGUAGE.md, "Rules of modules", states what a class introduces.
ghost use Rattle.std.specs.Prelude.{◌≡◌, length, map, option_map, nat_eq, IfOk, OnOk, is_some};
ghost use Rattle.indexmap.specs.IndexMap.{insert_entry};
ghost use Rattle.th_type.specs.Types.{ty_of};
ghost use Rattle.th_type.specs.Methods.{method_at};
ghost use Rattle.th_module_rules.specs.Contexts.{base_at, base_knows, knows, type_number};
ghost use Rattle.th_contexts.specs.BaseView.{base_of};
ghost use Rattle.th_contexts.specs.Bases.{bases_of};
ghost use Rattle.th_contexts.specs.Placing.{Placed};

use crate::base_row::Base;
use crate::bases::Bases;
use indexmap::IndexMap;
use std::alloc::{AllocError, Global};
use th_hier::Hierarchy;
use th_type::Ty;

/// Puts the place of a number.
fn put(places: &mut IndexMap<u32, usize>, number: u32, place: usize) -> Result<(), AllocError>
    ensures { OnOk result (places.new.entries ≡ insert_entry nat_eq places.old.entries number place) }
{
    match places.insert(number, place) {
        Ok(_) => Ok(()),
        Err(_) => Err(AllocError),
    }
}

/// For each full name the place of the first class that has it.
fn places_of(alloc: Global, list: &[Base]) -> Result<IndexMap<u32, usize>, AllocError>
    ensures { IfOk result (λ places. Placed (map base_of list.now) places.entries) }
{
    let mut places = IndexMap::new(alloc);
    let mut k = list.len();
    while k > 0 {
        k -= 1;
        put(&mut places, list[k].full, k)?;
    }
    Ok(places)
}

/// The number of the full name of a type, where it has one.
pub fn number_of(ty: &Option<Ty>) -> Option<u32>
    ensures { result ≡ type_number (option_map ty_of ty.now) }
{
    match ty {
        Some(Ty::Named(full, _)) => Some(*full),
        _ => None,
    }
}

/// Whether a type has the method.
pub fn has_method(hierarchy: &Hierarchy, ty: &Ty, method: u32) -> bool
    ensures { result ≡ is_some (method_at hierarchy.now.types (ty_of ty.now) method) }
{
    match ty {
        Ty::Named(full, _) => hierarchy.method_of(*full, method).is_some(),
        _ => false,
    }
}

impl Bases {
    /// These classes.
    pub fn of(alloc: Global, list: Vec<Base>) -> Result<Self, AllocError>
        ensures { IfOk result (λ bases. bases_of bases ≡ map base_of list.items) }
    {
        let places = places_of(alloc, &list)?;
        Ok(Bases { list, places })
    }

    /// How many classes there are.
    pub fn len(&self) -> usize
        ensures { result ≡ length (bases_of self.now) }
    {
        self.list.len()
    }

    /// The first class of that full name.
    pub fn at(&self, full: u32) -> Option<&Base>
        ensures { option_map (λ b. base_of b.now) result ≡ base_at (bases_of self.now) full }
    {
        match self.places.get(&full) {
            Some(place) => self.list.get(*place),
            None => None,
        }
    }

    /// Whether a class that there may be has the method: its type has it, it is defined or declared there, or the class above it
    /// has it.
    pub fn knows(&self, hierarchy: &Hierarchy, class: Option<u32>, method: u32) -> bool
        ensures { result ≡ knows (length (bases_of self.now)) hierarchy.now.types (bases_of self.now) class method }
    {
        let mut left = self.list.len();
        let mut at = class;
        while left > 0 {
            let Some(full) = at else {
                return false;
            };
            let Some(base) = self.at(full) else {
                return false;
            };
            if has_method(hierarchy, &base.of, method) || base.methods.has(method) {
                return true;
            }
            at = base.inherits;
            left -= 1;
        }
        false
    }
}
