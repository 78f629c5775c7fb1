//! Declared types by their numbers.
ghost use Rattle.std.specs.Prelude.{◌≡◌, ◌∷◌, ◌++◌, [], map, option_map, length, slice_get, IfOk, None, Some, ◌<◌};
ghost use Rattle.th_type.specs.Declarations.{named_decl, decl_of, decls_of, super_of, find_decl, members_of};
ghost use Rattle.th_type.specs.Tables.{defs_of, entry_decl};
ghost use Rattle.th_type.specs.Rules.{NamesDiffer};

use crate::typedef::{Supertype, TypeDef};
use indexmap::IndexMap;
use std::alloc::{AllocError, Global};

/// Declared types with different numbers, in order. A contract sees the list of the declarations.
#[derive(Drop)]
pub(crate) struct Defs {
    map: IndexMap<u32, TypeDef>,
}

/// Puts a declared type last whose number is not there.
fn put(table: &mut IndexMap<u32, TypeDef>, def: TypeDef) -> Result<(), AllocError>
    requires { find_decl (map entry_decl table.old.entries) def.name ≡ None }
    ensures { IfOk result (λ _. map entry_decl table.new.entries ≡ map entry_decl table.old.entries ++ decl_of def ∷ []) }
{
    match table.insert(def.name, def) {
        Ok(_) => Ok(()),
        Err(_) => Err(AllocError),
    }
}

impl Defs {
    /// These declared types.
    pub(crate) fn of(alloc: Global, list: Vec<TypeDef>) -> Result<Defs, AllocError>
        requires { NamesDiffer (decls_of list.items) }
        ensures { IfOk result (λ defs. defs_of defs ≡ decls_of list.items) }
    {
        let mut map = IndexMap::new(alloc);
        for def in list {
            put(&mut map, def)?;
        }
        Ok(Defs { map })
    }

    /// The declared type with the number; None exactly where there is none.
    pub(crate) fn find(&self, name: u32) -> Option<&TypeDef>
        ensures { option_map (λ d. named_decl name d.now) result ≡ find_decl (defs_of self.now) name }
    {
        self.map.get(&name)
    }

    /// The list of supertypes of the declared type with the number; empty where there is none.
    pub(crate) fn members(&self, name: u32) -> &[Supertype]
        ensures { map super_of result.now ≡ members_of (defs_of self.now) name }
    {
        match self.find(name) {
            Some(def) => &def.supertypes,
            None => &[],
        }
    }

    /// How many declared types there are.
    pub(crate) fn len(&self) -> usize
        ensures { result ≡ length (defs_of self.now) }
    {
        self.map.len()
    }

    /// The number of the declared type at place `k`, and the type.
    pub(crate) fn at(&self, k: usize) -> (u32, &TypeDef)
        requires { k < length (defs_of self.now) }
        ensures { slice_get (defs_of self.now) k ≡ Some (named_decl result.0 result.1.now) }
    {
        match self.map.get_index(k) {
            Some((name, def)) => (*name, def),
            None => unreachable!(),
        }
    }
}
