//! The supertypes that a declared type reaches.
ghost use Rattle.std.specs.Prelude.{◌≡◌, ◌∷◌, ◌++◌, [], length, slice_get, OnOk, IfOk, None, Some, ◌<◌, nat_eq, option_copied, ℕ, List, ◌≤◌, ◌^◌};
ghost use Rattle.std.specs.Map.{lookup};
ghost use Rattle.th_type.specs.Types.{TypeExprs, named_ty, ty_of};
ghost use Rattle.th_type.specs.Tables.{above_of, up_of, is_reached, table_subtype};

use crate::pool::Pool;
use crate::ty::{Args, Ty};
use indexmap::IndexMap;
use std::alloc::{AllocError, Global};

/// Declared types, each once, and for each its arguments, by the number of a list of a pool.
#[derive(Drop)]
pub(crate) struct Above {
    map: IndexMap<u32, u32>,
}

impl Above {
    /// No types.
    pub(crate) fn new(alloc: Global) -> Above
        ensures { result.map.entries ≡ [] }
    {
        Above {
            map: IndexMap::new(alloc),
        }
    }

    /// How many types there are.
    pub(crate) fn len(&self) -> usize
        ensures count { result ≡ length self.now.map.entries }
        ensures small { result < 2 ^ 63 }
    {
        self.map.len()
    }

    /// The arguments of the declared type with the number; None exactly where it is not there.
    pub(crate) fn find(&self, name: u32) -> Option<u32>
        ensures { result ≡ lookup (nat_eq name) self.now.map.entries }
    {
        self.map.get(&name).copied()
    }

    /// The number and the arguments of the type at place `k`.
    pub(crate) fn entry_at(&self, k: usize) -> (u32, u32)
        requires { k < length self.now.map.entries }
        ensures { slice_get self.now.map.entries k ≡ Some result }
    {
        match self.map.get_index(k) {
            Some((name, list)) => (*name, *list),
            None => unreachable!(),
        }
    }

    /// The number of the declared type at place `k`.
    pub(crate) fn name_at(&self, k: usize) -> u32
        requires { k < length self.now.map.entries }
        ensures { (ts : List TypeExprs) → (args : TypeExprs) × (slice_get (above_of ts self.now) k ≡ Some (named_ty result args)) }
    {
        self.entry_at(k).0
    }

    /// Puts a declared type that is not there last.
    pub(crate) fn push(&mut self, name: u32, list: u32) -> Result<(), AllocError>
        requires { lookup (nat_eq name) self.old.map.entries ≡ None }
        ensures { OnOk result (self.new.map.entries ≡ self.old.map.entries ++ (name, list) ∷ []) }
    {
        match self.map.insert(name, list) {
            Ok(_) => Ok(()),
            Err(_) => Err(AllocError),
        }
    }
}

/// For each declared type the supertypes that it reaches, and the pool with their arguments.
#[derive(Drop)]
pub(crate) struct Ancestors {
    pub(crate) pool: Pool,
    pub(crate) map: IndexMap<u32, Above>,
}

impl Ancestors {
    /// No declared types.
    pub(crate) fn new(alloc: Global) -> Ancestors
        ensures { result.map.entries ≡ [] }
    {
        Ancestors {
            pool: Pool::new(alloc),
            map: IndexMap::new(alloc),
        }
    }

    /// The supertypes that the declared type with the number reaches; None where it is not there.
    pub(crate) fn find(&self, name: u32) -> Option<&Above>
        ensures { option_copied result ≡ lookup (nat_eq name) self.now.map.entries }
    {
        self.map.get(&name)
    }

    /// Puts a declared type that is not there last.
    pub(crate) fn put(&mut self, name: u32, above: Above) -> Result<(), AllocError>
        requires { lookup (nat_eq name) self.old.map.entries ≡ None }
        ensures entries { IfOk result (λ _. self.new.map.entries ≡ self.old.map.entries ++ (name, above) ∷ []) }
        ensures pool { self.new.pool ≡ self.old.pool }
    {
        match self.map.insert(name, above) {
            Ok(_) => Ok(()),
            Err(_) => Err(AllocError),
        }
    }

    /// Whether the first type is a subtype of the second, by the table.
    pub(crate) fn is_subtype(&self, a: &Ty, b: &Ty) -> bool
        ensures { result ≡ table_subtype (up_of self.now) (ty_of a.now) (ty_of b.now) }
    {
        a.is_same(b) || self.is_above(a, b)
    }

    /// Whether the first type is a declared type that reaches the second.
    fn is_above(&self, a: &Ty, b: &Ty) -> bool
        ensures { result ≡ is_reached (up_of self.now) (ty_of a.now) (ty_of b.now) }
    {
        let (Ty::Named(name, args), Ty::Named(other, others)) = (a, b) else {
            return false;
        };
        match self.find(*name) {
            Some(above) => match above.find(*other) {
                Some(list) => self.pool.list_is(list, Args::List(args), others),
                None => false,
            },
            None => false,
        }
    }

    /// How many supertypes the declared type with the number reaches.
    pub(crate) fn rank(&self, name: u32) -> usize
        ensures { result ≡ length (up_of self.now name) }
    {
        match self.find(name) {
            Some(above) => above.len(),
            None => 0,
        }
    }

    /// How many supertypes a declared type reaches at most.
    pub(crate) fn highest(&self) -> usize
        ensures bound { (n : ℕ) → length (up_of self.now n) ≤ result }
        ensures small { result < 2 ^ 63 }
    {
        let mut highest: usize = 0;
        for k in 0..self.map.len() {
            match self.map.get_index(k) {
                Some((_, above)) => highest = highest.max(above.len()),
                None => unreachable!(),
            }
        }
        highest
    }
}
