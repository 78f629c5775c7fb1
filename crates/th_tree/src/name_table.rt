//! Numbers of names.
ghost use Rattle.std.specs.Prelude.{◌≡◌, ◌<◌, ◌≤◌, ◌-◌, ◌^◌, [], length, IfOk, OnErr, MatchOption, slice_get, Some};
ghost use Rattle.th_tree.specs.Names.{with_name, place_of};

use indexmap::IndexSet;
use std::alloc::{AllocError, Global};
use std::marker::Model;

/// Names, each with a number: its place, from 0. A contract sees the list of the names.
#[derive(Drop)]
pub struct NameTable {
    names: IndexSet<Vec<u8>>,
}

impl Model for NameTable {
    ghost use Rattle.std.specs.Prelude.{ℕ, List};
    ghost use Rattle.th_tree.specs.Names.{all_bytes};

    ghost Value = { List (List ℕ) };

    ghost view = { λ a. all_bytes a.names.keys };
}

impl NameTable {
    /// The table without names. It takes no memory.
    pub fn new(alloc: Global) -> Self
        ensures { result ≡ [] }
    {
        NameTable {
            names: IndexSet::new(alloc),
        }
    }

    /// How many names there are.
    pub fn len(&self) -> usize
        ensures { result ≡ length self.now }
    {
        self.names.len()
    }

    /// The number of the name, which is appended where it is new. The table stays as it was where memory runs out.
    pub fn number(&mut self, alloc: Global, name: &[u8]) -> Result<u32, AllocError>
        requires { length self.old < 2 ^ 32 - 1 }
        ensures number { IfOk result (λ number. number ≡ place_of self.old name.now) }
        ensures names { IfOk result (λ _. self.new ≡ with_name self.old name.now) }
        ensures there { IfOk result (λ number. slice_get self.new number ≡ Some name.now) }
        ensures unchanged { OnErr result (self.new ≡ self.old) }
    {
        match self.names.get_index_of(name) {
            Some(place) => Ok(place as u32),
            None => {
                let place = self.names.len();
                let owned = Vec::from_slice(alloc, name)?;
                self.names.insert(owned).map_err(|_| AllocError)?;
                Ok(place as u32)
            }
        }
    }

    /// The name with the number; None exactly where the number is not below the count.
    pub fn name(&self, number: u32) -> Option<&[u8]>
        ensures { MatchOption result (length self.now ≤ number) (λ name. slice_get self.now number ≡ Some name.now) }
    {
        match self.names.get_index(number as usize) {
            Some(name) => Some(name.as_slice()),
            None => None,
        }
    }
}
