//! Different numbers, in the order in which they came.
ghost use Rattle.std.specs.Prelude.{◌≡◌, nat_eq, position, not, [], IfOk, OnOk};
ghost use Rattle.th_hier.specs.Naming.{has, with_number, different};

use indexmap::IndexSet;
use std::alloc::{AllocError, Global};
use std::marker::Model;

/// Different numbers, in the order in which they came. A contract sees the list of the numbers.
#[derive(Drop)]
pub struct Numbers {
    set: IndexSet<u32>,
}

impl Model for Numbers {
    ghost use Rattle.std.specs.Prelude.{ℕ, List, ◌<◌, ◌^◌, length};

    ghost Value = { List ℕ };

    ghost view = { λ a. a.set.keys };

    ghost invariant = { λ a. length a.set.keys < 2 ^ 32 };
}

impl Numbers {
    /// No number.
    pub fn new(alloc: Global) -> Self
        ensures { result ≡ [] }
    {
        Numbers {
            set: IndexSet::new(alloc),
        }
    }

    /// These numbers, each once.
    pub fn of(alloc: Global, numbers: &[u32]) -> Result<Self, AllocError>
        ensures { IfOk result (λ r. r ≡ different numbers.now) }
    {
        let mut found = Numbers::new(alloc);
        for number in numbers {
            found.add(*number)?;
        }
        Ok(found)
    }

    /// Adds the number, and says whether it is new. More than 2^32 - 1 numbers are want of memory.
    pub fn add(&mut self, number: u32) -> Result<bool, AllocError>
        ensures new { IfOk result (λ new. new ≡ not (has self.old number)) }
        ensures numbers { OnOk result (self.new ≡ with_number self.old number) }
    {
        if self.set.len() >= 0xffff_ffff {
            return Err(AllocError);
        }
        self.set.insert(number).map_err(|_| AllocError)
    }

    /// Whether the number is among them.
    pub fn has(&self, number: u32) -> bool
        ensures { result ≡ has self.now number }
    {
        self.set.contains(&number)
    }

    /// The place of the number, from 0; None exactly where it is not among them.
    pub fn place(&self, number: u32) -> Option<u32>
        ensures { result ≡ position (nat_eq number) self.now }
    {
        match self.set.get_index_of(&number) {
            Some(place) => Some(place as u32),
            None => None,
        }
    }
}

/// The number as one of 32 bits; a greater one is want of memory.
pub fn small(number: usize) -> Result<u32, AllocError>
    ensures { IfOk result (λ r. r ≡ number) }
{
    match u32::try_from(number) {
        Ok(number) => Ok(number),
        Err(_) => Err(AllocError),
    }
}
