//! Lists that contracts see as the list of their items.
ghost use Rattle.std.specs.Prelude.{◌≡◌, ℕ, List, length, option_copied, slice_get, IfOk};

use std::alloc::{AllocError, Global};
use std::marker::Model;

/// A list of numbers of 32 bits. A contract sees the list of its items.
#[derive(Drop)]
pub struct NumberList {
    numbers: Vec<u32>,
}

impl Model for NumberList {
    ghost Value = { List ℕ };

    ghost view = { λ a. a.numbers.items };
}

impl NumberList {
    /// The list of these items. It takes no memory.
    pub fn of(items: Vec<u32>) -> Self
        ensures { result ≡ items.items }
    {
        NumberList { numbers: items }
    }

    /// How many items the list has.
    pub fn len(&self) -> usize
        ensures { result ≡ length self.now }
    {
        self.numbers.len()
    }

    /// The item at place `k`, from 0; None exactly where `k` is not below the length.
    pub fn get(&self, k: usize) -> Option<&u32>
        ensures { option_copied result ≡ slice_get self.now k }
    {
        self.numbers.get(k)
    }

    /// A second list of the same items.
    pub fn try_clone(&self, alloc: Global) -> Result<NumberList, AllocError>
        ensures { IfOk result (λ list. list ≡ self.now) }
    {
        let numbers = Vec::from_slice(alloc, &self.numbers)?;
        Ok(NumberList { numbers })
    }

    /// The items as a slice.
    pub fn as_slice(&self) -> &[u32]
        ensures { result.now ≡ self.now }
    {
        &self.numbers
    }
}
