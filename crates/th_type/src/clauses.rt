//! Lists of where-clauses and of what stands for them.
ghost use Rattle.std.specs.Prelude.{◌≡◌, length, map, option_copied, option_map, slice_get};
ghost use Rattle.th_type.specs.Signatures.{clause_of};

use crate::sig::{Clause, Supply};
use std::marker::Model;

/// A list of where-clauses. A contract sees the list of its items, as constraints.
#[derive(Drop)]
pub struct ClauseList {
    clauses: Vec<Clause>,
}

impl Model for ClauseList {
    ghost use Rattle.std.specs.Prelude.{List, map};
    ghost use Rattle.std.specs.Coded.{coded_list};
    ghost use Rattle.th_type.specs.Signatures.{Constraint, clause_of};
    ghost use Rattle.th_type.specs.Codes.{coded_constraint};

    ghost Value = { List Constraint };

    ghost coded = { coded_list coded_constraint };

    ghost view = { λ a. map clause_of a.clauses.items };
}

impl ClauseList {
    /// The list of these items. It takes no memory.
    pub fn of(items: Vec<Clause>) -> Self
        ensures { result ≡ map clause_of items.items }
    {
        ClauseList { clauses: items }
    }

    /// How many items the list has.
    pub fn len(&self) -> usize
        ensures { result ≡ length self.now }
    {
        self.clauses.len()
    }

    /// The item at place `k`, from 0; None exactly where `k` is not below the length.
    pub fn get(&self, k: usize) -> Option<&Clause>
        ensures { option_map (λ c. clause_of c.now) result ≡ slice_get self.now k }
    {
        self.clauses.get(k)
    }

    /// The items as a slice.
    pub fn as_slice(&self) -> &[Clause]
        ensures { map clause_of result.now ≡ self.now }
    {
        &self.clauses
    }
}

/// A list of what stands for where-clauses. A contract sees the list of its items.
#[derive(Drop)]
pub struct SupplyList {
    supplies: Vec<Supply>,
}

impl Model for SupplyList {
    ghost use Rattle.std.specs.Prelude.{List};
    ghost use Rattle.th_type.specs.declared.sig.Supply.{Supply};

    ghost Value = { List Supply };

    ghost view = { λ a. a.supplies.items };
}

impl SupplyList {
    /// The list of these items. It takes no memory.
    pub fn of(items: Vec<Supply>) -> Self
        ensures { result ≡ items.items }
    {
        SupplyList { supplies: items }
    }

    /// How many items the list has.
    pub fn len(&self) -> usize
        ensures { result ≡ length self.now }
    {
        self.supplies.len()
    }

    /// The item at place `k`, from 0; None exactly where `k` is not below the length.
    pub fn get(&self, k: usize) -> Option<&Supply>
        ensures { option_copied result ≡ slice_get self.now k }
    {
        self.supplies.get(k)
    }

    /// The items as a slice.
    pub fn as_slice(&self) -> &[Supply]
        ensures { result.now ≡ self.now }
    {
        &self.supplies
    }
}
