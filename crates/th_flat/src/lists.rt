//! Lists that contracts see as the list of their items.
ghost use Rattle.std.specs.Prelude.{◌≡◌, length, option_copied, slice_get};

use crate::module::{Class, FlatUnit, Iface};
use crate::op::FlatOp;
use std::marker::Model;
use th_tree::Name;

/// The operations of a unit. A contract sees the list of its items.
#[derive(Drop)]
pub struct OpList {
    ops: Vec<FlatOp>,
}

impl Model for OpList {
    ghost use Rattle.std.specs.Prelude.{List};
    ghost use Rattle.th_flat.specs.declared.op.FlatOp.{FlatOp};

    ghost Value = { List FlatOp };

    ghost view = { λ a. a.ops.items };
}

impl OpList {
    /// The list of these items. It takes no memory.
    pub fn of(items: Vec<FlatOp>) -> Self
        ensures { result ≡ items.items }
    {
        OpList { ops: items }
    }

    /// How many items the list has.
    pub fn len(&self) -> usize
        ensures { result ≡ length self.now }
    {
        self.ops.len()
    }

    /// The item at place `k`, from 0; None exactly where `k` is not below the length.
    pub fn get(&self, k: usize) -> Option<&FlatOp>
        ensures { option_copied result ≡ slice_get self.now k }
    {
        self.ops.get(k)
    }

    /// The items as a slice.
    pub fn as_slice(&self) -> &[FlatOp]
        ensures { result.now ≡ self.now }
    {
        &self.ops
    }

    /// The items. It takes no memory.
    pub fn into_items(self) -> Vec<FlatOp>
        ensures { result.items ≡ self }
    {
        self.ops
    }
}

/// A list of names. A contract sees the list of its items.
#[derive(Drop)]
pub struct NameList {
    names: Vec<Name>,
}

impl Model for NameList {
    ghost use Rattle.std.specs.Prelude.{List};
    ghost use Rattle.std.specs.Prelude.{ℕ};

    ghost Value = { List (List ℕ) };

    ghost view = { λ a. a.names.items };
}

impl NameList {
    /// The list of these items. It takes no memory.
    pub fn of(items: Vec<Name>) -> Self
        ensures { result ≡ items.items }
    {
        NameList { names: items }
    }

    /// How many items the list has.
    pub fn len(&self) -> usize
        ensures { result ≡ length self.now }
    {
        self.names.len()
    }

    /// The item at place `k`, from 0; None exactly where `k` is not below the length.
    pub fn get(&self, k: usize) -> Option<&Name>
        ensures { option_copied result ≡ slice_get self.now k }
    {
        self.names.get(k)
    }

    /// The items as a slice.
    pub fn as_slice(&self) -> &[Name]
        ensures { result.now ≡ self.now }
    {
        &self.names
    }

    /// The items. It takes no memory.
    pub fn into_items(self) -> Vec<Name>
        ensures { result.items ≡ self }
    {
        self.names
    }
}

/// A list of units. A contract sees the list of its items.
#[derive(Drop)]
pub struct FlatUnitList {
    units: Vec<FlatUnit>,
}

impl Model for FlatUnitList {
    ghost use Rattle.std.specs.Prelude.{List};
    ghost use Rattle.th_flat.specs.declared.module.FlatUnit.{FlatUnit};

    ghost Value = { List FlatUnit };

    ghost view = { λ a. a.units.items };
}

impl FlatUnitList {
    /// The list of these items. It takes no memory.
    pub fn of(items: Vec<FlatUnit>) -> Self
        ensures { result ≡ items.items }
    {
        FlatUnitList { units: items }
    }

    /// How many items the list has.
    pub fn len(&self) -> usize
        ensures { result ≡ length self.now }
    {
        self.units.len()
    }

    /// The item at place `k`, from 0; None exactly where `k` is not below the length.
    pub fn get(&self, k: usize) -> Option<&FlatUnit>
        ensures { option_copied result ≡ slice_get self.now k }
    {
        self.units.get(k)
    }

    /// The items as a slice.
    pub fn as_slice(&self) -> &[FlatUnit]
        ensures { result.now ≡ self.now }
    {
        &self.units
    }

    /// The items. It takes no memory.
    pub fn into_items(self) -> Vec<FlatUnit>
        ensures { result.items ≡ self }
    {
        self.units
    }
}

/// A list of classes. A contract sees the list of its items.
#[derive(Drop)]
pub struct ClassList {
    classes: Vec<Class>,
}

impl Model for ClassList {
    ghost use Rattle.std.specs.Prelude.{List};
    ghost use Rattle.th_flat.specs.declared.module.Class.{Class};

    ghost Value = { List Class };

    ghost view = { λ a. a.classes.items };
}

impl ClassList {
    /// The list of these items. It takes no memory.
    pub fn of(items: Vec<Class>) -> Self
        ensures { result ≡ items.items }
    {
        ClassList { classes: items }
    }

    /// How many items the list has.
    pub fn len(&self) -> usize
        ensures { result ≡ length self.now }
    {
        self.classes.len()
    }

    /// The item at place `k`, from 0; None exactly where `k` is not below the length.
    pub fn get(&self, k: usize) -> Option<&Class>
        ensures { option_copied result ≡ slice_get self.now k }
    {
        self.classes.get(k)
    }

    /// The items as a slice.
    pub fn as_slice(&self) -> &[Class]
        ensures { result.now ≡ self.now }
    {
        &self.classes
    }

    /// The items. It takes no memory.
    pub fn into_items(self) -> Vec<Class>
        ensures { result.items ≡ self }
    {
        self.classes
    }
}

/// A list of interfaces. A contract sees the list of its items.
#[derive(Drop)]
pub struct IfaceList {
    interfaces: Vec<Iface>,
}

impl Model for IfaceList {
    ghost use Rattle.std.specs.Prelude.{List};
    ghost use Rattle.th_flat.specs.declared.module.Iface.{Iface};

    ghost Value = { List Iface };

    ghost view = { λ a. a.interfaces.items };
}

impl IfaceList {
    /// The list of these items. It takes no memory.
    pub fn of(items: Vec<Iface>) -> Self
        ensures { result ≡ items.items }
    {
        IfaceList { interfaces: items }
    }

    /// How many items the list has.
    pub fn len(&self) -> usize
        ensures { result ≡ length self.now }
    {
        self.interfaces.len()
    }

    /// The item at place `k`, from 0; None exactly where `k` is not below the length.
    pub fn get(&self, k: usize) -> Option<&Iface>
        ensures { option_copied result ≡ slice_get self.now k }
    {
        self.interfaces.get(k)
    }

    /// The items as a slice.
    pub fn as_slice(&self) -> &[Iface]
        ensures { result.now ≡ self.now }
    {
        &self.interfaces
    }

    /// The items. It takes no memory.
    pub fn into_items(self) -> Vec<Iface>
        ensures { result.items ≡ self }
    {
        self.interfaces
    }
}
