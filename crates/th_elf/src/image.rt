//! A program's image: its code, its tables and the places of its units.
ghost use Rattle.std.specs.Prelude.{◌≡◌, ℕ, List, length, option_copied, slice_get};

use crate::lists::{ByteList, NumberList};
use std::marker::Model;

/// A unit of the program and the address of its first instruction.
#[derive(Drop)]
pub struct Map {
    /// The address of the unit's first instruction.
    pub at: u32,
    /// The unit's full name.
    pub unit: ByteList,
}

/// A list of units with their addresses. A contract sees the list of its items.
#[derive(Drop)]
pub struct MapList {
    maps: Vec<Map>,
}

impl Model for MapList {
    ghost use Rattle.std.specs.Prelude.{List};
    ghost use Rattle.th_elf.specs.declared.image.Map.{Map};

    ghost Value = { List Map };

    ghost view = { λ a. a.maps.items };
}

impl MapList {
    /// The list of these items. It takes no memory.
    pub fn of(items: Vec<Map>) -> Self
        ensures { result ≡ items.items }
    {
        MapList { maps: items }
    }

    /// How many items the list has.
    pub fn len(&self) -> usize
        ensures { result ≡ length self.now }
    {
        self.maps.len()
    }

    /// The item at place `k`, from 0; None exactly where `k` is not below the length.
    pub fn get(&self, k: usize) -> Option<&Map>
        ensures { option_copied result ≡ slice_get self.now k }
    {
        self.maps.get(k)
    }

    /// The items as a slice.
    pub fn as_slice(&self) -> &[Map]
        ensures { result.now ≡ self.now }
    {
        &self.maps
    }
}

/// A program that is linked: what is loaded at 0x00010000, and where its units stand.
#[derive(Drop)]
pub struct Image {
    /// The code words, from address 0x00010000 on.
    pub code: NumberList,
    /// The bytes after the code: tables and names.
    pub tables: ByteList,
    /// The address of the first instruction.
    pub entry: u32,
    /// The units with the addresses of their first instructions.
    pub map: MapList,
}
