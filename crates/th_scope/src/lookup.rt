//! Look-ups of items by their names.
ghost use Rattle.std.specs.Prelude.{◌≡◌, length, map, nat_eq, option_map, IfOk, OnOk};
ghost use Rattle.indexmap.specs.IndexMap.{insert_entry};
ghost use Rattle.th_rules.specs.Context.{find_item};
ghost use Rattle.th_rules.specs.Classes.{class_at};
ghost use Rattle.th_scope.specs.Places.{same_reference, class_in, Named, Classed};
ghost use Rattle.th_scope.specs.View.{item_of, items_of, class_of};

use crate::item::{ClassItem, Head, Item};
use crate::items::{Items, Reference};
use indexmap::IndexMap;
use std::alloc::{AllocError, Global};

impl Items {
    /// These items.
    pub fn of(alloc: Global, list: Vec<Item>) -> Result<Self, AllocError>
        ensures { IfOk result (λ items. items_of items ≡ map item_of list.items) }
    {
        let named = places_of_names(alloc, &list)?;
        let classes = places_of_classes(alloc, &list)?;
        Ok(Items {
            list,
            named,
            classes,
        })
    }

    /// How many items there are.
    pub fn len(&self) -> usize
        ensures { result ≡ length (items_of self.now) }
    {
        self.list.len()
    }

    /// The first item of that name: one of the text's own, or of the interface.
    pub fn find(&self, from: Option<u32>, name: u32) -> Option<&Item>
        ensures { option_map (λ i. item_of i.now) result ≡ find_item (items_of self.now) from name }
    {
        match self.named.get(&Reference { from, name }) {
            Some(place) => self.list.get(*place),
            None => None,
        }
    }

    /// The first class of that full name.
    pub fn class_at(&self, full: u32) -> Option<&ClassItem>
        ensures { option_map (λ c. class_of c.now) result ≡ class_at (items_of self.now) full }
    {
        match self.classes.get(&full) {
            Some(place) => class_in(self.list.get(*place)),
            None => None,
        }
    }
}

/// The class that the item is, where there is an item and it is one.
fn class_in(item: Option<&Item>) -> Option<&ClassItem>
    ensures { option_map (λ c. class_of c.now) result ≡ class_in (option_map (λ i. item_of i.now) item.entry) }
{
    match item {
        Some(item) => match &item.head {
            Head::Class(class) => Some(class),
            _ => None,
        },
        None => None,
    }
}

/// For each name the place of the first item that has it.
fn places_of_names(alloc: Global, list: &[Item]) -> Result<IndexMap<Reference, usize>, AllocError>
    ensures { IfOk result (λ places. Named (map item_of list.now) places.entries) }
{
    let mut places = IndexMap::new(alloc);
    let mut k = list.len();
    while k > 0 {
        k -= 1;
        let item = &list[k];
        put(
            &mut places,
            Reference {
                from: item.from,
                name: item.name,
            },
            k,
        )?;
    }
    Ok(places)
}

/// For each full name of a class the place of the first class that has it.
fn places_of_classes(alloc: Global, list: &[Item]) -> Result<IndexMap<u32, usize>, AllocError>
    ensures { IfOk result (λ places. Classed (map item_of list.now) places.entries) }
{
    let mut places = IndexMap::new(alloc);
    let mut k = list.len();
    while k > 0 {
        k -= 1;
        let item = &list[k];
        if let Head::Class(_) = &item.head {
            put_number(&mut places, item.full, k)?;
        }
    }
    Ok(places)
}

/// Puts the place of a name.
fn put(
    places: &mut IndexMap<Reference, usize>,
    name: Reference,
    place: usize,
) -> Result<(), AllocError>
    ensures { OnOk result (places.new.entries ≡ insert_entry same_reference places.old.entries name place) }
{
    match places.insert(name, place) {
        Ok(_) => Ok(()),
        Err(_) => Err(AllocError),
    }
}

/// Puts the place of a number.
fn put_number(
    places: &mut IndexMap<u32, usize>,
    number: u32,
    place: usize,
) -> Result<(), AllocError>
    ensures { OnOk result (places.new.entries ≡ insert_entry nat_eq places.old.entries number place) }
{
    match places.insert(number, place) {
        Ok(_) => Ok(()),
        Err(_) => Err(AllocError),
    }
}
