//! The items that a text can name, by their names.
ghost use Rattle.std.specs.Prelude.{map};
ghost use Rattle.std.proofs.Props.{props};
ghost use Rattle.th_scope.specs.ItemView.{item_of};
ghost use Rattle.th_scope.specs.Places.{Named, Classed};

use crate::item::Item;
use indexmap::IndexMap;

/// The name of an item as a text writes it: the number of the interface's name where it stands there, and that of the item's own.
#[derive(Clone, Copy, Debug, PartialEq, Eq, Hash)]
pub(crate) struct Reference {
    pub(crate) from: Option<u32>,
    pub(crate) name: u32,
}

/// The items that a text can name, and the classes that these reach.
#[derive(Drop)]
pub struct Items {
    pub(crate) list: Vec<Item>,
    pub(crate) named: IndexMap<Reference, usize>,
    pub(crate) classes: IndexMap<u32, usize>,
    pub(crate) ghost by_name: { Named (map item_of list.items) named.entries } by { Prim.hlevel props },
    pub(crate) ghost by_class: { Classed (map item_of list.items) classes.entries } by { Prim.hlevel props },
}
