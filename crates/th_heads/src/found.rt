//! The items that can be found by name in a text, and what a reference means there. docs/LANGUAGE.md, "Names and scopes" and
//! "Rules of modules", states it.
ghost use Rattle.std.specs.Prelude.{◌≡◌, ◌∷◌, ◌++◌, [], map, IfOk, OnOk};
ghost use Rattle.indexmap.specs.IndexMap.{insert_entry};
ghost use Rattle.th_hier.specs.Naming.{bare_meaning, full_meaning, is_number, item_at, item_in, meaning, own_or, same_item};
ghost use Rattle.th_hier.specs.Texts.{within};
ghost use Rattle.th_heads.specs.Adding.{with_own};

use indexmap::IndexMap;
use std::alloc::{AllocError, Global};
use std::marker::Model;
use th_hier::{Entry, Home, Index, ItemName, Numbers, Referent};
use th_tree::{Ident, RefTree};

/// The own items of a module by name. A contract sees the list of the items with their names.
#[derive(Drop)]
pub struct OwnItems {
    items: IndexMap<ItemName, Entry>,
}

impl Model for OwnItems {
    ghost use Rattle.th_hier.specs.Naming.{Items};

    ghost Value = { Items };

    ghost view = { λ a. a.items.entries };
}

/// The items that can be found by name in a text: its own, and those of interfaces. A contract sees the list of them, the own
/// ones first.
#[derive(Drop)]
pub struct Found<'a> {
    own: OwnItems,
    index: &'a Index,
}

impl<'a> Model for Found<'a> {
    ghost use Rattle.std.specs.Prelude.{◌++◌};
    ghost use Rattle.th_hier.specs.Naming.{Items};

    ghost Value = { Items };

    ghost view = { λ a. a.own ++ a.index.now };
}

/// What can be seen in an item of a text: what can be seen outside its items, and its type parameters.
#[derive(Drop)]
pub struct Sight<'a> {
    home: &'a Home,
    params: Numbers,
}

impl<'a> Model for Sight<'a> {
    ghost use Rattle.th_hier.specs.Naming.{Visible};

    ghost Value = { Visible };

    ghost view = { λ a. record { text = a.home.now.text; implements = a.home.now.implements; uses = a.home.now.uses; params = a.params } };
}

impl<'a> Sight<'a> {
    /// What can be seen in an item with these type parameters.
    pub fn of(alloc: Global, home: &'a Home, params: &[Ident]) -> Result<Self, AllocError>
        ensures { IfOk result (λ s. s ≡ within home.now params.now) }
    {
        let names = names_of(alloc, params)?;
        Ok(Sight {
            home,
            params: Numbers::of(alloc, &names)?,
        })
    }

    /// The type parameters, by the numbers of their names.
    pub fn params(&self) -> &Numbers
        ensures { result.now ≡ self.now.params }
    {
        &self.params
    }
}

/// The numbers of the names.
pub fn names_of(alloc: Global, names: &[Ident]) -> Result<Vec<u32>, AllocError>
    ensures { IfOk result (λ r. r.items ≡ map (λ i. i.name) names.now) }
{
    names.iter().map(|name| name.name).collect(alloc)
}

impl OwnItems {
    /// No item.
    pub fn new(alloc: Global) -> Self
        ensures { result ≡ [] }
    {
        OwnItems {
            items: IndexMap::new(alloc),
        }
    }

    /// The item with the name.
    pub fn get(&self, name: ItemName) -> Option<Entry>
        ensures { result ≡ item_at self.now name }
    {
        self.items.get(&name).copied()
    }

    /// Adds an item, unless one has its name.
    pub fn add(&mut self, name: ItemName, entry: Entry) -> Result<(), AllocError>
        ensures { OnOk result (self.new ≡ with_own self.old name entry) }
    {
        if self.get(name).is_some() {
            return Ok(());
        }
        self.insert(name, entry)
    }

    /// Puts the item where its name is, and last where it is nowhere.
    fn insert(&mut self, name: ItemName, entry: Entry) -> Result<(), AllocError>
        ensures { OnOk result (self.new ≡ insert_entry same_item self.old name entry) }
    {
        match self.items.insert(name, entry) {
            Ok(_) => Ok(()),
            Err(_) => Err(AllocError),
        }
    }
}

impl<'a> Found<'a> {
    /// These own items before those of interfaces.
    pub fn of(own: OwnItems, index: &'a Index) -> Self
        ensures { result ≡ own ++ index.now }
    {
        Found { own, index }
    }

    /// The first item with the name.
    #[tactic(auto, using(crate::proofs::Finding::item_in_both))]
    pub fn get(&self, name: ItemName) -> Option<Entry>
        ensures { result ≡ item_at self.now name }
    {
        match self.own.get(name) {
            Some(entry) => Some(entry),
            None => self.index.get(name),
        }
    }

    /// The item of that name of the interface, where there is an interface.
    pub fn get_in(&self, interface: Option<u32>, name: u32) -> Option<Entry>
        ensures { result ≡ item_in self.now interface name }
    {
        match interface {
            None => None,
            Some(interface) => self.get(ItemName { interface, name }),
        }
    }

    /// What a bare name means.
    fn bare_meaning(&self, sight: &Sight<'_>, name: u32) -> Referent
        ensures { result ≡ bare_meaning self.now sight.now name }
    {
        match sight.params.place(name) {
            Some(place) => Referent::Param(place),
            None => {
                let home = sight.home;
                item_meaning(
                    self.get_in(home.text, name),
                    self.get_in(home.implements, name),
                )
            }
        }
    }

    /// What `I$n` means.
    fn full_meaning(&self, sight: &Sight<'_>, interface: u32, name: u32) -> Referent
        ensures { result ≡ full_meaning self.now sight.now interface name }
    {
        let home = sight.home;
        if home.uses.has(interface) || is_number(home.implements, interface) {
            item_meaning(self.get(ItemName { interface, name }), None)
        } else {
            Referent::Nothing
        }
    }

    /// What a reference means.
    pub fn meaning(&self, sight: &Sight<'_>, named: &RefTree) -> Referent
        ensures { result ≡ meaning self.now sight.now named.now }
    {
        match named.second {
            None => self.bare_meaning(sight, named.first.name),
            Some(second) => self.full_meaning(sight, named.first.name, second.name),
        }
    }
}

/// Whether the number is there and is the other.
fn is_number(number: Option<u32>, other: u32) -> bool
    ensures { result ≡ is_number number other }
{
    match number {
        None => false,
        Some(number) => number == other,
    }
}

/// The text's own item, else that of the implemented interface.
fn item_meaning(own: Option<Entry>, implemented: Option<Entry>) -> Referent
    ensures { result ≡ own_or own implemented }
{
    match own {
        Some(entry) => Referent::Item(entry),
        None => match implemented {
            Some(entry) => Referent::Item(entry),
            None => Referent::Nothing,
        },
    }
}
