//! Where the heads of the classes stand that interfaces declare.
ghost use Rattle.std.specs.Prelude.{◌≡◌, [], length, map, IfOk, OnOk};
ghost use Rattle.indexmap.specs.IndexMap.{insert_entry};
ghost use Rattle.th_tree.specs.DeclView.{interface_item_of, interface_of};
ghost use Rattle.th_hier.specs.Naming.{same_item};
ghost use Rattle.th_program.specs.Programs.{with_texts};
ghost use Rattle.th_checked.specs.Noting.{head_place, place_at, with_all, with_head, with_heads, with_place};

use indexmap::IndexMap;
use std::alloc::{AllocError, Global};
use std::marker::Model;
use th_hier::ItemName;
use th_tree::{Interface, InterfaceItem};
use th_type::Place;

/// Where the heads of classes of interfaces begin, by their names. A contract sees the list of the places with the names.
#[derive(Drop)]
pub(crate) struct Places {
    places: IndexMap<ItemName, Place>,
}

impl Model for Places {
    ghost use Rattle.th_checked.specs.Noting.{Places};

    ghost Value = { Places };

    ghost view = { λ a. a.places.entries };
}

impl Places {
    /// No place.
    fn new(alloc: Global) -> Self
        ensures { result ≡ [] }
    {
        Places {
            places: IndexMap::new(alloc),
        }
    }

    /// Where the head of the class of that name begins.
    fn get(&self, name: ItemName) -> Option<Place>
        ensures { result ≡ place_at self.now name }
    {
        self.places.get(&name).copied()
    }

    /// Where the head of the class of that name begins, where there is an interface and it has the class.
    pub(crate) fn get_in(&self, interface: Option<u32>, name: u32) -> Option<Place>
        ensures { result ≡ head_place self.now interface name }
    {
        match interface {
            None => None,
            Some(interface) => self.get(ItemName { interface, name }),
        }
    }

    /// Puts the place where its name is, and last where it is nowhere.
    fn insert(&mut self, name: ItemName, place: Place) -> Result<(), AllocError>
        ensures { OnOk result (self.new ≡ insert_entry same_item self.old name place) }
    {
        match self.places.insert(name, place) {
            Ok(_) => Ok(()),
            Err(_) => Err(AllocError),
        }
    }

    /// Adds a class, unless one has its name.
    fn add(&mut self, name: ItemName, place: Place) -> Result<(), AllocError>
        ensures { OnOk result (self.new ≡ with_place self.old name place) }
    {
        if self.get(name).is_some() {
            return Ok(());
        }
        self.insert(name, place)
    }

    /// Adds the class that an item of an interface is.
    fn add_item(
        &mut self,
        text: u32,
        interface: u32,
        item: &InterfaceItem,
    ) -> Result<(), AllocError>
        ensures { OnOk result (self.new ≡ with_head text interface self.old (interface_item_of item.now)) }
    {
        match item {
            InterfaceItem::Exception(_) => Ok(()),
            InterfaceItem::Type(_) => Ok(()),
            InterfaceItem::Class(class) => {
                let name = class.head.name.name;
                let at = class.head.at;
                self.add(ItemName { interface, name }, Place { text, at })
            }
            InterfaceItem::Routine(_) => Ok(()),
        }
    }

    /// Adds the classes among items of an interface.
    fn add_items(
        &mut self,
        text: u32,
        interface: u32,
        items: &[InterfaceItem],
    ) -> Result<(), AllocError>
        ensures { OnOk result (self.new ≡ with_heads text interface self.old (map interface_item_of items.now)) }
    {
        for item in items {
            self.add_item(text, interface, item)?;
        }
        Ok(())
    }

    /// Adds the classes of an interface.
    fn add_interface(&mut self, text: u32, interface: &Interface) -> Result<(), AllocError>
        ensures { OnOk result (self.new ≡ with_heads text (interface_of interface.now).name.name self.old (interface_of interface.now).items) }
    {
        self.add_items(text, interface.name.name, &interface.items)
    }

    /// Where the heads of the classes of interfaces begin; each interface is the text of its number.
    pub(crate) fn of(
        alloc: Global,
        texts: &[u32],
        interfaces: &[Interface],
    ) -> Result<Self, AllocError>
        requires { length texts.now ≡ length interfaces.now }
        ensures { IfOk result (λ r. r ≡ with_all [] (with_texts texts.now (map interface_of interfaces.now))) }
    {
        let mut found = Places::new(alloc);
        for (k, interface) in interfaces.iter().enumerate() {
            found.add_interface(texts[k], interface)?;
        }
        Ok(found)
    }
}
