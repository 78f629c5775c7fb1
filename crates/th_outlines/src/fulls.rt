//! The numbers of the full names of the items of interfaces.
ghost use Rattle.std.specs.Prelude.{◌≡◌, ℕ, List, [], map, IfOk, OnOk};
ghost use Rattle.th_tree.specs.DeclView.{interface_item_of, interface_of};
ghost use Rattle.th_hier.specs.Naming.{has};
ghost use Rattle.th_hier.specs.Numbering.{full_numbers};
ghost use Rattle.th_hier.specs.Spots.{item_name};
ghost use Rattle.th_hier.specs.Hierarchies.{items_of};
ghost use Rattle.th_outlines.specs.Fulls.{with_entry, with_interfaces, with_items};

use std::alloc::{AllocError, Global};
use th_hier::{Entry, Index, Numbers};
use th_tree::{Interface, InterfaceItem};

/// The number of the name of an item of an interface.
fn item_name(item: &InterfaceItem) -> u32
    ensures { result ≡ (item_name (interface_item_of item.now)).name }
{
    match item {
        InterfaceItem::Exception(exception) => exception.name.name,
        InterfaceItem::Type(decl) => decl.name.name,
        InterfaceItem::Class(class) => class.head.name.name,
        InterfaceItem::Routine(head) => head.name.name,
    }
}

/// Adds the number of the full name of an item, where the item is there.
fn add_entry(fulls: &mut Numbers, entry: Option<Entry>) -> Result<(), AllocError>
    ensures { OnOk result (fulls.new ≡ with_entry fulls.old entry) }
{
    match entry {
        None => Ok(()),
        Some(entry) => {
            fulls.add(entry.full)?;
            Ok(())
        }
    }
}

/// Adds the numbers of the full names of items of an interface.
fn add_items(
    fulls: &mut Numbers,
    index: &Index,
    interface: u32,
    items: &[InterfaceItem],
) -> Result<(), AllocError>
    ensures { OnOk result (fulls.new ≡ with_items index.now fulls.old interface (map interface_item_of items.now)) }
{
    for item in items {
        add_entry(fulls, index.get_in(Some(interface), item_name(item)))?;
    }
    Ok(())
}

/// The numbers of the full names of the items of interfaces, found by name.
fn found_fulls(
    alloc: Global,
    index: &Index,
    interfaces: &[Interface],
) -> Result<Numbers, AllocError>
    ensures { IfOk result (λ fulls. fulls ≡ with_interfaces index.now [] (map interface_of interfaces.now)) }
{
    let mut fulls = Numbers::new(alloc);
    for interface in interfaces {
        add_items(&mut fulls, index, interface.name.name, &interface.items)?;
    }
    Ok(fulls)
}

/// The numbers of the full names of the items of interfaces; `index` has their items.
pub fn full_numbers(
    alloc: Global,
    index: &Index,
    interfaces: &[Interface],
) -> Result<Numbers, AllocError>
    ensures { (table : List (List ℕ)) → index.now ≡ items_of table (map interface_of interfaces.now) → IfOk result (λ fulls. (n : ℕ) → has fulls n ≡ has (full_numbers index.now) n) }
{
    found_fulls(alloc, index, interfaces)
}
