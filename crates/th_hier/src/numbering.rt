//! The numbers of the full names of items. docs/LANGUAGE.md, "Names and scopes", states what a full name is.
ghost use Rattle.std.specs.Prelude.{◌≡◌, ◌+◌, ◌-◌, ◌^◌, ◌<◌, ◌≤◌, [], length, map, IfOk, OnOk};
ghost use Rattle.th_tree.specs.Names.{place_of, with_name};
ghost use Rattle.th_tree.specs.DeclView.{interface_item_of, interface_of};
ghost use Rattle.th_hier.specs.Naming.{has, with_number};
ghost use Rattle.th_hier.specs.Numbering.{add_interface, add_item, add_items, full_name, full_numbers, item_count, item_sort, name_bytes, numbered_items, numbering, routine_sort, with_item, Grown};

use crate::index::Index;
use crate::item::{Entry, ItemName, Sort};
use crate::numbers::{Numbers, small};
use crate::spot::item_name;
use std::alloc::{AllocError, Global};
use th_tree::{Interface, InterfaceItem, NameTable};

/// The name with the number, which is empty where the table has no such number.
fn name_bytes(names: &NameTable, number: u32) -> &[u8]
    ensures { result.now ≡ name_bytes names.now number }
{
    match names.name(number) {
        Some(name) => name,
        None => &[],
    }
}

/// The full name of an item.
fn full_name(alloc: Global, names: &NameTable, name: ItemName) -> Result<Vec<u8>, AllocError>
    ensures { IfOk result (λ r. r.items ≡ full_name names.now name.interface name.name) }
{
    let mut full = Vec::from_slice(alloc, name_bytes(names, name.interface))?;
    full.push(b'$')?;
    full.extend_from_slice(name_bytes(names, name.name))?;
    Ok(full)
}

/// The sort of an item, with the number of its type parameters.
fn item_sort(item: &InterfaceItem) -> Result<Sort, AllocError>
    ensures { IfOk result (λ r. r ≡ item_sort (interface_item_of item.now)) }
{
    match item {
        InterfaceItem::Exception(_) => Ok(Sort::Exception),
        InterfaceItem::Type(decl) => Ok(Sort::Declared(small(decl.params.len())?)),
        InterfaceItem::Class(class) => Ok(Sort::Class(small(class.head.params.len())?)),
        InterfaceItem::Routine(head) => {
            let params = small(head.params.len())?;
            if head.iterator {
                Ok(Sort::Iterator(params))
            } else {
                Ok(Sort::Routine(params))
            }
        }
    }
}

/// Adds an item of the interface.
fn add_item(
    alloc: Global,
    names: &mut NameTable,
    index: &mut Index,
    fulls: &mut Numbers,
    interface: u32,
    item: &InterfaceItem,
) -> Result<(), AllocError>
    requires room { length names.old < 2 ^ 32 - 1 }
    requires fulls { fulls.old ≡ full_numbers index.old }
    ensures added { OnOk result (numbering names.new index.new ≡ add_item (numbering names.old index.old) interface (interface_item_of item.now)) }
    ensures fulls { OnOk result (fulls.new ≡ full_numbers index.new) }
    ensures grown { Grown names.old names.new }
    ensures small { length names.new ≤ length names.old + 1 }
{
    let name = ItemName {
        interface,
        name: item_name(item).name,
    };
    let full_name = full_name(alloc, names, name)?;
    let sort = item_sort(item)?;
    let full = names.number(alloc, &full_name)?;
    index.add(fulls, name, Entry { full, sort })
}

/// Adds items of the interface.
fn add_items(
    alloc: Global,
    names: &mut NameTable,
    index: &mut Index,
    fulls: &mut Numbers,
    interface: u32,
    items: &[InterfaceItem],
) -> Result<(), AllocError>
    requires room { length names.old + length items.now < 2 ^ 32 - 1 }
    requires fulls { fulls.old ≡ full_numbers index.old }
    ensures added { OnOk result (numbering names.new index.new ≡ add_items (numbering names.old index.old) interface (map interface_item_of items.now)) }
    ensures fulls { OnOk result (fulls.new ≡ full_numbers index.new) }
    ensures grown { Grown names.old names.new }
    ensures small { length names.new ≤ length names.old + length items.now }
{
    for item in items {
        add_item(alloc, names, index, fulls, interface, item)?;
    }
    Ok(())
}

/// Adds the items of an interface, unless its name is among those seen.
fn add_interface(
    alloc: Global,
    names: &mut NameTable,
    index: &mut Index,
    fulls: &mut Numbers,
    seen: &mut Numbers,
    interface: &Interface,
) -> Result<(), AllocError>
    requires room { length names.old + length interface.now.items.items < 2 ^ 32 - 1 }
    requires fulls { fulls.old ≡ full_numbers index.old }
    ensures seen { OnOk result (seen.new ≡ with_number seen.old interface.now.name.name) }
    ensures added { OnOk result (numbering names.new index.new ≡ add_interface seen.old (numbering names.old index.old) (interface_of interface.now)) }
    ensures fulls { OnOk result (fulls.new ≡ full_numbers index.new) }
    ensures grown { Grown names.old names.new }
    ensures small { length names.new ≤ length names.old + length interface.now.items.items }
{
    let name = interface.name.name;
    if !seen.add(name)? {
        return Ok(());
    }
    add_items(alloc, names, index, fulls, name, &interface.items)
}

/// The items of interfaces by name, and the table with their full names. After an error the table has perhaps more names at
/// its end.
pub fn index_of(
    alloc: Global,
    names: &mut NameTable,
    interfaces: &[Interface],
) -> Result<Index, AllocError>
    requires room { length names.old + item_count (map interface_of interfaces.now) < 2 ^ 32 - 1 }
    ensures items { IfOk result (λ index. numbering names.new index ≡ numbered_items names.old (map interface_of interfaces.now)) }
    ensures grown { Grown names.old names.new }
{
    let mut index = Index::new(alloc);
    let mut fulls = Numbers::new(alloc);
    let mut seen = Numbers::new(alloc);
    for interface in interfaces {
        add_interface(alloc, names, &mut index, &mut fulls, &mut seen, interface)?;
    }
    Ok(index)
}
