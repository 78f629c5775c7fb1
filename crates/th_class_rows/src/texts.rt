//! The classes of interfaces and of a module.
ghost use Rattle.std.specs.Prelude.{◌≡◌, ◌++◌, [], map, IfOk, OnOk};
ghost use Rattle.th_tree.specs.DeclView.{class_head_of, interface_item_of, interface_of, module_item_of};
ghost use Rattle.th_hier.specs.Naming.{item_in};
ghost use Rattle.th_hier.specs.Texts.{visible};
ghost use Rattle.th_module_rules.specs.Inheriting.{row_with, item_rows, items_rows, interfaces_rows};
ghost use Rattle.th_module_rules.specs.Own.{head_item};
ghost use Rattle.th_inherits.specs.Rows.{rows_of};

use crate::class::class_row;
use std::alloc::{AllocError, Global};
use th_heads::{Found, OwnItems};
use th_hier::{Home, Index};
use th_inherits::Row;
use th_tree::{ClassHead, Interface, InterfaceItem, ModuleItem};

/// Puts a class last, where the text has it under its name.
fn push_class(
    alloc: Global,
    head: &ClassHead,
    found: &Found<'_>,
    home: &Home,
    text: u32,
    rows: &mut Vec<Row>,
) -> Result<(), AllocError>
    ensures { OnOk result (rows_of rows.new.items ≡ rows_of rows.old.items ++ row_with found.now home.now text (item_in found.now home.now.text head.now.name.name) (class_head_of head.now)) }
{
    match found.get_in(home.text, head.name.name) {
        None => Ok(()),
        Some(entry) => {
            let row = class_row(alloc, head, found, home, text, entry.full)?;
            rows.push(row)?;
            Ok(())
        }
    }
}

/// Puts the class last that an item of an interface is.
fn push_item(
    alloc: Global,
    item: &InterfaceItem,
    found: &Found<'_>,
    home: &Home,
    text: u32,
    rows: &mut Vec<Row>,
) -> Result<(), AllocError>
    ensures { OnOk result (rows_of rows.new.items ≡ rows_of rows.old.items ++ item_rows found.now home.now text (interface_item_of item.now)) }
{
    match item {
        InterfaceItem::Exception(_) => Ok(()),
        InterfaceItem::Type(_) => Ok(()),
        InterfaceItem::Class(class) => push_class(alloc, &class.head, found, home, text, rows),
        InterfaceItem::Routine(_) => Ok(()),
    }
}

/// Puts the classes among items of an interface last.
fn push_items(
    alloc: Global,
    items: &[InterfaceItem],
    found: &Found<'_>,
    home: &Home,
    text: u32,
    rows: &mut Vec<Row>,
) -> Result<(), AllocError>
    ensures { OnOk result (rows_of rows.new.items ≡ rows_of rows.old.items ++ items_rows found.now home.now text (map interface_item_of items.now)) }
{
    for item in items {
        push_item(alloc, item, found, home, text, rows)?;
    }
    Ok(())
}

/// Puts the classes of an interface last.
fn push_interface(
    alloc: Global,
    interface: &Interface,
    found: &Found<'_>,
    text: u32,
    rows: &mut Vec<Row>,
) -> Result<(), AllocError>
    ensures { OnOk result (rows_of rows.new.items ≡ rows_of rows.old.items ++ items_rows found.now (visible (interface_of interface.now)) text (interface_of interface.now).items) }
{
    let home = Home::of(alloc, interface)?;
    push_items(alloc, &interface.items, found, &home, text, rows)
}

/// The classes of interfaces, of which the first is text 0; `index` has the interfaces' items. More than 2^32 - 1 interfaces are
/// want of memory.
pub fn interfaces_rows(
    alloc: Global,
    interfaces: &[Interface],
    index: &Index,
) -> Result<Vec<Row>, AllocError>
    ensures { IfOk result (λ rows. rows_of rows.items ≡ interfaces_rows index.now 0 (map interface_of interfaces.now)) }
{
    let found = Found::of(OwnItems::new(alloc), index);
    let mut rows = Vec::new(alloc);
    let mut text: u32 = 0;
    for interface in interfaces {
        push_interface(alloc, interface, &found, text, &mut rows)?;
        text = text.checked_add(1).ok_or(AllocError)?;
    }
    Ok(rows)
}

/// Puts the class last that an item of a module is.
fn push_own(
    alloc: Global,
    item: &ModuleItem,
    found: &Found<'_>,
    home: &Home,
    text: u32,
    rows: &mut Vec<Row>,
) -> Result<(), AllocError>
    ensures { OnOk result (rows_of rows.new.items ≡ rows_of rows.old.items ++ item_rows found.now home.now text (head_item (module_item_of item.now))) }
{
    match item {
        ModuleItem::Class(class) => push_class(alloc, &class.head, found, home, text, rows),
        ModuleItem::Routine(_) => Ok(()),
    }
}

/// The classes of a module, of which these are the items; `found` has its own items before those of interfaces, and `home` is what
/// can be seen in it.
pub fn module_rows(
    alloc: Global,
    items: &[ModuleItem],
    found: &Found<'_>,
    home: &Home,
    text: u32,
) -> Result<Vec<Row>, AllocError>
    ensures { IfOk result (λ rows. rows_of rows.items ≡ items_rows found.now home.now text (map head_item (map module_item_of items.now))) }
{
    let mut rows = Vec::new(alloc);
    for item in items {
        push_own(alloc, item, found, home, text, &mut rows)?;
    }
    Ok(rows)
}
