//! The items of interfaces, with their heads. docs/LANGUAGE.md, "Names and scopes", states what a name means.
ghost use Rattle.std.specs.Prelude.{◌≡◌, ◌++◌, [], map, option_map, IfOk, OnOk};
ghost use Rattle.th_tree.specs.Trees.{class_item};
ghost use Rattle.th_tree.specs.DeclView.{exception_of, interface_class_of, interface_item_of, interface_of};
ghost use Rattle.th_type.specs.Types.{ty_of};
ghost use Rattle.th_hier.specs.Spots.{item_name};
ghost use Rattle.th_hier.specs.Texts.{visible, within};
ghost use Rattle.th_hier.specs.Views.{gives_opt, ty_opt};
ghost use Rattle.th_rules.specs.Context.{class_head};
ghost use Rattle.th_module_rules.specs.Contexts.{argument_type, full_in, interface_head, interface_items, item_with, items_of_interface};
ghost use Rattle.th_scope.specs.ItemView.{class_of, item_head_of, item_of};
ghost use Rattle.th_contexts.specs.Heads.{flat};

use crate::field::small;
use crate::head::{class_item, routine_item};
use std::alloc::{AllocError, Global};
use th_heads::{Found, OwnItems, Sight, walk_gives, walk_sigs};
use th_hier::{Home, Index, ItemName, Numbers};
use th_scope::{ClassItem, Head, Item, LocalList};
use th_tree::{ExceptionDecl, Interface, InterfaceClass, InterfaceItem};
use th_type::Ty;

/// The type of an exception's argument, where it has one that resolves.
fn argument(gives: Option<Option<Ty>>) -> Option<Ty>
    ensures { ty_opt result ≡ flat (gives_opt gives) }
{
    match gives {
        Some(argument) => argument,
        None => None,
    }
}

/// An exception.
#[tactic(auto, using(crate::proofs::Heads::opt_is, crate::proofs::Interfaces::argument_is))]
fn exception_head(
    alloc: Global,
    exception: &ExceptionDecl,
    found: &Found<'_>,
    home: &Home,
) -> Result<Option<Ty>, AllocError>
    ensures { IfOk result (λ t. option_map ty_of t ≡ argument_type found.now (within home.now []) (exception_of exception.now).argument) }
{
    let mut ignored = None;
    let sight = Sight::of(alloc, home, &[])?;
    let gives = walk_gives(alloc, &exception.argument, found, &sight, 0, &mut ignored)?;
    Ok(argument(gives))
}

/// A class of an interface.
fn class_head(
    alloc: Global,
    class: &InterfaceClass,
    found: &Found<'_>,
    home: &Home,
) -> Result<ClassItem, AllocError>
    ensures { IfOk result (λ c. class_head (class_of c) ≡ interface_head found.now (within home.now []) (class_item (interface_class_of class.now))) }
{
    let mut ignored = None;
    let sight = Sight::of(alloc, home, &class.head.params)?;
    let hidden = walk_sigs(alloc, &class.hidden, found, &sight, 0, &mut ignored)?;
    class_item(
        alloc,
        &class.head,
        &class.init,
        hidden,
        LocalList::NoLocal,
        found,
        home,
    )
}

/// The head of an item of an interface.
fn head_of(
    alloc: Global,
    item: &InterfaceItem,
    found: &Found<'_>,
    home: &Home,
) -> Result<Head, AllocError>
    ensures { IfOk result (λ h. item_head_of h ≡ interface_head found.now (within home.now []) (interface_item_of item.now)) }
{
    match item {
        InterfaceItem::Exception(exception) => {
            let argument = exception_head(alloc, exception, found, home)?;
            Ok(Head::Exception(argument))
        }
        InterfaceItem::Type(decl) => {
            let params = small(decl.params.len())?;
            Ok(Head::Declared(params))
        }
        InterfaceItem::Class(class) => {
            let class = class_head(alloc, class, found, home)?;
            Ok(Head::Class(class))
        }
        InterfaceItem::Routine(head) => {
            let routine = routine_item(alloc, head, found, home)?;
            Ok(Head::Routine(routine))
        }
    }
}

/// The name of an item of an interface.
fn name_of(item: &InterfaceItem) -> u32
    ensures { result ≡ (item_name (interface_item_of item.now)).name }
{
    match item {
        InterfaceItem::Exception(exception) => exception.name.name,
        InterfaceItem::Type(decl) => decl.name.name,
        InterfaceItem::Class(class) => class.head.name.name,
        InterfaceItem::Routine(head) => head.name.name,
    }
}

/// Puts an item of the interface last, where the interface has it under its name.
fn push_item(
    alloc: Global,
    interface: u32,
    item: &InterfaceItem,
    index: &Index,
    home: &Home,
    done: &mut Vec<Item>,
) -> Result<(), AllocError>
    ensures { OnOk result (map item_of done.new.items ≡ map item_of done.old.items ++ item_with (Some interface) (item_name (interface_item_of item.now)).name (full_in index.now interface (item_name (interface_item_of item.now)).name) (interface_head index.now (within home.now []) (interface_item_of item.now))) }
{
    let name = name_of(item);
    let Some(entry) = index.get(ItemName { interface, name }) else {
        return Ok(());
    };
    let found = Found::of(OwnItems::new(alloc), index);
    let head = head_of(alloc, item, &found, home)?;
    done.push(Item {
        name,
        from: Some(interface),
        full: entry.full,
        head,
    })?;
    Ok(())
}

/// Puts the items of the interface last, each the first of its name.
fn push_items(
    alloc: Global,
    interface: u32,
    items: &[InterfaceItem],
    index: &Index,
    home: &Home,
    done: &mut Vec<Item>,
) -> Result<(), AllocError>
    ensures { OnOk result (map item_of done.new.items ≡ map item_of done.old.items ++ items_of_interface index.now (within home.now []) interface [] (map interface_item_of items.now)) }
{
    let mut seen = Numbers::new(alloc);
    for item in items {
        if seen.add(name_of(item))? {
            push_item(alloc, interface, item, index, home, done)?;
        }
    }
    Ok(())
}

/// Puts the items of an interface last.
fn push_interface(
    alloc: Global,
    interface: &Interface,
    index: &Index,
    done: &mut Vec<Item>,
) -> Result<(), AllocError>
    ensures { OnOk result (map item_of done.new.items ≡ map item_of done.old.items ++ items_of_interface index.now (visible (interface_of interface.now)) (interface_of interface.now).name.name [] (interface_of interface.now).items) }
{
    let home = Home::of(alloc, interface)?;
    push_items(
        alloc,
        interface.name.name,
        &interface.items,
        index,
        &home,
        done,
    )
}

/// The items of interfaces, each the first of its name.
pub fn interface_items(
    alloc: Global,
    interfaces: &[Interface],
    index: &Index,
) -> Result<Vec<Item>, AllocError>
    ensures { IfOk result (λ r. map item_of r.items ≡ interface_items index.now [] (map interface_of interfaces.now)) }
{
    let mut done = Vec::new(alloc);
    let mut seen = Numbers::new(alloc);
    for interface in interfaces {
        if seen.add(interface.name.name)? {
            push_interface(alloc, interface, index, &mut done)?;
        }
    }
    Ok(done)
}
