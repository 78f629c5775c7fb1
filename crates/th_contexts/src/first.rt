//! The items of a module, of which each is the first of its name. docs/LANGUAGE.md, "Rules of modules", states the rules.
ghost use Rattle.std.specs.Prelude.{◌≡◌, ◌++◌, [], map, IfOk, OnOk};
ghost use Rattle.th_tree.specs.DeclView.{class_of as class_tree_of, module_item_of};
ghost use Rattle.th_module_rules.specs.Contexts.{module_item_name};
ghost use Rattle.th_scope.specs.ItemView.{item_of};
ghost use Rattle.th_contexts.specs.BaseView.{base_of};
ghost use Rattle.th_contexts.specs.Bases.{bases_of};
ghost use Rattle.th_contexts.specs.First.{base_seen, class_base_seen, full_seen, item_seen, of_first};

use crate::base_row::Base;
use crate::bases::Bases;
use crate::own::{own_base, own_item};
use std::alloc::{AllocError, Global};
use th_heads::Found;
use th_hier::{Hierarchy, Home, Numbers};
use th_scope::Item;
use th_tree::{ClassDecl, ModuleItem};

/// The number of the full name of an own item of the text.
fn full_of(found: &Found<'_>, home: &Home, name: u32) -> Option<u32>
    ensures { result ≡ full_seen found.now home.now name }
{
    match found.get_in(home.text, name) {
        Some(entry) => Some(entry.full),
        None => None,
    }
}

/// The name of an item of a module.
fn name_of(item: &ModuleItem) -> u32
    ensures { result ≡ (module_item_name (module_item_of item.now)).name }
{
    match item {
        ModuleItem::Class(class) => class.head.name.name,
        ModuleItem::Routine(routine) => routine.head.name.name,
    }
}

/// Puts what is asked of a class last, where the text has it under its name.
fn push_class(
    alloc: Global,
    class: &ClassDecl,
    found: &Found<'_>,
    home: &Home,
    done: &mut Vec<Base>,
) -> Result<(), AllocError>
    ensures { OnOk result (map base_of done.new.items ≡ map base_of done.old.items ++ class_base_seen found.now home.now (class_tree_of class.now)) }
{
    let Some(full) = full_of(found, home, class.head.name.name) else {
        return Ok(());
    };
    let base = own_base(alloc, full, class, found, home)?;
    done.push(base)?;
    Ok(())
}

/// Puts what is asked of an item last, where it is a class.
fn push_base(
    alloc: Global,
    item: &ModuleItem,
    found: &Found<'_>,
    home: &Home,
    done: &mut Vec<Base>,
) -> Result<(), AllocError>
    ensures { OnOk result (map base_of done.new.items ≡ map base_of done.old.items ++ base_seen found.now home.now (module_item_of item.now)) }
{
    match item {
        ModuleItem::Class(class) => push_class(alloc, class, found, home, done),
        ModuleItem::Routine(_) => Ok(()),
    }
}

/// What is asked of the classes of a module, each the first of its name.
pub(crate) fn own_bases(
    alloc: Global,
    items: &[ModuleItem],
    found: &Found<'_>,
    home: &Home,
) -> Result<Vec<Base>, AllocError>
    ensures { IfOk result (λ r. map base_of r.items ≡ of_first (base_seen found.now home.now) [] (map module_item_of items.now)) }
{
    let mut done = Vec::new(alloc);
    let mut seen = Numbers::new(alloc);
    for item in items {
        if seen.add(name_of(item))? {
            push_base(alloc, item, found, home, &mut done)?;
        }
    }
    Ok(done)
}

/// Puts an item last, where the text has it under its name.
fn push_item(
    alloc: Global,
    item: &ModuleItem,
    found: &Found<'_>,
    home: &Home,
    hierarchy: &Hierarchy,
    bases: &Bases,
    done: &mut Vec<Item>,
) -> Result<(), AllocError>
    ensures { OnOk result (map item_of done.new.items ≡ map item_of done.old.items ++ item_seen hierarchy.now.types (bases_of bases.now) found.now home.now (module_item_of item.now)) }
{
    let name = name_of(item);
    let Some(full) = full_of(found, home, name) else {
        return Ok(());
    };
    let item = own_item(alloc, name, full, item, found, home, hierarchy, bases)?;
    done.push(item)?;
    Ok(())
}

/// The own items of a module, each the first of its name.
pub(crate) fn own_items(
    alloc: Global,
    items: &[ModuleItem],
    found: &Found<'_>,
    home: &Home,
    hierarchy: &Hierarchy,
    bases: &Bases,
) -> Result<Vec<Item>, AllocError>
    ensures { IfOk result (λ r. map item_of r.items ≡ of_first (item_seen hierarchy.now.types (bases_of bases.now) found.now home.now) [] (map module_item_of items.now)) }
{
    let mut done = Vec::new(alloc);
    let mut seen = Numbers::new(alloc);
    for item in items {
        if seen.add(name_of(item))? {
            push_item(alloc, item, found, home, hierarchy, bases, &mut done)?;
        }
    }
    Ok(done)
}
