//! What the definitions of a module are judged by. docs/LANGUAGE.md, "Rules of modules", states the rules.
ghost use Rattle.std.specs.Prelude.{◌≡◌, ◌++◌, ℕ, List, [], map, IfOk, OnOk};
ghost use Rattle.th_tree.specs.DeclView.{interface_of, module_item_of, module_of};
ghost use Rattle.th_hier.specs.Naming.{different};
ghost use Rattle.th_module_rules.specs.Own.{all_items, module_visible};
ghost use Rattle.th_module_rules.specs.Contexts.{interface_items, item_bases};
ghost use Rattle.th_module_rules.specs.Modules.{judged};
ghost use Rattle.th_scope.specs.ItemView.{item_of};
ghost use Rattle.th_contexts.specs.BaseView.{base_of};
ghost use Rattle.th_contexts.specs.Bases.{bases_of};
ghost use Rattle.th_contexts.specs.First.{base_seen, item_seen, of_first};
ghost use Rattle.th_contexts.specs.Known.{Knows};

use crate::base_row::Base;
use crate::bases::Bases;
use crate::first::{own_bases, own_items};
use crate::interface::interface_items;
use crate::listed::push_bases;
use std::alloc::{AllocError, Global};
use th_heads::Found;
use th_hier::{Hierarchy, Home, Numbers};
use th_scope::{Item, Items};
use th_tree::{Interface, Module};

/// The items that can be named in a module, what is asked of classes, and the numbers of the full names of the module's own classes.
#[derive(Drop)]
pub struct Known {
    pub items: Items,
    pub bases: Bases,
    pub own: Numbers,
}

/// The numbers of the full names of classes.
fn fulls_of(alloc: Global, bases: &[Base]) -> Result<Vec<u32>, AllocError>
    ensures { IfOk result (λ r. r.items ≡ map (λ b. b.full) bases.now) }
{
    bases.iter().map(|base| base.full).collect(alloc)
}

/// The numbers of the full names of classes, each once.
#[tactic(auto, using(crate::proofs::Methods::fulls_mapped))]
fn numbers_of(alloc: Global, bases: &[Base]) -> Result<Numbers, AllocError>
    ensures { IfOk result (λ r. r ≡ different (map (λ b. b.full) (map base_of bases.now))) }
{
    let fulls = fulls_of(alloc, bases)?;
    Numbers::of(alloc, &fulls)
}

/// What is asked of the own classes and of those among other items.
fn all_bases(alloc: Global, mut own: Vec<Base>, others: &[Item]) -> Result<Bases, AllocError>
    ensures { IfOk result (λ r. bases_of r ≡ map base_of own.items ++ item_bases (map item_of others.now)) }
{
    push_bases(alloc, others, &mut own)?;
    Bases::of(alloc, own)
}

/// The items, and then the others.
fn joined(mut items: Vec<Item>, others: Vec<Item>) -> Result<Vec<Item>, AllocError>
    ensures { IfOk result (λ r. map item_of r.items ≡ map item_of items.items ++ map item_of others.items) }
{
    for item in others {
        items.push(item)?;
    }
    Ok(items)
}

/// What the definitions of a module are judged by, where its items are found by name with their full names.
pub fn known_in(
    alloc: Global,
    interfaces: &[Interface],
    hierarchy: &Hierarchy,
    program: &Module,
    found: &Found<'_>,
    home: &Home,
) -> Result<Known, AllocError>
    ensures { IfOk result (λ k. (table : List (List ℕ)) (text : ℕ) → found.now ≡ all_items table hierarchy.now.items (module_of program.now) → home.now ≡ module_visible table (module_of program.now) → Knows k (judged text table hierarchy.now (map interface_of interfaces.now) (module_of program.now))) }
{
    let others = interface_items(alloc, interfaces, hierarchy.index())?;
    let own = own_bases(alloc, &program.items, found, home)?;
    let numbers = numbers_of(alloc, &own)?;
    let bases = all_bases(alloc, own, &others)?;
    let items = own_items(alloc, &program.items, found, home, hierarchy, &bases)?;
    let items = joined(items, others)?;
    Ok(Known {
        items: Items::of(alloc, items)?,
        bases,
        own: numbers,
    })
}
