//! The rules on where-clauses and on `main`. docs/LANGUAGE.md, "Rules of modules", states the rules.
ghost use Rattle.std.specs.Prelude.{◌≡◌, ℕ, List, [], map, not, IfOk, OnOk};
ghost use Rattle.std.specs.List.{list_any};
ghost use Rattle.th_tree.specs.DeclView.{clause_of, interface_item_of, module_item_of, routine_head_of};
ghost use Rattle.th_type.specs.Failures.{lowest};
ghost use Rattle.th_hier.specs.Spots.{item_name};
ghost use Rattle.th_module_rules.specs.Own.{head_item};
ghost use Rattle.th_module_rules.specs.Clauses.{clauses_fail, interface_items_fail, is_plain, is_plain_routine, item_clauses_fail, main_number, module_items_fail, names_of};
ghost use Rattle.th_own.specs.Mains.{interface_item_fails_by, interface_items_fail_by, module_item_fails_by, module_items_fail_by};
ghost use Rattle.th_own.specs.Naming.{clauses_fail_after, same_name, with_clause};

use crate::kinds::item_name;
use indexmap::IndexSet;
use std::alloc::{AllocError, Global};
use th_heads::names_of;
use th_hier::Numbers;
use th_tree::{ClauseTree, Ident, InterfaceItem, ModuleItem, RoutineHead};
use th_type::{Failure, Place, demand};

/// What a clause is for: a type parameter and a method, by the numbers of their names.
#[derive(Clone, Copy, Debug, PartialEq, Eq, Hash)]
struct ClauseName {
    param: u32,
    method: u32,
}

/// Adds what a clause is for, and says whether it is new.
fn add_name(seen: &mut IndexSet<ClauseName>, name: ClauseName) -> Result<bool, AllocError>
    ensures new { IfOk result (λ new. new ≡ not (list_any (same_name name) seen.old.keys)) }
    ensures names { OnOk result (seen.new.keys ≡ with_clause seen.old.keys name) }
{
    seen.insert(name).map_err(|_| AllocError)
}

/// Judges clauses of an item with these type parameters.
#[tactic(auto, using(th_type::proofs::Least::lowest_append))]
fn judge_with(
    alloc: Global,
    text: u32,
    params: &Numbers,
    clauses: &[ClauseTree],
    least: &mut Option<Failure>,
) -> Result<(), AllocError>
    ensures { OnOk result (least.new ≡ lowest least.old (clauses_fail_after text params.now [] (map clause_of clauses.now))) }
{
    let mut seen = IndexSet::new(alloc);
    for clause in clauses {
        let name = ClauseName {
            param: clause.param.name,
            method: clause.method.name,
        };
        let new = add_name(&mut seen, name)?;
        let place = Place {
            text,
            at: clause.param.at,
        };
        demand(least, params.has(name.param) && new, 11, place);
    }
    Ok(())
}

/// Judges clauses of an item with these type parameters.
#[tactic(auto, using(crate::proofs::Naming::clauses_are))]
fn judge_clauses(
    alloc: Global,
    text: u32,
    params: &[Ident],
    clauses: &[ClauseTree],
    least: &mut Option<Failure>,
) -> Result<(), AllocError>
    ensures { OnOk result (least.new ≡ lowest least.old (clauses_fail text (names_of params.now) [] (map clause_of clauses.now))) }
{
    let names = names_of(alloc, params)?;
    let params = Numbers::of(alloc, &names)?;
    judge_with(alloc, text, &params, clauses, least)
}

/// Whether a routine has no parameters, formals, result and clauses, and is no iterator.
fn is_plain(head: &RoutineHead) -> bool
    ensures { result ≡ is_plain (routine_head_of head.now) }
{
    !head.iterator
        && head.params.is_empty()
        && head.formals.is_empty()
        && head.gives.is_none()
        && head.clauses.is_empty()
}

/// Judges the clauses of an item of an interface.
fn judge_item_clauses(
    alloc: Global,
    text: u32,
    item: &InterfaceItem,
    least: &mut Option<Failure>,
) -> Result<(), AllocError>
    ensures { OnOk result (least.new ≡ lowest least.old (item_clauses_fail text (interface_item_of item.now))) }
{
    match item {
        InterfaceItem::Exception(_) => Ok(()),
        InterfaceItem::Type(_) => Ok(()),
        InterfaceItem::Class(class) => {
            judge_clauses(alloc, text, &class.head.params, &class.head.clauses, least)
        }
        InterfaceItem::Routine(head) => {
            judge_clauses(alloc, text, &head.params, &head.clauses, least)
        }
    }
}

/// The name of an item of an interface.
fn interface_item_name(item: &InterfaceItem) -> Ident
    ensures { result ≡ item_name (interface_item_of item.now) }
{
    match item {
        InterfaceItem::Exception(exception) => exception.name,
        InterfaceItem::Type(decl) => decl.name,
        InterfaceItem::Class(class) => class.head.name,
        InterfaceItem::Routine(head) => head.name,
    }
}

/// Judges an item of an interface, where `main` has this number.
#[tactic(auto, using(th_type::proofs::Least::lowest_append))]
fn judge_interface_item(
    alloc: Global,
    main: u32,
    text: u32,
    item: &InterfaceItem,
    least: &mut Option<Failure>,
) -> Result<(), AllocError>
    ensures { OnOk result (least.new ≡ lowest least.old (interface_item_fails_by main text (interface_item_of item.now))) }
{
    judge_item_clauses(alloc, text, item, least)?;
    let name = interface_item_name(item);
    demand(least, name.name != main, 29, Place { text, at: name.at });
    Ok(())
}

/// Judges items of an interface, where `main` has this number.
fn judge_interface_items_by(
    alloc: Global,
    main: u32,
    text: u32,
    items: &[InterfaceItem],
    least: &mut Option<Failure>,
) -> Result<(), AllocError>
    ensures { OnOk result (least.new ≡ lowest least.old (interface_items_fail_by main text (map interface_item_of items.now))) }
{
    for item in items {
        judge_interface_item(alloc, main, text, item, least)?;
    }
    Ok(())
}

/// Judges the clauses of the items of an interface and that none of them is named `main`, whose number this is; the interface is
/// the text of this number.
pub fn judge_interface_items(
    alloc: Global,
    main: u32,
    text: u32,
    items: &[InterfaceItem],
    least: &mut Option<Failure>,
) -> Result<(), AllocError>
    ensures { (table : List (List ℕ)) → main ≡ main_number table → OnOk result (least.new ≡ lowest least.old (interface_items_fail table text (map interface_item_of items.now))) }
{
    judge_interface_items_by(alloc, main, text, items, least)
}

/// Judges the clauses of an item of a module.
fn judge_own_clauses(
    alloc: Global,
    text: u32,
    item: &ModuleItem,
    least: &mut Option<Failure>,
) -> Result<(), AllocError>
    ensures { OnOk result (least.new ≡ lowest least.old (item_clauses_fail text (head_item (module_item_of item.now)))) }
{
    match item {
        ModuleItem::Class(class) => {
            judge_clauses(alloc, text, &class.head.params, &class.head.clauses, least)
        }
        ModuleItem::Routine(routine) => judge_clauses(
            alloc,
            text,
            &routine.head.params,
            &routine.head.clauses,
            least,
        ),
    }
}

/// Whether an item of a module may be named `main`.
fn may_be_main(item: &ModuleItem) -> bool
    ensures { result ≡ is_plain_routine (head_item (module_item_of item.now)) }
{
    match item {
        ModuleItem::Class(_) => false,
        ModuleItem::Routine(routine) => is_plain(&routine.head),
    }
}

/// Judges an item of a module, where `main` has this number.
#[tactic(auto, using(th_type::proofs::Least::lowest_append))]
fn judge_module_item(
    alloc: Global,
    main: u32,
    text: u32,
    item: &ModuleItem,
    least: &mut Option<Failure>,
) -> Result<(), AllocError>
    ensures { OnOk result (least.new ≡ lowest least.old (module_item_fails_by main text (head_item (module_item_of item.now)))) }
{
    judge_own_clauses(alloc, text, item, least)?;
    let name = item_name(item);
    let lawful = name.name != main || may_be_main(item);
    demand(least, lawful, 29, Place { text, at: name.at });
    Ok(())
}

/// Judges items of a module, where `main` has this number.
fn judge_module_items_by(
    alloc: Global,
    main: u32,
    text: u32,
    items: &[ModuleItem],
    least: &mut Option<Failure>,
) -> Result<(), AllocError>
    ensures { OnOk result (least.new ≡ lowest least.old (module_items_fail_by main text (map head_item (map module_item_of items.now)))) }
{
    for item in items {
        judge_module_item(alloc, main, text, item, least)?;
    }
    Ok(())
}

/// Judges the clauses of the items of a module and that its `main`, whose number this is, is a plain routine; the module is the
/// text of this number.
pub fn judge_module_items(
    alloc: Global,
    main: u32,
    text: u32,
    items: &[ModuleItem],
    least: &mut Option<Failure>,
) -> Result<(), AllocError>
    ensures { (table : List (List ℕ)) → main ≡ main_number table → OnOk result (least.new ≡ lowest least.old (module_items_fail table text (map head_item (map module_item_of items.now)))) }
{
    judge_module_items_by(alloc, main, text, items, least)
}
