//! Modules.
ghost use Rattle.std.specs.Prelude.{◌≡◌, ◌↔◌, ◌∷◌, [], None, Some, map, option_map, IfOk, IsTrue, OnOk};
ghost use Rattle.th_tree.specs.DeclView.{class_of, module_item_of, routine_of};
ghost use Rattle.th_tree.specs.Trees.{module_class, module_routine};
ghost use Rattle.th_type.specs.Failures.{place};
ghost use Rattle.th_rules.specs.Context.{find_item, routine_head};
ghost use Rattle.th_module_rules.specs.Contexts.{module_item_name};
ghost use Rattle.th_module_rules.specs.Modules.{HeadFails, ModuleFails, Redefined};
ghost use Rattle.th_module_rules.specs.Own.{implemented};
ghost use Rattle.th_module_rules.specs.Units.{class_units, item_units, items_units, module_units, routine_unit};
ghost use Rattle.th_scope.specs.View.{item_head_of, item_of};
ghost use Rattle.th_modules.specs.Lowering.{FoundFails, InItems, ItemFails, Lowers};
ghost use Rattle.th_modules.specs.Own.{AllOwn, AreOwn, HasOwnHead, IsOwn};
ghost use Rattle.th_modules.specs.View.{info_of, judged_of, units_after, units_opt};

use crate::class::judge_class;
use crate::judging::{ClassFrame, Judging};
use crate::routine::judge_routine;
use crate::unit::one_unit;
use crate::within::place_at;
use std::alloc::{AllocError, Global};
use th_meaning::CoreUnit;
use th_overrides::is_redefined;
use th_scope::{Head, Item};
use th_tree::{ClassDecl, Ident, ModuleItem, Routine};
use th_type::{Failure, Place, demand};

/// Judges the definition of a class, which is found by its name as this item: its units, where no rule fails.
fn judge_class_item<'a>(
    alloc: Global,
    judging: &'a Judging<'a>,
    item: &'a Item,
    tree: &ClassDecl,
    least: &mut Option<Failure>,
) -> Result<Option<Vec<CoreUnit>>, AllocError>
    ensures units { IfOk result (λ r. least.new ≡ None → units_opt r ≡ class_units (judged_of judging.now) item.now.full (class_of tree.now) (item_head_of item.now.head)) }
    ensures least { OnOk result (Lowers (HeadFails (judged_of judging.now) item.now.full (module_class (class_of tree.now)) (item_head_of item.now.head)) least.old least.new) }
{
    match &item.head {
        Head::Class(class) => {
            let outer = ClassFrame { judging, class };
            judge_class(alloc, &outer, item.full, tree, least)
        }
        Head::Exception(_) => Ok(None),
        Head::Declared(_) => Ok(None),
        Head::Routine(_) => Ok(None),
    }
}

/// Judges a routine, which is found by its name as this item: its unit, where no rule fails.
fn judge_routine_item(
    alloc: Global,
    judging: &Judging<'_>,
    item: &Item,
    tree: &Routine,
    least: &mut Option<Failure>,
) -> Result<Option<Vec<CoreUnit>>, AllocError>
    ensures units { IfOk result (λ r. item_head_of item.now.head ≡ routine_head (info_of (judged_of judging.now) (routine_of tree.now)) → least.new ≡ None → units_opt r ≡ option_map (λ u. u ∷ []) (routine_unit (judged_of judging.now) item.now.full (routine_of tree.now) (item_head_of item.now.head))) }
    ensures least { OnOk result (Lowers (HeadFails (judged_of judging.now) item.now.full (module_routine (routine_of tree.now)) (item_head_of item.now.head)) least.old least.new) }
{
    match &item.head {
        Head::Routine(_) => {
            let unit = judge_routine(alloc, judging, item.full, tree, least)?;
            let units = one_unit(alloc, unit)?;
            Ok(units)
        }
        Head::Exception(_) => Ok(None),
        Head::Declared(_) => Ok(None),
        Head::Class(_) => Ok(None),
    }
}

/// Judges the definition of an item: its units, where no rule fails.
fn judge_head<'a>(
    alloc: Global,
    judging: &'a Judging<'a>,
    item: &'a Item,
    tree: &ModuleItem,
    least: &mut Option<Failure>,
) -> Result<Option<Vec<CoreUnit>>, AllocError>
    ensures units { IfOk result (λ r. HasOwnHead (judged_of judging.now) (module_item_of tree.now) (item_head_of item.now.head) → least.new ≡ None → units_opt r ≡ item_units (judged_of judging.now) (module_item_of tree.now) (Some (item_of item.now))) }
    ensures least { OnOk result (Lowers (HeadFails (judged_of judging.now) item.now.full (module_item_of tree.now) (item_head_of item.now.head)) least.old least.new) }
{
    match tree {
        ModuleItem::Class(class) => {
            let units = judge_class_item(alloc, judging, item, class, least)?;
            Ok(units)
        }
        ModuleItem::Routine(routine) => {
            let units = judge_routine_item(alloc, judging, item, routine, least)?;
            Ok(units)
        }
    }
}

/// The name of an item of a module.
fn name_of(tree: &ModuleItem) -> Ident
    ensures { result ≡ module_item_name (module_item_of tree.now) }
{
    match tree {
        ModuleItem::Class(class) => class.head.name,
        ModuleItem::Routine(routine) => routine.head.name,
    }
}

/// Where the name of an item stands.
fn place_of(judging: &Judging<'_>, tree: &ModuleItem) -> Place
    ensures { result ≡ place (judged_of judging.now).text (module_item_name (module_item_of tree.now)).at }
{
    let name = name_of(tree);
    place_at(judging, name.at)
}

/// The item that is found by the name of an item of the module.
fn found_item<'a>(judging: &Judging<'a>, tree: &ModuleItem) -> Option<&'a Item>
    ensures { option_map (λ i. item_of i.now) result ≡ find_item (judged_of judging.now).items None (module_item_name (module_item_of tree.now)).name }
{
    let name = name_of(tree);
    judging.env.items.find(None, name.name)
}

/// The interface that the module implements, by the number of its name.
fn implements_of(judging: &Judging<'_>) -> Option<u32>
    ensures { result ≡ implemented (judged_of judging.now).tree }
{
    let home = judging.env.home;
    home.implements
}

/// Whether an item, which is found by its name, differs from its declaration in the implemented interface, where that has one.
fn is_changed(judging: &Judging<'_>, item: &Item, tree: &ModuleItem) -> bool
    ensures { IsTrue result ↔ Redefined (judged_of judging.now) (module_item_name (module_item_of tree.now)).name (item_head_of item.now.head) }
{
    let name = name_of(tree);
    let implements = implements_of(judging);
    is_redefined(judging.env.items, implements, name.name, &item.head)
}

/// Judges an item, which is found by its name: its units, where no rule fails.
fn judge_found<'a>(
    alloc: Global,
    judging: &'a Judging<'a>,
    item: &'a Item,
    tree: &ModuleItem,
    least: &mut Option<Failure>,
) -> Result<Option<Vec<CoreUnit>>, AllocError>
    ensures units { IfOk result (λ r. HasOwnHead (judged_of judging.now) (module_item_of tree.now) (item_head_of item.now.head) → least.new ≡ None → units_opt r ≡ item_units (judged_of judging.now) (module_item_of tree.now) (Some (item_of item.now))) }
    ensures least { OnOk result (Lowers (FoundFails (judged_of judging.now) (module_item_of tree.now) (item_of item.now)) least.old least.new) }
{
    let units = judge_head(alloc, judging, item, tree, least)?;
    let changed = is_changed(judging, item, tree);
    demand(least, !changed, 12, place_of(judging, tree));
    Ok(units)
}

/// Judges an item: its units, where no rule fails.
fn judge_item<'a>(
    alloc: Global,
    judging: &'a Judging<'a>,
    tree: &ModuleItem,
    least: &mut Option<Failure>,
) -> Result<Option<Vec<CoreUnit>>, AllocError>
    ensures units { IfOk result (λ r. IsOwn (judged_of judging.now) (module_item_of tree.now) → least.new ≡ None → units_opt r ≡ item_units (judged_of judging.now) (module_item_of tree.now) (find_item (judged_of judging.now).items None (module_item_name (module_item_of tree.now)).name)) }
    ensures least { OnOk result (Lowers (ItemFails (judged_of judging.now) (module_item_of tree.now)) least.old least.new) }
{
    match found_item(judging, tree) {
        Some(item) => {
            let units = judge_found(alloc, judging, item, tree, least)?;
            Ok(units)
        }
        None => Ok(None),
    }
}

/// Units after others, where all are there.
fn joined(
    units: Option<Vec<CoreUnit>>,
    others: Option<Vec<CoreUnit>>,
) -> Result<Option<Vec<CoreUnit>>, AllocError>
    ensures { IfOk result (λ r. units_opt r ≡ units_after (units_opt units) (units_opt others)) }
{
    let Some(mut done) = units else {
        return Ok(None);
    };
    let Some(others) = others else {
        return Ok(None);
    };
    for unit in others {
        done.push(unit)?;
    }
    Ok(Some(done))
}

/// Judges items of a module: their units, where no rule fails.
#[tactic(auto, using(crate::proofs::Units::units_start))]
fn judge_items<'a>(
    alloc: Global,
    judging: &'a Judging<'a>,
    items: &[ModuleItem],
    least: &mut Option<Failure>,
) -> Result<Option<Vec<CoreUnit>>, AllocError>
    ensures units { IfOk result (λ r. AllOwn (judged_of judging.now) (map module_item_of items.now) → least.new ≡ None → units_opt r ≡ items_units (judged_of judging.now) (map module_item_of items.now)) }
    ensures least { OnOk result (Lowers (InItems (judged_of judging.now) (map module_item_of items.now)) least.old least.new) }
{
    let mut units = Some(Vec::new(alloc));
    for item in items {
        let found = judge_item(alloc, judging, item, least)?;
        units = joined(units, found)?;
    }
    Ok(units)
}

/// Judges the definitions of a module: its units, where no rule fails.
pub fn judge_module<'a>(
    alloc: Global,
    judging: &'a Judging<'a>,
    least: &mut Option<Failure>,
) -> Result<Option<Vec<CoreUnit>>, AllocError>
    ensures units { IfOk result (λ r. AreOwn (judged_of judging.now) → least.new ≡ None → units_opt r ≡ module_units (judged_of judging.now)) }
    ensures least { OnOk result (Lowers (ModuleFails (judged_of judging.now)) least.old least.new) }
{
    let tree = judging.tree;
    let units = judge_items(alloc, judging, &tree.items, least)?;
    Ok(units)
}
