//! The rules on names in the heads and fields of a module's items. docs/LANGUAGE.md, "Rules of modules", states the rules.
ghost use Rattle.std.specs.Prelude.{◌≡◌, ◌++◌, [], None, map, OnOk};
ghost use Rattle.th_tree.specs.View.{formal_of};
ghost use Rattle.th_tree.specs.DeclView.{class_of, method_of, module_item_of, routine_head_of};
ghost use Rattle.th_tree.specs.Trees.{module_class};
ghost use Rattle.th_type.specs.Failures.{lowest};
ghost use Rattle.th_hier.specs.Texts.{class_fails, item_fails, items_fail, routine_fails};
ghost use Rattle.th_module_rules.specs.Own.{all_fields_fail, fields_fail, head_item, item_fields_fail};
ghost use Rattle.th_own.specs.Judging.{class_signatures_fail};

use std::alloc::{AllocError, Global};
use th_heads::{
    Found, Sight, judge_method_names, walk_class_head, walk_clauses, walk_formals, walk_head,
    walk_init, walk_methods,
};
use th_hier::{Home, judge_formals, judge_params};
use th_tree::{ClassDecl, ModuleItem, RoutineHead};
use th_type::Failure;

/// Judges a class's methods and its initializer, without their bodies.
#[tactic(auto, using(th_type::proofs::Least::lowest_append))]
fn judge_class_body(
    alloc: Global,
    class: &ClassDecl,
    found: &Found<'_>,
    sight: &Sight<'_>,
    text: u32,
    least: &mut Option<Failure>,
) -> Result<(), AllocError>
    ensures { OnOk result (least.new ≡ lowest least.old (class_signatures_fail found.now sight.now text (class_of class.now))) }
{
    judge_method_names(alloc, text, &class.methods, least)?;
    let _ = walk_methods(alloc, &class.methods, found, sight, text, least)?;
    let _ = walk_init(
        alloc,
        class.head.name.name,
        &class.init.head,
        found,
        sight,
        text,
        least,
    )?;
    Ok(())
}

/// Judges a class, without its fields and bodies.
#[tactic(auto, using(th_type::proofs::Least::lowest_append))]
fn judge_class(
    alloc: Global,
    class: &ClassDecl,
    found: &Found<'_>,
    home: &Home,
    text: u32,
    least: &mut Option<Failure>,
) -> Result<(), AllocError>
    ensures { OnOk result (least.new ≡ lowest least.old (item_fails found.now home.now text (head_item (module_class (class_of class.now))))) }
{
    judge_params(alloc, text, &class.head.params, least)?;
    let sight = Sight::of(alloc, home, &class.head.params)?;
    let _ = walk_class_head(alloc, &class.head, found, &sight, text, least)?;
    judge_class_body(alloc, class, found, &sight, text, least)
}

/// Judges the head of a routine or an iterator.
#[tactic(auto, using(th_type::proofs::Least::lowest_append))]
fn judge_routine(
    alloc: Global,
    head: &RoutineHead,
    found: &Found<'_>,
    home: &Home,
    text: u32,
    least: &mut Option<Failure>,
) -> Result<(), AllocError>
    ensures { OnOk result (least.new ≡ lowest least.old (routine_fails found.now home.now text (routine_head_of head.now))) }
{
    judge_params(alloc, text, &head.params, least)?;
    let sight = Sight::of(alloc, home, &head.params)?;
    let _ = walk_head(
        alloc,
        &head.formals,
        &head.gives,
        &head.signals,
        found,
        &sight,
        text,
        least,
    )?;
    let _ = walk_clauses(alloc, &head.clauses, found, &sight, text, least)?;
    Ok(())
}

/// Judges the head of an item.
fn judge_item(
    alloc: Global,
    item: &ModuleItem,
    found: &Found<'_>,
    home: &Home,
    text: u32,
    least: &mut Option<Failure>,
) -> Result<(), AllocError>
    ensures { OnOk result (least.new ≡ lowest least.old (item_fails found.now home.now text (head_item (module_item_of item.now)))) }
{
    match item {
        ModuleItem::Class(class) => judge_class(alloc, class, found, home, text, least),
        ModuleItem::Routine(routine) => {
            judge_routine(alloc, &routine.head, found, home, text, least)
        }
    }
}

/// Judges the heads of items.
pub fn judge_heads(
    alloc: Global,
    items: &[ModuleItem],
    found: &Found<'_>,
    home: &Home,
    text: u32,
    least: &mut Option<Failure>,
) -> Result<(), AllocError>
    ensures { OnOk result (least.new ≡ lowest least.old (items_fail found.now home.now text (map head_item (map module_item_of items.now)))) }
{
    for item in items {
        judge_item(alloc, item, found, home, text, least)?;
    }
    Ok(())
}

/// Judges the fields of a class.
#[tactic(auto, using(th_type::proofs::Least::lowest_append))]
fn judge_class_fields(
    alloc: Global,
    class: &ClassDecl,
    found: &Found<'_>,
    home: &Home,
    text: u32,
    least: &mut Option<Failure>,
) -> Result<(), AllocError>
    ensures { OnOk result (least.new ≡ lowest least.old (fields_fail found.now home.now text (class_of class.now))) }
{
    judge_formals(alloc, text, &class.fields, least)?;
    let sight = Sight::of(alloc, home, &class.head.params)?;
    let _ = walk_formals(alloc, &class.fields, found, &sight, text, least)?;
    Ok(())
}

/// Judges the fields of an item.
fn judge_item_fields(
    alloc: Global,
    item: &ModuleItem,
    found: &Found<'_>,
    home: &Home,
    text: u32,
    least: &mut Option<Failure>,
) -> Result<(), AllocError>
    ensures { OnOk result (least.new ≡ lowest least.old (item_fields_fail found.now home.now text (module_item_of item.now))) }
{
    match item {
        ModuleItem::Class(class) => judge_class_fields(alloc, class, found, home, text, least),
        ModuleItem::Routine(_) => Ok(()),
    }
}

/// Judges the fields of items.
pub fn judge_fields(
    alloc: Global,
    items: &[ModuleItem],
    found: &Found<'_>,
    home: &Home,
    text: u32,
    least: &mut Option<Failure>,
) -> Result<(), AllocError>
    ensures { OnOk result (least.new ≡ lowest least.old (all_fields_fail found.now home.now text (map module_item_of items.now))) }
{
    for item in items {
        judge_item_fields(alloc, item, found, home, text, least)?;
    }
    Ok(())
}
