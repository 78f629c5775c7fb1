//! Routines and iterators.
ghost use Rattle.std.specs.Prelude.{◌≡◌, List, None, map, IfOk, OnOk};
ghost use Rattle.th_tree.specs.declared.tree.Ident.{Ident};
ghost use Rattle.th_tree.specs.DeclView.{routine_head_of, routine_of as tree_of};
ghost use Rattle.th_type.specs.Failures.{lowest};
ghost use Rattle.th_rules.specs.Context.{routine_head};
ghost use Rattle.th_module_rules.specs.Contexts.{routine_info};
ghost use Rattle.th_module_rules.specs.Modules.{context_in, routine_fails, unit_body_fails};
ghost use Rattle.th_stmt_rules.specs.Units.{unit_core};
ghost use Rattle.th_module_rules.specs.Units.{routine_unit};
ghost use Rattle.th_hier.specs.Naming.{different};
ghost use Rattle.th_hier.specs.Texts.{within};
ghost use Rattle.th_scope.specs.View.{locals_of, routine_of};
ghost use Rattle.th_modules.specs.View.{info_of, judged_of, routine_made, unit_opt};
ghost use Rattle.th_stmt_forms.specs.View.{body_opt};

use crate::judging::Judging;
use crate::unit::{unit_with, walk_unit_body};
use std::alloc::{AllocError, Global};
use th_contexts::{fields_of, routine_item};
use th_heads::{Found, Sight, names_of};
use th_hier::{Home, Numbers};
use th_meaning::{CoreBody, CoreUnit, UnitKind};
use th_scope::{LocalList, RoutineItem, spelled};
use th_tree::{Routine, RoutineHead};
use th_type::Failure;

/// The unit of a routine whose full name has this number, where it has a body.
fn routine_unit(
    alloc: Global,
    judging: &Judging<'_>,
    full: u32,
    item: &RoutineItem,
    body: Option<CoreBody>,
) -> Result<Option<CoreUnit>, AllocError>
    ensures { IfOk result (λ r. unit_opt r ≡ routine_made judging.now.env.names.now full (routine_of item.now) (body_opt body)) }
{
    let Some(body) = body else {
        return Ok(None);
    };
    let names = judging.env.names;
    let name = spelled(alloc, names, full)?;
    let unit = unit_with(
        alloc,
        names,
        name,
        UnitKind::Routine,
        item.params,
        &item.clauses,
        &item.sig,
        body,
    )?;
    Ok(Some(unit))
}

/// A routine, and its type parameters by the numbers of their names.
#[derive(Drop)]
struct Own {
    params: Numbers,
    item: RoutineItem,
}

/// A routine by its head.
fn own_of(
    alloc: Global,
    tree: &RoutineHead,
    found: &Found<'_>,
    home: &Home,
) -> Result<Own, AllocError>
    ensures params { IfOk result (λ r. r.params ≡ different (map (λ p. p.name) (routine_head_of tree.now).params)) }
    ensures item { IfOk result (λ r. routine_of r.item ≡ routine_info found.now (within home.now tree.now.params.items) (routine_head_of tree.now)) }
{
    let names = names_of(alloc, &tree.params)?;
    Ok(Own {
        params: Numbers::of(alloc, &names)?,
        item: routine_item(alloc, tree, found, home)?,
    })
}

/// What a routine is judged by.
#[derive(Clone, Copy)]
struct RoutineFrame<'a> {
    judging: &'a Judging<'a>,
    own: &'a Own,
}

/// Judges the body of a routine or an iterator: its checked tree, where no rule fails.
fn walk_body(
    alloc: Global,
    frame: &RoutineFrame<'_>,
    formals: LocalList,
    tree: &Routine,
    least: &mut Option<Failure>,
) -> Result<Option<CoreBody>, AllocError>
    ensures core { IfOk result (λ r. (ps : List Ident) → frame.now.own.now.params ≡ different (map (λ p. p.name) ps) → least.new ≡ None → body_opt r ≡ unit_core (context_in (judged_of frame.now.judging.now) ps (routine_of frame.now.own.now.item).clauses (routine_of frame.now.own.now.item).sig None) (locals_of formals) (tree_of tree.now).body) }
    ensures least { OnOk result ((ps : List Ident) → frame.now.own.now.params ≡ different (map (λ p. p.name) ps) → least.new ≡ lowest least.old (unit_body_fails (context_in (judged_of frame.now.judging.now) ps (routine_of frame.now.own.now.item).clauses (routine_of frame.now.own.now.item).sig None) (locals_of formals) (tree_of tree.now).head.name (tree_of tree.now).body)) }
{
    let judging = frame.judging;
    let own = frame.own;
    let item = &own.item;
    let env = judging.unit(&own.params, &item.clauses, &item.sig, None, formals);
    walk_unit_body(alloc, &tree.body, tree.head.name, &env, least)
}

/// Judges a routine or an iterator, whose full name has this number: its unit, where no rule fails.
pub fn judge_routine(
    alloc: Global,
    judging: &Judging<'_>,
    full: u32,
    tree: &Routine,
    least: &mut Option<Failure>,
) -> Result<Option<CoreUnit>, AllocError>
    ensures unit { IfOk result (λ r. least.new ≡ None → unit_opt r ≡ routine_unit (judged_of judging.now) full (tree_of tree.now) (routine_head (info_of (judged_of judging.now) (tree_of tree.now)))) }
    ensures least { OnOk result (least.new ≡ lowest least.old (routine_fails (judged_of judging.now) (tree_of tree.now))) }
{
    let home = judging.env.home;
    let own = own_of(alloc, &tree.head, judging.found, home)?;
    let sight = Sight::of(alloc, home, &tree.head.params)?;
    let formals = fields_of(alloc, &tree.head.formals, judging.found, &sight)?;
    let frame = RoutineFrame {
        judging: &*judging,
        own: &own,
    };
    let body = walk_body(alloc, &frame, formals, tree, least)?;
    routine_unit(alloc, judging, full, &own.item, body)
}
