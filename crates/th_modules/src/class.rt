//! Classes of a module.
ghost use Rattle.std.specs.Prelude.{◌≡◌, List, None, Some, map, IfOk, OnOk};
ghost use Rattle.th_tree.specs.DeclView.{class_of as tree_of};
ghost use Rattle.th_tree.specs.declared.tree.Ident.{Ident};
ghost use Rattle.th_type.specs.Failures.{lowest};
ghost use Rattle.th_hier.specs.Naming.{different};
ghost use Rattle.th_meaning.specs.Program.{init_name};
ghost use Rattle.th_rules.specs.Context.{class_head};
ghost use Rattle.th_rules.specs.Cores.{name_at};
ghost use Rattle.th_module_rules.specs.Modules.{ClassFails, class_lists_fail, context_in, found_in, inherited_at, methods_fail, seen_in};
ghost use Rattle.th_module_rules.specs.Initializers.{init_core, init_fails};
ghost use Rattle.th_module_rules.specs.Contexts.{bindings};
ghost use Rattle.th_module_rules.specs.Units.{class_units, method_units};
ghost use Rattle.th_scope.specs.View.{class_of, context_of, locals_of};
ghost use Rattle.th_stmt_forms.specs.View.{body_opt};
ghost use Rattle.th_stmt.specs.Refusals.{lower_opt};
ghost use Rattle.th_modules.specs.Lowering.{Lowers};
ghost use Rattle.th_modules.specs.View.{init_made, judged_of, unit_opt, units_after, units_opt};

use crate::judging::ClassFrame;
use crate::method::judge_methods;
use crate::unit::{class_unit, one_unit};
use std::alloc::{AllocError, Global};
use th_contexts::fields_of;
use th_heads::Sight;
use th_inits::{judge_inherits, walk_init};
use th_meaning::{CoreBody, CoreUnit, UnitKind};
use th_overrides::judge_class as judge_overrides;
use th_scope::{ClassItem, Env, LocalList, spelled};
use th_tree::{ClassDecl, Name};
use th_type::{Failure, demand};

/// The full name of a class's initializer.
fn init_name(alloc: Global, class: &Name) -> Result<Name, AllocError>
    ensures { IfOk result (λ r. r ≡ init_name class.now) }
{
    let mut bytes = Vec::from_slice(alloc, class.as_bytes())?;
    bytes.extend_from_slice(b".init")?;
    Ok(Name::of(bytes))
}

/// The unit of the initializer of the class with this full name, where it has a body.
fn init_unit(
    alloc: Global,
    outer: &ClassFrame<'_>,
    full: u32,
    body: Option<CoreBody>,
) -> Result<Option<CoreUnit>, AllocError>
    ensures { IfOk result (λ r. unit_opt r ≡ init_made (judged_of outer.now.judging.now).table (class_of outer.now.class.now) full (body_opt body)) }
{
    let Some(body) = body else {
        return Ok(None);
    };
    let class = outer.class;
    let judging = outer.judging;
    let names = judging.env.names;
    let of = spelled(alloc, names, full)?;
    let name = init_name(alloc, &of)?;
    class_unit(
        alloc,
        names,
        name,
        UnitKind::Init(of),
        class,
        &class.init,
        body,
    )
}

/// The failure that is kept of the one so far and a further one that there may be.
fn merge(least: &mut Option<Failure>, other: Option<Failure>)
    ensures { least.new ≡ lower_opt least.old other }
{
    match other {
        None => {}
        Some(failure) => demand(least, false, failure.rule, failure.place),
    }
}

/// Judges the initializer of the class with this full name: its checked tree, where no rule fails.
fn judge_init(
    alloc: Global,
    env: &Env<'_>,
    tree: &ClassDecl,
    class: &ClassItem,
    full: u32,
    least: &mut Option<Failure>,
) -> Result<Option<CoreBody>, AllocError>
    ensures core { IfOk result (λ r. least.new ≡ None → body_opt r ≡ init_core (context_of env.now) (locals_of env.now.locals) (name_at env.now.names.now full) (class_of class.now) (inherited_at (context_of env.now) (class_of class.now).inherits) (tree_of tree.now).init) }
    ensures least { OnOk result (least.new ≡ lowest least.old (init_fails (context_of env.now) (locals_of env.now.locals) (class_of class.now) (inherited_at (context_of env.now) (class_of class.now).inherits) (tree_of tree.now).init)) }
{
    let mut raised = None;
    let body = walk_init(alloc, &tree.init, env, full, class, least, &mut raised)?;
    merge(least, raised);
    Ok(body)
}

/// Judges the methods of a class with this full name, and puts their units after those that are there.
fn judge_own_methods(
    alloc: Global,
    outer: &ClassFrame<'_>,
    full: u32,
    tree: &ClassDecl,
    before: Option<Vec<CoreUnit>>,
    least: &mut Option<Failure>,
) -> Result<Option<Vec<CoreUnit>>, AllocError>
    ensures units { IfOk result (λ r. least.new ≡ None → units_opt r ≡ units_after (units_opt before) (method_units (judged_of outer.now.judging.now) (tree_of tree.now).head.params (class_of outer.now.class.now) full (tree_of tree.now).methods)) }
    ensures least { OnOk result (least.new ≡ lowest least.old (methods_fail (judged_of outer.now.judging.now) (tree_of tree.now).head.params (class_of outer.now.class.now) full (tree_of tree.now).methods)) }
{
    judge_methods(
        alloc,
        outer,
        &tree.head.params,
        full,
        &tree.methods,
        before,
        least,
    )
}

/// Judges what lists show of the definition of a class with this full name: its units, where no rule fails.
fn judge_parts(
    alloc: Global,
    outer: &ClassFrame<'_>,
    env: &Env<'_>,
    full: u32,
    tree: &ClassDecl,
    least: &mut Option<Failure>,
) -> Result<Option<Vec<CoreUnit>>, AllocError>
    requires context { context_of env.now ≡ context_in (judged_of outer.now.judging.now) (tree_of tree.now).head.params (class_of outer.now.class.now).clauses (class_of outer.now.class.now).init None }
    requires locals { locals_of env.now.locals ≡ bindings (found_in (judged_of outer.now.judging.now)) (seen_in (judged_of outer.now.judging.now) (tree_of tree.now).head.params) 0 (tree_of tree.now).init.head.formals }
    ensures units { IfOk result (λ r. least.new ≡ None → units_opt r ≡ class_units (judged_of outer.now.judging.now) full (tree_of tree.now) (class_head (class_of outer.now.class.now))) }
    ensures least { OnOk result (least.new ≡ lowest least.old (class_lists_fail (judged_of outer.now.judging.now) (class_of outer.now.class.now) full (tree_of tree.now))) }
{
    let class = outer.class;
    judge_inherits(alloc, env, &tree.head.inherits, &class.inherits, least)?;
    let body = judge_init(alloc, env, tree, class, full, least)?;
    let unit = init_unit(alloc, outer, full, body)?;
    let first = one_unit(alloc, unit)?;
    let units = judge_own_methods(alloc, outer, full, tree, first, least)?;
    Ok(units)
}

/// What a class is judged by, and what can be seen in it.
#[derive(Clone, Copy)]
struct InitFrame<'a> {
    outer: &'a ClassFrame<'a>,
    sight: &'a Sight<'a>,
}

/// What is known where the initializer of a class stands, where these are its formals.
fn init_env<'a>(frame: &InitFrame<'a>, formals: LocalList) -> Env<'a>
    ensures context { (ps : List Ident) → frame.now.sight.now.params ≡ different (map (λ p. p.name) ps) → context_of result ≡ context_in (judged_of frame.now.outer.now.judging.now) ps (class_of frame.now.outer.now.class.now).clauses (class_of frame.now.outer.now.class.now).init None }
    ensures locals { locals_of result.locals ≡ locals_of formals }
{
    let outer = frame.outer;
    let judging = outer.judging;
    let class = outer.class;
    judging.unit(
        frame.sight.params(),
        &class.clauses,
        &class.init,
        None,
        formals,
    )
}

/// Judges the definition of a class with this full name, where these are the formals of its initializer.
fn judge_within(
    alloc: Global,
    frame: &InitFrame<'_>,
    full: u32,
    formals: LocalList,
    tree: &ClassDecl,
    least: &mut Option<Failure>,
) -> Result<Option<Vec<CoreUnit>>, AllocError>
    requires sight { frame.now.sight.now ≡ seen_in (judged_of frame.now.outer.now.judging.now) (tree_of tree.now).head.params }
    requires locals { locals_of formals ≡ bindings (found_in (judged_of frame.now.outer.now.judging.now)) (seen_in (judged_of frame.now.outer.now.judging.now) (tree_of tree.now).head.params) 0 (tree_of tree.now).init.head.formals }
    ensures units { IfOk result (λ r. least.new ≡ None → units_opt r ≡ class_units (judged_of frame.now.outer.now.judging.now) full (tree_of tree.now) (class_head (class_of frame.now.outer.now.class.now))) }
    ensures least { OnOk result (Lowers (ClassFails (judged_of frame.now.outer.now.judging.now) (class_of frame.now.outer.now.class.now) full (tree_of tree.now)) least.old least.new) }
{
    let outer = frame.outer;
    let judging = outer.judging;
    let env = init_env(frame, formals);
    let units = judge_parts(alloc, outer, &env, full, tree, least)?;
    judge_overrides(
        alloc,
        &env,
        outer.class,
        tree,
        judging.bases,
        judging.own,
        judging.found,
        frame.sight,
        least,
    )?;
    Ok(units)
}

/// Judges the definition of a class, whose full name has this number: its units, where no rule fails.
pub fn judge_class(
    alloc: Global,
    outer: &ClassFrame<'_>,
    full: u32,
    tree: &ClassDecl,
    least: &mut Option<Failure>,
) -> Result<Option<Vec<CoreUnit>>, AllocError>
    ensures units { IfOk result (λ r. least.new ≡ None → units_opt r ≡ class_units (judged_of outer.now.judging.now) full (tree_of tree.now) (class_head (class_of outer.now.class.now))) }
    ensures least { OnOk result (Lowers (ClassFails (judged_of outer.now.judging.now) (class_of outer.now.class.now) full (tree_of tree.now)) least.old least.new) }
{
    let judging = outer.judging;
    let sight = Sight::of(alloc, judging.env.home, &tree.head.params)?;
    let formals = fields_of(alloc, &tree.init.head.formals, judging.found, &sight)?;
    let frame = InitFrame {
        outer: &*outer,
        sight: &sight,
    };
    judge_within(alloc, &frame, full, formals, tree, least)
}
