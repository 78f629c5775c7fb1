//! Methods of classes.
ghost use Rattle.std.specs.Prelude.{◌≡◌, ◌++◌, ◌∷◌, List, [], None, Some, map, unwrap_or, IfOk, OnOk};
ghost use Rattle.th_tree.specs.DeclView.{method_of, sig_of as sig_tree_of};
ghost use Rattle.th_type.specs.Failures.{lowest};
ghost use Rattle.th_type.specs.Signatures.{sig_of};
ghost use Rattle.th_meaning.specs.Program.{method_name};
ghost use Rattle.th_module_rules.specs.Contexts.{bare_sig, sig_or_bare};
ghost use Rattle.th_module_rules.specs.Modules.{context_in, marked_lawfully, method_fails, methods_fail, unit_body_fails};
ghost use Rattle.th_module_rules.specs.Units.{method_unit, method_units};
ghost use Rattle.th_hier.specs.Views.{sig_opt};
ghost use Rattle.th_stmt_rules.specs.Bodies.{both_parts};
ghost use Rattle.th_stmt_rules.specs.Units.{unit_core};
ghost use Rattle.th_tree.specs.declared.tree.Ident.{Ident};
ghost use Rattle.th_hier.specs.Naming.{different};
ghost use Rattle.th_scope.specs.View.{class_of, locals_of};
ghost use Rattle.th_stmt_forms.specs.View.{body_opt};
ghost use Rattle.th_modules.specs.View.{judged_of, method_made, unit_opt, units_after, units_opt};

use crate::judging::ClassFrame;
use crate::unit::{class_unit, walk_unit_body};
use crate::within::place_at;
use std::alloc::{AllocError, Global};
use th_contexts::{fields_of, has_method};
use th_heads::{Found, Sight, names_of, walk_sig};
use th_hier::{Hierarchy, Numbers};
use th_meaning::{CoreBody, CoreUnit, UnitKind};
use th_scope::{ClassItem, LocalList, spelled};
use th_tree::{Ident, MethodTree, Name, SigTree};
use th_type::{Failure, NumberList, Sig, TyList, demand};

/// Whether a method is marked as hidden exactly where its name is not that of a method of the class's type.
fn marked_lawfully(hierarchy: &Hierarchy, class: &ClassItem, tree: &MethodTree) -> bool
    ensures { result ≡ marked_lawfully hierarchy.now.types (class_of class.now) (method_of tree.now) }
{
    if has_method(hierarchy, &class.of, tree.sig.name.name) {
        !tree.hidden
    } else {
        tree.hidden
    }
}

/// The signature, or one without parts.
fn sig_or_bare(alloc: Global, method: u32, sig: Option<Sig>) -> Sig
    ensures { sig_of result ≡ unwrap_or (sig_opt sig) (bare_sig method) }
{
    match sig {
        Some(sig) => sig,
        None => Sig {
            method,
            iterator: false,
            formals: TyList::NoTy,
            gives: None,
            signals: NumberList::of(Vec::new(alloc)),
        },
    }
}

/// The signature of a method.
pub fn method_sig(
    alloc: Global,
    tree: &SigTree,
    found: &Found<'_>,
    sight: &Sight<'_>,
) -> Result<Sig, AllocError>
    ensures { IfOk result (λ r. sig_of r ≡ sig_or_bare found.now sight.now (sig_tree_of tree.now)) }
{
    let mut ignored = None;
    let sig = walk_sig(alloc, tree, found, sight, 0, &mut ignored)?;
    Ok(sig_or_bare(alloc, tree.name.name, sig))
}

/// The full name of the body of a method in a class.
fn method_name(alloc: Global, class: &Name, method: &Name) -> Result<Name, AllocError>
    ensures { IfOk result (λ r. r ≡ method_name class.now method.now) }
{
    let mut bytes = Vec::from_slice(alloc, class.as_bytes())?;
    bytes.push(b'.')?;
    bytes.extend_from_slice(method.as_bytes())?;
    Ok(Name::of(bytes))
}

/// The unit of a method of the class with this full name, where it has a body.
fn method_unit(
    alloc: Global,
    outer: &ClassFrame<'_>,
    full: u32,
    sig: &Sig,
    method: u32,
    body: Option<CoreBody>,
) -> Result<Option<CoreUnit>, AllocError>
    ensures { IfOk result (λ r. unit_opt r ≡ method_made (judged_of outer.now.judging.now).table (class_of outer.now.class.now) full (sig_of sig.now) method (body_opt body)) }
{
    let Some(body) = body else {
        return Ok(None);
    };
    let class = outer.class;
    let judging = outer.judging;
    let names = judging.env.names;
    let of = spelled(alloc, names, full)?;
    let bare = spelled(alloc, names, method)?;
    let name = method_name(alloc, &of, &bare)?;
    let kind = UnitKind::Method(of, bare);
    class_unit(alloc, names, name, kind, class, sig, body)
}

/// What a method has of its own: the type parameters of its class, by the numbers of their names, and its signature.
#[derive(Drop)]
struct Own {
    params: Numbers,
    sig: Sig,
}

/// What a method of a class with these type parameters has of its own.
fn own_of(
    alloc: Global,
    params: &[Ident],
    tree: &SigTree,
    found: &Found<'_>,
    sight: &Sight<'_>,
) -> Result<Own, AllocError>
    ensures params { IfOk result (λ r. r.params ≡ different (map (λ p. p.name) params.now)) }
    ensures sig { IfOk result (λ r. sig_of r.sig ≡ sig_or_bare found.now sight.now (sig_tree_of tree.now)) }
{
    let names = names_of(alloc, params)?;
    Ok(Own {
        params: Numbers::of(alloc, &names)?,
        sig: method_sig(alloc, tree, found, sight)?,
    })
}

/// What a method is judged by.
#[derive(Clone, Copy)]
struct MethodFrame<'a> {
    outer: &'a ClassFrame<'a>,
    own: &'a Own,
}

/// Judges the body of a method of the class with this full name: its checked tree, where no rule fails.
fn walk_body(
    alloc: Global,
    frame: &MethodFrame<'_>,
    full: u32,
    formals: LocalList,
    tree: &MethodTree,
    least: &mut Option<Failure>,
) -> Result<Option<CoreBody>, AllocError>
    ensures core { IfOk result (λ r. (ps : List Ident) → frame.now.own.now.params ≡ different (map (λ p. p.name) ps) → least.new ≡ None → body_opt r ≡ unit_core (context_in (judged_of frame.now.outer.now.judging.now) ps (class_of frame.now.outer.now.class.now).clauses (sig_of frame.now.own.now.sig) (Some full)) (locals_of formals) (method_of tree.now).body) }
    ensures least { OnOk result ((ps : List Ident) → frame.now.own.now.params ≡ different (map (λ p. p.name) ps) → least.new ≡ lowest least.old (unit_body_fails (context_in (judged_of frame.now.outer.now.judging.now) ps (class_of frame.now.outer.now.class.now).clauses (sig_of frame.now.own.now.sig) (Some full)) (locals_of formals) (method_of tree.now).sig.name (method_of tree.now).body)) }
{
    let outer = frame.outer;
    let class = outer.class;
    let judging = outer.judging;
    let own = frame.own;
    let env = judging.unit(&own.params, &class.clauses, &own.sig, Some(full), formals);
    walk_unit_body(alloc, &tree.body, tree.sig.name, &env, least)
}

/// Judges a method of the class with this full name and these type parameters: its unit, where no rule fails.
#[tactic(auto, using(th_type::proofs::Least::lowest_append))]
fn judge_method(
    alloc: Global,
    outer: &ClassFrame<'_>,
    params: &[Ident],
    full: u32,
    tree: &MethodTree,
    least: &mut Option<Failure>,
) -> Result<Option<CoreUnit>, AllocError>
    ensures unit { IfOk result (λ r. least.new ≡ None → unit_opt r ≡ method_unit (judged_of outer.now.judging.now) params.now (class_of outer.now.class.now) full (method_of tree.now)) }
    ensures least { OnOk result (least.new ≡ lowest least.old (method_fails (judged_of outer.now.judging.now) params.now (class_of outer.now.class.now) full (method_of tree.now))) }
{
    let judging = outer.judging;
    let name = tree.sig.name;
    let marked = marked_lawfully(judging.env.hierarchy, outer.class, tree);
    demand(least, marked, 15, place_at(judging, name.at));
    let sight = Sight::of(alloc, judging.env.home, params)?;
    let formals = fields_of(alloc, &tree.sig.formals, judging.found, &sight)?;
    let own = own_of(alloc, params, &tree.sig, judging.found, &sight)?;
    let frame = MethodFrame {
        outer: &*outer,
        own: &own,
    };
    let body = walk_body(alloc, &frame, full, formals, tree, least)?;
    method_unit(alloc, outer, full, &own.sig, name.name, body)
}

/// Puts a unit after others, where all are there.
fn push_unit(
    units: Option<Vec<CoreUnit>>,
    unit: Option<CoreUnit>,
) -> Result<Option<Vec<CoreUnit>>, AllocError>
    ensures { IfOk result (λ r. units_opt r ≡ both_parts (λ us u. us ++ u ∷ []) (units_opt units) (unit_opt unit)) }
{
    let Some(mut units) = units else {
        return Ok(None);
    };
    let Some(unit) = unit else {
        return Ok(None);
    };
    units.push(unit)?;
    Ok(Some(units))
}

/// Judges the methods of the class with this full name and these type parameters, and puts their units after those that are
/// there.
#[tactic(auto, using(th_type::proofs::Least::lowest_append))]
pub fn judge_methods(
    alloc: Global,
    outer: &ClassFrame<'_>,
    params: &[Ident],
    full: u32,
    methods: &[MethodTree],
    before: Option<Vec<CoreUnit>>,
    least: &mut Option<Failure>,
) -> Result<Option<Vec<CoreUnit>>, AllocError>
    ensures units { IfOk result (λ r. least.new ≡ None → units_opt r ≡ units_after (units_opt before) (method_units (judged_of outer.now.judging.now) params.now (class_of outer.now.class.now) full (map method_of methods.now))) }
    ensures least { OnOk result (least.new ≡ lowest least.old (methods_fail (judged_of outer.now.judging.now) params.now (class_of outer.now.class.now) full (map method_of methods.now))) }
{
    let mut units = before;
    for method in methods {
        let unit = judge_method(alloc, outer, params, full, method, least)?;
        units = push_unit(units, unit)?;
    }
    Ok(units)
}
