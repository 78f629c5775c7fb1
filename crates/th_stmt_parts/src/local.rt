//! The locals in scope.
ghost use Rattle.std.specs.Prelude.{◌≡◌, ◌+◌, ◌∷◌, IfOk, OnOk, drop, length, []};
ghost use Rattle.th_tree.specs.View.{formal_of};
ghost use Rattle.th_type.specs.Failures.{lowest};
ghost use Rattle.th_hier.specs.Views.{ty_opt};
ghost use Rattle.th_rules.specs.Resolving.{resolved_type};
ghost use Rattle.th_scope.specs.View.{binding_of, context_of, locals_of};
ghost use Rattle.th_stmt_rules.specs.Failing.{formal_fails};
ghost use Rattle.th_stmt_rules.specs.Scopes.{bound, is_fresh};
ghost use Rattle.th_stmt_rules.specs.Bodies.{variable_with, where_true};
ghost use Rattle.th_stmt_parts.specs.View.{locals_onto, variable_opt};

use crate::place::place_at;
use std::alloc::{AllocError, Global};
use std::mem;
use th_meaning::CoreVariable;
use th_scope::{Env, Local, LocalList, core_type, walk_type};
use th_tree::Formal;
use th_type::{Failure, demand};

/// A local that is declared, and whether no local in scope has its name.
#[derive(Drop)]
pub struct Declared {
    pub local: Local,
    pub fresh: bool,
}

/// Whether no local in scope has the name.
fn is_fresh(locals: &LocalList, formal: &Formal) -> bool
    ensures { result ≡ is_fresh (locals_of locals.now) (formal_of formal.now) }
{
    match locals.find(formal.name.name) {
        None => true,
        Some(_) => false,
    }
}

/// Judges a declaration: the local, of which the number is `index`.
#[tactic(auto, using(th_type::proofs::Least::lowest_append))]
pub fn walk_formal(
    alloc: Global,
    formal: &Formal,
    index: u32,
    env: &Env<'_>,
    locals: &LocalList,
    least: &mut Option<Failure>,
) -> Result<Declared, AllocError>
    ensures ty { IfOk result (λ r. ty_opt r.local.ty ≡ resolved_type (context_of env.now) (locals_of locals.now) (formal_of formal.now).of) }
    ensures local { IfOk result (λ r. binding_of r.local ≡ bound (context_of env.now) (locals_of locals.now) index (formal_of formal.now)) }
    ensures fresh { IfOk result (λ r. r.fresh ≡ is_fresh (locals_of locals.now) (formal_of formal.now)) }
    ensures least { OnOk result (least.new ≡ lowest least.old (formal_fails (context_of env.now) (locals_of locals.now) (formal_of formal.now))) }
{
    let fresh = is_fresh(locals, formal);
    demand(least, fresh, 19, place_at(env, formal.name.at));
    let ty = walk_type(alloc, &formal.of, env, locals, least)?;
    let local = Local {
        name: formal.name.name,
        ty,
        index,
    };
    Ok(Declared { local, fresh })
}

/// A further local in scope.
pub fn enter(alloc: Global, locals: &mut LocalList, local: Local) -> Result<(), AllocError>
    ensures { OnOk result (locals_of locals.new ≡ binding_of local ∷ locals_of locals.old) }
{
    let rest = mem::replace(locals, LocalList::NoLocal);
    *locals = LocalList::MoreLocal(local, Box::new(alloc, rest)?);
    Ok(())
}

/// Takes the nearest local out of scope.
pub fn leave(locals: &mut LocalList)
    ensures { locals_of locals.new ≡ drop 1 (locals_of locals.old) }
{
    match locals {
        LocalList::NoLocal => {}
        LocalList::MoreLocal(_, rest) => {
            let others = mem::replace(&mut **rest, LocalList::NoLocal);
            *locals = others;
        }
    }
}

/// Takes the nearest locals out of scope.
#[tactic(auto, using(crate::proofs::Onto::drop_next))]
pub fn leave_all(locals: &mut LocalList, count: u32)
    ensures { locals_of locals.new ≡ drop count (locals_of locals.old) }
{
    for _done in 0..count {
        leave(locals);
    }
}

/// The number after this one; a greater one than 2^32 - 1 is want of memory.
pub fn following(number: u32) -> Result<u32, AllocError>
    ensures { IfOk result (λ r. r ≡ number + 1) }
{
    match number.checked_add(1) {
        Some(next) => Ok(next),
        None => Err(AllocError),
    }
}

/// A second local, equal to this one.
fn local_clone(alloc: Global, local: &Local) -> Result<Local, AllocError>
    ensures { IfOk result (λ l. binding_of l ≡ binding_of local.now) }
{
    let ty = match &local.ty {
        None => None,
        Some(ty) => Some(ty.try_clone(alloc)?),
    };
    Ok(Local {
        name: local.name,
        ty,
        index: local.index,
    })
}

/// These locals the other way round, and how many there are; more than 2^32 - 1 are want of memory.
fn turned(alloc: Global, locals: &LocalList) -> Result<(LocalList, u32), AllocError>
    ensures list { IfOk result (λ r. locals_of r.0 ≡ locals_onto (locals_of locals.now) []) }
    ensures count { IfOk result (λ r. r.1 ≡ length (locals_of locals.now)) }
{
    let mut done = LocalList::NoLocal;
    let mut count: u32 = 0;
    let mut rest = locals;
    while let LocalList::MoreLocal(local, next) = rest {
        let copy = local_clone(alloc, local)?;
        enter(alloc, &mut done, copy)?;
        count = following(count)?;
        rest = next;
    }
    Ok((done, count))
}

/// Second locals, equal to these, and how many there are.
#[tactic(auto, using(crate::proofs::Onto::twice_turned, crate::proofs::Onto::turned_length))]
pub fn copied(alloc: Global, locals: &LocalList) -> Result<(LocalList, u32), AllocError>
    ensures list { IfOk result (λ r. locals_of r.0 ≡ locals_of locals.now) }
    ensures count { IfOk result (λ r. r.1 ≡ length (locals_of locals.now)) }
{
    let (back, _) = turned(alloc, locals)?;
    turned(alloc, &back)
}

/// The variable of a declaration, where its name is new and its type resolves.
pub fn variable(
    alloc: Global,
    env: &Env<'_>,
    declared: &Declared,
) -> Result<Option<CoreVariable>, AllocError>
    ensures { IfOk result (λ r. variable_opt r ≡ where_true declared.now.fresh (variable_with (context_of env.now) (binding_of declared.now.local).index (binding_of declared.now.local).of)) }
{
    if !declared.fresh {
        return Ok(None);
    }
    match &declared.local.ty {
        None => Ok(None),
        Some(ty) => Ok(Some(CoreVariable {
            local: declared.local.index,
            of: core_type(alloc, ty, env.names)?,
        })),
    }
}
