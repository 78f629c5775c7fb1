//! Types in the body of a unit, where a local hides what has its name. docs/LANGUAGE.md, "Names and scopes", states the
//! rules.
ghost use Rattle.std.specs.Prelude.{◌≡◌, nat_eq, IfOk, OnOk, Some};
ghost use Rattle.th_tree.specs.View.{type_of, types_of};
ghost use Rattle.th_type.specs.Types.{no_ty, tys_of};
ghost use Rattle.th_type.specs.Failures.{lowest, place, unless};
ghost use Rattle.th_hier.specs.Resolve.{array_of, before_types, count, referent_type, sort_fails, sort_type, type_name_fails};
ghost use Rattle.th_hier.specs.Views.{ty_opt, tys_opt, onto_opt};
ghost use Rattle.th_rules.specs.Context.{meaning, referent};
ghost use Rattle.th_rules.specs.Resolving.{resolved_type, resolved_types, type_fails, types_fails};
ghost use Rattle.th_scope.specs.View.{context_of, locals_of};

use crate::env::Env;
use crate::local::LocalList;
use crate::naming::referent_of;
use std::alloc::{AllocError, Global};
use th_hier::{Entry, Referent, Sort};
use th_tree::{RefTree, TypeList, TypeTree};
use th_type::{Failure, Place, Ty, TyList, demand};

/// Whether there are so many types.
pub fn has_count(types: &TypeList, many: u32) -> bool
    ensures { result ≡ nat_eq (count (types_of types.now)) many }
{
    let mut left = many;
    let mut rest = types;
    while let TypeList::MoreType(_, next) = rest {
        if left == 0 {
            return false;
        }
        left -= 1;
        rest = next;
    }
    left == 0
}

/// Judges an item in a type with these arguments.
fn judge_sort(least: &mut Option<Failure>, sort: Sort, args: &TypeList, at: Place)
    ensures { least.new ≡ lowest least.old (sort_fails sort (count (types_of args.now)) at) }
{
    match sort {
        Sort::Declared(params) => demand(least, has_count(args, params), 5, at),
        _ => demand(least, false, 4, at),
    }
}

/// Judges what is referred to in a type with these arguments.
fn judge_type_name(least: &mut Option<Failure>, referent: Referent, args: &TypeList, at: Place)
    ensures { least.new ≡ lowest least.old (type_name_fails referent (count (types_of args.now)) at) }
{
    match referent {
        Referent::Nothing => demand(least, false, 4, at),
        Referent::Param(_) => demand(least, has_count(args, 0), 5, at),
        Referent::Item(entry) => judge_sort(least, entry.sort, args, at),
    }
}

/// The type of an item with these arguments.
fn entry_type(entry: Entry, args: &TypeList, types: TyList) -> Option<Ty>
    ensures { ty_opt result ≡ sort_type entry.sort entry.full (count (types_of args.now)) (tys_of types) }
{
    match entry.sort {
        Sort::Declared(params) => {
            if has_count(args, params) {
                Some(Ty::Named(entry.full, types))
            } else {
                None
            }
        }
        _ => None,
    }
}

/// The type of what is referred to, with these arguments.
fn referent_type(referent: Referent, args: &TypeList, types: Option<TyList>) -> Option<Ty>
    ensures { ty_opt result ≡ referent_type referent (count (types_of args.now)) (tys_opt types) }
{
    let types = types?;
    match referent {
        Referent::Nothing => None,
        Referent::Param(place) => {
            if has_count(args, 0) {
                Some(Ty::Param(place))
            } else {
                None
            }
        }
        Referent::Item(entry) => entry_type(entry, args, types),
    }
}

/// The array of the elements' type.
fn array_type(alloc: Global, of: Option<Ty>) -> Result<Option<Ty>, AllocError>
    ensures { IfOk result (λ r. ty_opt r ≡ array_of (ty_opt of)) }
{
    match of {
        None => Ok(None),
        Some(of) => Ok(Some(Ty::Array(Box::new(alloc, of)?))),
    }
}

/// The types so far, the last first, with a further one, where all are there.
fn with_type(
    alloc: Global,
    done: Option<TyList>,
    ty: Option<Ty>,
) -> Result<Option<TyList>, AllocError>
    ensures { IfOk result (λ r. tys_opt r ≡ before_types (ty_opt ty) (tys_opt done)) }
{
    let Some(done) = done else {
        return Ok(None);
    };
    let Some(ty) = ty else {
        return Ok(None);
    };
    Ok(Some(TyList::MoreTy(Box::new(alloc, ty)?, Box::new(alloc, done)?)))
}

/// The types the other way round, where there are some.
fn turned(done: Option<TyList>) -> Option<TyList>
    ensures { tys_opt result ≡ onto_opt (tys_opt done) (Some no_ty) }
{
    match done {
        None => None,
        Some(done) => Some(done.turned(TyList::NoTy)),
    }
}

/// Judges a type: the type that it means, None exactly where one of its names fails.
#[tactic(auto, using(th_type::proofs::Least::lowest_append))]
#[cycle(walks)]
pub fn walk_type(
    alloc: Global,
    tree: &TypeTree,
    env: &Env<'_>,
    locals: &LocalList,
    least: &mut Option<Failure>,
) -> Result<Option<Ty>, AllocError>
    ensures means { IfOk result (λ r. ty_opt r ≡ resolved_type (context_of env.now) (locals_of locals.now) (type_of tree.now)) }
    ensures least { OnOk result (least.new ≡ lowest least.old (type_fails (context_of env.now) (locals_of locals.now) (type_of tree.now))) }
{
    match tree {
        TypeTree::Int(_) => Ok(Some(Ty::Int)),
        TypeTree::Bool(_) => Ok(Some(Ty::Bool)),
        TypeTree::Text(_) => Ok(Some(Ty::Text)),
        TypeTree::Array(_, of) => {
            let of = walk_type(alloc, of, env, locals, least)?;
            array_type(alloc, of)
        }
        TypeTree::Named(named, args) => {
            let referent = referent_of(env, locals, named);
            let at = Place {
                text: env.text,
                at: named.first.at,
            };
            judge_type_name(least, referent, args, at);
            let types = walk_types(alloc, args, env, locals, least)?;
            Ok(referent_type(referent, args, types))
        }
    }
}

/// Judges types: the types that they mean, None exactly where one of their names fails.
#[tactic(auto, using(th_type::proofs::Least::lowest_append))]
#[cycle(walks)]
pub fn walk_types(
    alloc: Global,
    types: &TypeList,
    env: &Env<'_>,
    locals: &LocalList,
    least: &mut Option<Failure>,
) -> Result<Option<TyList>, AllocError>
    ensures means { IfOk result (λ r. tys_opt r ≡ resolved_types (context_of env.now) (locals_of locals.now) (types_of types.now)) }
    ensures least { OnOk result (least.new ≡ lowest least.old (types_fails (context_of env.now) (locals_of locals.now) (types_of types.now))) }
{
    let mut done = Some(TyList::NoTy);
    let mut rest = types;
    loop {
        match rest {
            TypeList::NoType => return Ok(turned(done)),
            TypeList::MoreType(first, next) => {
                let ty = walk_type(alloc, first, env, locals, least)?;
                done = with_type(alloc, done, ty)?;
                rest = next;
            }
        }
    }
}
