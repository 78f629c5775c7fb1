//! The walk of a type: its failures and what it means, at once.
ghost use Rattle.std.specs.Prelude.{◌≡◌, IfOk, OnOk};
ghost use Rattle.th_tree.specs.View.{type_of, types_of};
ghost use Rattle.th_type.specs.Failures.{lowest};
ghost use Rattle.th_hier.specs.Resolve.{resolved_type, resolved_types, type_fails, types_fails};
ghost use Rattle.th_hier.specs.Views.{ty_opt, tys_opt};

use crate::found::{Found, Sight};
use crate::named::{array_type, judge_type_name, referent_type, turned, with_type};
use std::alloc::{AllocError, Global};
use th_tree::{TypeList, TypeTree};
use th_type::{Failure, Place, Ty, TyList};

/// Judges a type in a text: the type that it means, None exactly where one of its names fails.
#[tactic(auto, using(th_type::proofs::Least::lowest_append))]
#[cycle(walks)]
pub fn walk_type(
    alloc: Global,
    tree: &TypeTree,
    found: &Found<'_>,
    sight: &Sight<'_>,
    text: u32,
    least: &mut Option<Failure>,
) -> Result<Option<Ty>, AllocError>
    ensures means { IfOk result (λ r. ty_opt r ≡ resolved_type found.now sight.now (type_of tree.now)) }
    ensures least { OnOk result (least.new ≡ lowest least.old (type_fails found.now sight.now text (type_of tree.now))) }
{
    match tree {
        TypeTree::Int(_) => Ok(Some(Ty::Int)),
        TypeTree::Bool(_) => Ok(Some(Ty::Bool)),
        TypeTree::Text(_) => Ok(Some(Ty::Text)),
        TypeTree::Array(_, of) => {
            let of = walk_type(alloc, of, found, sight, text, least)?;
            array_type(alloc, of)
        }
        TypeTree::Named(named, args) => {
            let referent = found.meaning(sight, named);
            let at = Place {
                text,
                at: named.first.at,
            };
            judge_type_name(least, referent, args, at);
            let types = walk_types(alloc, args, found, sight, text, least)?;
            Ok(referent_type(referent, args, types))
        }
    }
}

/// Judges types in a text: the types that they mean, None exactly where one of their names fails.
#[tactic(auto, using(th_type::proofs::Least::lowest_append))]
#[cycle(walks)]
pub fn walk_types(
    alloc: Global,
    types: &TypeList,
    found: &Found<'_>,
    sight: &Sight<'_>,
    text: u32,
    least: &mut Option<Failure>,
) -> Result<Option<TyList>, AllocError>
    ensures means { IfOk result (λ r. tys_opt r ≡ resolved_types found.now sight.now (types_of types.now)) }
    ensures least { OnOk result (least.new ≡ lowest least.old (types_fails found.now sight.now text (types_of types.now))) }
{
    let mut done = Some(TyList::NoTy);
    let mut rest = types;
    loop {
        match rest {
            TypeList::NoType => return Ok(turned(done)),
            TypeList::MoreType(first, next) => {
                let ty = walk_type(alloc, first, found, sight, text, least)?;
                done = with_type(alloc, done, ty)?;
                rest = next;
            }
        }
    }
}
