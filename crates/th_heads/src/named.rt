//! The type that a tree means. docs/LANGUAGE.md, "Names and scopes", states the rules 4 and 5.
ghost use Rattle.std.specs.Prelude.{◌≡◌, IfOk, Some};
ghost use Rattle.th_tree.specs.View.{types_of};
ghost use Rattle.th_type.specs.Types.{no_ty, tys_of};
ghost use Rattle.th_type.specs.Failures.{lowest};
ghost use Rattle.th_hier.specs.Resolve.{array_of, before_types, count, referent_type, sort_fails, sort_type, type_name_fails};
ghost use Rattle.th_hier.specs.Views.{ty_opt, tys_opt, onto_opt};

use std::alloc::{AllocError, Global};
use th_hier::{Entry, Referent, Sort};
use th_scope::has_count;
use th_tree::TypeList;
use th_type::{Failure, Place, Ty, TyList, demand};

/// Judges an item in a type with these arguments.
fn judge_sort(least: &mut Option<Failure>, sort: Sort, args: &TypeList, at: Place)
    ensures { least.new ≡ lowest least.old (sort_fails sort (count (types_of args.now)) at) }
{
    match sort {
        Sort::Declared(params) => demand(least, has_count(args, params), 5, at),
        _ => demand(least, false, 4, at),
    }
}

/// Judges what is referred to in a type with these arguments.
pub fn judge_type_name(least: &mut Option<Failure>, referent: Referent, args: &TypeList, at: Place)
    ensures { least.new ≡ lowest least.old (type_name_fails referent (count (types_of args.now)) at) }
{
    match referent {
        Referent::Nothing => demand(least, false, 4, at),
        Referent::Param(_) => demand(least, has_count(args, 0), 5, at),
        Referent::Item(entry) => judge_sort(least, entry.sort, args, at),
    }
}

/// The type of an item with these arguments.
fn entry_type(entry: Entry, args: &TypeList, types: TyList) -> Option<Ty>
    ensures { ty_opt result ≡ sort_type entry.sort entry.full (count (types_of args.now)) (tys_of types) }
{
    match entry.sort {
        Sort::Declared(params) => {
            if has_count(args, params) {
                Some(Ty::Named(entry.full, types))
            } else {
                None
            }
        }
        _ => None,
    }
}

/// The type of what is referred to, with these arguments.
pub fn referent_type(referent: Referent, args: &TypeList, types: Option<TyList>) -> Option<Ty>
    ensures { ty_opt result ≡ referent_type referent (count (types_of args.now)) (tys_opt types) }
{
    let types = types?;
    match referent {
        Referent::Nothing => None,
        Referent::Param(place) => {
            if has_count(args, 0) {
                Some(Ty::Param(place))
            } else {
                None
            }
        }
        Referent::Item(entry) => entry_type(entry, args, types),
    }
}

/// The array of the elements' type.
pub fn array_type(alloc: Global, of: Option<Ty>) -> Result<Option<Ty>, AllocError>
    ensures { IfOk result (λ r. ty_opt r ≡ array_of (ty_opt of)) }
{
    match of {
        None => Ok(None),
        Some(of) => Ok(Some(Ty::Array(Box::new(alloc, of)?))),
    }
}

/// The types so far, the last first, with a further one, where all are there.
pub fn with_type(
    alloc: Global,
    done: Option<TyList>,
    ty: Option<Ty>,
) -> Result<Option<TyList>, AllocError>
    ensures { IfOk result (λ r. tys_opt r ≡ before_types (ty_opt ty) (tys_opt done)) }
{
    let Some(done) = done else {
        return Ok(None);
    };
    let Some(ty) = ty else {
        return Ok(None);
    };
    Ok(Some(TyList::MoreTy(Box::new(alloc, ty)?, Box::new(alloc, done)?)))
}

/// The types the other way round, where there are some.
pub fn turned(done: Option<TyList>) -> Option<TyList>
    ensures { tys_opt result ≡ onto_opt (tys_opt done) (Some no_ty) }
{
    match done {
        None => None,
        Some(done) => Some(done.turned(TyList::NoTy)),
    }
}
