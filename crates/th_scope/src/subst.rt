//! Arguments in place of parameters.
ghost use Rattle.std.specs.Prelude.{◌≡◌, Some, IfOk, option_map};
ghost use Rattle.th_type.specs.Types.{ty_of, tys_of, list_of, subst_ty, subst_tys, arg_at};
ghost use Rattle.th_type.specs.Signatures.{sig_of, subst_sig};

use std::alloc::{AllocError, Global};
use th_type::{NumberList, Sig, Ty, TyList};

/// The argument at a place, or the parameter itself where there is none.
pub fn argument(alloc: Global, args: &TyList, place: u32) -> Result<Ty, AllocError>
    ensures { IfOk result (λ t. ty_of t ≡ arg_at (list_of (tys_of args.now)) place place) }
{
    let mut left = place;
    let mut rest = args;
    while let TyList::MoreTy(first, next) = rest {
        if left == 0 {
            return first.try_clone(alloc);
        }
        left -= 1;
        rest = next;
    }
    Ok(Ty::Param(place))
}

/// The type with the k-th argument in place of each parameter `k`.
#[cycle(substitution)]
pub fn substituted(alloc: Global, ty: &Ty, args: &TyList) -> Result<Ty, AllocError>
    ensures { IfOk result (λ t. ty_of t ≡ subst_ty (list_of (tys_of args.now)) (ty_of ty.now)) }
{
    match ty {
        Ty::Int => Ok(Ty::Int),
        Ty::Bool => Ok(Ty::Bool),
        Ty::Text => Ok(Ty::Text),
        Ty::Array(of) => {
            let of = substituted(alloc, of, args)?;
            Ok(Ty::Array(Box::new(alloc, of)?))
        }
        Ty::Named(name, list) => {
            let list = substituted_list(alloc, list, args)?;
            Ok(Ty::Named(*name, list))
        }
        Ty::Param(place) => argument(alloc, args, *place),
    }
}

/// The types with the k-th argument in place of each parameter `k`.
#[cycle(substitution)]
pub fn substituted_list(alloc: Global, list: &TyList, args: &TyList) -> Result<TyList, AllocError>
    ensures { IfOk result (λ ts. tys_of ts ≡ subst_tys (list_of (tys_of args.now)) (tys_of list.now)) }
{
    let mut done = TyList::NoTy;
    let mut rest = list;
    while let TyList::MoreTy(first, next) = rest {
        let first = substituted(alloc, first, args)?;
        done = TyList::MoreTy(Box::new(alloc, first)?, Box::new(alloc, done)?);
        rest = next;
    }
    Ok(done.turned(TyList::NoTy))
}

/// The result with arguments in place of parameters, where there is one.
fn gives_with(alloc: Global, gives: &Option<Ty>, args: &TyList) -> Result<Option<Ty>, AllocError>
    ensures { IfOk result (λ t. option_map ty_of t ≡ option_map (subst_ty (list_of (tys_of args.now))) (option_map ty_of gives.now)) }
{
    match gives {
        None => Ok(None),
        Some(ty) => Ok(Some(substituted(alloc, ty, args)?)),
    }
}

/// The signature with the k-th argument in place of each parameter `k`.
pub fn sig_with(alloc: Global, sig: &Sig, args: &TyList) -> Result<Sig, AllocError>
    ensures { IfOk result (λ s. sig_of s ≡ subst_sig (list_of (tys_of args.now)) (sig_of sig.now)) }
{
    let formals = substituted_list(alloc, &sig.formals, args)?;
    let gives = gives_with(alloc, &sig.gives, args)?;
    let signals = Vec::from_slice(alloc, sig.signals.as_slice())?;
    Ok(Sig {
        method: sig.method,
        iterator: sig.iterator,
        formals,
        gives,
        signals: NumberList::of(signals),
    })
}
