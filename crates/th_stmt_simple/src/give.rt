//! Values that are given to targets, results and yields. docs/LANGUAGE.md, "Rules of statements", states their rules.
ghost use Rattle.std.specs.Prelude.{◌≡◌, IfOk, option_map};
ghost use Rattle.th_type.specs.Types.{ty_of};
ghost use Rattle.th_rules.specs.Callees.{given_as, given_opt};
ghost use Rattle.th_scope.specs.View.{context_of};
ghost use Rattle.th_expr.specs.View.{given_of, typed_opt};
ghost use Rattle.th_stmt_rules.specs.Bodies.{given_result, returned_as, type_of, type_or};

use std::alloc::{AllocError, Global};
use th_expr::{GivenOne, Typed, give};
use th_meaning::{CoreCast, CoreExpr};
use th_scope::{Env, class_sig, core_type, is_subtype, own_class};
use th_type::Ty;

/// A value that is given to a target.
pub fn give_target(
    alloc: Global,
    env: &Env<'_>,
    target: &Option<Typed>,
    value: Option<Typed>,
) -> Result<GivenOne, AllocError>
    ensures { IfOk result (λ g. given_of g ≡ given_opt (context_of env.now) (type_of (typed_opt target.now)) (typed_opt value)) }
{
    match target {
        None => Ok(GivenOne::Untyped),
        Some(target) => give(alloc, env, &target.ty, value),
    }
}

/// The result, where there is one, else the type.
fn gives_or(alloc: Global, ty: &Ty, gives: Option<Ty>) -> Result<Ty, AllocError>
    ensures { IfOk result (λ t. ty_of t ≡ type_or (ty_of ty.now) (option_map ty_of gives)) }
{
    match gives {
        None => ty.try_clone(alloc),
        Some(gives) => Ok(gives),
    }
}

/// The type that a `return` casts to.
fn returned_as(alloc: Global, env: &Env<'_>, ty: &Ty) -> Result<Ty, AllocError>
    ensures { IfOk result (λ t. ty_of t ≡ returned_as (context_of env.now) (ty_of ty.now)) }
{
    let Some(class) = own_class(env) else {
        return ty.try_clone(alloc);
    };
    let Some(sig) = class_sig(alloc, env, class, env.sig.method)? else {
        return ty.try_clone(alloc);
    };
    gives_or(alloc, ty, sig.gives)
}

/// A value fits where its type is a subtype of `ty`; it is then given as one of `to`.
fn give_as(
    alloc: Global,
    env: &Env<'_>,
    ty: &Ty,
    to: &Ty,
    value: Option<Typed>,
) -> Result<GivenOne, AllocError>
    ensures { IfOk result (λ g. given_of g ≡ given_as (context_of env.now) (ty_of ty.now) (ty_of to.now) (typed_opt value)) }
{
    let Some(value) = value else {
        return Ok(GivenOne::Untyped);
    };
    if !is_subtype(env, &value.ty, ty) {
        return Ok(GivenOne::Misfit);
    }
    if value.ty.is_same(to) {
        return Ok(GivenOne::Fits(value.core));
    }
    let from = core_type(alloc, &value.ty, env.names)?;
    let to = core_type(alloc, to, env.names)?;
    Ok(GivenOne::Fits(CoreExpr::Cast(CoreCast { from, to }, Box::new(alloc, value.core)?)))
}

/// A value that is given to the result.
pub fn give_result(
    alloc: Global,
    env: &Env<'_>,
    ty: Option<&Ty>,
    value: Option<Typed>,
) -> Result<GivenOne, AllocError>
    ensures { IfOk result (λ g. given_of g ≡ given_result (context_of env.now) (option_map (λ t. ty_of t.now) ty.entry) (typed_opt value)) }
{
    match ty {
        None => Ok(GivenOne::Untyped),
        Some(ty) => {
            let to = returned_as(alloc, env, ty)?;
            give_as(alloc, env, ty, &to, value)
        }
    }
}

/// A value that is given to what may have a type.
pub fn give_lent(
    alloc: Global,
    env: &Env<'_>,
    ty: Option<&Ty>,
    value: Option<Typed>,
) -> Result<GivenOne, AllocError>
    ensures { IfOk result (λ g. given_of g ≡ given_opt (context_of env.now) (option_map (λ t. ty_of t.now) ty.entry) (typed_opt value)) }
{
    match ty {
        None => Ok(GivenOne::Untyped),
        Some(ty) => give(alloc, env, ty, value),
    }
}
