//! Checked expressions with their types, and values that are given to what has a type.
ghost use Rattle.std.specs.Prelude.{◌≡◌, IfOk};
ghost use Rattle.th_type.specs.Types.{ty_of, tys_of};
ghost use Rattle.th_hier.specs.Views.{ty_opt};
ghost use Rattle.th_meaning.specs.View.{expr_of};
ghost use Rattle.th_rules.specs.Callees.{cast_to, fits, given, given_all, given_opt, joined, surplus};
ghost use Rattle.th_scope.specs.View.{context_of};
ghost use Rattle.th_typed.specs.View.{checks_onto, checks_of, given_none, given_of, givens_of, turned_givens, typed_of, typed_opt};

use std::alloc::{AllocError, Global};
use std::mem;
use th_meaning::{CoreCast, CoreExpr, CoreExprList};
use th_scope::{Env, core_type, is_subtype};
use th_type::{Ty, TyList};

/// A checked expression and its type.
#[derive(Drop)]
pub struct Typed {
    pub core: CoreExpr,
    pub ty: Ty,
}

/// Checked expressions with their types, in order; None stands for one that has no type.
pub enum TypedList {
    NoTyped,
    MoreTyped(Option<Typed>, Box<TypedList>),
}

impl Drop for TypedList {
    fn drop(mut self) {
        loop {
            match self {
                TypedList::NoTyped => return,
                TypedList::MoreTyped(_, rest) => self = Box::into_inner(rest),
            }
        }
    }
}

impl TypedList {
    /// These expressions the other way round, and then those of `end`. It takes no memory.
    pub fn turned(mut self, end: TypedList) -> TypedList
        ensures { checks_of result ≡ checks_onto (checks_of self) (checks_of end) }
    {
        let mut done = end;
        loop {
            match self {
                TypedList::NoTyped => return done,
                TypedList::MoreTyped(first, mut others) => {
                    self = mem::replace(&mut *others, done);
                    done = TypedList::MoreTyped(first, others);
                }
            }
        }
    }
}

/// A value that is given to what has a type: it has no type, it does not fit, or it fits.
#[derive(Drop)]
pub enum GivenOne {
    Untyped,
    Misfit,
    Fits(CoreExpr),
}

/// Values that are given to what has types, as one.
#[derive(Drop)]
pub enum GivenAll {
    Untyped,
    Misfit,
    Fits(CoreExprList),
}

/// A value as one of the type: a cast where it has another.
fn cast_to(
    alloc: Global,
    env: &Env<'_>,
    value: Typed,
    to: &Ty,
    is_same: bool,
) -> Result<CoreExpr, AllocError>
    ensures { IfOk result (λ e. expr_of e ≡ cast_to (context_of env.now) (typed_of value) (ty_of to.now) is_same) }
{
    if is_same {
        return Ok(value.core);
    }
    let from = core_type(alloc, &value.ty, env.names)?;
    let to = core_type(alloc, to, env.names)?;
    Ok(CoreExpr::Cast(CoreCast { from, to }, Box::new(alloc, value.core)?))
}

/// A value that is given to what has the type: it fits where its type is a subtype of `ty`, and is then cast to it where it
/// has another.
pub fn give(
    alloc: Global,
    env: &Env<'_>,
    ty: &Ty,
    value: Option<Typed>,
) -> Result<GivenOne, AllocError>
    ensures { IfOk result (λ g. given_of g ≡ given (context_of env.now) (ty_of ty.now) (typed_opt value)) }
{
    let Some(value) = value else {
        return Ok(GivenOne::Untyped);
    };
    if is_subtype(env, &value.ty, ty) {
        let is_same = value.ty.is_same(ty);
        Ok(GivenOne::Fits(cast_to(alloc, env, value, ty, is_same)?))
    } else {
        Ok(GivenOne::Misfit)
    }
}

/// A value that is given to what may have a type.
pub fn give_opt(
    alloc: Global,
    env: &Env<'_>,
    ty: &Option<Ty>,
    value: Option<Typed>,
) -> Result<GivenOne, AllocError>
    ensures { IfOk result (λ g. given_of g ≡ given_opt (context_of env.now) (ty_opt ty.now) (typed_opt value)) }
{
    match ty {
        None => Ok(GivenOne::Untyped),
        Some(ty) => give(alloc, env, ty, value),
    }
}

/// An argument without a formal.
fn left_over(value: Option<Typed>) -> GivenOne
    ensures { given_of result ≡ surplus (typed_opt value) }
{
    match value {
        None => GivenOne::Untyped,
        Some(_) => GivenOne::Misfit,
    }
}

/// A given value before others.
fn before(alloc: Global, one: GivenOne, others: GivenAll) -> Result<GivenAll, AllocError>
    ensures { IfOk result (λ g. givens_of g ≡ joined (given_of one) (givens_of others)) }
{
    match one {
        GivenOne::Untyped => Ok(GivenAll::Untyped),
        GivenOne::Misfit => match others {
            GivenAll::Untyped => Ok(GivenAll::Untyped),
            GivenAll::Misfit => Ok(GivenAll::Misfit),
            GivenAll::Fits(_) => Ok(GivenAll::Misfit),
        },
        GivenOne::Fits(first) => match others {
            GivenAll::Untyped => Ok(GivenAll::Untyped),
            GivenAll::Misfit => Ok(GivenAll::Misfit),
            GivenAll::Fits(rest) => Ok(GivenAll::Fits(CoreExprList::MoreExpr(
                Box::new(alloc, first)?,
                Box::new(alloc, rest)?,
            ))),
        },
    }
}

/// Given values the other way round, where the formals that are left have no arguments.
fn whole(done: GivenAll, formals: &TyList) -> GivenAll
    ensures { givens_of result ≡ turned_givens (givens_of done) (given_none (tys_of formals.now)) }
{
    match formals {
        TyList::NoTy => match done {
            GivenAll::Untyped => GivenAll::Untyped,
            GivenAll::Misfit => GivenAll::Misfit,
            GivenAll::Fits(done) => GivenAll::Fits(done.turned(CoreExprList::NoExpr)),
        },
        TyList::MoreTy(_, _) => match done {
            GivenAll::Untyped => GivenAll::Untyped,
            GivenAll::Misfit => GivenAll::Misfit,
            GivenAll::Fits(_) => GivenAll::Misfit,
        },
    }
}

impl TypedList {
    /// These arguments, given to formals of these types, as one.
    #[tactic(auto, using(crate::proofs::Giving::turned_start, crate::proofs::Giving::turned_joined, crate::proofs::Giving::none_left))]
    pub fn give_to(
        mut self,
        alloc: Global,
        env: &Env<'_>,
        formals: &TyList,
    ) -> Result<GivenAll, AllocError>
        ensures { IfOk result (λ g. givens_of g ≡ given_all (context_of env.now) (tys_of formals.now) (checks_of self)) }
    {
        let mut rest = formals;
        let mut done = GivenAll::Fits(CoreExprList::NoExpr);
        loop {
            match self {
                TypedList::NoTyped => return Ok(whole(done, rest)),
                TypedList::MoreTyped(first, others) => {
                    self = Box::into_inner(others);
                    let given = match rest {
                        TyList::NoTy => left_over(first),
                        TyList::MoreTy(ty, next) => {
                            rest = next;
                            give(alloc, env, ty, first)?
                        }
                    };
                    done = before(alloc, given, done)?;
                }
            }
        }
    }
}

/// Whether the value fits, or has no type.
pub fn is_fit(given: &GivenOne) -> bool
    ensures { result ≡ fits (given_of given.now) }
{
    !matches!(given, GivenOne::Misfit)
}

/// Whether the values fit, or one has no type.
pub fn are_fit(given: &GivenAll) -> bool
    ensures { result ≡ fits (givens_of given.now) }
{
    !matches!(given, GivenAll::Misfit)
}
