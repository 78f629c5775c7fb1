//! Forms of expressions, built from their checked parts.
ghost use Rattle.std.specs.Prelude.{◌≡◌, IfOk};
ghost use Rattle.th_tree.specs.View.{expr_of as tree_of, types_of};
ghost use Rattle.th_type.specs.Types.{bool_ty, int_ty, ty_of};
ghost use Rattle.th_meaning.specs.Trees.{negative_expr, new_array_expr, not_expr};
ghost use Rattle.th_meaning.specs.View.{expr_of};
ghost use Rattle.th_hier.specs.Views.{ty_opt};
ghost use Rattle.th_rules.specs.Classes.{own_class};
ghost use Rattle.th_rules.specs.Cores.{core_type};
ghost use Rattle.th_rules.specs.Typing.{element, filled, is_bool, is_int, is_self, length_of, local_checked, new_array, one, plain_name, self_in};
ghost use Rattle.th_scope.specs.View.{binding_of, context_of, meant_of};
ghost use Rattle.th_typed.specs.View.{given_of, typed_opt};

use crate::operator::{is_bool, is_int};
use crate::typed::{GivenOne, Typed};
use std::alloc::{AllocError, Global};
use th_meaning::CoreExpr;
use th_scope::{Env, Local, Meant, core_type, own_class};
use th_tree::{Expr, NameTable, TypeList};
use th_type::Ty;

/// `not e`
pub fn not(alloc: Global, x: Option<Typed>) -> Result<Option<Typed>, AllocError>
    ensures { IfOk result (λ r. typed_opt r ≡ one is_bool not_expr bool_ty (typed_opt x)) }
{
    let Some(a) = x else {
        return Ok(None);
    };
    if is_bool(&a.ty) {
        Ok(Some(Typed {
            core: CoreExpr::Not(Box::new(alloc, a.core)?),
            ty: Ty::Bool,
        }))
    } else {
        Ok(None)
    }
}

/// `-e`
pub fn negative(alloc: Global, x: Option<Typed>) -> Result<Option<Typed>, AllocError>
    ensures { IfOk result (λ r. typed_opt r ≡ one is_int negative_expr int_ty (typed_opt x)) }
{
    let Some(a) = x else {
        return Ok(None);
    };
    if is_int(&a.ty) {
        Ok(Some(Typed {
            core: CoreExpr::Negative(Box::new(alloc, a.core)?),
            ty: Ty::Int,
        }))
    } else {
        Ok(None)
    }
}

/// `e.length`
pub fn length(alloc: Global, x: Option<Typed>) -> Result<Option<Typed>, AllocError>
    ensures { IfOk result (λ r. typed_opt r ≡ length_of (typed_opt x)) }
{
    let Some(a) = x else {
        return Ok(None);
    };
    match &a.ty {
        Ty::Text => Ok(Some(Typed {
            core: CoreExpr::Extent(Box::new(alloc, a.core)?),
            ty: Ty::Int,
        })),
        Ty::Array(_) => Ok(Some(Typed {
            core: CoreExpr::Length(Box::new(alloc, a.core)?),
            ty: Ty::Int,
        })),
        Ty::Int => Ok(None),
        Ty::Bool => Ok(None),
        Ty::Named(_, _) => Ok(None),
        Ty::Param(_) => Ok(None),
    }
}

/// `e[i]`
pub fn element(
    alloc: Global,
    x: Option<Typed>,
    y: Option<Typed>,
) -> Result<Option<Typed>, AllocError>
    ensures { IfOk result (λ r. typed_opt r ≡ element (typed_opt x) (typed_opt y)) }
{
    let Some(a) = x else {
        return Ok(None);
    };
    let Some(b) = y else {
        return Ok(None);
    };
    if !is_int(&b.ty) {
        return Ok(None);
    }
    match &a.ty {
        Ty::Text => Ok(Some(Typed {
            core: CoreExpr::Letter(Box::new(alloc, a.core)?, Box::new(alloc, b.core)?),
            ty: Ty::Int,
        })),
        Ty::Array(of) => {
            let ty = of.try_clone(alloc)?;
            let core = CoreExpr::Element(Box::new(alloc, a.core)?, Box::new(alloc, b.core)?);
            Ok(Some(Typed { core, ty }))
        }
        Ty::Int => Ok(None),
        Ty::Bool => Ok(None),
        Ty::Named(_, _) => Ok(None),
        Ty::Param(_) => Ok(None),
    }
}

/// The new array of elements of a type, of so many, each the value.
fn array_core(
    alloc: Global,
    names: &NameTable,
    of: &Ty,
    length: CoreExpr,
    fill: CoreExpr,
) -> Result<CoreExpr, AllocError>
    ensures { IfOk result (λ e. expr_of e ≡ new_array_expr (core_type names.now (ty_of of.now)) (expr_of length) (expr_of fill)) }
{
    let elements = core_type(alloc, of, names)?;
    let length = Box::new(alloc, length)?;
    let fill = Box::new(alloc, fill)?;
    Ok(CoreExpr::NewArray(elements, length, fill))
}

/// The new array, where the value fits.
fn filled(
    alloc: Global,
    env: &Env<'_>,
    of: Ty,
    length: CoreExpr,
    fill: GivenOne,
) -> Result<Option<Typed>, AllocError>
    ensures { IfOk result (λ r. typed_opt r ≡ filled (ty_of of) (context_of env.now) (expr_of length) (given_of fill)) }
{
    match fill {
        GivenOne::Untyped => Ok(None),
        GivenOne::Misfit => Ok(None),
        GivenOne::Fits(fill) => {
            let core = array_core(alloc, env.names, &of, length, fill)?;
            let ty = Ty::Array(Box::new(alloc, of)?);
            Ok(Some(Typed { core, ty }))
        }
    }
}

/// `new array[T](n, e)`
pub fn new_array(
    alloc: Global,
    env: &Env<'_>,
    of: Option<Ty>,
    length: Option<Typed>,
    fill: GivenOne,
) -> Result<Option<Typed>, AllocError>
    ensures { IfOk result (λ r. typed_opt r ≡ new_array (context_of env.now) (ty_opt of) (typed_opt length) (given_of fill)) }
{
    let Some(of) = of else {
        return Ok(None);
    };
    let Some(length) = length else {
        return Ok(None);
    };
    if is_int(&length.ty) {
        filled(alloc, env, of, length.core, fill)
    } else {
        Ok(None)
    }
}

/// A local as an expression, where its declaration names a type.
fn local(alloc: Global, local: &Local) -> Result<Option<Typed>, AllocError>
    ensures { IfOk result (λ r. typed_opt r ≡ local_checked (binding_of local.now)) }
{
    match &local.ty {
        None => Ok(None),
        Some(ty) => {
            let ty = ty.try_clone(alloc)?;
            Ok(Some(Typed {
                core: CoreExpr::Local(local.index),
                ty,
            }))
        }
    }
}

/// A name without arguments.
pub fn plain_name(
    alloc: Global,
    meant: &Meant<'_>,
    types: &TypeList,
) -> Result<Option<Typed>, AllocError>
    ensures { IfOk result (λ r. typed_opt r ≡ plain_name (meant_of meant.now) (types_of types.now)) }
{
    match meant {
        Meant::Local(found) => match types {
            TypeList::NoType => local(alloc, found),
            TypeList::MoreType(_, _) => Ok(None),
        },
        Meant::Nothing => Ok(None),
        Meant::Param(_) => Ok(None),
        Meant::Item(_) => Ok(None),
    }
}

/// `self`, of the type that the class around is for.
pub fn own_self(alloc: Global, env: &Env<'_>) -> Result<Option<Typed>, AllocError>
    ensures { IfOk result (λ r. typed_opt r ≡ self_in (own_class (context_of env.now))) }
{
    match own_class(env) {
        None => Ok(None),
        Some(class) => {
            let ty = class.of.try_clone(alloc)?;
            Ok(Some(Typed {
                core: CoreExpr::PartSelf,
                ty,
            }))
        }
    }
}

/// Whether the expression is `self`.
pub fn is_self(tree: &Expr) -> bool
    ensures { result ≡ is_self (tree_of tree.now) }
{
    matches!(tree, Expr::PartSelf(_))
}
