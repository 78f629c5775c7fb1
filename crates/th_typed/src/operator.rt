//! Operators: what they take and what they give.
ghost use Rattle.std.specs.Prelude.{◌≡◌, IfOk};
ghost use Rattle.th_type.specs.Types.{ty_of};
ghost use Rattle.th_meaning.specs.View.{expr_of};
ghost use Rattle.th_rules.specs.Failing.{indexes, is_indexed, ok_one, ok_two};
ghost use Rattle.th_rules.specs.Typing.{binary, binary_tree, bools, comparable, ints, is_array, is_bool, is_declared, is_int, is_text, objects, result_type, takes, texts};
ghost use Rattle.th_typed.specs.View.{typed_opt};

use crate::typed::Typed;
use std::alloc::{AllocError, Global};
use th_meaning::{ArithOp, CompareOp, CoreExpr};
use th_tree::BinaryOp;
use th_type::Ty;

/// Whether the type is `int`.
pub fn is_int(ty: &Ty) -> bool
    ensures { result ≡ is_int (ty_of ty.now) }
{
    matches!(ty, Ty::Int)
}

/// Whether the type is `bool`.
pub fn is_bool(ty: &Ty) -> bool
    ensures { result ≡ is_bool (ty_of ty.now) }
{
    matches!(ty, Ty::Bool)
}

/// Whether the type is `string`.
pub fn is_text(ty: &Ty) -> bool
    ensures { result ≡ is_text (ty_of ty.now) }
{
    matches!(ty, Ty::Text)
}

/// Whether the type is an array's.
pub fn is_array(ty: &Ty) -> bool
    ensures { result ≡ is_array (ty_of ty.now) }
{
    matches!(ty, Ty::Array(_))
}

/// Whether the type is a declared one.
fn is_declared(ty: &Ty) -> bool
    ensures { result ≡ is_declared (ty_of ty.now) }
{
    matches!(ty, Ty::Named(_, _))
}

/// Whether both are numbers.
fn are_ints(a: &Ty, b: &Ty) -> bool
    ensures { result ≡ ints (ty_of a.now) (ty_of b.now) }
{
    is_int(a) && is_int(b)
}

/// Whether both are truth values.
fn are_bools(a: &Ty, b: &Ty) -> bool
    ensures { result ≡ bools (ty_of a.now) (ty_of b.now) }
{
    is_bool(a) && is_bool(b)
}

/// Whether both are texts.
fn are_texts(a: &Ty, b: &Ty) -> bool
    ensures { result ≡ texts (ty_of a.now) (ty_of b.now) }
{
    is_text(a) && is_text(b)
}

/// Whether both are numbers, or both truth values.
fn are_comparable(a: &Ty, b: &Ty) -> bool
    ensures { result ≡ comparable (ty_of a.now) (ty_of b.now) }
{
    are_ints(a, b) || are_bools(a, b)
}

/// Whether both are of declared types, or of one array type.
fn are_objects(a: &Ty, b: &Ty) -> bool
    ensures { result ≡ objects (ty_of a.now) (ty_of b.now) }
{
    (is_declared(a) && is_declared(b)) || (is_array(a) && a.is_same(b))
}

/// Whether the operator takes these types.
fn takes(op: BinaryOp, a: &Ty, b: &Ty) -> bool
    ensures { result ≡ takes op (ty_of a.now) (ty_of b.now) }
{
    match op {
        BinaryOp::Or => are_bools(a, b),
        BinaryOp::And => are_bools(a, b),
        BinaryOp::Equal => are_comparable(a, b),
        BinaryOp::NotEqual => are_comparable(a, b),
        BinaryOp::Same => are_objects(a, b),
        BinaryOp::Join => are_texts(a, b),
        _ => are_ints(a, b),
    }
}

/// The type of what the operator gives.
fn result_type(op: BinaryOp) -> Ty
    ensures { ty_of result ≡ result_type op }
{
    match op {
        BinaryOp::Plus => Ty::Int,
        BinaryOp::Minus => Ty::Int,
        BinaryOp::Times => Ty::Int,
        BinaryOp::Divide => Ty::Int,
        BinaryOp::Remainder => Ty::Int,
        BinaryOp::Join => Ty::Text,
        _ => Ty::Bool,
    }
}

/// The operator with its operands.
fn operation(
    alloc: Global,
    op: BinaryOp,
    left: CoreExpr,
    right: CoreExpr,
) -> Result<CoreExpr, AllocError>
    ensures { IfOk result (λ r. expr_of r ≡ binary_tree op (expr_of left) (expr_of right)) }
{
    let a = Box::new(alloc, left)?;
    let b = Box::new(alloc, right)?;
    match op {
        BinaryOp::Or => Ok(CoreExpr::Or(a, b)),
        BinaryOp::And => Ok(CoreExpr::And(a, b)),
        BinaryOp::Equal => Ok(CoreExpr::Compare(CompareOp::Equal, a, b)),
        BinaryOp::NotEqual => Ok(CoreExpr::Compare(CompareOp::NotEqual, a, b)),
        BinaryOp::Same => Ok(CoreExpr::Same(a, b)),
        BinaryOp::Less => Ok(CoreExpr::Compare(CompareOp::Less, a, b)),
        BinaryOp::LessEqual => Ok(CoreExpr::Compare(CompareOp::LessEqual, a, b)),
        BinaryOp::Greater => Ok(CoreExpr::Compare(CompareOp::Greater, a, b)),
        BinaryOp::GreaterEqual => Ok(CoreExpr::Compare(CompareOp::GreaterEqual, a, b)),
        BinaryOp::Plus => Ok(CoreExpr::Arith(ArithOp::Plus, a, b)),
        BinaryOp::Minus => Ok(CoreExpr::Arith(ArithOp::Minus, a, b)),
        BinaryOp::Join => Ok(CoreExpr::Join(a, b)),
        BinaryOp::Times => Ok(CoreExpr::Arith(ArithOp::Times, a, b)),
        BinaryOp::Divide => Ok(CoreExpr::Arith(ArithOp::Divide, a, b)),
        BinaryOp::Remainder => Ok(CoreExpr::Arith(ArithOp::Remainder, a, b)),
    }
}

/// The operator, where it takes the types of its operands.
pub fn binary(
    alloc: Global,
    op: BinaryOp,
    x: Option<Typed>,
    y: Option<Typed>,
) -> Result<Option<Typed>, AllocError>
    ensures { IfOk result (λ r. typed_opt r ≡ binary op (typed_opt x) (typed_opt y)) }
{
    let Some(a) = x else {
        return Ok(None);
    };
    let Some(b) = y else {
        return Ok(None);
    };
    if takes(op, &a.ty, &b.ty) {
        let core = operation(alloc, op, a.core, b.core)?;
        Ok(Some(Typed {
            core,
            ty: result_type(op),
        }))
    } else {
        Ok(None)
    }
}

/// Whether the operator takes the types of its operands, or one has no type.
pub fn ok_binary(op: BinaryOp, x: &Option<Typed>, y: &Option<Typed>) -> bool
    ensures { result ≡ ok_two (takes op) (typed_opt x.now) (typed_opt y.now) }
{
    match x {
        None => true,
        Some(a) => match y {
            None => true,
            Some(b) => takes(op, &a.ty, &b.ty),
        },
    }
}

/// Whether it is a number, or has no type.
pub fn ok_int(x: &Option<Typed>) -> bool
    ensures { result ≡ ok_one is_int (typed_opt x.now) }
{
    match x {
        None => true,
        Some(a) => is_int(&a.ty),
    }
}

/// Whether it is a truth value, or has no type.
pub fn ok_bool(x: &Option<Typed>) -> bool
    ensures { result ≡ ok_one is_bool (typed_opt x.now) }
{
    match x {
        None => true,
        Some(a) => is_bool(&a.ty),
    }
}

/// Whether it is a text, or has no type.
pub fn ok_text(x: &Option<Typed>) -> bool
    ensures { result ≡ ok_one is_text (typed_opt x.now) }
{
    match x {
        None => true,
        Some(a) => is_text(&a.ty),
    }
}

/// Whether it is an array or a text.
fn is_indexed(ty: &Ty) -> bool
    ensures { result ≡ is_indexed (ty_of ty.now) }
{
    is_array(ty) || is_text(ty)
}

/// Whether it is an array or a text, or has no type.
pub fn ok_indexed(x: &Option<Typed>) -> bool
    ensures { result ≡ ok_one is_indexed (typed_opt x.now) }
{
    match x {
        None => true,
        Some(a) => is_indexed(&a.ty),
    }
}

/// Whether they are an array or a text and a number, or one has no type.
pub fn ok_index(x: &Option<Typed>, y: &Option<Typed>) -> bool
    ensures { result ≡ ok_two indexes (typed_opt x.now) (typed_opt y.now) }
{
    match x {
        None => true,
        Some(a) => match y {
            None => true,
            Some(b) => is_int(&b.ty) && is_indexed(&a.ty),
        },
    }
}
