//! Short expressions of numbers, truth values and locals.
ghost use Rattle.std.specs.Prelude.{◌≡◌, Option, Some, IfSome};
ghost use Rattle.th_meaning.specs.View.{expr_of};
ghost use Rattle.th_meaning.specs.Meaning.{Value, Int};
ghost use Rattle.th_quick.specs.Quick.{IsQuick, IsSum, IsTest};

use crate::operators::{arith, compare};
use th_control::{Frame, Kind, RunValue};
use th_meaning::{ArithOp, CompareOp, CoreExpr};

/// The value of a number, a truth value or a local that is bound; None for every other expression.
#[tactic(auto, using(crate::proofs::Quickly::quick_number, crate::proofs::Quickly::quick_truth, crate::proofs::Quickly::quick_local))]
fn operand<'a>(frame: &Frame<'a>, expr: &CoreExpr) -> Option<RunValue<'a>>
    ensures { IfSome result (λ v. IsQuick frame.now (expr_of expr.now) v) }
{
    match expr {
        CoreExpr::Number(n) => Some(RunValue::natural(*n)),
        CoreExpr::Truth(b) => Some(RunValue::truth(*b)),
        CoreExpr::Local(k) => frame.value(*k),
        _ => None,
    }
}

/// The same, or an operator on two of them.
fn short<'a>(frame: &Frame<'a>, expr: &CoreExpr) -> Option<RunValue<'a>>
    ensures { IfSome result (λ v. IsQuick frame.now (expr_of expr.now) v) }
{
    match expr {
        CoreExpr::Arith(op, a, b) => sum(*op, operand(frame, a), operand(frame, b)),
        CoreExpr::Compare(op, a, b) => test(*op, operand(frame, a), operand(frame, b)),
        _ => operand(frame, expr),
    }
}

/// The value of a short expression of numbers, truth values and locals; None for every other one, and where an exception
/// is raised.
pub fn quick<'a>(frame: &Frame<'a>, expr: &CoreExpr) -> Option<RunValue<'a>>
    ensures { IfSome result (λ v. IsQuick frame.now (expr_of expr.now) v) }
{
    match expr {
        CoreExpr::Arith(op, a, b) => sum(*op, short(frame, a), short(frame, b)),
        CoreExpr::Compare(op, a, b) => test(*op, short(frame, a), short(frame, b)),
        _ => short(frame, expr),
    }
}

/// An operator on two numbers that are there.
fn sum<'a>(op: ArithOp, a: Option<RunValue<'a>>, b: Option<RunValue<'a>>) -> Option<RunValue<'a>>
    ensures { IfSome result (λ v. IsSum op a.entry b.entry v) }
{
    match arith(op, number(a)?, number(b)?) {
        None => None,
        Some(z) => Some(RunValue::int(z)),
    }
}

/// A comparison of two numbers that are there.
fn test<'a>(op: CompareOp, a: Option<RunValue<'a>>, b: Option<RunValue<'a>>) -> Option<RunValue<'a>>
    ensures { IfSome result (λ v. IsTest op a.entry b.entry v) }
{
    Some(RunValue::truth(compare(op, number(a)?, number(b)?)))
}

/// The number that a value is that is there.
fn number<'a>(value: Option<RunValue<'a>>) -> Option<i64>
    ensures { IfSome result (λ x. value.entry ≡ Some (Int x)) }
{
    match value?.kind() {
        Kind::Int(x) => Some(x),
        Kind::Truth(_) => None,
        Kind::Ref(_) => None,
        Kind::Text(_) => None,
    }
}
