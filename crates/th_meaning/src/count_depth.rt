//! The depth of a unit. A count above 2^64 - 1, which no unit in memory reaches, is given as 2^64 - 1.
ghost use Rattle.std.specs.Prelude.{◌≡◌, ℕ, ◌+◌, ◌-◌, ◌^◌, min, max};
ghost use Rattle.th_meaning.specs.View.{expr_of, exprs_of, call_of, stmt_of, body_of, else_of, whens_of, unit_of};
ghost use Rattle.th_meaning.specs.Counts.{expr_depth, exprs_depth, call_depth, stmt_depth, body_depth, else_depth, whens_depth, unit_depth};

use crate::declared::CoreUnit;
use crate::expr::{CoreCall, CoreExpr, CoreExprList};
use crate::stmt::{CoreBody, CoreElse, CoreStmt, CoreWhenList};

/// The depth of a unit: how many words the evaluation of its expressions holds at once, at least 1 (docs/LANGUAGE.md).
/// It takes no memory.
pub fn depth(unit: &CoreUnit) -> u64
    ensures { result ≡ min (unit_depth (unit_of unit.now)) (2 ^ 64 - 1) }
{
    depth_of_body(&unit.body).max(1)
}

/// The depth of a form of two operands.
fn of_two(a: u64, b: u64) -> u64
    ensures { (m n : ℕ) → a ≡ min m (2 ^ 64 - 1) → b ≡ min n (2 ^ 64 - 1) → result ≡ min (max m (1 + n)) (2 ^ 64 - 1) }
{
    a.max(b.saturating_add(1))
}

/// The greater depth.
fn greater(a: u64, b: u64) -> u64
    ensures { (m n : ℕ) → a ≡ min m (2 ^ 64 - 1) → b ≡ min n (2 ^ 64 - 1) → result ≡ min (max m n) (2 ^ 64 - 1) }
{
    a.max(b)
}

#[cycle(expr_depth)]
fn depth_of_expr(expr: &CoreExpr) -> u64
    ensures { result ≡ min (expr_depth (expr_of expr.now)) (2 ^ 64 - 1) }
{
    match expr {
        CoreExpr::Number(_)
        | CoreExpr::Truth(_)
        | CoreExpr::Literal(_)
        | CoreExpr::PartSelf
        | CoreExpr::Local(_)
        | CoreExpr::Field(_, _)
        | CoreExpr::GetByte => 1,
        CoreExpr::Negative(a) => depth_of_expr(a),
        CoreExpr::Not(a) => depth_of_expr(a),
        CoreExpr::Extent(a) => depth_of_expr(a),
        CoreExpr::Length(a) => depth_of_expr(a),
        CoreExpr::Cast(_, a) => depth_of_expr(a),
        CoreExpr::Arith(_, a, b) => of_two(depth_of_expr(a), depth_of_expr(b)),
        CoreExpr::Compare(_, a, b) => of_two(depth_of_expr(a), depth_of_expr(b)),
        CoreExpr::Same(a, b) => of_two(depth_of_expr(a), depth_of_expr(b)),
        CoreExpr::And(a, b) => of_two(depth_of_expr(a), depth_of_expr(b)),
        CoreExpr::Or(a, b) => of_two(depth_of_expr(a), depth_of_expr(b)),
        CoreExpr::Join(a, b) => of_two(depth_of_expr(a), depth_of_expr(b)),
        CoreExpr::Letter(a, b) => of_two(depth_of_expr(a), depth_of_expr(b)),
        CoreExpr::Element(a, b) => of_two(depth_of_expr(a), depth_of_expr(b)),
        CoreExpr::NewArray(_, a, b) => of_two(depth_of_expr(a), depth_of_expr(b)),
        CoreExpr::Call(call) => depth_of_call(call),
        CoreExpr::New(_, _, supplies, args) => {
            let words = supplies.len() as u64 + 1;
            words.max(depth_of_exprs(words, args))
        }
    }
}

/// The greatest of i + d of operands of depth d, where the first of them is the operand i = `first`.
#[cycle(expr_depth)]
#[tactic(auto, using(crate::proofs::DepthLemmas::capped_next))]
fn depth_of_exprs(first: u64, exprs: &CoreExprList) -> u64
    ensures { result ≡ min (exprs_depth first (exprs_of exprs.now)) (2 ^ 64 - 1) }
{
    let mut greatest: u64 = 0;
    let mut place = first;
    let mut rest = exprs;
    while let CoreExprList::MoreExpr(operand, next) = rest {
        greatest = greatest.max(place.saturating_add(depth_of_expr(operand)));
        place = place.saturating_add(1);
        rest = next;
    }
    greatest
}

#[cycle(expr_depth)]
fn depth_of_call(call: &CoreCall) -> u64
    ensures { result ≡ min (call_depth (call_of call.now)) (2 ^ 64 - 1) }
{
    match call {
        CoreCall::Routine(_, _, supplies, args) => {
            let words = supplies.len() as u64;
            words.max(1).max(depth_of_exprs(words, args))
        }
        CoreCall::Method(_, _, receiver, args) => {
            depth_of_expr(receiver).max(depth_of_exprs(1, args))
        }
        CoreCall::Hidden(_, _, args) => depth_of_exprs(1, args).max(1),
        CoreCall::Super(_, _, args) => depth_of_exprs(1, args).max(1),
        CoreCall::Where(_, _, receiver, args) => depth_of_expr(receiver)
            .saturating_add(1)
            .max(depth_of_exprs(2, args)),
        CoreCall::SuperInit(_, _, supplies, args) => {
            let words = supplies.len() as u64 + 1;
            words.max(depth_of_exprs(words, args))
        }
    }
}

#[cycle(stmt_depth)]
fn depth_of_stmt(stmt: &CoreStmt) -> u64
    ensures { result ≡ min (stmt_depth (stmt_of stmt.now)) (2 ^ 64 - 1) }
{
    match stmt {
        CoreStmt::Break | CoreStmt::Return | CoreStmt::Raise(_) => 0,
        CoreStmt::Var(_, e) => depth_of_expr(e),
        CoreStmt::SetLocal(_, e) => depth_of_expr(e),
        CoreStmt::SetField(_, _, e) => depth_of_expr(e),
        CoreStmt::SetElement(a, i, e) => depth_of_expr(a)
            .max(depth_of_expr(i).saturating_add(1))
            .max(depth_of_expr(e).saturating_add(2)),
        CoreStmt::Call(call) => depth_of_call(call),
        CoreStmt::Drop(call) => depth_of_call(call),
        CoreStmt::ReturnValue(e) => depth_of_expr(e),
        CoreStmt::Yield(e) => depth_of_expr(e),
        CoreStmt::RaiseValue(_, e) => depth_of_expr(e),
        CoreStmt::PutByte(e) => depth_of_expr(e),
        CoreStmt::PutInt(e) => depth_of_expr(e),
        CoreStmt::PutString(e) => depth_of_expr(e),
        CoreStmt::If(test, body, rest) => greater(
            depth_of_expr(test),
            greater(depth_of_body(body), depth_of_else(rest)),
        ),
        CoreStmt::While(test, body) => greater(depth_of_expr(test), depth_of_body(body)),
        CoreStmt::For(_, _, call, body) => greater(depth_of_call(call), depth_of_body(body)),
        CoreStmt::Begin(body, whens) => greater(depth_of_body(body), depth_of_whens(whens)),
    }
}

#[cycle(stmt_depth)]
fn depth_of_body(body: &CoreBody) -> u64
    ensures { result ≡ min (body_depth (body_of body.now)) (2 ^ 64 - 1) }
{
    let mut greatest: u64 = 0;
    let mut rest = body;
    while let CoreBody::MoreStmt(first, next) = rest {
        greatest = greatest.max(depth_of_stmt(first));
        rest = next;
    }
    greatest
}

#[cycle(stmt_depth)]
fn depth_of_else(rest: &CoreElse) -> u64
    ensures { result ≡ min (else_depth (else_of rest.now)) (2 ^ 64 - 1) }
{
    let mut greatest: u64 = 0;
    let mut rest = rest;
    loop {
        match rest {
            CoreElse::NoElse => return greatest,
            CoreElse::Else(body) => return greatest.max(depth_of_body(body)),
            CoreElse::Elseif(test, body, next) => {
                greatest = greatest.max(depth_of_expr(test)).max(depth_of_body(body));
                rest = next;
            }
        }
    }
}

#[cycle(stmt_depth)]
fn depth_of_whens(whens: &CoreWhenList) -> u64
    ensures { result ≡ min (whens_depth (whens_of whens.now)) (2 ^ 64 - 1) }
{
    let mut greatest: u64 = 0;
    let mut rest = whens;
    while let CoreWhenList::MoreWhen(_, _, body, next) = rest {
        greatest = greatest.max(depth_of_body(body));
        rest = next;
    }
    greatest
}
