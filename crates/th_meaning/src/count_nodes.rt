//! The nodes of a unit. A count above 2^64 - 1, which no unit in memory reaches, is given as 2^64 - 1.
ghost use Rattle.std.specs.Prelude.{◌≡◌, ℕ, ◌+◌, ◌-◌, ◌^◌, min, map};
ghost use Rattle.th_meaning.specs.View.{supply_of, expr_of, exprs_of, call_of, stmt_of, body_of, else_of, whens_of, unit_of};
ghost use Rattle.th_meaning.specs.Counts.{supply_nodes, expr_nodes, exprs_nodes, call_nodes, stmt_nodes, body_nodes, else_nodes, whens_nodes, unit_nodes};

use crate::declared::CoreUnit;
use crate::expr::{CoreCall, CoreExpr, CoreExprList};
use crate::stmt::{CoreBody, CoreElse, CoreStmt, CoreWhenList};
use crate::types::CoreSupply;

/// The nodes of a unit: one for itself, for each formal, for each variable that a statement declares, for each statement,
/// `elseif`, handler and expression, and four for each where-method of what is called (docs/LANGUAGE.md). It takes no
/// memory.
pub fn nodes(unit: &CoreUnit) -> u64
    ensures { result ≡ min (unit_nodes (unit_of unit.now)) (2 ^ 64 - 1) }
{
    let formals = unit.sig.formals.len() as u64;
    formals
        .saturating_add(1)
        .saturating_add(nodes_of_body(&unit.body))
}

/// One node more than these.
fn one_more(count: u64) -> u64
    ensures { (n : ℕ) → count ≡ min n (2 ^ 64 - 1) → result ≡ min (1 + n) (2 ^ 64 - 1) }
{
    count.saturating_add(1)
}

/// The nodes of a form of two parts: one for itself, and those of the parts.
fn of_two(a: u64, b: u64) -> u64
    ensures { (m n : ℕ) → a ≡ min m (2 ^ 64 - 1) → b ≡ min n (2 ^ 64 - 1) → result ≡ min (1 + m + n) (2 ^ 64 - 1) }
{
    a.saturating_add(b).saturating_add(1)
}

/// Four nodes for each where-method.
fn nodes_of_supplies(supplies: &[CoreSupply]) -> u64
    ensures { result ≡ min (supply_nodes (map supply_of supplies.now)) (2 ^ 64 - 1) }
{
    (supplies.len() as u64).saturating_mul(4)
}

#[cycle(expr_nodes)]
fn nodes_of_expr(expr: &CoreExpr) -> u64
    ensures { result ≡ min (expr_nodes (expr_of expr.now)) (2 ^ 64 - 1) }
{
    match expr {
        CoreExpr::Number(_)
        | CoreExpr::Truth(_)
        | CoreExpr::Literal(_)
        | CoreExpr::PartSelf
        | CoreExpr::Local(_)
        | CoreExpr::Field(_, _)
        | CoreExpr::GetByte => 1,
        CoreExpr::Negative(a) => nodes_of_expr(a).saturating_add(1),
        CoreExpr::Not(a) => nodes_of_expr(a).saturating_add(1),
        CoreExpr::Extent(a) => nodes_of_expr(a).saturating_add(1),
        CoreExpr::Length(a) => nodes_of_expr(a).saturating_add(1),
        CoreExpr::Cast(_, a) => nodes_of_expr(a),
        CoreExpr::Arith(_, a, b) => of_two(nodes_of_expr(a), nodes_of_expr(b)),
        CoreExpr::Compare(_, a, b) => of_two(nodes_of_expr(a), nodes_of_expr(b)),
        CoreExpr::Same(a, b) => of_two(nodes_of_expr(a), nodes_of_expr(b)),
        CoreExpr::And(a, b) => of_two(nodes_of_expr(a), nodes_of_expr(b)),
        CoreExpr::Or(a, b) => of_two(nodes_of_expr(a), nodes_of_expr(b)),
        CoreExpr::Join(a, b) => of_two(nodes_of_expr(a), nodes_of_expr(b)),
        CoreExpr::Letter(a, b) => of_two(nodes_of_expr(a), nodes_of_expr(b)),
        CoreExpr::Element(a, b) => of_two(nodes_of_expr(a), nodes_of_expr(b)),
        CoreExpr::NewArray(_, a, b) => of_two(nodes_of_expr(a), nodes_of_expr(b)),
        CoreExpr::Call(call) => nodes_of_call(call),
        CoreExpr::New(_, _, supplies, args) => nodes_of_supplies(supplies)
            .saturating_add(nodes_of_exprs(args))
            .saturating_add(1),
    }
}

#[cycle(expr_nodes)]
fn nodes_of_exprs(exprs: &CoreExprList) -> u64
    ensures { result ≡ min (exprs_nodes (exprs_of exprs.now)) (2 ^ 64 - 1) }
{
    let mut count: u64 = 0;
    let mut rest = exprs;
    while let CoreExprList::MoreExpr(first, next) = rest {
        count = count.saturating_add(nodes_of_expr(first));
        rest = next;
    }
    count
}

#[cycle(expr_nodes)]
fn nodes_of_call(call: &CoreCall) -> u64
    ensures { result ≡ min (call_nodes (call_of call.now)) (2 ^ 64 - 1) }
{
    match call {
        CoreCall::Routine(_, _, supplies, args) => nodes_of_supplies(supplies)
            .saturating_add(nodes_of_exprs(args))
            .saturating_add(1),
        CoreCall::Method(_, _, receiver, args) => nodes_of_expr(receiver)
            .saturating_add(nodes_of_exprs(args))
            .saturating_add(1),
        CoreCall::Hidden(_, _, args) => nodes_of_exprs(args).saturating_add(2),
        CoreCall::Super(_, _, args) => nodes_of_exprs(args).saturating_add(1),
        CoreCall::Where(_, _, receiver, args) => nodes_of_expr(receiver)
            .saturating_add(nodes_of_exprs(args))
            .saturating_add(1),
        CoreCall::SuperInit(_, _, supplies, args) => {
            nodes_of_supplies(supplies).saturating_add(nodes_of_exprs(args))
        }
    }
}

#[cycle(stmt_nodes)]
fn nodes_of_stmt(stmt: &CoreStmt) -> u64
    ensures { result ≡ min (stmt_nodes (stmt_of stmt.now)) (2 ^ 64 - 1) }
{
    match stmt {
        CoreStmt::Break | CoreStmt::Return | CoreStmt::Raise(_) => 1,
        CoreStmt::Var(_, e) => nodes_of_expr(e).saturating_add(2),
        CoreStmt::SetLocal(_, e) => nodes_of_expr(e).saturating_add(2),
        CoreStmt::SetField(_, _, e) => nodes_of_expr(e).saturating_add(2),
        CoreStmt::SetElement(a, i, e) => nodes_of_expr(a)
            .saturating_add(nodes_of_expr(i))
            .saturating_add(nodes_of_expr(e))
            .saturating_add(2),
        CoreStmt::Call(call) => nodes_of_call(call).saturating_add(1),
        CoreStmt::Drop(call) => nodes_of_call(call).saturating_add(1),
        CoreStmt::ReturnValue(e) => nodes_of_expr(e).saturating_add(1),
        CoreStmt::Yield(e) => nodes_of_expr(e).saturating_add(1),
        CoreStmt::RaiseValue(_, e) => nodes_of_expr(e).saturating_add(1),
        CoreStmt::PutByte(e) => nodes_of_expr(e).saturating_add(1),
        CoreStmt::PutInt(e) => nodes_of_expr(e).saturating_add(1),
        CoreStmt::PutString(e) => nodes_of_expr(e).saturating_add(1),
        CoreStmt::If(test, body, rest) => nodes_of_expr(test)
            .saturating_add(nodes_of_body(body))
            .saturating_add(nodes_of_else(rest))
            .saturating_add(1),
        CoreStmt::While(test, body) => of_two(nodes_of_expr(test), nodes_of_body(body)),
        CoreStmt::For(_, _, call, body) => nodes_of_call(call)
            .saturating_add(nodes_of_body(body))
            .saturating_add(2),
        CoreStmt::Begin(body, whens) => nodes_of_body(body)
            .saturating_add(nodes_of_whens(whens))
            .saturating_add(1),
    }
}

#[cycle(stmt_nodes)]
fn nodes_of_body(body: &CoreBody) -> u64
    ensures { result ≡ min (body_nodes (body_of body.now)) (2 ^ 64 - 1) }
{
    let mut count: u64 = 0;
    let mut rest = body;
    while let CoreBody::MoreStmt(first, next) = rest {
        count = count.saturating_add(nodes_of_stmt(first));
        rest = next;
    }
    count
}

#[cycle(stmt_nodes)]
fn nodes_of_else(rest: &CoreElse) -> u64
    ensures { result ≡ min (else_nodes (else_of rest.now)) (2 ^ 64 - 1) }
{
    let mut count: u64 = 0;
    let mut rest = rest;
    loop {
        match rest {
            CoreElse::NoElse => return count,
            CoreElse::Else(body) => return count.saturating_add(nodes_of_body(body)),
            CoreElse::Elseif(test, body, next) => {
                count = count
                    .saturating_add(nodes_of_expr(test))
                    .saturating_add(nodes_of_body(body))
                    .saturating_add(1);
                rest = next;
            }
        }
    }
}

#[cycle(stmt_nodes)]
fn nodes_of_whens(whens: &CoreWhenList) -> u64
    ensures { result ≡ min (whens_nodes (whens_of whens.now)) (2 ^ 64 - 1) }
{
    let mut count: u64 = 0;
    let mut rest = whens;
    while let CoreWhenList::MoreWhen(_, variable, body, next) = rest {
        let own: u64 = if variable.is_some() { 2 } else { 1 };
        count = count
            .saturating_add(own)
            .saturating_add(nodes_of_body(body));
        rest = next;
    }
    count
}
