//! How many operations the code of a form has. A count above 2^64 - 1, which no form in memory reaches, is given as 2^64 - 1.
ghost use Rattle.std.specs.Prelude.{◌≡◌, ℕ, ◌+◌, ◌-◌, ◌^◌, min, option_copied, option_map};
ghost use Rattle.th_meaning.specs.Program.{name_of_type};
ghost use Rattle.th_meaning.specs.View.{type_of, cast_of, expr_of, exprs_of, call_of, stmt_of, body_of, else_of, whens_of};
ghost use Rattle.th_lowering.specs.Sizes.{cast_size, may_cast_size, count, expr_size, exprs_size, operands_size, dropped, else_jump, block_size, stmt_size, body_size, else_size, whens_size};

use th_meaning::{
    CoreBody, CoreCall, CoreCast, CoreElse, CoreExpr, CoreExprList, CoreStmt, CoreType,
    CoreWhenList,
};
use th_tree::Name;

/// The full name of a declared type; None for every other type.
pub fn declared_name(of: &CoreType) -> Option<&Name>
    ensures { option_copied result ≡ name_of_type (type_of of.now) }
{
    match of {
        CoreType::Named(name, _) => Some(name),
        CoreType::Int | CoreType::Bool | CoreType::Text | CoreType::Array(_) | CoreType::Param(_) =>
            None,
    }
}

/// The operations of a cast: one between declared types, else none.
pub fn size_of_cast(cast: &CoreCast) -> u64
    ensures { result ≡ cast_size (cast_of cast.now) }
{
    match declared_name(&cast.from) {
        None => 0,
        Some(_) => match declared_name(&cast.to) {
            None => 0,
            Some(_) => 1,
        },
    }
}

/// The operations of a cast where there is one.
pub fn size_of_may_cast(cast: &Option<CoreCast>) -> u64
    ensures { result ≡ may_cast_size (option_map cast_of cast.now) }
{
    match cast {
        None => 0,
        Some(cast) => size_of_cast(cast),
    }
}

/// How many expressions there are.
pub fn count_of(exprs: &CoreExprList) -> u64
    ensures { result ≡ min (count (exprs_of exprs.now)) (2 ^ 64 - 1) }
{
    let mut count: u64 = 0;
    let mut rest = exprs;
    while let CoreExprList::MoreExpr(_, next) = rest {
        count = count.saturating_add(1);
        rest = next;
    }
    count
}

/// The operations of two parts, and so many more.
fn of_two(a: u64, b: u64, more: u64) -> u64
    ensures { (m n : ℕ) → a ≡ min m (2 ^ 64 - 1) → b ≡ min n (2 ^ 64 - 1) → result ≡ min (m + n + more) (2 ^ 64 - 1) }
{
    a.saturating_add(b).saturating_add(more)
}

/// The operations of an expression.
#[cycle(expr_sizes)]
pub fn size_of_expr(expr: &CoreExpr) -> u64
    ensures { result ≡ min (expr_size (expr_of expr.now)) (2 ^ 64 - 1) }
{
    match expr {
        CoreExpr::Number(_)
        | CoreExpr::Truth(_)
        | CoreExpr::Literal(_)
        | CoreExpr::PartSelf
        | CoreExpr::Local(_)
        | CoreExpr::Field(_, _)
        | CoreExpr::GetByte => 1,
        CoreExpr::Negative(a) => size_of_expr(a).saturating_add(1),
        CoreExpr::Extent(a) => size_of_expr(a).saturating_add(1),
        CoreExpr::Length(a) => size_of_expr(a).saturating_add(1),
        CoreExpr::Not(a) => size_of_expr(a).saturating_add(4),
        CoreExpr::Cast(cast, a) => size_of_expr(a).saturating_add(size_of_cast(cast)),
        CoreExpr::Arith(_, a, b) => of_two(size_of_expr(a), size_of_expr(b), 1),
        CoreExpr::Compare(_, a, b) => of_two(size_of_expr(a), size_of_expr(b), 1),
        CoreExpr::Same(a, b) => of_two(size_of_expr(a), size_of_expr(b), 1),
        CoreExpr::And(a, b) => of_two(size_of_expr(a), size_of_expr(b), 3),
        CoreExpr::Or(a, b) => of_two(size_of_expr(a), size_of_expr(b), 3),
        CoreExpr::Join(a, b) => of_two(size_of_expr(a), size_of_expr(b), 1),
        CoreExpr::Letter(a, b) => of_two(size_of_expr(a), size_of_expr(b), 1),
        CoreExpr::Element(a, b) => of_two(size_of_expr(a), size_of_expr(b), 1),
        CoreExpr::NewArray(_, a, b) => of_two(size_of_expr(a), size_of_expr(b), 1),
        CoreExpr::Call(call) => size_of_operands(call).saturating_add(1),
        CoreExpr::New(_, _, supplies, args) => {
            of_two(supplies.len() as u64, size_of_exprs(args), 2)
        }
    }
}

/// The operations of expressions, one after another.
#[cycle(expr_sizes)]
pub fn size_of_exprs(exprs: &CoreExprList) -> u64
    ensures { result ≡ min (exprs_size (exprs_of exprs.now)) (2 ^ 64 - 1) }
{
    let mut size: u64 = 0;
    let mut rest = exprs;
    while let CoreExprList::MoreExpr(first, next) = rest {
        size = size.saturating_add(size_of_expr(first));
        rest = next;
    }
    size
}

/// The operations of the operands of a call, and where it is the super call of an initializer, of its turn.
#[cycle(expr_sizes)]
pub fn size_of_operands(call: &CoreCall) -> u64
    ensures { result ≡ min (operands_size (call_of call.now)) (2 ^ 64 - 1) }
{
    match call {
        CoreCall::Routine(_, _, supplies, args) => {
            (supplies.len() as u64).saturating_add(size_of_exprs(args))
        }
        CoreCall::Method(_, _, receiver, args) => {
            of_two(size_of_expr(receiver), size_of_exprs(args), 1)
        }
        CoreCall::Hidden(_, _, args) => size_of_exprs(args).saturating_add(1),
        CoreCall::Super(_, _, args) => size_of_exprs(args).saturating_add(1),
        CoreCall::Where(_, _, receiver, args) => {
            of_two(size_of_expr(receiver), size_of_exprs(args), 1)
        }
        CoreCall::SuperInit(_, _, supplies, args) => {
            of_two(supplies.len() as u64, size_of_exprs(args), 2)
        }
    }
}

/// One where a statement drops the value that the call always gives.
fn size_of_drop(call: &CoreCall) -> u64
    ensures { result ≡ dropped (call_of call.now) }
{
    match call {
        CoreCall::Routine(_, _, _, _)
        | CoreCall::Method(_, _, _, _)
        | CoreCall::Hidden(_, _, _)
        | CoreCall::Super(_, _, _)
        | CoreCall::Where(_, _, _, _) => 0,
        CoreCall::SuperInit(_, _, _, _) => 1,
    }
}

/// One where something follows the statements after a `then`: the jump before it.
pub fn size_of_jump(rest: &CoreElse) -> u64
    ensures { result ≡ else_jump (else_of rest.now) }
{
    match rest {
        CoreElse::NoElse => 0,
        CoreElse::Else(_) | CoreElse::Elseif(_, _, _) => 1,
    }
}

/// One where there are handlers: the `block` before what they cover.
pub fn size_of_block(whens: &CoreWhenList) -> u64
    ensures { result ≡ block_size (whens_of whens.now) }
{
    match whens {
        CoreWhenList::NoWhen => 0,
        CoreWhenList::MoreWhen(_, _, _, _) => 1,
    }
}

/// The operations of a statement.
#[cycle(stmt_sizes)]
pub fn size_of_stmt(stmt: &CoreStmt) -> u64
    ensures { result ≡ min (stmt_size (stmt_of stmt.now)) (2 ^ 64 - 1) }
{
    match stmt {
        CoreStmt::Break | CoreStmt::Return | CoreStmt::Raise(_) => 1,
        CoreStmt::Var(_, e) => size_of_expr(e).saturating_add(1),
        CoreStmt::SetLocal(_, e) => size_of_expr(e).saturating_add(1),
        CoreStmt::SetField(_, _, e) => size_of_expr(e).saturating_add(1),
        CoreStmt::SetElement(a, i, e) => size_of_expr(a)
            .saturating_add(size_of_expr(i))
            .saturating_add(size_of_expr(e))
            .saturating_add(1),
        CoreStmt::Call(call) => of_two(size_of_operands(call), size_of_drop(call), 1),
        CoreStmt::Drop(call) => size_of_operands(call).saturating_add(2),
        CoreStmt::ReturnValue(e) => size_of_expr(e).saturating_add(1),
        CoreStmt::Yield(e) => size_of_expr(e).saturating_add(1),
        CoreStmt::RaiseValue(_, e) => size_of_expr(e).saturating_add(1),
        CoreStmt::PutByte(e) => size_of_expr(e).saturating_add(1),
        CoreStmt::PutInt(e) => size_of_expr(e).saturating_add(1),
        CoreStmt::PutString(e) => size_of_expr(e).saturating_add(1),
        CoreStmt::If(test, body, rest) => size_of_expr(test)
            .saturating_add(size_of_body(body))
            .saturating_add(size_of_else(rest))
            .saturating_add(1),
        CoreStmt::While(test, body) => of_two(size_of_body(body), size_of_expr(test), 4),
        CoreStmt::For(_, cast, call, body) => size_of_operands(call)
            .saturating_add(size_of_may_cast(cast))
            .saturating_add(size_of_body(body))
            .saturating_add(4),
        CoreStmt::Begin(body, whens) => {
            of_two(
                size_of_body(body),
                size_of_whens(whens),
                size_of_block(whens),
            )
        }
    }
}

/// The operations of statements, one after another.
#[cycle(stmt_sizes)]
pub fn size_of_body(body: &CoreBody) -> u64
    ensures { result ≡ min (body_size (body_of body.now)) (2 ^ 64 - 1) }
{
    let mut size: u64 = 0;
    let mut rest = body;
    while let CoreBody::MoreStmt(first, next) = rest {
        size = size.saturating_add(size_of_stmt(first));
        rest = next;
    }
    size
}

/// The operations of what follows the statements after a `then`.
#[cycle(stmt_sizes)]
pub fn size_of_else(rest: &CoreElse) -> u64
    ensures { result ≡ min (else_size (else_of rest.now)) (2 ^ 64 - 1) }
{
    let mut size: u64 = 0;
    let mut rest = rest;
    loop {
        match rest {
            CoreElse::NoElse => return size,
            CoreElse::Else(body) => return size
                .saturating_add(size_of_body(body))
                .saturating_add(1),
            CoreElse::Elseif(test, body, next) => {
                size = size
                    .saturating_add(size_of_expr(test))
                    .saturating_add(size_of_body(body))
                    .saturating_add(2);
                rest = next;
            }
        }
    }
}

/// The operations of handlers.
#[cycle(stmt_sizes)]
pub fn size_of_whens(whens: &CoreWhenList) -> u64
    ensures { result ≡ min (whens_size (whens_of whens.now)) (2 ^ 64 - 1) }
{
    let mut size: u64 = 0;
    let mut rest = whens;
    while let CoreWhenList::MoreWhen(_, variable, body, next) = rest {
        let own: u64 = if variable.is_some() { 3 } else { 2 };
        size = size.saturating_add(size_of_body(body)).saturating_add(own);
        rest = next;
    }
    size
}
