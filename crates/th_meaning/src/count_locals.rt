//! The locals of a unit. A count above 2^64 - 1, which no unit in memory reaches, is given as 2^64 - 1.
ghost use Rattle.std.specs.Prelude.{◌≡◌, ◌+◌, ◌-◌, ◌^◌, min};
ghost use Rattle.th_meaning.specs.View.{stmt_of, body_of, else_of, whens_of, unit_of};
ghost use Rattle.th_meaning.specs.Counts.{stmt_locals, body_locals, else_locals, whens_locals, stmt_has_for, body_has_for, else_has_for, whens_have_for, unit_locals};

use crate::declared::CoreUnit;
use crate::stmt::{CoreBody, CoreElse, CoreStmt, CoreWhenList};

/// The locals of a unit: its formals, the variables that its statements declare, and two more where it has a `for`
/// (docs/LANGUAGE.md). It takes no memory.
pub fn locals(unit: &CoreUnit) -> u64
    ensures { result ≡ min (unit_locals (unit_of unit.now)) (2 ^ 64 - 1) }
{
    let formals = unit.sig.formals.len() as u64;
    let declared = formals.saturating_add(locals_of_body(&unit.body));
    if has_for_body(&unit.body) {
        declared.saturating_add(2)
    } else {
        declared
    }
}

#[cycle(stmt_locals)]
fn locals_of_stmt(stmt: &CoreStmt) -> u64
    ensures { result ≡ min (stmt_locals (stmt_of stmt.now)) (2 ^ 64 - 1) }
{
    match stmt {
        CoreStmt::Var(_, _) => 1,
        CoreStmt::If(_, body, rest) => locals_of_body(body).saturating_add(locals_of_else(rest)),
        CoreStmt::While(_, body) => locals_of_body(body),
        CoreStmt::For(_, _, _, body) => locals_of_body(body).saturating_add(1),
        CoreStmt::Begin(body, whens) => locals_of_body(body).saturating_add(locals_of_whens(whens)),
        CoreStmt::SetLocal(_, _)
        | CoreStmt::SetField(_, _, _)
        | CoreStmt::SetElement(_, _, _)
        | CoreStmt::Call(_)
        | CoreStmt::Drop(_)
        | CoreStmt::Break
        | CoreStmt::Return
        | CoreStmt::ReturnValue(_)
        | CoreStmt::Yield(_)
        | CoreStmt::Raise(_)
        | CoreStmt::RaiseValue(_, _)
        | CoreStmt::PutByte(_)
        | CoreStmt::PutInt(_)
        | CoreStmt::PutString(_) => 0,
    }
}

#[cycle(stmt_locals)]
fn locals_of_body(body: &CoreBody) -> u64
    ensures { result ≡ min (body_locals (body_of body.now)) (2 ^ 64 - 1) }
{
    let mut count: u64 = 0;
    let mut rest = body;
    while let CoreBody::MoreStmt(first, next) = rest {
        count = count.saturating_add(locals_of_stmt(first));
        rest = next;
    }
    count
}

#[cycle(stmt_locals)]
fn locals_of_else(rest: &CoreElse) -> u64
    ensures { result ≡ min (else_locals (else_of rest.now)) (2 ^ 64 - 1) }
{
    let mut count: u64 = 0;
    let mut rest = rest;
    loop {
        match rest {
            CoreElse::NoElse => return count,
            CoreElse::Else(body) => return count.saturating_add(locals_of_body(body)),
            CoreElse::Elseif(_, body, next) => {
                count = count.saturating_add(locals_of_body(body));
                rest = next;
            }
        }
    }
}

#[cycle(stmt_locals)]
fn locals_of_whens(whens: &CoreWhenList) -> u64
    ensures { result ≡ min (whens_locals (whens_of whens.now)) (2 ^ 64 - 1) }
{
    let mut count: u64 = 0;
    let mut rest = whens;
    while let CoreWhenList::MoreWhen(_, variable, body, next) = rest {
        let own: u64 = if variable.is_some() { 1 } else { 0 };
        count = count
            .saturating_add(own)
            .saturating_add(locals_of_body(body));
        rest = next;
    }
    count
}

/// Whether a `for` is in the statement.
#[cycle(has_for)]
fn has_for_stmt(stmt: &CoreStmt) -> bool
    ensures { result ≡ stmt_has_for (stmt_of stmt.now) }
{
    match stmt {
        CoreStmt::For(_, _, _, _) => true,
        CoreStmt::If(_, body, rest) => has_for_body(body) || has_for_else(rest),
        CoreStmt::While(_, body) => has_for_body(body),
        CoreStmt::Begin(body, whens) => has_for_body(body) || has_for_whens(whens),
        CoreStmt::Var(_, _)
        | CoreStmt::SetLocal(_, _)
        | CoreStmt::SetField(_, _, _)
        | CoreStmt::SetElement(_, _, _)
        | CoreStmt::Call(_)
        | CoreStmt::Drop(_)
        | CoreStmt::Break
        | CoreStmt::Return
        | CoreStmt::ReturnValue(_)
        | CoreStmt::Yield(_)
        | CoreStmt::Raise(_)
        | CoreStmt::RaiseValue(_, _)
        | CoreStmt::PutByte(_)
        | CoreStmt::PutInt(_)
        | CoreStmt::PutString(_) => false,
    }
}

/// Whether a `for` is among the statements.
#[cycle(has_for)]
fn has_for_body(body: &CoreBody) -> bool
    ensures { result ≡ body_has_for (body_of body.now) }
{
    let mut rest = body;
    while let CoreBody::MoreStmt(first, next) = rest {
        if has_for_stmt(first) {
            return true;
        }
        rest = next;
    }
    false
}

#[cycle(has_for)]
fn has_for_else(rest: &CoreElse) -> bool
    ensures { result ≡ else_has_for (else_of rest.now) }
{
    let mut rest = rest;
    loop {
        match rest {
            CoreElse::NoElse => return false,
            CoreElse::Else(body) => return has_for_body(body),
            CoreElse::Elseif(_, body, next) => {
                if has_for_body(body) {
                    return true;
                }
                rest = next;
            }
        }
    }
}

#[cycle(has_for)]
fn has_for_whens(whens: &CoreWhenList) -> bool
    ensures { result ≡ whens_have_for (whens_of whens.now) }
{
    let mut rest = whens;
    while let CoreWhenList::MoreWhen(_, _, body, next) = rest {
        if has_for_body(body) {
            return true;
        }
        rest = next;
    }
    false
}
