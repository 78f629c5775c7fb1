//! Lists of statements, `elseif`s and handlers, which are built the other way round: none where a part is not there.
ghost use Rattle.std.specs.Prelude.{◌≡◌, IfOk, Some, option_map};
ghost use Rattle.th_meaning.specs.Trees as core;
ghost use Rattle.th_meaning.specs.Onto.{elses_onto, stmts_onto, whens_onto};
ghost use Rattle.th_stmt_rules.specs.Bodies.{both_parts, handler, three_parts};
ghost use Rattle.th_stmt_forms.specs.View.{body_opt, else_opt, expr_opt, heading_opt, stmt_opt, whens_opt};

use std::alloc::{AllocError, Global};
use th_meaning::{CoreBody, CoreElse, CoreExpr, CoreStmt, CoreVariable, CoreWhenList};
use th_tree::Name;

/// What a handler has before its statements: the exception's full name, and the variable where it has one.
#[derive(Drop)]
pub struct Heading {
    pub name: Name,
    pub variable: Option<CoreVariable>,
}

/// A statement before others.
pub fn with_stmt(
    alloc: Global,
    stmt: Option<Box<CoreStmt>>,
    others: Option<CoreBody>,
) -> Result<Option<CoreBody>, AllocError>
    ensures { IfOk result (λ r. body_opt r ≡ both_parts core.more_stmts (stmt_opt stmt) (body_opt others)) }
{
    let Some(stmt) = stmt else {
        return Ok(None);
    };
    let Some(others) = others else {
        return Ok(None);
    };
    Ok(Some(CoreBody::MoreStmt(stmt, Box::new(alloc, others)?)))
}

/// The statements the other way round.
pub fn turned_body(done: Option<CoreBody>) -> Option<CoreBody>
    ensures { body_opt result ≡ both_parts stmts_onto (body_opt done) (Some core.no_stmt) }
{
    let Some(done) = done else {
        return None;
    };
    Some(done.turned(CoreBody::NoStmt))
}

/// An `elseif` before others.
pub fn with_elseif(
    alloc: Global,
    test: Option<Box<CoreExpr>>,
    body: Option<CoreBody>,
    others: Option<CoreElse>,
) -> Result<Option<CoreElse>, AllocError>
    ensures { IfOk result (λ r. else_opt r ≡ three_parts core.elseif_then (expr_opt test) (body_opt body) (else_opt others)) }
{
    let Some(test) = test else {
        return Ok(None);
    };
    let Some(body) = body else {
        return Ok(None);
    };
    let Some(others) = others else {
        return Ok(None);
    };
    Ok(Some(CoreElse::Elseif(
        Box::into_inner(test),
        Box::new(alloc, body)?,
        Box::new(alloc, others)?,
    )))
}

/// The `elseif`s the other way round, and then nothing.
pub fn turned_else(done: Option<CoreElse>) -> Option<CoreElse>
    ensures { else_opt result ≡ both_parts elses_onto (else_opt done) (Some core.no_else) }
{
    let Some(done) = done else {
        return None;
    };
    Some(done.turned(CoreElse::NoElse))
}

/// The `elseif`s the other way round, and then the statements after `else`.
pub fn turned_onto(
    alloc: Global,
    done: Option<CoreElse>,
    body: Option<CoreBody>,
) -> Result<Option<CoreElse>, AllocError>
    ensures { IfOk result (λ r. else_opt r ≡ both_parts elses_onto (else_opt done) (option_map core.else_do (body_opt body))) }
{
    let Some(done) = done else {
        return Ok(None);
    };
    let Some(body) = body else {
        return Ok(None);
    };
    Ok(Some(done.turned(CoreElse::Else(Box::new(alloc, body)?))))
}

/// A handler before others.
pub fn with_when(
    alloc: Global,
    heading: Option<Heading>,
    body: Option<CoreBody>,
    others: Option<CoreWhenList>,
) -> Result<Option<CoreWhenList>, AllocError>
    ensures { IfOk result (λ r. whens_opt r ≡ three_parts handler (heading_opt heading) (body_opt body) (whens_opt others)) }
{
    let Some(heading) = heading else {
        return Ok(None);
    };
    let Some(body) = body else {
        return Ok(None);
    };
    let Some(others) = others else {
        return Ok(None);
    };
    Ok(Some(CoreWhenList::MoreWhen(
        heading.name,
        heading.variable,
        Box::new(alloc, body)?,
        Box::new(alloc, others)?,
    )))
}

/// The handlers the other way round.
pub fn turned_whens(done: Option<CoreWhenList>) -> Option<CoreWhenList>
    ensures { whens_opt result ≡ both_parts whens_onto (whens_opt done) (Some core.no_when) }
{
    let Some(done) = done else {
        return None;
    };
    Some(done.turned(CoreWhenList::NoWhen))
}
