//! Forms of statements, built from their checked parts: none where a part is not there.
ghost use Rattle.std.specs.Prelude.{◌≡◌, IfOk, Some, option_map};
ghost use Rattle.th_meaning.specs.Trees as core;
ghost use Rattle.th_meaning.specs.View.{stmt_of};
ghost use Rattle.th_stmt_rules.specs.Bodies.{both_parts, looped, three_parts, where_true};
ghost use Rattle.th_stmt_forms.specs.View.{body_opt, else_opt, expr_opt, head_opt, stmt_opt, whens_opt};

use std::alloc::{AllocError, Global};
use th_meaning::{
    CoreBody, CoreCall, CoreCast, CoreElse, CoreExpr, CoreStmt, CoreVariable, CoreWhenList,
};

/// What a `for` has before its statements: the variable, the cast of what is yielded, and the call.
#[derive(Drop)]
pub struct LoopHead {
    pub variable: CoreVariable,
    pub cast: Option<CoreCast>,
    pub call: CoreCall,
}

/// A statement on the heap.
pub fn boxed(alloc: Global, stmt: CoreStmt) -> Result<Option<Box<CoreStmt>>, AllocError>
    ensures { IfOk result (λ r. stmt_opt r ≡ Some (stmt_of stmt)) }
{
    Ok(Some(Box::new(alloc, stmt)?))
}

/// A statement, where a test holds.
pub fn only_if(holds: bool, stmt: Option<Box<CoreStmt>>) -> Option<Box<CoreStmt>>
    ensures { stmt_opt result ≡ where_true holds (stmt_opt stmt) }
{
    if holds { stmt } else { None }
}

/// `break;`, where it is lawful.
pub fn break_stmt(alloc: Global, lawful: bool) -> Result<Option<Box<CoreStmt>>, AllocError>
    ensures { IfOk result (λ r. stmt_opt r ≡ where_true lawful (Some core.break_stmt)) }
{
    if lawful {
        boxed(alloc, CoreStmt::Break)
    } else {
        Ok(None)
    }
}

/// `return;`, where it is lawful.
pub fn return_stmt(alloc: Global, lawful: bool) -> Result<Option<Box<CoreStmt>>, AllocError>
    ensures { IfOk result (λ r. stmt_opt r ≡ where_true lawful (Some core.return_stmt)) }
{
    if lawful {
        boxed(alloc, CoreStmt::Return)
    } else {
        Ok(None)
    }
}

/// `put_byte(e);`
pub fn put_byte(
    alloc: Global,
    value: Option<Box<CoreExpr>>,
) -> Result<Option<Box<CoreStmt>>, AllocError>
    ensures { IfOk result (λ r. stmt_opt r ≡ option_map core.put_byte_stmt (expr_opt value)) }
{
    match value {
        None => Ok(None),
        Some(value) => boxed(alloc, CoreStmt::PutByte(Box::into_inner(value))),
    }
}

/// `put_int(e);`
pub fn put_int(
    alloc: Global,
    value: Option<Box<CoreExpr>>,
) -> Result<Option<Box<CoreStmt>>, AllocError>
    ensures { IfOk result (λ r. stmt_opt r ≡ option_map core.put_int_stmt (expr_opt value)) }
{
    match value {
        None => Ok(None),
        Some(value) => boxed(alloc, CoreStmt::PutInt(Box::into_inner(value))),
    }
}

/// `put_string(e);`
pub fn put_text(
    alloc: Global,
    value: Option<Box<CoreExpr>>,
) -> Result<Option<Box<CoreStmt>>, AllocError>
    ensures { IfOk result (λ r. stmt_opt r ≡ option_map core.put_text_stmt (expr_opt value)) }
{
    match value {
        None => Ok(None),
        Some(value) => boxed(alloc, CoreStmt::PutString(Box::into_inner(value))),
    }
}

/// `if`
pub fn if_stmt(
    alloc: Global,
    test: Option<Box<CoreExpr>>,
    body: Option<CoreBody>,
    rest: Option<CoreElse>,
) -> Result<Option<Box<CoreStmt>>, AllocError>
    ensures { IfOk result (λ r. stmt_opt r ≡ three_parts core.if_stmt (expr_opt test) (body_opt body) (else_opt rest)) }
{
    let Some(test) = test else {
        return Ok(None);
    };
    let Some(body) = body else {
        return Ok(None);
    };
    let Some(rest) = rest else {
        return Ok(None);
    };
    let body = Box::new(alloc, body)?;
    let rest = Box::new(alloc, rest)?;
    boxed(alloc, CoreStmt::If(Box::into_inner(test), body, rest))
}

/// `while`
pub fn while_stmt(
    alloc: Global,
    test: Option<Box<CoreExpr>>,
    body: Option<CoreBody>,
) -> Result<Option<Box<CoreStmt>>, AllocError>
    ensures { IfOk result (λ r. stmt_opt r ≡ both_parts core.while_stmt (expr_opt test) (body_opt body)) }
{
    let Some(test) = test else {
        return Ok(None);
    };
    let Some(body) = body else {
        return Ok(None);
    };
    let body = Box::new(alloc, body)?;
    boxed(alloc, CoreStmt::While(Box::into_inner(test), body))
}

/// `for`
pub fn for_stmt(
    alloc: Global,
    head: Option<Box<LoopHead>>,
    body: Option<CoreBody>,
) -> Result<Option<Box<CoreStmt>>, AllocError>
    ensures { IfOk result (λ r. stmt_opt r ≡ both_parts looped (head_opt head) (body_opt body)) }
{
    let Some(head) = head else {
        return Ok(None);
    };
    let Some(body) = body else {
        return Ok(None);
    };
    let body = Box::new(alloc, body)?;
    let head = Box::into_inner(head);
    boxed(
        alloc,
        CoreStmt::For(head.variable, head.cast, head.call, body),
    )
}

/// `begin`
pub fn begin_stmt(
    alloc: Global,
    body: Option<CoreBody>,
    whens: Option<CoreWhenList>,
) -> Result<Option<Box<CoreStmt>>, AllocError>
    ensures { IfOk result (λ r. stmt_opt r ≡ both_parts core.begin_stmt (body_opt body) (whens_opt whens)) }
{
    let Some(body) = body else {
        return Ok(None);
    };
    let Some(whens) = whens else {
        return Ok(None);
    };
    let body = Box::new(alloc, body)?;
    let whens = Box::new(alloc, whens)?;
    boxed(alloc, CoreStmt::Begin(body, whens))
}
