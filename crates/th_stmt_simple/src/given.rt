//! Forms of statements and parts of them that are built from checked expressions and calls: none where a part is not there.
ghost use Rattle.std.specs.Prelude.{◌≡◌, IfOk, Some};
ghost use Rattle.th_meaning.specs.Trees as core;
ghost use Rattle.th_meaning.specs.View.{expr_of};
ghost use Rattle.th_rules.specs.Callees.{as_iterator, as_procedure, fitted, wished};
ghost use Rattle.th_rules.specs.Typing.{is_bool, is_int, is_text};
ghost use Rattle.th_expr.specs.View.{called_opt, given_of, typed_opt};
ghost use Rattle.th_stmt_rules.specs.Bodies.{assigned, both_parts, done, loop_head, set_stmt, tested, with_given};
ghost use Rattle.th_stmt_forms.specs.View.{expr_opt, head_opt, stmt_opt};
ghost use Rattle.th_stmt_parts.specs.View.{given_cast, variable_opt};

use std::alloc::{AllocError, Global};
use th_expr::{CalledPart, GivenOne, Typed, ok_bool, ok_int, ok_text};
use th_meaning::{CoreExpr, CoreStmt, CoreVariable};
use th_stmt_forms::{LoopHead, boxed};
use th_stmt_parts::GivenCast;
use th_tree::Name;

/// The expression, where it is a truth value.
pub fn truth(alloc: Global, x: Option<Typed>) -> Result<Option<Box<CoreExpr>>, AllocError>
    ensures { IfOk result (λ r. expr_opt r ≡ tested is_bool (typed_opt x)) }
{
    let lawful = ok_bool(&x);
    let Some(x) = x else {
        return Ok(None);
    };
    if lawful {
        Ok(Some(Box::new(alloc, x.core)?))
    } else {
        Ok(None)
    }
}

/// The expression, where it is a number.
pub fn number(alloc: Global, x: Option<Typed>) -> Result<Option<Box<CoreExpr>>, AllocError>
    ensures { IfOk result (λ r. expr_opt r ≡ tested is_int (typed_opt x)) }
{
    let lawful = ok_int(&x);
    let Some(x) = x else {
        return Ok(None);
    };
    if lawful {
        Ok(Some(Box::new(alloc, x.core)?))
    } else {
        Ok(None)
    }
}

/// The expression, where it is a text.
pub fn text(alloc: Global, x: Option<Typed>) -> Result<Option<Box<CoreExpr>>, AllocError>
    ensures { IfOk result (λ r. expr_opt r ≡ tested is_text (typed_opt x)) }
{
    let lawful = ok_text(&x);
    let Some(x) = x else {
        return Ok(None);
    };
    if lawful {
        Ok(Some(Box::new(alloc, x.core)?))
    } else {
        Ok(None)
    }
}

/// The call, where it is one of a procedure.
pub fn procedure(call: Option<CalledPart>) -> Option<CalledPart>
    ensures { called_opt result ≡ wished as_procedure (called_opt call) }
{
    let Some(call) = call else {
        return None;
    };
    if call.sig.iterator { None } else { Some(call) }
}

/// The call, where it is one of an iterator.
pub fn iterator(call: Option<CalledPart>) -> Option<CalledPart>
    ensures { called_opt result ≡ wished as_iterator (called_opt call) }
{
    let Some(call) = call else {
        return None;
    };
    if call.sig.iterator { Some(call) } else { None }
}

/// `var n: T := e;`
pub fn var_stmt(
    alloc: Global,
    variable: Option<CoreVariable>,
    value: GivenOne,
) -> Result<Option<Box<CoreStmt>>, AllocError>
    ensures { IfOk result (λ r. stmt_opt r ≡ both_parts core.var_stmt (variable_opt variable) (fitted (given_of value))) }
{
    let Some(variable) = variable else {
        return Ok(None);
    };
    match value {
        GivenOne::Untyped => Ok(None),
        GivenOne::Misfit => Ok(None),
        GivenOne::Fits(value) => boxed(alloc, CoreStmt::Var(variable, value)),
    }
}

/// A value in a target.
fn set(
    alloc: Global,
    target: CoreExpr,
    value: CoreExpr,
) -> Result<Option<Box<CoreStmt>>, AllocError>
    ensures { IfOk result (λ r. stmt_opt r ≡ set_stmt (expr_of target) (expr_of value)) }
{
    match target {
        CoreExpr::Local(local) => boxed(alloc, CoreStmt::SetLocal(local, value)),
        CoreExpr::Field(class, field) => boxed(alloc, CoreStmt::SetField(class, field, value)),
        CoreExpr::Element(array, index) => boxed(
            alloc,
            CoreStmt::SetElement(Box::into_inner(array), Box::into_inner(index), value),
        ),
        CoreExpr::Number(_)
        | CoreExpr::Truth(_)
        | CoreExpr::Literal(_)
        | CoreExpr::PartSelf
        | CoreExpr::Negative(_)
        | CoreExpr::Arith(_, _, _)
        | CoreExpr::Compare(_, _, _)
        | CoreExpr::Same(_, _)
        | CoreExpr::Not(_)
        | CoreExpr::And(_, _)
        | CoreExpr::Or(_, _)
        | CoreExpr::Join(_, _)
        | CoreExpr::Letter(_, _)
        | CoreExpr::Extent(_)
        | CoreExpr::Length(_)
        | CoreExpr::Cast(_, _)
        | CoreExpr::Call(_)
        | CoreExpr::New(_, _, _, _)
        | CoreExpr::NewArray(_, _, _)
        | CoreExpr::GetByte => Ok(None),
    }
}

/// `t := e;`
pub fn assigned(
    alloc: Global,
    target: Option<Typed>,
    value: GivenOne,
) -> Result<Option<Box<CoreStmt>>, AllocError>
    ensures { IfOk result (λ r. stmt_opt r ≡ assigned (typed_opt target) (given_of value)) }
{
    let Some(target) = target else {
        return Ok(None);
    };
    match value {
        GivenOne::Untyped => Ok(None),
        GivenOne::Misfit => Ok(None),
        GivenOne::Fits(value) => set(alloc, target.core, value),
    }
}

/// A call as a statement.
pub fn done(alloc: Global, call: Option<CalledPart>) -> Result<Option<Box<CoreStmt>>, AllocError>
    ensures { IfOk result (λ r. stmt_opt r ≡ done (called_opt call)) }
{
    let Some(call) = call else {
        return Ok(None);
    };
    let CalledPart { core, sig } = call;
    match &sig.gives {
        None => boxed(alloc, CoreStmt::Call(core)),
        Some(_) => boxed(alloc, CoreStmt::Drop(core)),
    }
}

/// `return e;`
pub fn return_value(alloc: Global, value: GivenOne) -> Result<Option<Box<CoreStmt>>, AllocError>
    ensures { IfOk result (λ r. stmt_opt r ≡ with_given core.return_value_stmt (given_of value)) }
{
    match value {
        GivenOne::Untyped => Ok(None),
        GivenOne::Misfit => Ok(None),
        GivenOne::Fits(value) => boxed(alloc, CoreStmt::ReturnValue(value)),
    }
}

/// `yield e;`
pub fn yielded(alloc: Global, value: GivenOne) -> Result<Option<Box<CoreStmt>>, AllocError>
    ensures { IfOk result (λ r. stmt_opt r ≡ with_given core.yield_stmt (given_of value)) }
{
    match value {
        GivenOne::Untyped => Ok(None),
        GivenOne::Misfit => Ok(None),
        GivenOne::Fits(value) => boxed(alloc, CoreStmt::Yield(value)),
    }
}

/// `raise x(e);`
pub fn raise_value(
    alloc: Global,
    name: Name,
    value: GivenOne,
) -> Result<Option<Box<CoreStmt>>, AllocError>
    ensures { IfOk result (λ r. stmt_opt r ≡ with_given (core.raise_value_stmt name) (given_of value)) }
{
    match value {
        GivenOne::Untyped => Ok(None),
        GivenOne::Misfit => Ok(None),
        GivenOne::Fits(value) => boxed(alloc, CoreStmt::RaiseValue(name, value)),
    }
}

/// What a `for` has before its statements, where it is lawful.
pub fn loop_head(
    alloc: Global,
    variable: Option<CoreVariable>,
    call: Option<CalledPart>,
    cast: GivenCast,
) -> Result<Option<Box<LoopHead>>, AllocError>
    ensures { IfOk result (λ r. head_opt r ≡ loop_head (variable_opt variable) (called_opt call) (given_cast cast)) }
{
    let Some(variable) = variable else {
        return Ok(None);
    };
    let Some(call) = call else {
        return Ok(None);
    };
    match cast {
        GivenCast::Untyped => Ok(None),
        GivenCast::Misfit => Ok(None),
        GivenCast::Fits(cast) => {
            let head = LoopHead {
                variable,
                cast,
                call: call.core,
            };
            Ok(Some(Box::new(alloc, head)?))
        }
    }
}
