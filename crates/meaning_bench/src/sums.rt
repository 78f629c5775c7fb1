//! A checked program that sums in a loop.
use std::alloc::{AllocError, Global};
use th_meaning::{
    ArithOp, CompareOp, CoreBody, CoreExpr, CoreModule, CoreSig, CoreStmt, CoreType, CoreUnit,
    CoreVariable, UnitKind,
};
use th_tree::Name;

/// The module of `s := 0; i := 0; while i < count do s := s + i % 7; i := i + 1; end put_int(s);`
pub(crate) fn sums(alloc: Global, count: u32) -> Result<Vec<CoreModule>, AllocError> {
    let mut modules = Vec::new(alloc);
    modules.push(module(alloc, main_unit(alloc, count)?)?)?;
    Ok(modules)
}

/// A module of one unit.
fn module(alloc: Global, unit: CoreUnit) -> Result<CoreModule, AllocError> {
    let mut units = Vec::new(alloc);
    units.push(unit)?;
    Ok(CoreModule {
        name: name(alloc, b"m")?,
        interfaces: Vec::new(alloc),
        classes: Vec::new(alloc),
        units,
    })
}

/// The module's `main`.
fn main_unit(alloc: Global, count: u32) -> Result<CoreUnit, AllocError> {
    let test = CoreExpr::Compare(CompareOp::Less, local(alloc, 1)?, number(alloc, count)?);
    let mut stmts = Vec::new(alloc);
    stmts.push(bind(0))?;
    stmts.push(bind(1))?;
    stmts.push(CoreStmt::While(test, Box::new(alloc, turn(alloc)?)?))?;
    stmts.push(CoreStmt::PutInt(CoreExpr::Local(0)))?;
    Ok(CoreUnit {
        name: name(alloc, b"m/main")?,
        kind: UnitKind::Routine,
        params: 0,
        clauses: Vec::new(alloc),
        sig: CoreSig {
            iterator: false,
            formals: Vec::new(alloc),
            gives: None,
            signals: Vec::new(alloc),
        },
        body: body(alloc, stmts)?,
    })
}

/// The body of the loop.
fn turn(alloc: Global) -> Result<CoreBody, AllocError> {
    let rest = CoreExpr::Arith(ArithOp::Remainder, local(alloc, 1)?, number(alloc, 7)?);
    let sum = CoreExpr::Arith(ArithOp::Plus, local(alloc, 0)?, Box::new(alloc, rest)?);
    let next = CoreExpr::Arith(ArithOp::Plus, local(alloc, 1)?, number(alloc, 1)?);
    let mut stmts = Vec::new(alloc);
    stmts.push(CoreStmt::SetLocal(0, sum))?;
    stmts.push(CoreStmt::SetLocal(1, next))?;
    body(alloc, stmts)
}

/// A number's local that is bound to 0.
fn bind(local: u32) -> CoreStmt {
    let variable = CoreVariable {
        local,
        of: CoreType::Int,
    };
    CoreStmt::Var(variable, CoreExpr::Number(0))
}

/// Statements as a body.
fn body(alloc: Global, stmts: Vec<CoreStmt>) -> Result<CoreBody, AllocError> {
    let mut done = CoreBody::NoStmt;
    for stmt in stmts {
        done = CoreBody::MoreStmt(Box::new(alloc, stmt)?, Box::new(alloc, done)?);
    }
    Ok(done.turned(CoreBody::NoStmt))
}

/// The value of a local.
fn local(alloc: Global, local: u32) -> Result<Box<CoreExpr>, AllocError> {
    Ok(Box::new(alloc, CoreExpr::Local(local))?)
}

/// A number.
fn number(alloc: Global, number: u32) -> Result<Box<CoreExpr>, AllocError> {
    Ok(Box::new(alloc, CoreExpr::Number(number))?)
}

/// A name.
fn name(alloc: Global, text: &[u8]) -> Result<Name, AllocError> {
    Ok(Name::of(Vec::from_slice(alloc, text)?))
}
