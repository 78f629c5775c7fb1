//! Checked statements. docs/LANGUAGE.md, "What a program does", states what each of them does.
//!
//! Statements, `elseif`s and handlers are lists that may have any length; they are walked and dropped by loops. A
//! statement has a height of at most 600.
ghost use Rattle.std.specs.Prelude.{◌≡◌};
ghost use Rattle.th_meaning.specs.View.{body_of, else_of, whens_of};
ghost use Rattle.th_meaning.specs.Onto.{stmts_onto, elses_onto, whens_onto};

use crate::expr::{CoreCall, CoreCast, CoreExpr};
use crate::types::CoreType;
use std::mem;
use th_tree::Name;

/// A local that a statement declares: its number in the unit, and its type.
#[derive(Drop)]
pub struct CoreVariable {
    pub local: u32,
    pub of: CoreType,
}

/// A statement.
#[derive(Drop)]
#[cycle(stmts)]
pub enum CoreStmt {
    /// `var n: T := e;`
    Var(CoreVariable, CoreExpr),
    /// `n := e;`: the local's number and the value.
    SetLocal(u32, CoreExpr),
    /// `self.f := e;`, or `f := e;` in an initializer: the full name of the class that has the field, the field's place
    /// among the class's own, from 0, and the value.
    SetField(Name, u32, CoreExpr),
    /// `a[i] := e;`: the array, the index and the value.
    SetElement(CoreExpr, CoreExpr, CoreExpr),
    /// A call that gives no value.
    Call(CoreCall),
    /// A call whose value is dropped.
    Drop(CoreCall),
    /// `if`: the test, the statements after `then`, and what follows them up to `end`.
    If(CoreExpr, Box<CoreBody>, Box<CoreElse>),
    /// `while`: the test and the statements.
    While(CoreExpr, Box<CoreBody>),
    /// `for`: the variable, the cast of what is yielded where there is one, the call of an iterator and the statements.
    For(CoreVariable, Option<CoreCast>, CoreCall, Box<CoreBody>),
    /// `break;`
    Break,
    /// `return;`
    Return,
    /// `return e;`
    ReturnValue(CoreExpr),
    /// `yield e;`
    Yield(CoreExpr),
    /// `raise x;`: the exception's full name.
    Raise(Name),
    /// `raise x(e);`: the exception's full name and its argument.
    RaiseValue(Name, CoreExpr),
    /// `begin`: the statements before `except`, and the handlers.
    Begin(Box<CoreBody>, Box<CoreWhenList>),
    /// `put_byte(e);`
    PutByte(CoreExpr),
    /// `put_int(e);`
    PutInt(CoreExpr),
    /// `put_string(e);`
    PutString(CoreExpr),
}

/// Statements, in order.
#[cycle(stmts)]
pub enum CoreBody {
    NoStmt,
    MoreStmt(Box<CoreStmt>, Box<CoreBody>),
}

/// What follows the statements after a `then`.
#[cycle(stmts)]
pub enum CoreElse {
    /// Nothing.
    NoElse,
    /// `else`: the statements.
    Else(Box<CoreBody>),
    /// `elseif`: the test, the statements, and what follows them.
    Elseif(CoreExpr, Box<CoreBody>, Box<CoreElse>),
}

/// Handlers, in order: of each the exception's full name, the variable where it has one, and the statements.
#[cycle(stmts)]
pub enum CoreWhenList {
    NoWhen,
    MoreWhen(Name, Option<CoreVariable>, Box<CoreBody>, Box<CoreWhenList>),
}

impl Drop for CoreBody {
    #[cycle(stmts)]
    fn drop(mut self) {
        loop {
            match self {
                CoreBody::NoStmt => return,
                CoreBody::MoreStmt(_, rest) => self = Box::into_inner(rest),
            }
        }
    }
}

impl Drop for CoreElse {
    #[cycle(stmts)]
    fn drop(mut self) {
        loop {
            match self {
                CoreElse::NoElse => return,
                CoreElse::Else(_) => return,
                CoreElse::Elseif(_, _, rest) => self = Box::into_inner(rest),
            }
        }
    }
}

impl Drop for CoreWhenList {
    #[cycle(stmts)]
    fn drop(mut self) {
        loop {
            match self {
                CoreWhenList::NoWhen => return,
                CoreWhenList::MoreWhen(_, _, _, rest) => self = Box::into_inner(rest),
            }
        }
    }
}

impl CoreBody {
    /// These statements the other way round, and then those of `end`. It takes no memory.
    pub fn turned(mut self, end: CoreBody) -> CoreBody
        ensures { body_of result ≡ stmts_onto (body_of self) (body_of end) }
    {
        let mut done = end;
        loop {
            match self {
                CoreBody::NoStmt => return done,
                CoreBody::MoreStmt(first, mut others) => {
                    self = mem::replace(&mut *others, done);
                    done = CoreBody::MoreStmt(first, others);
                }
            }
        }
    }
}

impl CoreElse {
    /// These `elseif`s the other way round, and then those of `end`; an `else` among them is dropped. It takes no memory.
    pub fn turned(mut self, end: CoreElse) -> CoreElse
        ensures { else_of result ≡ elses_onto (else_of self) (else_of end) }
    {
        let mut done = end;
        loop {
            match self {
                CoreElse::NoElse => return done,
                CoreElse::Else(_) => return done,
                CoreElse::Elseif(test, body, mut others) => {
                    self = mem::replace(&mut *others, done);
                    done = CoreElse::Elseif(test, body, others);
                }
            }
        }
    }
}

impl CoreWhenList {
    /// These handlers the other way round, and then those of `end`. It takes no memory.
    pub fn turned(mut self, end: CoreWhenList) -> CoreWhenList
        ensures { whens_of result ≡ whens_onto (whens_of self) (whens_of end) }
    {
        let mut done = end;
        loop {
            match self {
                CoreWhenList::NoWhen => return done,
                CoreWhenList::MoreWhen(name, variable, body, mut others) => {
                    self = mem::replace(&mut *others, done);
                    done = CoreWhenList::MoreWhen(name, variable, body, others);
                }
            }
        }
    }
}
