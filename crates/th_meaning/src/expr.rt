//! Checked expressions. docs/LANGUAGE.md, "What a program does", states what each of them does.
//!
//! A list of expressions is empty, or an expression and the rest. An expression has a height of at most 600; lists may
//! have any length, so they are walked and dropped by loops.
ghost use Rattle.std.specs.Prelude.{◌≡◌};
ghost use Rattle.th_meaning.specs.View.{exprs_of};
ghost use Rattle.th_meaning.specs.Onto.{exprs_onto};

use crate::types::{CoreSupply, CoreType, CoreTypeList};
use std::mem;
use th_tree::{ByteList, Name};

/// An operator on two numbers that gives a number.
#[derive(Clone, Copy, PartialEq, Eq, Debug)]
pub enum ArithOp {
    /// `+`
    Plus,
    /// `-`
    Minus,
    /// `*`
    Times,
    /// `/`
    Divide,
    /// `%`
    Remainder,
}

/// An operator that compares two numbers, or for equality two truth values.
#[derive(Clone, Copy, PartialEq, Eq, Debug)]
pub enum CompareOp {
    /// `=`
    Equal,
    /// `~=`
    NotEqual,
    /// `<`
    Less,
    /// `<=`
    LessEqual,
    /// `>`
    Greater,
    /// `>=`
    GreaterEqual,
}

/// A cast from a type to a supertype. It has no part in what a program does.
#[derive(Drop)]
pub struct CoreCast {
    pub from: CoreType,
    pub to: CoreType,
}

/// An expression.
#[derive(Drop)]
#[cycle(exprs)]
pub enum CoreExpr {
    /// A number below 2^31.
    Number(u32),
    /// `true` or `false`
    Truth(bool),
    /// A string literal, by its bytes.
    Literal(ByteList),
    /// `self`
    PartSelf,
    /// A local, by its number in the unit.
    Local(u32),
    /// `self.f`: the full name of the class that has the field, and the field's place among the class's own, from 0.
    Field(Name, u32),
    /// `-e`
    Negative(Box<CoreExpr>),
    /// The operator, the left operand and the right one.
    Arith(ArithOp, Box<CoreExpr>, Box<CoreExpr>),
    /// The operator, the left operand and the right one.
    Compare(CompareOp, Box<CoreExpr>, Box<CoreExpr>),
    /// `a == b`: whether both are one object.
    Same(Box<CoreExpr>, Box<CoreExpr>),
    /// `not e`
    Not(Box<CoreExpr>),
    /// `a and b`
    And(Box<CoreExpr>, Box<CoreExpr>),
    /// `a or b`
    Or(Box<CoreExpr>, Box<CoreExpr>),
    /// `s & t`: the two texts joined.
    Join(Box<CoreExpr>, Box<CoreExpr>),
    /// `s[i]`: a byte of a text.
    Letter(Box<CoreExpr>, Box<CoreExpr>),
    /// `s.length` of a text.
    Extent(Box<CoreExpr>),
    /// `a[i]`: an element of an array.
    Element(Box<CoreExpr>, Box<CoreExpr>),
    /// `a.length` of an array.
    Length(Box<CoreExpr>),
    /// A value where one of a supertype is needed.
    Cast(CoreCast, Box<CoreExpr>),
    /// A call that gives a value.
    Call(Box<CoreCall>),
    /// `new C(..)`: the class's full name, its arguments, its supplies and the arguments of its initializer.
    New(Name, CoreTypeList, Vec<CoreSupply>, Box<CoreExprList>),
    /// `new array[T](n, e)`: the elements' type, the length and the elements' first value.
    NewArray(CoreType, Box<CoreExpr>, Box<CoreExpr>),
    /// `get_byte()`
    GetByte,
}

/// Expressions, in order.
#[cycle(exprs)]
pub enum CoreExprList {
    NoExpr,
    MoreExpr(Box<CoreExpr>, Box<CoreExprList>),
}

/// A call of a unit.
#[derive(Drop)]
#[cycle(exprs)]
pub enum CoreCall {
    /// A routine or an iterator: its full name, the types in braces, its supplies and the arguments.
    Routine(Name, CoreTypeList, Vec<CoreSupply>, Box<CoreExprList>),
    /// A method of a declared type: the type's full name, the method, the receiver and the arguments.
    Method(Name, Name, Box<CoreExpr>, Box<CoreExprList>),
    /// A hidden method of `self`: the full name of the class around it, the method and the arguments.
    Hidden(Name, Name, Box<CoreExprList>),
    /// `super.m(..)`: the full name of the inherited class, the method and the arguments.
    Super(Name, Name, Box<CoreExprList>),
    /// A where-method: the place of its clause, the method, the receiver and the arguments.
    Where(u32, Name, Box<CoreExpr>, Box<CoreExprList>),
    /// The super call of an initializer: the full name of the inherited class, its arguments, its supplies and the
    /// arguments of its initializer.
    SuperInit(Name, CoreTypeList, Vec<CoreSupply>, Box<CoreExprList>),
}

impl Drop for CoreExprList {
    #[cycle(exprs)]
    fn drop(mut self) {
        loop {
            match self {
                CoreExprList::NoExpr => return,
                CoreExprList::MoreExpr(_, rest) => self = Box::into_inner(rest),
            }
        }
    }
}

impl CoreExprList {
    /// These expressions the other way round, and then those of `end`. It takes no memory.
    pub fn turned(mut self, end: CoreExprList) -> CoreExprList
        ensures { exprs_of result ≡ exprs_onto (exprs_of self) (exprs_of end) }
    {
        let mut done = end;
        loop {
            match self {
                CoreExprList::NoExpr => return done,
                CoreExprList::MoreExpr(first, mut others) => {
                    self = mem::replace(&mut *others, done);
                    done = CoreExprList::MoreExpr(first, others);
                }
            }
        }
    }
}
