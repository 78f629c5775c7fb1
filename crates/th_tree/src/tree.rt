//! Trees of types, expressions and statements. docs/LANGUAGE.md, "Grammar", states which tokens are which tree.
//!
//! Each tree has one variant for each alternative of its form, with the byte of the text where it starts, and then its
//! parts in the grammar's order. A list is empty, or an item and the rest; it is made, walked and dropped by loops.
ghost use Rattle.std.specs.Prelude.{◌≡◌};
ghost use Rattle.th_tree.specs.View.{types_of, exprs_of, body_of, else_of, whens_of};
ghost use Rattle.th_tree.specs.Onto.{types_onto, exprs_onto, stmts_onto, elses_onto, whens_onto};

use std::mem;

/// A name where it is written: its number in the table of names, and the byte where it starts.
#[derive(Clone, Copy, Debug, PartialEq, Eq)]
pub struct Ident {
    pub name: u32,
    pub at: u32,
}

/// A reference to an item: `n`, or `I$n`, where `I` is `first`.
#[derive(Clone, Copy, Debug, PartialEq, Eq)]
pub struct RefTree {
    pub first: Ident,
    pub second: Option<Ident>,
}

/// A type.
#[derive(Drop)]
#[cycle(types)]
pub enum TypeTree {
    /// `int`
    Int(u32),
    /// `bool`
    Bool(u32),
    /// `string`
    Text(u32),
    /// `array[T]`: the type of the elements.
    Array(u32, Box<TypeTree>),
    /// A named type and its arguments, of which there may be none.
    Named(RefTree, Box<TypeList>),
}

/// Types, in order.
#[cycle(types)]
pub enum TypeList {
    NoType,
    MoreType(TypeTree, Box<TypeList>),
}

impl Drop for TypeList {
    #[cycle(types)]
    fn drop(mut self) {
        loop {
            match self {
                TypeList::NoType => return,
                TypeList::MoreType(_, rest) => self = Box::into_inner(rest),
            }
        }
    }
}

/// A named type or class with its arguments, of which there may be none. It starts where `item` does.
#[derive(Drop)]
pub struct NamedTree {
    pub item: RefTree,
    pub args: Box<TypeList>,
}

/// An operator with two operands.
#[derive(Clone, Copy, Debug, PartialEq, Eq)]
pub enum BinaryOp {
    /// `or`
    Or,
    /// `and`
    And,
    /// `=`
    Equal,
    /// `~=`
    NotEqual,
    /// `==`
    Same,
    /// `<`
    Less,
    /// `<=`
    LessEqual,
    /// `>`
    Greater,
    /// `>=`
    GreaterEqual,
    /// `+`
    Plus,
    /// `-`
    Minus,
    /// `&`
    Join,
    /// `*`
    Times,
    /// `/`
    Divide,
    /// `%`
    Remainder,
}

/// An expression. The first number of each is the byte where it starts.
#[derive(Drop)]
#[cycle(exprs)]
pub enum Expr {
    /// A number, by its value.
    Number(u32, u32),
    /// A string literal, by the number that its value has in the table of names.
    Text(u32, u32),
    /// `true`
    True(u32),
    /// `false`
    False(u32),
    /// `self`
    PartSelf(u32),
    /// `super.m(..)`: the method and the arguments.
    Super(u32, Ident, Box<ExprList>),
    /// An item or a local without arguments: the reference and the types in braces, of which there may be none.
    Item(u32, RefTree, Box<TypeList>),
    /// A call: the reference, the types in braces, of which there may be none, and the arguments.
    Call(u32, RefTree, Box<TypeList>, Box<ExprList>),
    /// `new C(..)`: the class and the arguments.
    New(u32, NamedTree, Box<ExprList>),
    /// `new array[T](n, e)`: the elements' type, the length and the elements' first value.
    NewArray(u32, TypeTree, Box<Expr>, Box<Expr>),
    /// `get_byte()`
    GetByte(u32),
    /// `e.n` without arguments.
    Field(u32, Box<Expr>, Ident),
    /// `e.m(..)`: the receiver, the method and the arguments.
    Method(u32, Box<Expr>, Ident, Box<ExprList>),
    /// `e.length`
    Length(u32, Box<Expr>),
    /// `e[i]`
    Element(u32, Box<Expr>, Box<Expr>),
    /// `not e`
    Not(u32, Box<Expr>),
    /// `-e`
    Negative(u32, Box<Expr>),
    /// The operator, the left operand and the right one.
    Binary(u32, BinaryOp, Box<Expr>, Box<Expr>),
}

/// Expressions, in order.
#[cycle(exprs)]
pub enum ExprList {
    NoExpr,
    MoreExpr(Expr, Box<ExprList>),
}

impl Drop for ExprList {
    #[cycle(exprs)]
    fn drop(mut self) {
        loop {
            match self {
                ExprList::NoExpr => return,
                ExprList::MoreExpr(_, rest) => self = Box::into_inner(rest),
            }
        }
    }
}

/// A name with its type.
#[derive(Drop)]
pub struct Formal {
    pub name: Ident,
    pub of: TypeTree,
}

/// An exception after `raise` or `when`.
#[derive(Clone, Copy, Debug, PartialEq, Eq)]
pub enum ExcTree {
    /// A declared exception.
    Declared(RefTree),
    /// `overflow`
    Overflow(u32),
    /// `zero_divide`
    ZeroDivide(u32),
    /// `bounds`
    Bounds(u32),
    /// `end_of_input`
    EndOfInput(u32),
}

/// A statement. The first number of each is the byte where it starts.
#[derive(Drop)]
#[cycle(stmts)]
pub enum Stmt {
    /// `var n: T := e;`
    Var(u32, Formal, Expr),
    /// `e := e;`: the target and the value.
    Assign(u32, Expr, Expr),
    /// An expression as a statement.
    Plain(u32, Expr),
    /// `if`: the test, the statements after `then`, and what follows them up to `end`.
    If(u32, Expr, Box<Body>, Box<ElseTree>),
    /// `while`: the test and the statements.
    While(u32, Expr, Box<Body>),
    /// `for`: the variable, the call of an iterator and the statements.
    For(u32, Formal, Expr, Box<Body>),
    /// `break;`
    Break(u32),
    /// `return;`
    Return(u32),
    /// `return e;`
    ReturnValue(u32, Expr),
    /// `yield e;`
    Yield(u32, Expr),
    /// `raise x;`
    Raise(u32, ExcTree),
    /// `raise x(e);`
    RaiseValue(u32, ExcTree, Expr),
    /// `begin`: the statements before `except`, and the handlers.
    Begin(u32, Box<Body>, Box<WhenList>),
    /// `put_byte(e);`
    PutByte(u32, Expr),
    /// `put_int(e);`
    PutInt(u32, Expr),
    /// `put_string(e);`
    PutString(u32, Expr),
}

/// Statements, in order.
#[cycle(stmts)]
pub enum Body {
    NoStmt,
    MoreStmt(Stmt, Box<Body>),
}

/// What follows the statements after a `then`.
#[cycle(stmts)]
pub enum ElseTree {
    /// Nothing.
    NoElse,
    /// `else`: the statements.
    Else(Box<Body>),
    /// `elseif`: the byte where it starts, the test, the statements, and what follows them.
    Elseif(u32, Expr, Box<Body>, Box<ElseTree>),
}

/// Handlers, in order: of each the byte where it starts, the exception, the variable where it has one, and the
/// statements.
#[cycle(stmts)]
pub enum WhenList {
    NoWhen,
    MoreWhen(u32, ExcTree, Option<Formal>, Box<Body>, Box<WhenList>),
}

impl Drop for Body {
    #[cycle(stmts)]
    fn drop(mut self) {
        loop {
            match self {
                Body::NoStmt => return,
                Body::MoreStmt(_, rest) => self = Box::into_inner(rest),
            }
        }
    }
}

impl Drop for ElseTree {
    #[cycle(stmts)]
    fn drop(mut self) {
        loop {
            match self {
                ElseTree::NoElse => return,
                ElseTree::Else(_) => return,
                ElseTree::Elseif(_, _, _, rest) => self = Box::into_inner(rest),
            }
        }
    }
}

impl Drop for WhenList {
    #[cycle(stmts)]
    fn drop(mut self) {
        loop {
            match self {
                WhenList::NoWhen => return,
                WhenList::MoreWhen(_, _, _, _, rest) => self = Box::into_inner(rest),
            }
        }
    }
}

impl TypeList {
    /// These types the other way round, and then those of `end`. It takes no memory.
    pub fn turned(mut self, end: TypeList) -> TypeList
        ensures { types_of result ≡ types_onto (types_of self) (types_of end) }
    {
        let mut done = end;
        loop {
            match self {
                TypeList::NoType => return done,
                TypeList::MoreType(first, mut others) => {
                    self = mem::replace(&mut *others, done);
                    done = TypeList::MoreType(first, others);
                }
            }
        }
    }
}

impl ExprList {
    /// These expressions the other way round, and then those of `end`. It takes no memory.
    pub fn turned(mut self, end: ExprList) -> ExprList
        ensures { exprs_of result ≡ exprs_onto (exprs_of self) (exprs_of end) }
    {
        let mut done = end;
        loop {
            match self {
                ExprList::NoExpr => return done,
                ExprList::MoreExpr(first, mut others) => {
                    self = mem::replace(&mut *others, done);
                    done = ExprList::MoreExpr(first, others);
                }
            }
        }
    }
}

impl Body {
    /// These statements the other way round, and then those of `end`. It takes no memory.
    pub fn turned(mut self, end: Body) -> Body
        ensures { body_of result ≡ stmts_onto (body_of self) (body_of end) }
    {
        let mut done = end;
        loop {
            match self {
                Body::NoStmt => return done,
                Body::MoreStmt(first, mut others) => {
                    self = mem::replace(&mut *others, done);
                    done = Body::MoreStmt(first, others);
                }
            }
        }
    }
}

impl ElseTree {
    /// The `elseif`s the other way round, and then `end`; an `else` among them is dropped. It takes no memory.
    pub fn turned(mut self, end: ElseTree) -> ElseTree
        ensures { else_of result ≡ elses_onto (else_of self) (else_of end) }
    {
        let mut done = end;
        loop {
            match self {
                ElseTree::NoElse => return done,
                ElseTree::Else(_) => return done,
                ElseTree::Elseif(at, test, body, mut others) => {
                    self = mem::replace(&mut *others, done);
                    done = ElseTree::Elseif(at, test, body, others);
                }
            }
        }
    }
}

impl WhenList {
    /// These handlers the other way round, and then those of `end`. It takes no memory.
    pub fn turned(mut self, end: WhenList) -> WhenList
        ensures { whens_of result ≡ whens_onto (whens_of self) (whens_of end) }
    {
        let mut done = end;
        loop {
            match self {
                WhenList::NoWhen => return done,
                WhenList::MoreWhen(at, exc, variable, body, mut others) => {
                    self = mem::replace(&mut *others, done);
                    done = WhenList::MoreWhen(at, exc, variable, body, others);
                }
            }
        }
    }
}
