//! What a run is at: what is done next, what is still to do, the running unit's frame, and the units whose loop bodies its
//! yields run.
use crate::frame::Frame;
use crate::stack::Stack;
use crate::value::RunValue;
use th_meaning::{
    ArithOp, CompareOp, CoreBody, CoreElse, CoreExpr, CoreExprList, CoreStmt, CoreWhenList,
};

/// An exception on its way: its full name and its argument, where it has one.
#[derive(Drop)]
pub struct Raised<'a> {
    pub name: &'a [u8],
    pub argument: Option<RunValue<'a>>,
}

/// How a loop's body left its loop.
#[derive(Drop)]
pub enum Leave<'a> {
    Break,
    Return(Option<RunValue<'a>>),
    Raise(Raised<'a>),
}

/// How a statement ended. `Cut`: the loop's body that the running iterator's yield ran left its loop, and so many loops
/// around it as well.
#[derive(Drop)]
pub enum How<'a> {
    Done,
    Exit,
    Return(Option<RunValue<'a>>),
    Cut(Leave<'a>, u64),
}

/// A unit with an open `for`: its frame, and the loop's variable and body.
#[derive(Drop)]
pub struct Home<'a> {
    pub frame: Frame<'a>,
    pub local: u32,
    pub body: &'a CoreBody,
}

/// An operator on one value.
#[derive(Clone, Copy)]
pub enum Unary {
    Negative,
    Not,
    Extent,
    Length,
}

/// An operator on two values.
#[derive(Clone, Copy)]
pub enum Binary {
    Arith(ArithOp),
    Compare(CompareOp),
    Same,
    Join,
    Letter,
    Element,
    NewArray,
}

/// What a statement does with its value.
#[derive(Drop)]
pub enum Sink<'a> {
    Local(u32),
    Field(&'a [u8], u32),
    Element(RunValue<'a>, RunValue<'a>),
    Return,
    Raise(&'a [u8]),
    PutByte,
    PutInt,
    PutText,
}

/// What a call calls, once its arguments are there: a routine; a method of a value, of an object, or of the class that an
/// object's class inherits; a where-method of a value; the initializer of a class.
#[derive(Drop)]
pub enum Callee<'a> {
    Routine(&'a [u8]),
    Method(&'a [u8], RunValue<'a>),
    Object(&'a [u8], usize),
    Super(&'a [u8], &'a [u8], usize),
    Where(&'a [u8], RunValue<'a>),
    Init(&'a [u8], usize),
}

/// A method that is called of the value of an expression.
#[derive(Clone, Copy)]
pub enum Selector<'a> {
    Method(&'a [u8]),
    Where(&'a [u8]),
}

/// What a call that isn't a `for` is for: its value is used; it is a statement; it makes an object.
#[derive(Clone, Copy)]
pub enum Usage {
    Value,
    Stmt,
    Object(usize),
}

/// What a call is for.
#[derive(Clone, Copy)]
pub enum Purpose<'a> {
    Plain(Usage),
    For(u32, &'a CoreBody),
}

/// What arguments are for.
#[derive(Drop)]
pub enum Goal<'a> {
    Call(Callee<'a>, Purpose<'a>),
    NewObject(&'a [u8], usize),
}

/// What is still to do: with a value, up to `Yield`; with how a statement ended, up to `Caught`; or with how a unit or a
/// loop's body ended.
#[derive(Drop)]
pub enum Rest<'a> {
    Unary(Unary),
    Right(Binary, &'a CoreExpr),
    Binary(Binary, RunValue<'a>),
    And(&'a CoreExpr),
    Or(&'a CoreExpr),
    Args(Selector<'a>, &'a CoreExprList, Purpose<'a>),
    More(Vec<RunValue<'a>>, &'a CoreExprList, Goal<'a>),
    Sink(Sink<'a>),
    Index(&'a CoreExpr, &'a CoreExpr),
    Value(RunValue<'a>, &'a CoreExpr),
    If(&'a CoreBody, &'a CoreElse),
    While(&'a CoreExpr, &'a CoreBody),
    Yield,
    Again(&'a CoreExpr, &'a CoreBody),
    Stmts(&'a CoreBody),
    Caught(&'a CoreWhenList),
    Close(u64),
    Back(Usage, Frame<'a>, Stack<Home<'a>>),
    For,
    Resume(Frame<'a>, u32, &'a CoreBody),
}

/// What is done next.
#[derive(Drop)]
pub enum Now<'a> {
    Eval(&'a CoreExpr),
    Args(Vec<RunValue<'a>>, &'a CoreExprList, Goal<'a>),
    Exec(&'a CoreStmt),
    Body(&'a CoreBody),
    Else(&'a CoreElse),
    Handle(&'a CoreWhenList, Raised<'a>),
    Value(RunValue<'a>),
    How(How<'a>),
    Raise(Raised<'a>),
}

/// What a step has still to do with the run's world: nothing, so that the run goes on or stops; or one effect.
#[derive(Drop)]
pub enum Act<'a> {
    /// The run goes on.
    Go(Now<'a>),
    /// The run stops: an operand isn't of its kind, or what a form names isn't there.
    Stuck,
    /// The run stops: a local is read before it is bound.
    Unset,
    /// The run's first unit ended.
    Ended(How<'a>),
    /// The run's first unit raised an exception.
    Escaped(Raised<'a>),
    /// A byte is taken.
    GetByte,
    /// A field of an object is read.
    Field(usize, &'a [u8], u32),
    /// A field of an object is set.
    SetField(usize, &'a [u8], u32, RunValue<'a>),
    /// An object of a class is made, for which these are the arguments.
    NewObject(&'a [u8], &'a CoreExprList),
    /// How many elements an array has.
    Length(usize),
    /// An element of an array is read.
    Element(usize, i64),
    /// An element of an array is set.
    SetElement(usize, i64, RunValue<'a>),
    /// An array is made.
    NewArray(i64, RunValue<'a>),
    /// Two texts are joined.
    Join(&'a [u8], &'a [u8]),
    /// A byte is put.
    PutByte(i64),
    /// A number is put in decimal.
    PutInt(i64),
    /// A text is put.
    PutText(&'a [u8]),
    /// A `while` whose test holds takes its turn.
    Again(&'a CoreExpr, &'a CoreBody),
    /// A value is yielded.
    Yield(RunValue<'a>),
    /// Room is given back, and the run goes on.
    GiveBack(u64, Now<'a>),
    /// A call whose arguments are there.
    Call(Callee<'a>, Vec<RunValue<'a>>, Purpose<'a>),
    /// A new object's initializer is entered.
    Init(&'a [u8], usize, Vec<RunValue<'a>>),
}

/// What is still to do, the running unit's frame, and the units whose loop bodies its yields run.
#[derive(Drop)]
pub struct Control<'a> {
    pub rest: Stack<Rest<'a>>,
    pub frame: Frame<'a>,
    pub homes: Stack<Home<'a>>,
}
