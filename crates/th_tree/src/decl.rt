//! Trees of modules and interfaces. docs/LANGUAGE.md, "Grammar", states which tokens are which tree.
use crate::tree::{Body, Expr, ExprList, Formal, Ident, NamedTree, RefTree, TypeList, TypeTree};

/// The signature of a method: of an iterator from the word `iter` on, else from its name on.
#[derive(Drop)]
pub struct SigTree {
    pub at: u32,
    pub iterator: bool,
    pub name: Ident,
    pub formals: Vec<Formal>,
    /// The result or the yielded type; an iterator has one.
    pub gives: Option<TypeTree>,
    pub signals: Vec<RefTree>,
}

/// A clause after `where`. It starts where `param` does.
#[derive(Drop)]
pub struct ClauseTree {
    pub param: Ident,
    pub method: Ident,
    pub formals: TypeList,
    pub gives: Option<TypeTree>,
    pub signals: Vec<RefTree>,
}

/// The head of a routine or, from the word `iter` on, of an iterator.
#[derive(Drop)]
pub struct RoutineHead {
    pub at: u32,
    pub iterator: bool,
    pub name: Ident,
    pub params: Vec<Ident>,
    pub formals: Vec<Formal>,
    /// The result or the yielded type; an iterator has one.
    pub gives: Option<TypeTree>,
    pub signals: Vec<RefTree>,
    pub clauses: Vec<ClauseTree>,
}

/// A routine or an iterator with its body.
#[derive(Drop)]
pub struct Routine {
    pub head: RoutineHead,
    pub body: Body,
}

/// The head of a class.
#[derive(Drop)]
pub struct ClassHead {
    pub at: u32,
    pub name: Ident,
    pub params: Vec<Ident>,
    /// The type after `for`.
    pub of: NamedTree,
    pub inherits: Option<NamedTree>,
    pub clauses: Vec<ClauseTree>,
}

/// The head of an initializer, from the word `init` on.
#[derive(Drop)]
pub struct InitHead {
    pub at: u32,
    pub formals: Vec<Formal>,
    pub signals: Vec<RefTree>,
}

/// A class of an interface: its head, its hidden methods and its initializer.
#[derive(Drop)]
pub struct InterfaceClass {
    pub head: ClassHead,
    pub hidden: Vec<SigTree>,
    pub init: InitHead,
}

/// `super(..);` in an initializer, from the word `super` on.
#[derive(Drop)]
pub struct SuperCall {
    pub at: u32,
    pub args: ExprList,
}

/// `f := e;` in an initializer.
#[derive(Drop)]
pub struct FieldAssign {
    pub field: Ident,
    pub value: Expr,
}

/// An initializer.
#[derive(Drop)]
pub struct InitTree {
    pub head: InitHead,
    pub super_call: Option<SuperCall>,
    pub assigns: Vec<FieldAssign>,
}

/// A method of a class, from the word `hidden` on where it has it.
#[derive(Drop)]
pub struct MethodTree {
    pub at: u32,
    pub hidden: bool,
    pub sig: SigTree,
    pub body: Body,
}

/// A class of a module.
#[derive(Drop)]
pub struct ClassDecl {
    pub head: ClassHead,
    pub fields: Vec<Formal>,
    pub init: InitTree,
    pub methods: Vec<MethodTree>,
}

/// A type of an interface.
#[derive(Drop)]
pub struct TypeDecl {
    pub at: u32,
    pub name: Ident,
    pub params: Vec<Ident>,
    pub supertypes: Vec<NamedTree>,
    pub methods: Vec<SigTree>,
}

/// An exception of an interface.
#[derive(Drop)]
pub struct ExceptionDecl {
    pub at: u32,
    pub name: Ident,
    pub argument: Option<TypeTree>,
}

/// An item of an interface.
#[derive(Drop)]
pub enum InterfaceItem {
    Exception(ExceptionDecl),
    Type(TypeDecl),
    Class(InterfaceClass),
    Routine(RoutineHead),
}

/// An interface.
#[derive(Drop)]
pub struct Interface {
    pub at: u32,
    pub name: Ident,
    pub uses: Vec<Ident>,
    pub items: Vec<InterfaceItem>,
}

/// An item of a module.
#[derive(Drop)]
pub enum ModuleItem {
    Class(ClassDecl),
    Routine(Routine),
}

/// A module.
#[derive(Drop)]
pub struct Module {
    pub at: u32,
    pub name: Ident,
    pub implements: Option<Ident>,
    pub uses: Vec<Ident>,
    pub items: Vec<ModuleItem>,
}
