//! Checked modules: what they define, and what the interfaces declare that they name.
use crate::stmt::CoreBody;
use crate::types::{CoreClause, CoreMethodSig, CoreSig, CoreType};
use th_tree::{ByteList, Name};

/// A declared type: its full name, how many parameters it has, its declared supertypes over these parameters, and the
/// methods that are written in it.
#[derive(Drop)]
pub struct CoreTypeDecl {
    pub name: Name,
    pub params: u32,
    pub supertypes: Vec<CoreType>,
    pub methods: Vec<CoreMethodSig>,
}

/// A declared exception: its full name, and the type of its argument where it has one.
#[derive(Drop)]
pub struct CoreException {
    pub name: Name,
    pub argument: Option<CoreType>,
}

/// The head of a class: its full name, how many parameters it has, the type that it is for and the class that it
/// inherits, over these parameters, and its where-clauses.
#[derive(Drop)]
pub struct CoreClassHead {
    pub name: Name,
    pub params: u32,
    pub of: CoreType,
    pub inherits: Option<CoreType>,
    pub clauses: Vec<CoreClause>,
}

/// A class that an interface declares: its head, its hidden methods and the signature of its initializer.
#[derive(Drop)]
pub struct CoreClassDecl {
    pub head: CoreClassHead,
    pub hidden: Vec<CoreMethodSig>,
    pub init: CoreSig,
}

/// A routine or iterator that an interface declares.
#[derive(Drop)]
pub struct CoreRoutineDecl {
    pub name: Name,
    pub params: u32,
    pub sig: CoreSig,
    pub clauses: Vec<CoreClause>,
}

/// An interface: its name, its canonical text, and what it declares.
#[derive(Drop)]
pub struct CoreInterface {
    pub name: Name,
    pub canonical: ByteList,
    pub types: Vec<CoreTypeDecl>,
    pub exceptions: Vec<CoreException>,
    pub classes: Vec<CoreClassDecl>,
    pub routines: Vec<CoreRoutineDecl>,
}

/// A field of a class: its name and its type.
#[derive(Drop)]
pub struct CoreField {
    pub name: Name,
    pub of: CoreType,
}

/// A class that a module defines: the canonical text of its head, the head, its own fields in the order of the text,
/// the hidden methods that it introduces, and the methods of which it has a body, in the order of the text.
#[derive(Drop)]
pub struct CoreClass {
    pub text: ByteList,
    pub head: CoreClassHead,
    pub fields: Vec<CoreField>,
    pub hidden: Vec<Name>,
    pub methods: Vec<Name>,
}

/// What a unit is.
#[derive(Drop)]
pub enum UnitKind {
    /// A routine or an iterator.
    Routine,
    /// A body of a method of a class: the class's full name and the method.
    Method(Name, Name),
    /// The initializer of a class: the class's full name.
    Init(Name),
}

/// A unit: its full name, what it is, how many type parameters it has, its where-clauses, its signature and its
/// statements. Its formals are the first of its locals. The type parameters and the where-clauses of a method and of an
/// initializer are those of the class.
#[derive(Drop)]
pub struct CoreUnit {
    pub name: Name,
    pub kind: UnitKind,
    pub params: u32,
    pub clauses: Vec<CoreClause>,
    pub sig: CoreSig,
    pub body: CoreBody,
}

/// A module: its name, the interfaces that it names, directly or not, its classes and its units.
#[derive(Drop)]
pub struct CoreModule {
    pub name: Name,
    pub interfaces: Vec<CoreInterface>,
    pub classes: Vec<CoreClass>,
    pub units: Vec<CoreUnit>,
}
