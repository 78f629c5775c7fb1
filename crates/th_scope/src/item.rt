//! The items that a text can name. docs/LANGUAGE.md, "Names and scopes", states what a name means.
use crate::local::LocalList;
use th_type::{Clause, Sig, Ty};

/// A routine or an iterator: how many type parameters it has, its signature and its where-clauses.
#[derive(Drop)]
pub struct RoutineItem {
    pub params: u32,
    pub sig: Sig,
    pub clauses: Vec<Clause>,
}

/// A class: how many type parameters it has, the type that it is for, the class that it inherits, its where-clauses, the
/// signature of its initializer, the hidden methods that it introduces, and its own fields.
#[derive(Drop)]
pub struct ClassItem {
    pub params: u32,
    pub of: Ty,
    pub inherits: Option<Ty>,
    pub clauses: Vec<Clause>,
    pub init: Sig,
    pub hidden: Vec<Sig>,
    pub fields: LocalList,
}

/// What an item is.
#[derive(Drop)]
pub enum Head {
    /// An exception, with the type of its argument where it has one.
    Exception(Option<Ty>),
    /// A declared type, with the number of its parameters.
    Declared(u32),
    Class(ClassItem),
    Routine(RoutineItem),
}

/// An item: the number of its bare name, the interface where it is named as `I$n` and none where it is the text's own, and
/// the number of its full name.
#[derive(Drop)]
pub struct Item {
    pub name: u32,
    pub from: Option<u32>,
    pub full: u32,
    pub head: Head,
}
