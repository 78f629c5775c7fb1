//! Declared types with their names resolved, as far as they resolve. docs/LANGUAGE.md, "Subtypes", states what they mean.
use crate::place::Place;
use crate::sig::Sig;
use crate::ty::TyList;

/// What stands in a list of supertypes.
#[derive(Drop)]
pub enum Meaning {
    /// A reference that names neither a declared type nor a type parameter.
    Unresolved,
    /// A type parameter.
    Param,
    /// A declared type, by the number of its full name, whose arguments do not resolve or are not as many as its parameters.
    Head(u32),
    /// A declared type, by the number of its full name, with its arguments.
    Whole(u32, TyList),
}

/// A member of a list of supertypes, and the byte where it starts.
#[derive(Drop)]
pub struct Supertype {
    pub at: u32,
    pub meaning: Meaning,
}

/// A signature that is written in a type, and the byte where its name starts.
#[derive(Drop)]
pub struct Written {
    pub at: u32,
    pub sig: Sig,
}

/// A declared type.
#[derive(Drop)]
pub struct TypeDef {
    /// The number of its full name.
    pub name: u32,
    /// How many type parameters it has.
    pub params: u32,
    /// Where its name stands.
    pub place: Place,
    /// The declared supertypes, in the order of the text.
    pub supertypes: Vec<Supertype>,
    /// The signatures that are written in it, in the order of the text.
    pub methods: Vec<Written>,
}
