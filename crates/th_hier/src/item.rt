//! Items of interfaces by their names. docs/LANGUAGE.md, "Names and scopes", states what a name means.

/// The name of an item: the number of its interface's name, and that of its own.
#[derive(Clone, Copy, Debug, PartialEq, Eq, Hash)]
pub struct ItemName {
    pub interface: u32,
    pub name: u32,
}

/// The sort of an item, with the number of its type parameters where it may have some.
#[derive(Clone, Copy, Debug, PartialEq, Eq)]
pub enum Sort {
    Exception,
    Declared(u32),
    Class(u32),
    Routine(u32),
    Iterator(u32),
}

/// An item: the number of its full name, and its sort.
#[derive(Clone, Copy, Debug, PartialEq, Eq)]
pub struct Entry {
    pub full: u32,
    pub sort: Sort,
}

/// What a name means: a type parameter, by its place, or an item of an interface.
#[derive(Clone, Copy, Debug, PartialEq, Eq)]
pub enum Referent {
    Nothing,
    Param(u32),
    Item(Entry),
}
