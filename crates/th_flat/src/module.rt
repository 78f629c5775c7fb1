//! Units, classes, interfaces and modules.
use crate::lists::{ClassList, FlatUnitList, IfaceList, NameList, OpList};
use th_tree::{ByteList, Name};

/// A unit of Flat code.
#[derive(Drop)]
pub struct FlatUnit {
    /// The full name.
    pub name: Name,
    /// 0 a routine, 1 an iterator, 2 a method, 3 an iterator that is a method, 4 an initializer, 5 a loop body, 6 a supply stub.
    pub kind: u8,
    /// How many local words a call fills: the receiver where there is one, the where-words and the arguments.
    pub args: u32,
    /// How many further local words the unit has.
    pub locals: u32,
    /// The greatest height of the stack, in words.
    pub depth: u32,
    /// The operations.
    pub ops: OpList,
}

/// A module of Flat code.
#[derive(Drop)]
pub struct FlatModule {
    /// The name of the module.
    pub name: Name,
    /// The interfaces of the module, in order of names.
    pub interfaces: IfaceList,
    /// The classes of the module, in order of full names.
    pub classes: ClassList,
    /// The units of the module, in order of full names.
    pub units: FlatUnitList,
}

/// An interface: its name and its canonical text.
#[derive(Drop)]
pub struct Iface {
    pub name: Name,
    pub canonical: ByteList,
}

/// A class.
#[derive(Drop)]
pub struct Class {
    /// The full name.
    pub name: Name,
    /// The canonical text of the head, from `class` to `;`.
    pub head: ByteList,
    /// How many fields the class adds to those that it inherits.
    pub fields: u32,
    /// How many clauses the head has after `where`.
    pub wheres: u32,
    /// The hidden methods that the class introduces, in the order of the text.
    pub hidden: NameList,
    /// The methods that the class has bodies of, in the order of the text.
    pub methods: NameList,
}
