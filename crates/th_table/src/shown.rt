//! The tables of classes as data.
use th_views::Slot;

/// The tables of all classes, by ascending numbers of the classes.
#[derive(Drop)]
pub struct Tables {
    pub list: Vec<TableClass>,
}

/// The tables of a class, with what its objects hold.
#[derive(Drop)]
pub struct TableClass {
    /// The number of the class.
    pub class: u32,
    /// The header words of its objects.
    pub words: u32,
    /// Its fields, with those that it inherits.
    pub fields: u32,
    /// Its where-words, with those that it inherits.
    pub wheres: u32,
    /// The bytes of its objects.
    pub size: u32,
    /// A table for each header word, from the anchor down.
    pub tables: Vec<Table>,
}

/// A table.
#[derive(Drop)]
pub struct Table {
    /// What the middle word holds: the bytes from the header word up to the anchor.
    pub distance: u32,
    /// The slots, from the lowest offset up.
    pub slots: Vec<Slot>,
}
