//! A class, as far as the classes below it ask.
use th_hier::Numbers;
use th_type::Ty;

/// A class: the number of its full name, the type that it is for, the class that it inherits, and the methods that are defined or
/// declared in it.
#[derive(Drop)]
pub struct Base {
    pub full: u32,
    pub of: Ty,
    pub inherits: Option<u32>,
    pub methods: Numbers,
}
