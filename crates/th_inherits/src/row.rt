//! Classes, as far as the rule on what they inherit looks at them.
use th_type::{Meaning, Place};

/// What stands after `inherits`, and where.
#[derive(Drop)]
pub struct Inherited {
    pub meaning: Meaning,
    pub place: Place,
}

/// A class.
#[derive(Drop)]
pub struct Row {
    /// The number of its full name.
    pub full: u32,
    /// Where its name stands.
    pub place: Place,
    /// Where the type that it is for stands.
    pub of_place: Place,
    /// Whether this type is a type parameter.
    pub for_param: bool,
    /// The class that it inherits, if it inherits one.
    pub inherits: Option<Inherited>,
}
