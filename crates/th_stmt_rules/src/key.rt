//! Which exception.

/// An exception: a predeclared one, or a declared one by the number of its full name.
#[derive(Clone, Copy, Debug, PartialEq, Eq, Hash)]
pub enum Key {
    Overflow,
    ZeroDivide,
    Bounds,
    EndOfInput,
    Declared(u32),
}
