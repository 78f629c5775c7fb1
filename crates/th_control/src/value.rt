//! Values of a run. A contract sees them as the meaning's values.
ghost use Rattle.std.specs.Prelude.{◌≡◌, ◌<◌, ◌^◌, ℕ, ℤ, pos, Bool, List};
ghost use Rattle.th_control.specs.Values.{value_of};
ghost use Rattle.th_meaning.specs.Meaning.{Int, Truth, Ref, Text};

use std::marker::Model;

/// A value. Texts lie in the program or in the run's arena.
#[derive(Drop)]
pub enum Kind<'a> {
    Int(i64),
    Truth(bool),
    Ref(usize),
    Text(&'a [u8]),
}

/// A value. A contract sees the value that the meaning has.
#[derive(Drop)]
pub struct RunValue<'a> {
    kind: Kind<'a>,
}

impl<'a> Model for RunValue<'a> {
    ghost use Rattle.th_meaning.specs.Meaning.{Value as TheValue};

    ghost Value = { TheValue };

    ghost use Rattle.th_control.specs.Values.{value_of};

    ghost view = { λ v. value_of v.kind };
}

impl<'a> RunValue<'a> {
    /// A number.
    pub fn int(number: i64) -> RunValue<'a>
        ensures { result ≡ Int number }
    {
        RunValue {
            kind: Kind::Int(number),
        }
    }

    /// A number that isn't negative.
    pub fn natural(number: u32) -> RunValue<'a>
        ensures { result ≡ Int (pos number) }
    {
        RunValue::int(number as i64)
    }

    /// A size, which is below 2^63.
    pub fn size(number: usize) -> RunValue<'a>
        requires { number < 2 ^ 63 }
        ensures { result ≡ Int (pos number) }
    {
        RunValue::int(number as i64)
    }

    /// What kind of value it is.
    pub fn kind(self) -> Kind<'a>
        ensures { value_of result ≡ self.entry }
    {
        self.kind
    }

    /// A truth value.
    pub fn truth(truth: bool) -> RunValue<'a>
        ensures { result ≡ Truth truth }
    {
        RunValue {
            kind: Kind::Truth(truth),
        }
    }

    /// A reference to the object of a number.
    pub fn object(number: usize) -> RunValue<'a>
        ensures { result ≡ Ref number }
    {
        RunValue {
            kind: Kind::Ref(number),
        }
    }

    /// A text.
    pub fn text(bytes: &'a [u8]) -> RunValue<'a>
        ensures { result ≡ Text bytes.now }
    {
        RunValue {
            kind: Kind::Text(bytes),
        }
    }

    /// The same value once more.
    pub fn copied(&self) -> RunValue<'a>
        ensures { result ≡ self.now }
    {
        match self.kind {
            Kind::Int(number) => RunValue::int(number),
            Kind::Truth(truth) => RunValue::truth(truth),
            Kind::Ref(number) => RunValue::object(number),
            Kind::Text(bytes) => RunValue::text(bytes),
        }
    }
}
