//! Conforming. docs/LANGUAGE.md, "Conforming", states it.
ghost use Rattle.std.specs.Prelude.{◌≡◌, ◌↔◌, ◌&&◌, option_map, Some, IsTrue};
ghost use Rattle.th_type.specs.Types.{ty_of, tys_of};
ghost use Rattle.th_type.specs.Signatures.{sig_of};
ghost use Rattle.th_type.specs.Methods.{ExactlyConforms};
ghost use Rattle.th_type.specs.Tests.{gives_param};
ghost use Rattle.th_type.specs.Conforming.{all_in, same_gives, exactly};

use crate::sig::Sig;
use crate::ty::Ty;

/// Whether each number of the first list is in the second.
pub(crate) fn is_within(numbers: &[u32], others: &[u32]) -> bool
    ensures { result ≡ all_in numbers.now others.now }
{
    numbers.iter().all(|number| others.contains(number))
}

/// Whether both are absent, or equal.
pub(crate) fn is_same(a: &Option<Ty>, b: &Option<Ty>) -> bool
    ensures { result ≡ same_gives (option_map ty_of a.now) (option_map ty_of b.now) }
{
    match (a, b) {
        (None, None) => true,
        (Some(a), Some(b)) => a.is_same(b),
        _ => false,
    }
}

/// Whether the first signature exactly conforms to the second.
fn is_exact(a: &Sig, b: &Sig) -> bool
    ensures { result ≡ exactly (sig_of a.now) (sig_of b.now) }
{
    a.iterator == b.iterator
        && a.formals.is_same(&b.formals)
        && is_same(&a.gives, &b.gives)
        && is_within(a.signals.as_slice(), b.signals.as_slice())
}

impl Sig {
    /// Whether this signature exactly conforms to the other.
    pub fn conforms_exactly(&self, other: &Sig) -> bool
        ensures { IsTrue result ↔ ExactlyConforms (sig_of self.now) (sig_of other.now) }
    {
        is_exact(self, other)
    }

    /// Whether both are the same signature, where the order of the signals does not matter.
    pub(crate) fn is_same(&self, other: &Sig) -> bool
        ensures { result ≡ (exactly (sig_of self.now) (sig_of other.now) && all_in other.now.signals self.now.signals) }
    {
        is_exact(self, other) && is_within(other.signals.as_slice(), self.signals.as_slice())
    }

    /// Whether the signature gives a type parameter.
    pub(crate) fn gives_param(&self) -> bool
        ensures { result ≡ gives_param (Some (sig_of self.now)) }
    {
        match &self.gives {
            Some(gives) => gives.is_any_param(),
            None => false,
        }
    }
}
