//! Whether signatures conform. docs/LANGUAGE.md, "Conforming", states it.
ghost use Rattle.std.specs.Prelude.{◌≡◌, ◌↔◌, option_map, IfOk, IsTrue};
ghost use Rattle.th_type.specs.Types.{ty_of};
ghost use Rattle.th_type.specs.Signatures.{sig_of};
ghost use Rattle.th_type.specs.Methods.{Conforms, GivesFits, ResultFits};
ghost use Rattle.th_type.specs.Conforming.{all_in, same_gives};
ghost use Rattle.th_hier.specs.Views.{sig_opt};
ghost use Rattle.th_overrides.specs.Conforming.{FitsHidden, FitsType, KnownFits, Loosely, shape_fits};

use crate::reached::is_fixed;
use std::alloc::{AllocError, Global};
use th_hier::Hierarchy;
use th_type::{Sig, Ty};

/// Whether each number of the first list is in the second.
fn is_within(numbers: &[u32], others: &[u32]) -> bool
    ensures { result ≡ all_in numbers.now others.now }
{
    numbers.iter().all(|number| others.contains(number))
}

/// Whether both are absent, or equal.
pub(crate) fn same_gives(a: &Option<Ty>, b: &Option<Ty>) -> bool
    ensures { result ≡ same_gives (option_map ty_of a.now) (option_map ty_of b.now) }
{
    match (a, b) {
        (None, None) => true,
        (Some(a), Some(b)) => a.is_same(b),
        _ => false,
    }
}

/// Whether both are absent, or the first is a subtype of the second.
fn result_fits(hierarchy: &Hierarchy, a: &Option<Ty>, b: &Option<Ty>) -> bool
    ensures { IsTrue result ↔ ResultFits hierarchy.now.types (option_map ty_of a.now) (option_map ty_of b.now) }
{
    match (a, b) {
        (None, None) => true,
        (Some(a), Some(b)) => hierarchy.is_subtype(a, b),
        _ => false,
    }
}

/// Whether what the first signature gives fits what the second gives.
fn gives_fit(hierarchy: &Hierarchy, a: &Sig, b: &Sig) -> bool
    ensures { IsTrue result ↔ GivesFits hierarchy.now.types a.now.iterator (option_map ty_of a.now.gives) (option_map ty_of b.now.gives) }
{
    if a.iterator {
        same_gives(&a.gives, &b.gives)
    } else {
        result_fits(hierarchy, &a.gives, &b.gives)
    }
}

/// Whether all but what the signatures give fits.
fn shape_fits(a: &Sig, b: &Sig) -> bool
    ensures { result ≡ shape_fits (sig_of a.now) (sig_of b.now) }
{
    a.iterator == b.iterator
        && a.formals.is_same(&b.formals)
        && is_within(a.signals.as_slice(), b.signals.as_slice())
}

/// Whether the first signature conforms to the second where the method's result is no type parameter.
fn fits_loosely(hierarchy: &Hierarchy, a: &Sig, b: &Sig) -> bool
    ensures { IsTrue result ↔ Loosely hierarchy.now.types (sig_of a.now) (sig_of b.now) }
{
    if !shape_fits(a, b) {
        return false;
    }
    gives_fit(hierarchy, a, b)
}

/// Whether the first signature conforms to the second, which is that of its method in the declared type.
pub(crate) fn conforms(
    alloc: Global,
    hierarchy: &Hierarchy,
    name: u32,
    a: &Sig,
    b: &Sig,
) -> Result<bool, AllocError>
    ensures { IfOk result (λ r. IsTrue r ↔ Conforms hierarchy.now.types name (sig_of a.now) (sig_of b.now)) }
{
    if !fits_loosely(hierarchy, a, b) {
        return Ok(false);
    }
    if same_gives(&a.gives, &b.gives) {
        return Ok(true);
    }
    let fixed = is_fixed(alloc, hierarchy, name, b.method)?;
    Ok(!fixed)
}

/// Whether the result by which a class knows a method, where it knows it, fits that of the signature.
fn known_fits(hierarchy: &Hierarchy, known: &Option<Sig>, of: &Sig) -> bool
    ensures { IsTrue result ↔ KnownFits hierarchy.now.types (sig_opt known.now) (sig_of of.now) }
{
    match known {
        None => true,
        Some(known) => result_fits(hierarchy, &known.gives, &of.gives),
    }
}

/// Whether an own method, and the result by which its class knows it, fit the signature of the declared type.
pub(crate) fn fits_type(
    alloc: Global,
    hierarchy: &Hierarchy,
    known: &Option<Sig>,
    sig: &Sig,
    name: u32,
    of: &Sig,
) -> Result<bool, AllocError>
    ensures { IfOk result (λ r. IsTrue r ↔ FitsType hierarchy.now.types (sig_opt known.now) (sig_of sig.now) name (sig_of of.now)) }
{
    if !known_fits(hierarchy, known, of) {
        return Ok(false);
    }
    conforms(alloc, hierarchy, name, sig, of)
}

/// Whether an own method, and the result by which its class knows it, fit the signature of a hidden method.
pub(crate) fn fits_hidden(hierarchy: &Hierarchy, known: &Option<Sig>, sig: &Sig, of: &Sig) -> bool
    ensures { IsTrue result ↔ FitsHidden hierarchy.now.types (sig_opt known.now) (sig_of sig.now) (sig_of of.now) }
{
    if !known_fits(hierarchy, known, of) {
        return false;
    }
    sig.conforms_exactly(of)
}
