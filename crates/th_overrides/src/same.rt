//! Whether definitions and declarations have equal parts.
ghost use Rattle.std.specs.Prelude.{◌≡◌, map, nat_eq};
ghost use Rattle.th_type.specs.Signatures.{clause_of, sig_of};
ghost use Rattle.th_scope.specs.ItemView.{class_of, routine_of};
ghost use Rattle.th_overrides.specs.Same.{equal_classes, equal_clauses, equal_routines, equal_sigs, same_lists};

use crate::conform::same_gives;
use th_scope::{ClassItem, RoutineItem};
use th_type::{Clause, Sig};

/// Whether two lists have equal numbers in order.
fn same_numbers(a: &[u32], b: &[u32]) -> bool
    ensures { result ≡ same_lists nat_eq a.now b.now }
{
    if a.len() != b.len() {
        return false;
    }
    for k in 0..a.len() {
        if a[k] != b[k] {
            return false;
        }
    }
    true
}

/// Whether two signatures are equal.
fn same_sig(a: &Sig, b: &Sig) -> bool
    ensures { result ≡ equal_sigs (sig_of a.now) (sig_of b.now) }
{
    a.method == b.method
        && a.iterator == b.iterator
        && a.formals.is_same(&b.formals)
        && same_gives(&a.gives, &b.gives)
        && same_numbers(a.signals.as_slice(), b.signals.as_slice())
}

/// Whether two lists have equal signatures in order.
fn same_sigs(a: &[Sig], b: &[Sig]) -> bool
    ensures { result ≡ same_lists equal_sigs (map sig_of a.now) (map sig_of b.now) }
{
    if a.len() != b.len() {
        return false;
    }
    for k in 0..a.len() {
        if !same_sig(&a[k], &b[k]) {
            return false;
        }
    }
    true
}

/// Whether two clauses are equal.
fn same_clause(a: &Clause, b: &Clause) -> bool
    ensures { result ≡ equal_clauses (clause_of a.now) (clause_of b.now) }
{
    a.param == b.param && same_sig(&a.sig, &b.sig)
}

/// Whether two lists have equal clauses in order.
fn same_clauses(a: &[Clause], b: &[Clause]) -> bool
    ensures { result ≡ same_lists equal_clauses (map clause_of a.now) (map clause_of b.now) }
{
    if a.len() != b.len() {
        return false;
    }
    for k in 0..a.len() {
        if !same_clause(&a[k], &b[k]) {
            return false;
        }
    }
    true
}

/// Whether two routines have equal heads.
pub(crate) fn same_routine(a: &RoutineItem, b: &RoutineItem) -> bool
    ensures { result ≡ equal_routines (routine_of a.now) (routine_of b.now) }
{
    a.params == b.params && same_sig(&a.sig, &b.sig) && same_clauses(&a.clauses, &b.clauses)
}

/// Whether two classes have one head, the same hidden methods in order, and the same initializer.
pub(crate) fn same_class(a: &ClassItem, b: &ClassItem) -> bool
    ensures { result ≡ equal_classes (class_of a.now) (class_of b.now) }
{
    a.params == b.params
        && a.of.is_same(&b.of)
        && same_gives(&a.inherits, &b.inherits)
        && same_clauses(&a.clauses, &b.clauses)
        && same_sig(&a.init, &b.init)
        && same_sigs(&a.hidden, &b.hidden)
}
