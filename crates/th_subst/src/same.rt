//! Equality of types and of signatures.
ghost use Rattle.std.specs.Prelude.{◌≡◌, ◌-◌, ◌^◌, bytes_eq, min, length, slice_get, option_map, map};
ghost use Rattle.std.specs.List.{list_any};
ghost use Rattle.th_meaning.specs.View.{type_of, types_of, sig_of};
ghost use Rattle.th_meaning.specs.Weights.{same_type, same_types, type_list};
ghost use Rattle.th_subst.specs.Tests.{same_list, same_gives, names_within, exactly};

use th_meaning::{CoreSig, CoreType, CoreTypeList};
use th_tree::Name;

/// Whether two types are equal.
#[cycle(same)]
pub fn is_same(this: &CoreType, other: &CoreType) -> bool
    ensures { result ≡ same_type (type_of this.now) (type_of other.now) }
{
    match (this, other) {
        (CoreType::Int, CoreType::Int) => true,
        (CoreType::Bool, CoreType::Bool) => true,
        (CoreType::Text, CoreType::Text) => true,
        (CoreType::Array(a), CoreType::Array(b)) => is_same(a, b),
        (CoreType::Named(n, a), CoreType::Named(m, b)) => {
            n.as_bytes() == m.as_bytes() && is_same_list(a, b)
        }
        (CoreType::Param(k), CoreType::Param(l)) => *k == *l,
        _ => false,
    }
}

/// Whether two lists have equal types in order.
#[cycle(same)]
pub fn is_same_list(this: &CoreTypeList, other: &CoreTypeList) -> bool
    ensures { result ≡ same_types (types_of this.now) (types_of other.now) }
{
    let mut left = this;
    let mut right = other;
    loop {
        match (left, right) {
            (CoreTypeList::NoType, CoreTypeList::NoType) => return true,
            (CoreTypeList::MoreType(a, more), CoreTypeList::MoreType(b, others)) => {
                if !is_same(a, b) {
                    return false;
                }
                left = more;
                right = others;
            }
            _ => return false,
        }
    }
}

/// How many types the list has.
pub fn length_of(list: &CoreTypeList) -> u64
    ensures { result ≡ min (length (type_list (types_of list.now))) (2 ^ 64 - 1) }
{
    let mut count: u64 = 0;
    let mut rest = list;
    while let CoreTypeList::MoreType(_, next) = rest {
        count = count.saturating_add(1);
        rest = next;
    }
    count
}

/// The type at place `k` of the list, from 0; None exactly where `k` is not below its length.
pub fn type_at(list: &CoreTypeList, k: u32) -> Option<&CoreType>
    ensures { option_map (λ t. type_of t.now) result ≡ slice_get (type_list (types_of list.now)) k }
{
    let mut left = k;
    let mut rest = list;
    while let CoreTypeList::MoreType(first, next) = rest {
        if left == 0 {
            return Some(first);
        }
        left -= 1;
        rest = next;
    }
    None
}

/// Whether the types are equal, in order.
#[tactic(auto, using(crate::proofs::Lists::lengths_differ))]
fn is_same_slice(types: &[CoreType], others: &[CoreType]) -> bool
    ensures { result ≡ same_list (map type_of types.now) (map type_of others.now) }
{
    if types.len() != others.len() {
        return false;
    }
    for k in 0..types.len() {
        if !is_same(&types[k], &others[k]) {
            return false;
        }
    }
    true
}

/// Whether both are absent, or equal.
fn is_same_option(a: &Option<CoreType>, b: &Option<CoreType>) -> bool
    ensures { result ≡ same_gives (option_map type_of a.now) (option_map type_of b.now) }
{
    match (a, b) {
        (None, None) => true,
        (Some(a), Some(b)) => is_same(a, b),
        _ => false,
    }
}

/// Whether the name is one of these.
fn is_one_of(name: &Name, names: &[Name]) -> bool
    ensures { result ≡ list_any (λ y. bytes_eq y name.now) names.now }
{
    for other in names {
        if other.as_bytes() == name.as_bytes() {
            return true;
        }
    }
    false
}

/// Whether each of the names is one of the others.
pub fn is_within(names: &[Name], others: &[Name]) -> bool
    ensures { result ≡ names_within names.now others.now }
{
    for name in names {
        if !is_one_of(name, others) {
            return false;
        }
    }
    true
}

/// Whether the first signature exactly conforms to the second: both are procedures or both iterators, the formals and
/// what is given are equal, and each signal of the first is one of the second.
pub fn is_exact(a: &CoreSig, b: &CoreSig) -> bool
    ensures { result ≡ exactly (sig_of a.now) (sig_of b.now) }
{
    a.iterator == b.iterator
        && is_same_slice(&a.formals, &b.formals)
        && is_same_option(&a.gives, &b.gives)
        && is_within(&a.signals, &b.signals)
}
