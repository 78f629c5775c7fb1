//! Operators on values.
ghost use Rattle.std.specs.Prelude.{◌≡◌, ℤ, pos, Bool, Some, None, SomeIff, FitsSigned};
ghost use Rattle.std.specs.Int.{w64};
ghost use Rattle.th_meaning.specs.World.{fits_word, unless_overflow, letter as letter_at};
ghost use Rattle.th_meaning.specs.Meaning.{Int, act_as, arith as arith_on, compare as compare_on, number_of, arith_of, compare_of, same_of, join_of, letter_of, element_of, new_array_of, negative_of, not_of, extent_of, length_of};
ghost use Rattle.th_meaning.specs.declared.expr.ArithOp.TheVariants.{Divide, Remainder};
ghost use Rattle.th_steps.specs.Machine.{unary_of as does_unary, binary_of as does_binary};
ghost use Rattle.th_control.specs.Config.{unary_of, binary_of};
ghost use Rattle.th_control.specs.Acts.{HasValue};
ghost use Rattle.th_control.specs.declared.control.Act.TheVariants.{Go};
ghost use Rattle.th_control.specs.declared.control.Now.TheVariants.{Raise, Value as GoValue};

use crate::control::{Act, Binary, Now, Raised, Unary};
use crate::value::{Kind, RunValue};
use th_meaning::{ArithOp, CompareOp};

/// A predeclared exception is raised.
fn raises<'a>(name: &'static [u8]) -> Act<'a>
    ensures { result ≡ Go (Raise (record { name = name.entry; argument = None })) }
{
    Act::Go(Now::Raise(Raised {
        name,
        argument: None,
    }))
}

/// A value.
fn gives<'a>(value: RunValue<'a>) -> Act<'a>
    ensures { result ≡ Go (GoValue value.entry) }
{
    Act::Go(Now::Value(value))
}

/// Whether a number is one of the language's.
fn is_word(n: i64) -> bool
    ensures { result ≡ fits_word n }
{
    n >= -2147483648 && n <= 2147483647
}

/// A number of the language, or `overflow`.
fn word<'a>(number: Option<i64>) -> Act<'a>
    ensures { (x : ℤ) → SomeIff number (FitsSigned w64 x) x → HasValue result (λ st. act_as Int (unless_overflow x x st.world) st) }
{
    match number {
        None => raises(b"overflow"),
        Some(n) => {
            if is_word(n) {
                gives(RunValue::int(n))
            } else {
                raises(b"overflow")
            }
        }
    }
}

/// An operator on two numbers.
fn arith<'a>(op: ArithOp, x: i64, y: i64) -> Act<'a>
    ensures { HasValue result (λ st. act_as Int (arith_on op x y st.world) st) }
{
    match op {
        ArithOp::Plus => word(x.checked_add(y)),
        ArithOp::Minus => word(x.checked_sub(y)),
        ArithOp::Times => word(x.checked_mul(y)),
        ArithOp::Divide => quotient(x, y),
        ArithOp::Remainder => remainder(x, y),
    }
}

/// The quotient.
fn quotient<'a>(x: i64, y: i64) -> Act<'a>
    ensures { HasValue result (λ st. act_as Int (arith_on Divide x y st.world) st) }
{
    if y == 0 {
        return raises(b"zero_divide");
    }
    match x.checked_div(y) {
        None => raises(b"overflow"),
        Some(n) => {
            if is_word(n) {
                gives(RunValue::int(n))
            } else {
                raises(b"overflow")
            }
        }
    }
}

/// The remainder; `overflow` where the quotient has it.
fn remainder<'a>(x: i64, y: i64) -> Act<'a>
    ensures { HasValue result (λ st. act_as Int (arith_on Remainder x y st.world) st) }
{
    if y == 0 {
        return raises(b"zero_divide");
    }
    match x.checked_div(y) {
        None => raises(b"overflow"),
        Some(n) => {
            if is_word(n) {
                gives(RunValue::int(x % y))
            } else {
                raises(b"overflow")
            }
        }
    }
}

/// A comparison of two numbers.
fn compare(op: CompareOp, x: i64, y: i64) -> bool
    ensures { result ≡ compare_on op x y }
{
    match op {
        CompareOp::Equal => x == y,
        CompareOp::NotEqual => x != y,
        CompareOp::Less => x < y,
        CompareOp::LessEqual => x <= y,
        CompareOp::Greater => y < x,
        CompareOp::GreaterEqual => y <= x,
    }
}

/// A truth value as a number.
fn as_number(truth: bool) -> i64
    ensures { result ≡ number_of truth }
{
    if truth { 1 } else { 0 }
}

/// An operator on two numbers that are values.
fn arith_values<'a>(op: ArithOp, a: RunValue<'a>, b: RunValue<'a>) -> Act<'a>
    ensures { HasValue result (arith_of op a.entry b.entry) }
{
    match a.kind() {
        Kind::Int(x) => match b.kind() {
            Kind::Int(y) => arith(op, x, y),
            Kind::Truth(_) => Act::Stuck,
            Kind::Ref(_) => Act::Stuck,
            Kind::Text(_) => Act::Stuck,
        },
        Kind::Truth(_) => Act::Stuck,
        Kind::Ref(_) => Act::Stuck,
        Kind::Text(_) => Act::Stuck,
    }
}

/// A comparison of two numbers or of two truth values.
fn compare_values<'a>(op: CompareOp, a: RunValue<'a>, b: RunValue<'a>) -> Act<'a>
    ensures { HasValue result (compare_of op a.entry b.entry) }
{
    match a.kind() {
        Kind::Int(x) => match b.kind() {
            Kind::Int(y) => gives(RunValue::truth(compare(op, x, y))),
            Kind::Truth(_) => Act::Stuck,
            Kind::Ref(_) => Act::Stuck,
            Kind::Text(_) => Act::Stuck,
        },
        Kind::Truth(x) => match b.kind() {
            Kind::Int(_) => Act::Stuck,
            Kind::Truth(y) => gives(RunValue::truth(compare(op, as_number(x), as_number(y)))),
            Kind::Ref(_) => Act::Stuck,
            Kind::Text(_) => Act::Stuck,
        },
        Kind::Ref(_) => Act::Stuck,
        Kind::Text(_) => Act::Stuck,
    }
}

/// Whether two references are to one object.
fn same<'a>(a: RunValue<'a>, b: RunValue<'a>) -> Act<'a>
    ensures { HasValue result (same_of a.entry b.entry) }
{
    match a.kind() {
        Kind::Int(_) => Act::Stuck,
        Kind::Truth(_) => Act::Stuck,
        Kind::Ref(x) => match b.kind() {
            Kind::Int(_) => Act::Stuck,
            Kind::Truth(_) => Act::Stuck,
            Kind::Ref(y) => gives(RunValue::truth(x == y)),
            Kind::Text(_) => Act::Stuck,
        },
        Kind::Text(_) => Act::Stuck,
    }
}

/// Two texts are joined.
fn join<'a>(a: RunValue<'a>, b: RunValue<'a>) -> Act<'a>
    ensures { HasValue result (join_of a.entry b.entry) }
{
    match a.kind() {
        Kind::Int(_) => Act::Stuck,
        Kind::Truth(_) => Act::Stuck,
        Kind::Ref(_) => Act::Stuck,
        Kind::Text(x) => match b.kind() {
            Kind::Int(_) => Act::Stuck,
            Kind::Truth(_) => Act::Stuck,
            Kind::Ref(_) => Act::Stuck,
            Kind::Text(y) => Act::Join(x, y),
        },
    }
}

/// A byte of a text.
fn letter<'a>(a: RunValue<'a>, b: RunValue<'a>) -> Act<'a>
    ensures { HasValue result (letter_of a.entry b.entry) }
{
    match a.kind() {
        Kind::Int(_) => Act::Stuck,
        Kind::Truth(_) => Act::Stuck,
        Kind::Ref(_) => Act::Stuck,
        Kind::Text(bytes) => match b.kind() {
            Kind::Int(i) => byte_at(bytes, i),
            Kind::Truth(_) => Act::Stuck,
            Kind::Ref(_) => Act::Stuck,
            Kind::Text(_) => Act::Stuck,
        },
    }
}

/// The byte at an index; `bounds` where there is none.
fn byte_at<'a>(bytes: &[u8], index: i64) -> Act<'a>
    ensures { HasValue result (λ st. act_as (λ c. Int (pos c)) (letter_at bytes.now index st.world) st) }
{
    if index < 0 {
        return raises(b"bounds");
    }
    match bytes.get(index as usize) {
        None => raises(b"bounds"),
        Some(byte) => gives(RunValue::natural(*byte as u32)),
    }
}

/// An element of an array.
fn element<'a>(a: RunValue<'a>, b: RunValue<'a>) -> Act<'a>
    ensures { HasValue result (element_of a.entry b.entry) }
{
    match a.kind() {
        Kind::Int(_) => Act::Stuck,
        Kind::Truth(_) => Act::Stuck,
        Kind::Ref(number) => match b.kind() {
            Kind::Int(i) => Act::Element(number, i),
            Kind::Truth(_) => Act::Stuck,
            Kind::Ref(_) => Act::Stuck,
            Kind::Text(_) => Act::Stuck,
        },
        Kind::Text(_) => Act::Stuck,
    }
}

/// A new array.
fn new_array<'a>(count: RunValue<'a>, fill: RunValue<'a>) -> Act<'a>
    ensures { HasValue result (new_array_of count.entry fill.entry) }
{
    match count.kind() {
        Kind::Int(n) => Act::NewArray(n, fill),
        Kind::Truth(_) => Act::Stuck,
        Kind::Ref(_) => Act::Stuck,
        Kind::Text(_) => Act::Stuck,
    }
}

/// An operator on two values.
pub(crate) fn binary<'a>(op: Binary, a: RunValue<'a>, b: RunValue<'a>) -> Act<'a>
    ensures { HasValue result (does_binary (binary_of op) a.entry b.entry) }
{
    match op {
        Binary::Arith(op) => arith_values(op, a, b),
        Binary::Compare(op) => compare_values(op, a, b),
        Binary::Same => same(a, b),
        Binary::Join => join(a, b),
        Binary::Letter => letter(a, b),
        Binary::Element => element(a, b),
        Binary::NewArray => new_array(a, b),
    }
}

/// `-`
fn negative<'a>(value: RunValue<'a>) -> Act<'a>
    ensures { HasValue result (negative_of value.entry) }
{
    match value.kind() {
        Kind::Int(x) => word(x.checked_neg()),
        Kind::Truth(_) => Act::Stuck,
        Kind::Ref(_) => Act::Stuck,
        Kind::Text(_) => Act::Stuck,
    }
}

/// `not`
fn not<'a>(value: RunValue<'a>) -> Act<'a>
    ensures { HasValue result (not_of value.entry) }
{
    match value.kind() {
        Kind::Int(_) => Act::Stuck,
        Kind::Truth(x) => gives(RunValue::truth(!x)),
        Kind::Ref(_) => Act::Stuck,
        Kind::Text(_) => Act::Stuck,
    }
}

/// How many bytes a text has.
fn extent<'a>(value: RunValue<'a>) -> Act<'a>
    ensures { HasValue result (extent_of value.entry) }
{
    match value.kind() {
        Kind::Int(_) => Act::Stuck,
        Kind::Truth(_) => Act::Stuck,
        Kind::Ref(_) => Act::Stuck,
        Kind::Text(bytes) => gives(RunValue::size(bytes.len())),
    }
}

/// How many elements an array has.
fn length<'a>(value: RunValue<'a>) -> Act<'a>
    ensures { HasValue result (length_of value.entry) }
{
    match value.kind() {
        Kind::Int(_) => Act::Stuck,
        Kind::Truth(_) => Act::Stuck,
        Kind::Ref(number) => Act::Length(number),
        Kind::Text(_) => Act::Stuck,
    }
}

/// An operator on one value.
pub(crate) fn unary<'a>(op: Unary, value: RunValue<'a>) -> Act<'a>
    ensures { HasValue result (does_unary (unary_of op) value.entry) }
{
    match op {
        Unary::Negative => negative(value),
        Unary::Not => not(value),
        Unary::Extent => extent(value),
        Unary::Length => length(value),
    }
}
