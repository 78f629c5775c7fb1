//! Operators on numbers that raise no exception.
ghost use Rattle.std.specs.Prelude.{◌≡◌, ℤ, IfSome, SomeIff, FitsSigned};
ghost use Rattle.std.specs.Int.{w64};
ghost use Rattle.th_meaning.specs.World.{World, Did, fits_word, unless_overflow};
ghost use Rattle.th_meaning.specs.Meaning.{Value, arith as arith_on, compare as compare_on};
ghost use Rattle.th_meaning.specs.declared.expr.ArithOp.TheVariants.{Divide, Remainder};

use th_meaning::{ArithOp, CompareOp};

/// Whether a number is one of the language's.
fn is_word(n: i64) -> bool
    ensures { result ≡ fits_word n }
{
    n >= -2147483648 && n <= 2147483647
}

/// A number of the language; None where it is none.
fn word(number: Option<i64>) -> Option<i64>
    ensures { (x : ℤ) → SomeIff number (FitsSigned w64 x) x → IfSome result (λ z. (w : World Value) → unless_overflow x x w ≡ Did z w) }
{
    match number {
        None => None,
        Some(n) => { if is_word(n) { Some(n) } else { None } }
    }
}

/// An operator on two numbers; None where it raises an exception.
pub(crate) fn arith(op: ArithOp, x: i64, y: i64) -> Option<i64>
    ensures { IfSome result (λ z. (w : World Value) → arith_on op x y w ≡ Did z w) }
{
    match op {
        ArithOp::Plus => word(x.checked_add(y)),
        ArithOp::Minus => word(x.checked_sub(y)),
        ArithOp::Times => word(x.checked_mul(y)),
        ArithOp::Divide => quotient(x, y),
        ArithOp::Remainder => remainder(x, y),
    }
}

/// The quotient; None where it raises an exception.
fn quotient(x: i64, y: i64) -> Option<i64>
    ensures { IfSome result (λ z. (w : World Value) → arith_on Divide x y w ≡ Did z w) }
{
    if y == 0 {
        return None;
    }
    match x.checked_div(y) {
        None => None,
        Some(n) => { if is_word(n) { Some(n) } else { None } }
    }
}

/// The remainder; None where it raises an exception.
fn remainder(x: i64, y: i64) -> Option<i64>
    ensures { IfSome result (λ z. (w : World Value) → arith_on Remainder x y w ≡ Did z w) }
{
    if y == 0 {
        return None;
    }
    match x.checked_div(y) {
        None => None,
        Some(n) => { if is_word(n) { Some(x % y) } else { None } }
    }
}

/// A comparison of two numbers.
pub(crate) fn compare(op: CompareOp, x: i64, y: i64) -> bool
    ensures { result ≡ compare_on op x y }
{
    match op {
        CompareOp::Equal => x == y,
        CompareOp::NotEqual => x != y,
        CompareOp::Less => x < y,
        CompareOp::LessEqual => x <= y,
        CompareOp::Greater => y < x,
        CompareOp::GreaterEqual => y <= x,
    }
}
