//! The arithmetic of 32-bit words in RV32IM: what each instruction computes of its operands.
//!
//! A word is a `u32`, and as a signed number it is read in two's complement. No function fails,
//! loops or takes memory. Each rule is stated in specs/Word.antt, and in words in docs/MACHINE.md.
#![tactic(auto)]

ghost use Rattle.std.specs.Prelude.{◌≡◌, ◌/◌, ◌^◌, ◌<◌, bit_and, bit_or, bit_xor, nat_lt};
ghost use Rattle.std.specs.Int.{w32, w64, cast_signed, cast_unsigned};
ghost use Rattle.th_word.specs.Word.{word_add, word_sub, is_negative, signed_less, flag_word, extend_8, extend_12, extend_13, extend_16, extend_21, shift_left, shift_right, shift_right_signed, multiply, multiply_high, multiply_high_mixed, multiply_high_unsigned, divide, divide_unsigned, remainder, remainder_unsigned};

// The quotient of a division by zero, with and without a sign: all ones.
const QUOTIENT_BY_ZERO: u32 = u32::MAX;

/// The sum modulo 2^32.
pub const fn add(a: u32, b: u32) -> u32
    ensures { result ≡ word_add a b }
{
    a.wrapping_add(b)
}

/// The difference modulo 2^32.
pub const fn sub(a: u32, b: u32) -> u32
    ensures { result ≡ word_sub a b }
{
    a.wrapping_sub(b)
}

/// The bits that are set in both words.
pub const fn and(a: u32, b: u32) -> u32
    ensures { result ≡ bit_and a b }
{
    a & b
}

/// The bits that are set in one word or in both.
pub const fn or(a: u32, b: u32) -> u32
    ensures { result ≡ bit_or a b }
{
    a | b
}

/// The bits that are set in exactly one of the words.
pub const fn xor(a: u32, b: u32) -> u32
    ensures { result ≡ bit_xor a b }
{
    a ^ b
}

/// Whether the word is a negative number.
pub const fn is_negative(a: u32) -> bool
    ensures { result ≡ is_negative a }
{
    a > i32::MAX as u32
}

/// Whether `a` is less than `b` as signed numbers.
pub const fn signed_less(a: u32, b: u32) -> bool
    ensures { result ≡ signed_less a b }
{
    a.cast_signed() < b.cast_signed()
}

/// 1 for true, 0 for false.
pub const fn flag(condition: bool) -> u32
    ensures { result ≡ flag_word condition }
{
    condition as u32
}

/// 1 if `a` is less than `b` as signed numbers, else 0.
pub const fn set_less(a: u32, b: u32) -> u32
    ensures { result ≡ flag_word (signed_less a b) }
{
    flag(signed_less(a, b))
}

/// 1 if `a` is less than `b` as unsigned numbers, else 0.
pub const fn set_less_unsigned(a: u32, b: u32) -> u32
    ensures { result ≡ flag_word (nat_lt a b) }
{
    flag(a < b)
}

/// A field of 8 bits, sign-extended.
pub const fn extend_8(field: u32) -> u32
    requires { field < 2 ^ 8 }
    ensures { result ≡ extend_8 field }
{
    if field < 0x80 {
        field
    } else {
        field + 0xffff_ff00
    }
}

/// A field of 12 bits, sign-extended.
pub const fn extend_12(field: u32) -> u32
    requires { field < 2 ^ 12 }
    ensures { result ≡ extend_12 field }
{
    if field < 0x800 {
        field
    } else {
        field + 0xffff_f000
    }
}

/// A field of 13 bits, sign-extended.
pub const fn extend_13(field: u32) -> u32
    requires { field < 2 ^ 13 }
    ensures { result ≡ extend_13 field }
{
    if field < 0x1000 {
        field
    } else {
        field + 0xffff_e000
    }
}

/// A field of 16 bits, sign-extended.
pub const fn extend_16(field: u32) -> u32
    requires { field < 2 ^ 16 }
    ensures { result ≡ extend_16 field }
{
    if field < 0x8000 {
        field
    } else {
        field + 0xffff_0000
    }
}

/// A field of 21 bits, sign-extended.
pub const fn extend_21(field: u32) -> u32
    requires { field < 2 ^ 21 }
    ensures { result ≡ extend_21 field }
{
    if field < 0x10_0000 {
        field
    } else {
        field + 0xffe0_0000
    }
}

/// `a` shifted left by the low five bits of `b`.
pub const fn shift_left(a: u32, b: u32) -> u32
    ensures { result ≡ shift_left a b }
{
    a.wrapping_shl(b)
}

/// `a` shifted right by the low five bits of `b`, filled up with zeros.
pub const fn shift_right(a: u32, b: u32) -> u32
    ensures { result ≡ shift_right a b }
{
    a.wrapping_shr(b)
}

/// `a` shifted right by the low five bits of `b`, filled up with its sign.
pub const fn shift_right_signed(a: u32, b: u32) -> u32
    ensures { result ≡ shift_right_signed a b }
{
    a.cast_signed().wrapping_shr(b).cast_unsigned()
}

/// The low half of the product.
pub const fn multiply(a: u32, b: u32) -> u32
    ensures { result ≡ multiply a b }
{
    a.wrapping_mul(b)
}

/// The signed number that the word spells.
const fn signed(a: u32) -> i64
    ensures { result ≡ cast_signed w32 a }
{
    a.cast_signed() as i64
}

/// The high half of a product in 64 bits.
const fn high_half(product: i64) -> u32
    ensures { result ≡ cast_unsigned w64 product / 2 ^ 32 }
{
    ((product >> 32) as i32).cast_unsigned()
}

/// The high half of the product of two signed numbers.
pub const fn multiply_high(a: u32, b: u32) -> u32
    ensures { result ≡ multiply_high a b }
{
    high_half(signed(a) * signed(b))
}

/// The high half of the product of the signed number `a` and the unsigned number `b`.
pub const fn multiply_high_mixed(a: u32, b: u32) -> u32
    ensures { result ≡ multiply_high_mixed a b }
{
    high_half(signed(a) * b as i64)
}

/// The high half of the product of two unsigned numbers.
pub const fn multiply_high_unsigned(a: u32, b: u32) -> u32
    ensures { result ≡ multiply_high_unsigned a b }
{
    (a as u64 * b as u64 >> 32) as u32
}

/// The quotient of signed numbers, rounded toward zero; all ones by zero; -2^31 of -2^31 by -1.
pub const fn divide(a: u32, b: u32) -> u32
    ensures { result ≡ divide a b }
{
    if b == 0 {
        QUOTIENT_BY_ZERO
    } else {
        let quotient = a.cast_signed().wrapping_div(b.cast_signed());
        quotient.cast_unsigned()
    }
}

/// The quotient of unsigned numbers; all ones by zero.
pub const fn divide_unsigned(a: u32, b: u32) -> u32
    ensures { result ≡ divide_unsigned a b }
{
    if b == 0 { QUOTIENT_BY_ZERO } else { a / b }
}

/// The remainder of signed numbers, with the sign of `a`; `a` by zero; 0 of -2^31 by -1.
pub const fn remainder(a: u32, b: u32) -> u32
    ensures { result ≡ remainder a b }
{
    if b == 0 {
        a
    } else {
        let rest = a.cast_signed().wrapping_rem(b.cast_signed());
        rest.cast_unsigned()
    }
}

/// The remainder of unsigned numbers; `a` by zero.
pub const fn remainder_unsigned(a: u32, b: u32) -> u32
    ensures { result ≡ remainder_unsigned a b }
{
    if b == 0 { a } else { a % b }
}
