//! The rows of operations on numbers and local words.
ghost use Rattle.std.specs.Prelude.{◌≡◌, ◌+◌, ◌-◌, ◌*◌, ◌^◌, ◌<◌, ◌≤◌, ◌++◌, ◌∷◌, [], length};
ghost use Rattle.th_rv.specs.Table.{IsRegister};
ghost use Rattle.th_abi.specs.Sequences.{operand, fetch};
ghost use Rattle.th_abi.specs.Numbers.{is_small, upper, lower, constant, word_row, local_row, set_row, add_code, subtract_code, multiply_code, unless_least, quotient_test, zero_test, overflow_test, division_tests, checked_code, checked_row, division, division_row, opposite_row, arith_row, compare_code, compare_row};

use crate::instr::{
    add, addi, beq, bne, div, lui, lw, mul, mulh, rem, slt, slti, sltiu, sltu, srai, sub, sw,
};
use crate::register;
use crate::sequences::{fail, fetch, keep, move_to, operand};
use crate::word::{Failure, Words};

/// Whether a word is a signed number of 12 bits.
fn is_small(w: u32) -> bool
    ensures { result ≡ is_small w }
{
    w < 2048 || w >= 0xFFFF_F800
}

/// The upper 20 bits of a word that is put together from them and the low 12 bits, which count with their sign.
fn upper(w: u32) -> u32
    ensures is { result ≡ upper w }
    ensures fits { result < 2 ^ 20 }
{
    w.wrapping_add(2048) / 4096
}

/// A word is put into a register.
fn constant(words: &mut Words, w: u32, to: u32)
    requires room { length words.old.items + 2 ≤ 64 }
    requires register { IsRegister to }
    ensures words { words.new.items ≡ words.old.items ++ constant w to }
    ensures count { length words.new.items ≤ length words.old.items + 2 }
{
    if is_small(w) {
        addi(words, to, register::ZERO, w % 4096);
    } else {
        lui(words, register::RESULT, upper(w));
        addi(words, to, register::RESULT, w % 4096);
    }
}

/// Pushes a number.
pub(crate) fn word_row(words: &mut Words, w: u32, height: u32)
    requires empty { words.old.items ≡ [] }
    requires height { height ≤ 400 }
    ensures { words.new.items ≡ word_row w height }
{
    constant(words, w, operand(height, register::RESULT));
    keep(words, height, register::RESULT);
}

/// Pushes a local word.
pub(crate) fn local_row(words: &mut Words, k: u32, height: u32)
    requires empty { words.old.items ≡ [] }
    requires height { height ≤ 400 }
    requires local { k < 417 }
    ensures { words.new.items ≡ local_row k height }
{
    let rd = operand(height, register::RESULT);
    lw(words, rd, register::LOCALS, 4 * k);
    keep(words, height, register::RESULT);
}

/// Pops into a local word.
pub(crate) fn set_row(words: &mut Words, k: u32, height: u32)
    requires empty { words.old.items ≡ [] }
    requires height { height ≤ 400 }
    requires local { k < 417 }
    ensures { words.new.items ≡ set_row k height }
{
    let place = height.saturating_sub(1);
    fetch(words, place, register::FREE);
    let rs2 = operand(place, register::FREE);
    sw(words, register::LOCALS, rs2, 4 * k);
}

/// The sum of two registers, and past the next five words where it fits.
fn add_code(words: &mut Words, x: u32, y: u32)
    requires room { length words.old.items + 4 ≤ 64 }
    requires first { IsRegister x }
    requires second { IsRegister y }
    ensures words { words.new.items ≡ words.old.items ++ add_code x y }
    ensures count { length words.new.items ≡ length words.old.items + 4 }
{
    add(words, register::RESULT, x, y);
    slt(words, register::THIRD, register::RESULT, x);
    slti(words, register::FOURTH, y, 0);
    beq(words, register::THIRD, register::FOURTH, 24);
}

/// The difference of two registers, and past the next five words where it fits.
fn subtract_code(words: &mut Words, x: u32, y: u32)
    requires room { length words.old.items + 4 ≤ 64 }
    requires first { IsRegister x }
    requires second { IsRegister y }
    ensures words { words.new.items ≡ words.old.items ++ subtract_code x y }
    ensures count { length words.new.items ≡ length words.old.items + 4 }
{
    sub(words, register::RESULT, x, y);
    slt(words, register::THIRD, register::RESULT, x);
    slt(words, register::FOURTH, register::ZERO, y);
    beq(words, register::THIRD, register::FOURTH, 24);
}

/// The product of two registers, and past the next five words where it fits.
fn multiply_code(words: &mut Words, x: u32, y: u32)
    requires room { length words.old.items + 4 ≤ 64 }
    requires first { IsRegister x }
    requires second { IsRegister y }
    ensures words { words.new.items ≡ words.old.items ++ multiply_code x y }
    ensures count { length words.new.items ≡ length words.old.items + 4 }
{
    mul(words, register::RESULT, x, y);
    mulh(words, register::THIRD, x, y);
    srai(words, register::FOURTH, register::RESULT, 31);
    beq(words, register::THIRD, register::FOURTH, 24);
}

/// Past the next five words where a register isn't the least number.
fn unless_least(words: &mut Words, x: u32)
    requires room { length words.old.items + 2 ≤ 64 }
    requires register { IsRegister x }
    ensures words { words.new.items ≡ words.old.items ++ unless_least x }
    ensures count { length words.new.items ≡ length words.old.items + 2 }
{
    lui(words, register::THIRD, 0x80000);
    bne(words, x, register::THIRD, 24);
}

/// Past the next five words where a quotient fits.
fn quotient_test(words: &mut Words, x: u32, y: u32)
    requires room { length words.old.items + 4 ≤ 64 }
    requires first { IsRegister x }
    requires second { IsRegister y }
    ensures words { words.new.items ≡ words.old.items ++ quotient_test x y }
    ensures count { length words.new.items ≡ length words.old.items + 4 }
{
    addi(words, register::THIRD, y, 1);
    bne(words, register::THIRD, register::ZERO, 32);
    unless_least(words, x);
}

/// A division by zero fails.
fn zero_test(words: &mut Words, y: u32)
    requires room { length words.old.items + 6 ≤ 64 }
    requires register { IsRegister y }
    ensures words { words.new.items ≡ words.old.items ++ zero_test y }
    ensures count { length words.new.items ≡ length words.old.items + 6 }
{
    bne(words, y, register::ZERO, 24);
    fail(words, Failure::ZeroDivide);
}

/// So does a division whose quotient doesn't fit.
fn overflow_test(words: &mut Words, x: u32, y: u32)
    requires room { length words.old.items + 9 ≤ 64 }
    requires first { IsRegister x }
    requires second { IsRegister y }
    ensures words { words.new.items ≡ words.old.items ++ overflow_test x y }
    ensures count { length words.new.items ≡ length words.old.items + 9 }
{
    quotient_test(words, x, y);
    fail(words, Failure::Overflow);
}

/// The tests of a division.
fn division_tests(words: &mut Words, x: u32, y: u32)
    requires room { length words.old.items + 15 ≤ 64 }
    requires first { IsRegister x }
    requires second { IsRegister y }
    ensures words { words.new.items ≡ words.old.items ++ division_tests x y }
    ensures count { length words.new.items ≡ length words.old.items + 15 }
{
    zero_test(words, y);
    overflow_test(words, x, y);
}

/// A sum, a difference or a product of two registers, and past the next five words where it fits.
fn checked_code(words: &mut Words, g: u32, x: u32, y: u32)
    requires room { length words.old.items + 4 ≤ 64 }
    requires first { IsRegister x }
    requires second { IsRegister y }
    ensures words { words.new.items ≡ words.old.items ++ checked_code g x y }
    ensures count { length words.new.items ≡ length words.old.items + 4 }
{
    match g {
        0 => add_code(words, x, y),
        1 => subtract_code(words, x, y),
        _ => multiply_code(words, x, y),
    }
}

/// Two operands are fetched; their registers.
fn fetch_two(words: &mut Words, height: u32) -> (u32, u32)
    requires empty { words.old.items ≡ [] }
    requires height { height ≤ 400 }
    ensures first { result.0 ≡ operand (height - 2) 5 }
    ensures second { result.1 ≡ operand (height - 1) 6 }
    ensures registers { IsRegister result.0 × IsRegister result.1 }
    ensures words { words.new.items ≡ fetch (height - 2) 5 ++ fetch (height - 1) 6 }
    ensures count { length words.new.items ≤ 2 }
{
    let (x, y) = (height.saturating_sub(2), height.saturating_sub(1));
    fetch(words, x, register::FREE);
    fetch(words, y, register::SECOND);
    (operand(x, register::FREE), operand(y, register::SECOND))
}

/// Takes two numbers and gives their sum, difference or product, where it fits.
fn checked_row(words: &mut Words, g: u32, height: u32)
    requires empty { words.old.items ≡ [] }
    requires height { height ≤ 400 }
    ensures { words.new.items ≡ checked_row g height }
{
    let (x, y) = fetch_two(words, height);
    checked_code(words, g, x, y);
    fail(words, Failure::Overflow);
    move_to(words, height.saturating_sub(2), register::RESULT);
}

/// Takes two numbers and gives their quotient, or else their remainder.
fn division_row(words: &mut Words, is_quotient: bool, height: u32)
    requires empty { words.old.items ≡ [] }
    requires height { height ≤ 400 }
    ensures { words.new.items ≡ division_row is_quotient height }
{
    let (x, y) = fetch_two(words, height);
    division_tests(words, x, y);
    if is_quotient {
        div(words, register::RESULT, x, y);
    } else {
        rem(words, register::RESULT, x, y);
    }
    move_to(words, height.saturating_sub(2), register::RESULT);
}

/// Takes a number and gives its opposite, where it fits.
fn opposite_row(words: &mut Words, height: u32)
    requires empty { words.old.items ≡ [] }
    requires height { height ≤ 400 }
    ensures { words.new.items ≡ opposite_row height }
{
    let place = height.saturating_sub(1);
    fetch(words, place, register::FREE);
    let x = operand(place, register::FREE);
    unless_least(words, x);
    fail(words, Failure::Overflow);
    sub(words, register::RESULT, register::ZERO, x);
    move_to(words, place, register::RESULT);
}

/// Arithmetic.
pub(crate) fn arith_row(words: &mut Words, g: u32, height: u32)
    requires empty { words.old.items ≡ [] }
    requires height { height ≤ 400 }
    ensures { words.new.items ≡ arith_row g height }
{
    match g {
        0 | 1 | 2 => checked_row(words, g, height),
        3 => division_row(words, true, height),
        4 => division_row(words, false, height),
        _ => opposite_row(words, height),
    }
}

/// A comparison of two registers, into a third.
fn compare_code(words: &mut Words, g: u32, to: u32, x: u32, y: u32)
    requires room { length words.old.items + 2 ≤ 64 }
    requires result { IsRegister to }
    requires first { IsRegister x }
    requires second { IsRegister y }
    ensures words { words.new.items ≡ words.old.items ++ compare_code g to x y }
    ensures count { length words.new.items ≤ length words.old.items + 2 }
{
    match g {
        0 => {
            sub(words, register::RESULT, x, y);
            sltiu(words, to, register::RESULT, 1);
        }
        1 => {
            sub(words, register::RESULT, x, y);
            sltu(words, to, register::ZERO, register::RESULT);
        }
        2 => slt(words, to, x, y),
        3 => {
            slt(words, register::RESULT, y, x);
            sltiu(words, to, register::RESULT, 1);
        }
        4 => slt(words, to, y, x),
        _ => {
            slt(words, register::RESULT, x, y);
            sltiu(words, to, register::RESULT, 1);
        }
    }
}

/// Compares two numbers.
pub(crate) fn compare_row(words: &mut Words, g: u32, height: u32)
    requires empty { words.old.items ≡ [] }
    requires height { height ≤ 400 }
    ensures { words.new.items ≡ compare_row g height }
{
    let place = height.saturating_sub(2);
    let (x, y) = fetch_two(words, height);
    let to = operand(place, register::RESULT);
    compare_code(words, g, to, x, y);
    keep(words, place, register::RESULT);
}
