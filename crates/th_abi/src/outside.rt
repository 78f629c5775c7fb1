//! The rows of operations that put and take bytes.
ghost use Rattle.std.specs.Prelude.{◌≡◌, ◌+◌, ◌-◌, ◌<◌, ◌≤◌, ◌++◌, ◌∷◌, [], length};
ghost use Rattle.th_abi.specs.Outside.{put_byte_row, get_row, power_code, sign_code, digits_code, put_int_row};

use crate::instr::{addi, bge, bltu, bne, divu, ecall, jal, mul, remu, sltiu, sub};
use crate::register;
use crate::sequences::{environment, fail, fetch, move_to, operand, take_from};
use crate::word::{Failure, Words};

/// The environment call that puts a byte.
const PUT: u32 = 1;

/// The environment call that takes a byte.
const GET: u32 = 2;

/// Puts a number as a byte, where it is one.
pub(crate) fn put_byte_row(words: &mut Words, height: u32)
    requires empty { words.old.items ≡ [] }
    requires height { height ≤ 400 }
    ensures { words.new.items ≡ put_byte_row height }
{
    let place = height.saturating_sub(1);
    fetch(words, place, register::FREE);
    let rs1 = operand(place, register::FREE);
    sltiu(words, register::SECOND, rs1, 256);
    bne(words, register::SECOND, register::ZERO, 24);
    fail(words, Failure::Bounds);
    addi(words, register::OPERAND, rs1, 0);
    environment(words, PUT);
}

/// Takes a byte, where there is one.
pub(crate) fn get_row(words: &mut Words, height: u32)
    requires empty { words.old.items ≡ [] }
    requires height { height ≤ 400 }
    ensures { words.new.items ≡ get_row height }
{
    environment(words, GET);
    bge(words, register::OPERAND, register::ZERO, 24);
    fail(words, Failure::EndOfInput);
    move_to(words, height, register::OPERAND);
}

/// The absolute value of a number, its sign, and the greatest power of ten that isn't above it.
fn power_code(words: &mut Words)
    requires room { length words.old.items + 9 ≤ 64 }
    ensures words { words.new.items ≡ words.old.items ++ power_code }
    ensures count { length words.new.items ≡ length words.old.items + 9 }
{
    addi(words, register::FOURTH, register::FREE, 0);
    bge(words, register::FREE, register::ZERO, 8);
    sub(words, register::FREE, register::ZERO, register::FREE);
    addi(words, register::THIRD, register::ZERO, 10);
    addi(words, register::SECOND, register::ZERO, 1);
    divu(words, register::RESULT, register::FREE, register::SECOND);
    bltu(words, register::RESULT, register::THIRD, 12);
    mul(words, register::SECOND, register::SECOND, register::THIRD);
    jal(words, register::ZERO, 2 * 1_048_576 - 12);
}

/// A minus sign is put before a negative number's digits.
fn sign_code(words: &mut Words)
    requires room { length words.old.items + 4 ≤ 64 }
    ensures words { words.new.items ≡ words.old.items ++ sign_code }
    ensures count { length words.new.items ≡ length words.old.items + 4 }
{
    addi(words, register::CALL_NUMBER, register::ZERO, PUT);
    bge(words, register::FOURTH, register::ZERO, 12);
    addi(words, register::OPERAND, register::ZERO, 45);
    ecall(words);
}

/// The digits are put, from the highest on.
fn digits_code(words: &mut Words)
    requires room { length words.old.items + 6 ≤ 64 }
    ensures { words.new.items ≡ words.old.items ++ digits_code }
{
    divu(words, register::RESULT, register::FREE, register::SECOND);
    addi(words, register::OPERAND, register::RESULT, 48);
    ecall(words);
    remu(words, register::FREE, register::FREE, register::SECOND);
    divu(words, register::SECOND, register::SECOND, register::THIRD);
    bne(words, register::SECOND, register::ZERO, 8192 - 20);
}

/// Puts a number in decimal.
pub(crate) fn put_int_row(words: &mut Words, height: u32)
    requires empty { words.old.items ≡ [] }
    requires height { height ≤ 400 }
    ensures { words.new.items ≡ put_int_row height }
{
    take_from(words, height.saturating_sub(1), register::FREE);
    power_code(words);
    sign_code(words);
    digits_code(words);
}
