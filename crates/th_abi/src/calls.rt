//! The rows of calls, loop bodies and yields.
ghost use Rattle.std.specs.Prelude.{◌≡◌, ◌+◌, ◌-◌, ◌*◌, ◌<◌, ◌≤◌, ◌++◌, ◌∷◌, [], length, min};
ghost use Rattle.th_abi.specs.Control.{save_one, save, restore_one, restore, passed, pass_first, call_start, call_end, call_row, supply_row, body_row, unit_row, yield_row};
ghost use Rattle.th_abi.specs.Sequences.{home};

use crate::control::push_value;
use crate::instr::{addi, jalr, lw, sw};
use crate::place::home;
use crate::register;
use crate::sequences::{fetch, keep, literal, operand, take_from, unless_fine};
use crate::word::{Home, RelocKind, Words};

/// How many words a header has.
pub(crate) const HEADER_WORDS: u32 = 6;

/// A place's register is saved in the frame where the stack is higher.
fn save_one(words: &mut Words, place: u32, height: u32)
    requires room { length words.old.items < 64 }
    requires place { place < 6 }
    ensures words { words.new.items ≡ words.old.items ++ save_one place height }
    ensures count { length words.new.items ≤ length words.old.items + 1 }
{
    if place < height {
        sw(words, register::STACK, 18 + place, 4 * place);
    }
}

/// A place's register is restored from the frame where the stack is higher.
fn restore_one(words: &mut Words, place: u32, height: u32)
    requires room { length words.old.items < 64 }
    requires place { place < 6 }
    ensures words { words.new.items ≡ words.old.items ++ restore_one place height }
    ensures count { length words.new.items ≤ length words.old.items + 1 }
{
    if place < height {
        lw(words, 18 + place, register::STACK, 4 * place);
    }
}

/// The registers of a stack of this height are saved in the frame.
fn save(words: &mut Words, height: u32)
    requires room { length words.old.items + 6 ≤ 64 }
    ensures words { words.new.items ≡ words.old.items ++ save height }
    ensures count { length words.new.items ≤ length words.old.items + 6 }
{
    save_one(words, 0, height);
    save_one(words, 1, height);
    save_one(words, 2, height);
    save_one(words, 3, height);
    save_one(words, 4, height);
    save_one(words, 5, height);
}

/// The registers of a stack of this height are restored from the frame.
fn restore(words: &mut Words, height: u32)
    requires room { length words.old.items + 6 ≤ 64 }
    ensures words { words.new.items ≡ words.old.items ++ restore height }
    ensures count { length words.new.items ≤ length words.old.items + 6 }
{
    restore_one(words, 0, height);
    restore_one(words, 1, height);
    restore_one(words, 2, height);
    restore_one(words, 3, height);
    restore_one(words, 4, height);
    restore_one(words, 5, height);
}

/// An operand becomes local word `i` of the frame that is to be opened.
fn pass(words: &mut Words, place: u32, i: u32)
    requires room { length words.old.items + 2 ≤ 64 }
    requires place { place ≤ 420 }
    requires local { i < 17 }
    ensures words { words.new.items ≡ words.old.items ++ passed (home place) i }
    ensures count { length words.new.items ≤ length words.old.items + 2 }
{
    let imm = 4 * (HEADER_WORDS + i);
    match home(place) {
        Home::Register(r) => sw(words, register::TOP, r, imm),
        Home::Frame(k) => {
            lw(words, register::FREE, register::STACK, 4 * k);
            sw(words, register::TOP, register::FREE, imm);
        }
    }
}

/// The operands, which stand from a place on, become the first local words of the frame that is to be opened.
fn pass_all(words: &mut Words, place: u32, n: u32)
    requires room { length words.old.items ≤ 6 }
    requires place { place ≤ 400 }
    requires few { n ≤ 17 }
    ensures words { words.new.items ≡ words.old.items ++ pass_first place n }
    ensures count { length words.new.items ≤ length words.old.items + 34 }
{
    for i in 0..n {
        pass(words, place + i, i);
    }
}

/// Before a call: what stays on the stack is saved, and the operands are passed.
fn call_start(words: &mut Words, below: u32, place: u32, n: u32)
    requires empty { words.old.items ≡ [] }
    requires place { place ≤ 400 }
    requires few { n ≤ 17 }
    ensures words { words.new.items ≡ call_start below place n }
    ensures count { length words.new.items ≤ 40 }
{
    save(words, below);
    pass_all(words, place, n);
}

/// After a call: its status goes to the label, what stayed on the stack is restored, and the value is pushed.
fn call_end(words: &mut Words, below: u32, f: u32)
    requires room { length words.old.items + 10 ≤ 64 }
    requires height { below ≤ 400 }
    ensures { words.new.items ≡ words.old.items ++ call_end below f }
{
    unless_fine(words);
    restore(words, below);
    push_value(words, f, below);
}

/// Calls the unit that the operation names.
pub(crate) fn call_row(words: &mut Words, n: u32, f: u32, height: u32)
    requires empty { words.old.items ≡ [] }
    requires few { n ≤ 17 }
    requires height { height ≤ 400 }
    ensures { words.new.items ≡ call_row n f height }
{
    let below = height.saturating_sub(n);
    call_start(words, below, below, n);
    literal(words, register::FREE, RelocKind::Unit, None);
    jalr(words, register::LINK, register::FREE, 0);
    call_end(words, below, f);
}

/// Calls the supply stub whose word stands below the operands.
pub(crate) fn supply_row(words: &mut Words, n: u32, f: u32, height: u32)
    requires empty { words.old.items ≡ [] }
    requires few { n ≤ 17 }
    requires height { height ≤ 400 }
    ensures { words.new.items ≡ supply_row n f height }
{
    let place = height.saturating_sub(n);
    let below = place.saturating_sub(1);
    call_start(words, below, place, n);
    fetch(words, below, register::FREE);
    let rs1 = operand(below, register::FREE);
    jalr(words, register::LINK, rs1, 0);
    call_end(words, below, f);
}

/// The loop body of the next call is a unit, and the frame at work is its home.
pub(crate) fn body_row(words: &mut Words)
    requires empty { words.old.items ≡ [] }
    ensures { words.new.items ≡ body_row }
{
    literal(words, register::BODY, RelocKind::Unit, None);
    addi(words, register::HOME_LOCALS, register::LOCALS, 0);
}

/// Pushes a unit's address.
pub(crate) fn unit_row(words: &mut Words, height: u32)
    requires empty { words.old.items ≡ [] }
    requires height { height ≤ 400 }
    ensures { words.new.items ≡ unit_row height }
{
    literal(
        words,
        operand(height, register::RESULT),
        RelocKind::Unit,
        None,
    );
    keep(words, height, register::RESULT);
}

/// Enters the loop body with a value.
pub(crate) fn yield_row(words: &mut Words, height: u32)
    requires empty { words.old.items ≡ [] }
    requires height { height ≤ 400 }
    ensures { words.new.items ≡ yield_row height }
{
    let place = height.saturating_sub(1);
    save(words, place);
    take_from(words, place, 18);
    lw(words, register::FREE, register::LOCALS, 4096 - 8);
    lw(words, register::HOME_LOCALS, register::LOCALS, 4096 - 4);
    jalr(words, register::LINK, register::FREE, 0);
    unless_fine(words);
    restore(words, place);
}
