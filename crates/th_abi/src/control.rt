//! The rows of ways, exceptions and returns.
ghost use Rattle.std.specs.Prelude.{◌≡◌, ◌+◌, ◌-◌, ◌<◌, ◌≤◌, ◌++◌, ◌∷◌, [], length};
ghost use Rattle.th_abi.specs.Words.{jump};
ghost use Rattle.th_abi.specs.Control.{nothing, unless_row, give_value, push_value, raise_row, is_row, caught_row, back, return_row, stop_row, stopped_row};

use crate::instr::{addi, beq, bne, jalr, lw};
use crate::register;
use crate::sequences::{fetch, jump, literal, move_to, operand, take_from};
use crate::word::{RelocKind, Words};

/// No effect.
pub(crate) fn nothing(words: &mut Words)
    requires empty { words.old.items ≡ [] }
    ensures { words.new.items ≡ nothing }
{
    addi(words, register::ZERO, register::ZERO, 0);
}

/// Goes to the label.
pub(crate) fn go_row(words: &mut Words)
    requires empty { words.old.items ≡ [] }
    ensures { words.new.items ≡ jump }
{
    jump(words);
}

/// Pops, and goes to the label at 0.
pub(crate) fn unless_row(words: &mut Words, height: u32)
    requires empty { words.old.items ≡ [] }
    requires height { height ≤ 400 }
    ensures { words.new.items ≡ unless_row height }
{
    let place = height.saturating_sub(1);
    fetch(words, place, register::FREE);
    let rs1 = operand(place, register::FREE);
    bne(words, rs1, register::ZERO, 12);
    jump(words);
}

/// The value is put into the value word, where one is given.
fn give_value(words: &mut Words, f: u32, height: u32)
    requires room { length words.old.items < 64 }
    requires height { height ≤ 400 }
    ensures words { words.new.items ≡ words.old.items ++ give_value f height }
    ensures count { length words.new.items ≤ length words.old.items + 1 }
{
    if f == 1 {
        take_from(words, height.saturating_sub(1), register::VALUE);
    }
}

/// The value word is pushed, where a value is given.
pub(crate) fn push_value(words: &mut Words, f: u32, height: u32)
    requires room { length words.old.items < 64 }
    requires height { height ≤ 400 }
    ensures words { words.new.items ≡ words.old.items ++ push_value f height }
    ensures count { length words.new.items ≤ length words.old.items + 1 }
{
    if f == 1 {
        move_to(words, height, register::VALUE);
    }
}

/// Raises the exception that the operation names.
pub(crate) fn raise_row(words: &mut Words, f: u32, height: u32)
    requires empty { words.old.items ≡ [] }
    requires height { height ≤ 400 }
    ensures { words.new.items ≡ raise_row f height }
{
    give_value(words, f, height);
    literal(words, register::STATUS, RelocKind::Word, None);
    jump(words);
}

/// Goes to the label unless the status is the exception.
pub(crate) fn is_row(words: &mut Words)
    requires empty { words.old.items ≡ [] }
    ensures { words.new.items ≡ is_row }
{
    literal(words, register::FREE, RelocKind::Word, None);
    beq(words, register::STATUS, register::FREE, 12);
    jump(words);
}

/// Ends the exception on its way.
pub(crate) fn caught_row(words: &mut Words, f: u32, height: u32)
    requires empty { words.old.items ≡ [] }
    requires height { height ≤ 400 }
    ensures { words.new.items ≡ caught_row f height }
{
    addi(words, register::STATUS, register::ZERO, 0);
    push_value(words, f, height);
}

/// The activation ends.
fn back(words: &mut Words)
    requires room { length words.old.items + 6 ≤ 64 }
    ensures { words.new.items ≡ words.old.items ++ back }
{
    addi(words, register::TOP, register::HEADER, 0);
    lw(words, register::LINK, register::HEADER, 0);
    lw(words, register::LOCALS, register::HEADER, 4);
    lw(words, register::STACK, register::HEADER, 8);
    lw(words, register::HEADER, register::HEADER, 12);
    jalr(words, register::ZERO, register::LINK, 0);
}

/// Returns with nothing on its way.
pub(crate) fn return_row(words: &mut Words, f: u32, height: u32)
    requires empty { words.old.items ≡ [] }
    requires height { height ≤ 400 }
    ensures { words.new.items ≡ return_row f height }
{
    give_value(words, f, height);
    addi(words, register::STATUS, register::ZERO, 0);
    back(words);
}

/// Returns with the status as it is.
pub(crate) fn leave_row(words: &mut Words)
    requires empty { words.old.items ≡ [] }
    ensures { words.new.items ≡ back }
{
    back(words);
}

/// Returns with the status "stopped".
pub(crate) fn stop_row(words: &mut Words)
    requires empty { words.old.items ≡ [] }
    ensures { words.new.items ≡ stop_row }
{
    addi(words, register::STATUS, register::ZERO, 1);
    back(words);
}

/// Goes to the label unless the status is "stopped", which ends.
pub(crate) fn stopped_row(words: &mut Words)
    requires empty { words.old.items ≡ [] }
    ensures { words.new.items ≡ stopped_row }
{
    addi(words, register::FREE, register::ZERO, 1);
    beq(words, register::STATUS, register::FREE, 12);
    jump(words);
    addi(words, register::STATUS, register::ZERO, 0);
}
