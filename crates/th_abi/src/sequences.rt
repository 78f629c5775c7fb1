//! The sequences of words that rows are put together from. Each is appended to what stands there already.
ghost use Rattle.std.specs.Prelude.{◌≡◌, ℕ, ◌+◌, ◌*◌, ◌<◌, ◌≤◌, ◌++◌, ◌∷◌, [], length, Option};
ghost use Rattle.th_rv.specs.Table.{IsRegister, Valid};
ghost use Rattle.th_abi.specs.Words.{address, labelled, jump};
ghost use Rattle.th_abi.specs.Sequences.{operand, fetch, keep, move_to, take_from, literal, fail, unless_fine, environment};

use crate::instr::{addi, beq, ecall, jal, lw, sw};
use crate::place::home;
use crate::register;
use crate::word::{Failure, Home, Part, PatternWord, RelocKind, Words};
use th_rv::{Instr, encode};

/// A word in whose place a relocation puts an address.
pub(crate) fn address(into: &mut Words, kind: RelocKind, failure: Option<Failure>)
    requires room { length into.old.items < 64 }
    ensures words { into.new.items ≡ into.old.items ++ address kind failure ∷ [] }
    ensures count { length into.new.items ≡ length into.old.items + 1 }
{
    into.push(PatternWord {
        word: 0,
        reloc: Some(kind),
        failure,
        label: None,
    });
}

/// A word of the jump to the operation's label.
fn labelled(into: &mut Words, part: Part, instr: Instr)
    requires room { length into.old.items < 64 }
    requires valid { Valid instr }
    ensures words { into.new.items ≡ into.old.items ++ labelled part instr ∷ [] }
    ensures count { length into.new.items ≡ length into.old.items + 1 }
{
    into.push(PatternWord {
        word: encode(instr),
        reloc: None,
        failure: None,
        label: Some(part),
    });
}

/// The jump to the operation's label.
pub(crate) fn jump(into: &mut Words)
    requires room { length into.old.items + 2 ≤ 64 }
    ensures words { into.new.items ≡ into.old.items ++ jump }
    ensures count { length into.new.items ≡ length into.old.items + 2 }
{
    labelled(
        into,
        Part::High,
        Instr::Auipc {
            rd: register::FREE,
            imm: 0,
        },
    );
    labelled(
        into,
        Part::Low,
        Instr::Jalr {
            rd: register::ZERO,
            rs1: register::FREE,
            imm: 0,
        },
    );
}

/// The register that has a word of the stack once it was fetched.
pub(crate) fn operand(place: u32, free: u32) -> u32
    requires { IsRegister free }
    ensures is { result ≡ operand place free }
    ensures register { IsRegister result }
{
    match home(place) {
        Home::Register(r) => r,
        Home::Frame(_) => free,
    }
}

/// A word of the stack is fetched into its register, which is the given one where the word stands in the frame.
pub(crate) fn fetch(into: &mut Words, place: u32, free: u32)
    requires room { length into.old.items < 64 }
    requires register { IsRegister free }
    requires place { place ≤ 400 }
    ensures words { into.new.items ≡ into.old.items ++ fetch place free }
    ensures count { length into.new.items ≤ length into.old.items + 1 }
{
    match home(place) {
        Home::Register(_) => {}
        Home::Frame(k) => lw(into, free, register::STACK, 4 * k),
    }
}

/// A result that was computed in its register is kept on the stack.
pub(crate) fn keep(into: &mut Words, place: u32, free: u32)
    requires room { length into.old.items < 64 }
    requires register { IsRegister free }
    requires place { place ≤ 400 }
    ensures words { into.new.items ≡ into.old.items ++ keep place free }
    ensures count { length into.new.items ≤ length into.old.items + 1 }
{
    match home(place) {
        Home::Register(_) => {}
        Home::Frame(k) => sw(into, register::STACK, free, 4 * k),
    }
}

/// A register's word is put on the stack.
pub(crate) fn move_to(into: &mut Words, place: u32, from: u32)
    requires room { length into.old.items < 64 }
    requires register { IsRegister from }
    requires place { place ≤ 400 }
    ensures words { into.new.items ≡ into.old.items ++ move_to place from ∷ [] }
    ensures count { length into.new.items ≡ length into.old.items + 1 }
{
    match home(place) {
        Home::Register(r) => addi(into, r, from, 0),
        Home::Frame(k) => sw(into, register::STACK, from, 4 * k),
    }
}

/// A word of the stack is put into a register.
pub(crate) fn take_from(into: &mut Words, place: u32, to: u32)
    requires room { length into.old.items < 64 }
    requires register { IsRegister to }
    requires place { place ≤ 400 }
    ensures words { into.new.items ≡ into.old.items ++ take_from place to ∷ [] }
    ensures count { length into.new.items ≡ length into.old.items + 1 }
{
    match home(place) {
        Home::Register(r) => addi(into, to, r, 0),
        Home::Frame(k) => lw(into, to, register::STACK, 4 * k),
    }
}

/// The address that a relocation gives is put into a register.
pub(crate) fn literal(into: &mut Words, to: u32, kind: RelocKind, failure: Option<Failure>)
    requires room { length into.old.items + 3 ≤ 64 }
    requires register { IsRegister to }
    ensures words { into.new.items ≡ into.old.items ++ literal to kind failure }
    ensures count { length into.new.items ≡ length into.old.items + 3 }
{
    jal(into, to, 8);
    address(into, kind, failure);
    lw(into, to, to, 0);
}

/// A failure: its exception becomes the status, and its label is next.
pub(crate) fn fail(into: &mut Words, failure: Failure)
    requires room { length into.old.items + 5 ≤ 64 }
    ensures words { into.new.items ≡ into.old.items ++ fail failure }
    ensures count { length into.new.items ≡ length into.old.items + 5 }
{
    literal(into, register::STATUS, RelocKind::Word, Some(failure));
    jump(into);
}

/// A status goes to the label.
pub(crate) fn unless_fine(into: &mut Words)
    requires room { length into.old.items + 3 ≤ 64 }
    ensures words { into.new.items ≡ into.old.items ++ unless_fine }
    ensures count { length into.new.items ≡ length into.old.items + 3 }
{
    beq(into, register::STATUS, register::ZERO, 12);
    jump(into);
}

/// An environment call of a number.
pub(crate) fn environment(into: &mut Words, number: u32)
    requires room { length into.old.items + 2 ≤ 64 }
    requires number { number < 4096 }
    ensures words { into.new.items ≡ into.old.items ++ environment number }
    ensures count { length into.new.items ≡ length into.old.items + 2 }
{
    addi(into, register::CALL_NUMBER, register::ZERO, number);
    ecall(into);
}
