//! The rows at which units are entered.
ghost use Rattle.std.specs.Prelude.{◌≡◌, ◌+◌, ◌*◌, ◌<◌, ◌≤◌, ◌++◌, ◌∷◌, [], length};
ghost use Rattle.th_flat.specs.Configs.{is_iterator};
ghost use Rattle.th_abi.specs.Entry.{room_test, saved, loop_saved, opened, body_entry, entry_row};

use crate::calls::HEADER_WORDS;
use crate::instr::{addi, bgeu, sw};
use crate::register;
use crate::sequences::environment;
use crate::word::Words;
use th_flat::FlatUnit;

/// Above each frame so many bytes are free for the frame of a supply stub and for a bridge.
const SPARE_BYTES: u32 = 136;

/// The environment call that stops a run for room.
const NO_ROOM: u32 = 5;

/// The run stops unless there is room for so many bytes and the spare ones.
fn room_test(words: &mut Words, bytes: u32)
    requires empty { words.old.items ≡ [] }
    requires bytes { bytes ≤ 1800 }
    ensures words { words.new.items ≡ room_test bytes }
    ensures count { length words.new.items ≡ 4 }
{
    addi(words, register::FREE, register::TOP, bytes + SPARE_BYTES);
    bgeu(words, register::LIMIT, register::FREE, 12);
    environment(words, NO_ROOM);
}

/// What is restored when the activation ends stands in its header.
fn saved(words: &mut Words)
    requires room { length words.old.items + 4 ≤ 64 }
    ensures words { words.new.items ≡ words.old.items ++ saved }
    ensures count { length words.new.items ≡ length words.old.items + 4 }
{
    sw(words, register::TOP, register::LINK, 0);
    sw(words, register::TOP, register::LOCALS, 4);
    sw(words, register::TOP, register::STACK, 8);
    sw(words, register::TOP, register::HEADER, 12);
}

/// An iterator's loop body and its home stand in the header too.
fn loop_saved(words: &mut Words, is_iterator: bool)
    requires room { length words.old.items + 2 ≤ 64 }
    ensures words { words.new.items ≡ words.old.items ++ loop_saved is_iterator }
    ensures count { length words.new.items ≤ length words.old.items + 2 }
{
    if is_iterator {
        sw(words, register::TOP, register::BODY, 16);
        sw(words, register::TOP, register::HOME_LOCALS, 20);
    }
}

/// A frame begins, whose stack stands above so many local words.
fn opened(words: &mut Words, count: u32, bytes: u32)
    requires room { length words.old.items + 4 ≤ 64 }
    requires few { count ≤ 417 }
    requires bytes { bytes ≤ 1800 }
    ensures { words.new.items ≡ words.old.items ++ opened count bytes }
{
    addi(words, register::HEADER, register::TOP, 0);
    addi(words, register::LOCALS, register::TOP, 4 * HEADER_WORDS);
    addi(words, register::STACK, register::LOCALS, 4 * count);
    addi(words, register::TOP, register::TOP, bytes);
}

/// A loop body is at work in the frame of its home.
fn body_entry(words: &mut Words, count: u32)
    requires empty { words.old.items ≡ [] }
    requires few { count ≤ 417 }
    ensures { words.new.items ≡ body_entry count }
{
    room_test(words, 16);
    saved(words);
    addi(words, register::HEADER, register::TOP, 0);
    addi(words, register::TOP, register::TOP, 16);
    addi(words, register::LOCALS, register::HOME_LOCALS, 0);
    addi(words, register::STACK, register::LOCALS, 4 * count);
}

/// Whether a unit is an iterator.
fn is_iterator(unit: &FlatUnit) -> bool
    ensures { result ≡ is_iterator unit.now }
{
    unit.kind == 1 || unit.kind == 3
}

/// The entry row of a unit, which opens its frame, or stops the run where there is no room for it: a function of its kind,
/// args, locals and depth. docs/CODE.md states it. It takes no memory.
pub fn entry(unit: &FlatUnit, into: &mut Words)
    requires empty { into.old.items ≡ [] }
    requires args { unit.now.args ≤ 17 }
    requires words { unit.now.locals + unit.now.depth ≤ 400 }
    ensures { into.new.items ≡ entry_row unit.now }
{
    let count = unit.args + unit.locals;
    let bytes = 4 * (HEADER_WORDS + count + unit.depth);
    match unit.kind {
        5 => body_entry(into, count),
        6 => {
            saved(into);
            opened(into, count, bytes);
        }
        _ => {
            room_test(into, bytes);
            saved(into);
            loop_saved(into, is_iterator(unit));
            opened(into, count, bytes);
        }
    }
}
