//! The dump of tables: docs/LAYOUT.md, "The dump", states it.
ghost use Rattle.std.specs.Prelude.{◌≡◌, map, MatchResult};
ghost use Rattle.th_table.specs.Dump.{class_dump, class_line, dump_of, joined, slot_line, table_dump, tables_dump, word_line};
ghost use Rattle.th_table.specs.Putting.{PutsAll, PutsPart, told};

use crate::put::{Piece, put_pieces};
use crate::shown::{Table, TableClass, Tables};
use th_tree::NameTable;
use th_views::Slot;
use th_world::{Failed, Sink};

/// Puts the line of a slot.
fn put_slot<K: Sink>(sink: &mut K, names: &NameTable, slot: Slot) -> Result<(), Failed>
    ensures { MatchResult result
        (λ _. PutsAll (slot_line names.now slot) (told (K.put_bytes sink.old) (K.faults sink.old)) (told (K.put_bytes sink.new) (K.faults sink.new)))
        (λ _. PutsPart (slot_line names.now slot) (told (K.put_bytes sink.old) (K.faults sink.old)) (told (K.put_bytes sink.new) (K.faults sink.new))) }
{
    put_pieces(
        sink,
        names,
        &[
            Piece::Offset(slot.offset),
            Piece::Text(b" "),
            Piece::Name(slot.method),
            Piece::Text(b" "),
            Piece::Name(slot.body),
            Piece::Text(b"."),
            Piece::Name(slot.method),
            Piece::Bridge(slot.bridge),
            Piece::Text(b"\n"),
        ],
    )
}

/// Puts the line of a header word.
fn put_word<K: Sink>(
    sink: &mut K,
    names: &NameTable,
    word: usize,
    distance: u32,
) -> Result<(), Failed>
    ensures { MatchResult result
        (λ _. PutsAll (word_line word distance) (told (K.put_bytes sink.old) (K.faults sink.old)) (told (K.put_bytes sink.new) (K.faults sink.new)))
        (λ _. PutsPart (word_line word distance) (told (K.put_bytes sink.old) (K.faults sink.old)) (told (K.put_bytes sink.new) (K.faults sink.new))) }
{
    put_pieces(
        sink,
        names,
        &[
            Piece::Text(b"word "),
            Piece::Index(word),
            Piece::Text(b" distance "),
            Piece::Number(distance),
            Piece::Text(b"\n"),
        ],
    )
}

/// Puts the line of a class.
fn put_head<K: Sink>(sink: &mut K, names: &NameTable, class: &TableClass) -> Result<(), Failed>
    ensures { MatchResult result
        (λ _. PutsAll (class_line names.now class.now) (told (K.put_bytes sink.old) (K.faults sink.old)) (told (K.put_bytes sink.new) (K.faults sink.new)))
        (λ _. PutsPart (class_line names.now class.now) (told (K.put_bytes sink.old) (K.faults sink.old)) (told (K.put_bytes sink.new) (K.faults sink.new))) }
{
    put_pieces(
        sink,
        names,
        &[
            Piece::Text(b"class "),
            Piece::Name(class.class),
            Piece::Text(b" words "),
            Piece::Number(class.words),
            Piece::Text(b" fields "),
            Piece::Number(class.fields),
            Piece::Text(b" where "),
            Piece::Number(class.wheres),
            Piece::Text(b" size "),
            Piece::Number(class.size),
            Piece::Text(b"\n"),
        ],
    )
}

/// Puts the lines of slots.
fn put_slots<K: Sink>(sink: &mut K, names: &NameTable, slots: &[Slot]) -> Result<(), Failed>
    ensures { MatchResult result
        (λ _. PutsAll (joined (map (slot_line names.now) slots.now)) (told (K.put_bytes sink.old) (K.faults sink.old)) (told (K.put_bytes sink.new) (K.faults sink.new)))
        (λ _. PutsPart (joined (map (slot_line names.now) slots.now)) (told (K.put_bytes sink.old) (K.faults sink.old)) (told (K.put_bytes sink.new) (K.faults sink.new))) }
{
    for slot in slots {
        match put_slot(sink, names, *slot) {
            Ok(()) => {}
            Err(failed) => return Err(failed),
        }
    }
    Ok(())
}

/// Puts the lines of a table.
fn put_table<K: Sink>(
    sink: &mut K,
    names: &NameTable,
    word: usize,
    table: &Table,
) -> Result<(), Failed>
    ensures { MatchResult result
        (λ _. PutsAll (table_dump names.now word table.now) (told (K.put_bytes sink.old) (K.faults sink.old)) (told (K.put_bytes sink.new) (K.faults sink.new)))
        (λ _. PutsPart (table_dump names.now word table.now) (told (K.put_bytes sink.old) (K.faults sink.old)) (told (K.put_bytes sink.new) (K.faults sink.new))) }
{
    match put_word(sink, names, word, table.distance) {
        Ok(()) => put_slots(sink, names, &table.slots),
        Err(failed) => Err(failed),
    }
}

/// Puts the lines of the tables of a class.
fn put_tables<K: Sink>(sink: &mut K, names: &NameTable, tables: &[Table]) -> Result<(), Failed>
    ensures { MatchResult result
        (λ _. PutsAll (tables_dump names.now 0 tables.now) (told (K.put_bytes sink.old) (K.faults sink.old)) (told (K.put_bytes sink.new) (K.faults sink.new)))
        (λ _. PutsPart (tables_dump names.now 0 tables.now) (told (K.put_bytes sink.old) (K.faults sink.old)) (told (K.put_bytes sink.new) (K.faults sink.new))) }
{
    for k in 0..tables.len() {
        match put_table(sink, names, k, &tables[k]) {
            Ok(()) => {}
            Err(failed) => return Err(failed),
        }
    }
    Ok(())
}

/// Puts the lines of a class.
fn put_class<K: Sink>(sink: &mut K, names: &NameTable, class: &TableClass) -> Result<(), Failed>
    ensures { MatchResult result
        (λ _. PutsAll (class_dump names.now class.now) (told (K.put_bytes sink.old) (K.faults sink.old)) (told (K.put_bytes sink.new) (K.faults sink.new)))
        (λ _. PutsPart (class_dump names.now class.now) (told (K.put_bytes sink.old) (K.faults sink.old)) (told (K.put_bytes sink.new) (K.faults sink.new))) }
{
    match put_head(sink, names, class) {
        Ok(()) => put_tables(sink, names, &class.tables),
        Err(failed) => Err(failed),
    }
}

/// Puts the dump of tables at a sink, with the names that their numbers have; a number without a name shows nothing. At the first
/// fault of the sink it ends, and a prefix was put.
pub fn dump<K: Sink>(tables: &Tables, names: &NameTable, sink: &mut K) -> Result<(), Failed>
    ensures { MatchResult result
        (λ _. PutsAll (dump_of names.now tables.now.list.items) (told (K.put_bytes sink.old) (K.faults sink.old)) (told (K.put_bytes sink.new) (K.faults sink.new)))
        (λ _. PutsPart (dump_of names.now tables.now.list.items) (told (K.put_bytes sink.old) (K.faults sink.old)) (told (K.put_bytes sink.new) (K.faults sink.new))) }
{
    for class in &tables.list {
        match put_class(sink, names, class) {
            Ok(()) => {}
            Err(failed) => return Err(failed),
        }
    }
    Ok(())
}
