//! Putting pieces of text at a sink, up to the first fault.
ghost use Rattle.std.specs.Prelude.{◌≡◌, map, MatchResult};
ghost use Rattle.th_table.specs.Dump.{joined, piece_bytes, name_at, bridge_mark};
ghost use Rattle.th_table.specs.Putting.{PutsAll, PutsPart, told};

use itoa::Buffer;
use th_tree::NameTable;
use th_world::{Failed, Sink};

/// A piece of a line.
#[derive(Clone, Copy)]
pub enum Piece<'a> {
    /// These bytes.
    Text(&'a [u8]),
    /// The name with this number.
    Name(u32),
    /// This number.
    Number(u32),
    /// This place in a list.
    Index(usize),
    /// This number with its sign.
    Offset(i32),
    /// The mark of a bridge of this distance; nothing where it is 0.
    Bridge(u32),
}

/// Puts a text, byte by byte.
fn put_text<K: Sink>(sink: &mut K, text: &[u8]) -> Result<(), Failed>
    ensures { MatchResult result
        (λ _. PutsAll text.now (told (K.put_bytes sink.old) (K.faults sink.old)) (told (K.put_bytes sink.new) (K.faults sink.new)))
        (λ _. PutsPart text.now (told (K.put_bytes sink.old) (K.faults sink.old)) (told (K.put_bytes sink.new) (K.faults sink.new))) }
{
    for byte in text {
        if sink.put(*byte).is_err() {
            return Err(Failed);
        }
    }
    Ok(())
}

/// The name with a number; nothing where there is none.
fn name_of(names: &NameTable, number: u32) -> &[u8]
    ensures { result.now ≡ name_at names.now number }
{
    match names.name(number) {
        Some(name) => name,
        None => &[],
    }
}

/// Puts the mark of a bridge.
fn put_bridge<K: Sink>(sink: &mut K, distance: u32) -> Result<(), Failed>
    ensures { MatchResult result
        (λ _. PutsAll (bridge_mark distance) (told (K.put_bytes sink.old) (K.faults sink.old)) (told (K.put_bytes sink.new) (K.faults sink.new)))
        (λ _. PutsPart (bridge_mark distance) (told (K.put_bytes sink.old) (K.faults sink.old)) (told (K.put_bytes sink.new) (K.faults sink.new))) }
{
    if distance == 0 {
        return put_text(sink, b"");
    }
    match put_text(sink, b"+") {
        Ok(()) => put_text(sink, Buffer::new().format(distance).as_bytes()),
        Err(failed) => Err(failed),
    }
}

/// Puts a piece.
fn put_piece<K: Sink>(sink: &mut K, names: &NameTable, piece: Piece<'_>) -> Result<(), Failed>
    ensures { MatchResult result
        (λ _. PutsAll (piece_bytes names.now piece.entry) (told (K.put_bytes sink.old) (K.faults sink.old)) (told (K.put_bytes sink.new) (K.faults sink.new)))
        (λ _. PutsPart (piece_bytes names.now piece.entry) (told (K.put_bytes sink.old) (K.faults sink.old)) (told (K.put_bytes sink.new) (K.faults sink.new))) }
{
    match piece {
        Piece::Text(text) => put_text(sink, text),
        Piece::Name(number) => put_text(sink, name_of(names, number)),
        Piece::Number(number) => put_text(sink, Buffer::new().format(number).as_bytes()),
        Piece::Index(index) => put_text(sink, Buffer::new().format(index).as_bytes()),
        Piece::Offset(offset) => put_text(sink, Buffer::new().format(offset).as_bytes()),
        Piece::Bridge(distance) => put_bridge(sink, distance),
    }
}

/// Puts pieces one after another.
pub fn put_pieces<K: Sink>(
    sink: &mut K,
    names: &NameTable,
    pieces: &[Piece<'_>],
) -> Result<(), Failed>
    ensures { MatchResult result
        (λ _. PutsAll (joined (map (piece_bytes names.now) pieces.now)) (told (K.put_bytes sink.old) (K.faults sink.old)) (told (K.put_bytes sink.new) (K.faults sink.new)))
        (λ _. PutsPart (joined (map (piece_bytes names.now) pieces.now)) (told (K.put_bytes sink.old) (K.faults sink.old)) (told (K.put_bytes sink.new) (K.faults sink.new))) }
{
    for piece in pieces {
        match put_piece(sink, names, *piece) {
            Ok(()) => {}
            Err(failed) => return Err(failed),
        }
    }
    Ok(())
}
