//! Bare names in the heads of private classes.
ghost use Rattle.std.specs.Prelude.{◌≡◌, option_map, IfOk, OnOk, ◌++◌};
ghost use Rattle.th_tree.specs.Names.{place_of};
ghost use Rattle.th_rules.specs.Cores.{name_at};
ghost use Rattle.th_lex.specs.Canonical.{written};
ghost use Rattle.th_head_texts.specs.Heads.{full_words, interface_of_name, words_of, written_with};
ghost use Rattle.th_head_texts.specs.Spaced.{read_by, spaced};

use crate::words::{append_interface, append_token};
use std::alloc::{AllocError, Global};
use th_hier::{Index, Numbers};
use th_tree::{NameTable, TokenKind};

/// By what the bare names of a head are read, beside the table of names: the items of interfaces, the interface that the module
/// implements, and the class's type parameters.
#[derive(Clone, Copy)]
pub(crate) struct Reading<'a> {
    pub index: &'a Index,
    pub implements: Option<u32>,
    pub params: &'a Numbers,
}

/// The number of a name that the table has; a name that it does not have is answered as want of memory.
fn number_there(alloc: Global, names: &mut NameTable, name: &[u8]) -> Result<u32, AllocError>
    ensures number { IfOk result (λ n. n ≡ place_of names.old name.now) }
    ensures names { IfOk result (λ _. names.new ≡ names.old) }
{
    let count = names.len();
    if count >= 0xffff_ffff {
        return Err(AllocError);
    }
    let number = names.number(alloc, name)?;
    if names.len() > count {
        return Err(AllocError);
    }
    Ok(number)
}

/// The name with the number, which is empty where the table has no such number.
fn name_bytes(names: &NameTable, number: u32) -> &[u8]
    ensures { result.now ≡ name_at names.now number }
{
    match names.name(number) {
        Some(name) => name,
        None => &[],
    }
}

/// The number of the interface with which the name of this number is written.
fn written_with(reading: Reading<'_>, name: u32) -> Option<u32>
    ensures { result ≡ written_with reading.entry.index.now reading.entry.implements reading.entry.params.now name }
{
    if !reading.params.has(name) && reading.index.get_in(reading.implements, name).is_some() {
        reading.implements
    } else {
        None
    }
}

/// The number of the interface with which a bare name is written.
fn interface_of(
    alloc: Global,
    names: &mut NameTable,
    reading: Reading<'_>,
    name: &[u8],
) -> Result<Option<u32>, AllocError>
    ensures interface { IfOk result (λ r. option_map (name_at names.old) r ≡ interface_of_name (read_by names.old reading.entry) name.now) }
    ensures names { IfOk result (λ _. names.new ≡ names.old) }
{
    let number = number_there(alloc, names, name)?;
    Ok(written_with(reading, number))
}

/// Appends a name of this kind and these bytes, with the interface of this number where there is one.
fn append_full(
    names: &NameTable,
    interface: Option<u32>,
    begun: bool,
    kind: TokenKind,
    bytes: &[u8],
    text: &mut Vec<u8>,
) -> Result<(), AllocError>
    ensures { OnOk result (text.new.items ≡ text.old.items ++ spaced begun (full_words (option_map (name_at names.now) interface) (written kind bytes.now))) }
{
    match interface {
        None => append_token(text, begun, kind, bytes),
        Some(interface) => {
            append_interface(text, begun, name_bytes(names, interface))?;
            append_token(text, true, kind, bytes)
        }
    }
}

/// Appends a token of this kind and these bytes, with an interface where it is a bare name that is written with one.
pub(crate) fn append_words(
    alloc: Global,
    names: &mut NameTable,
    reading: Reading<'_>,
    bare: bool,
    begun: bool,
    kind: TokenKind,
    bytes: &[u8],
    text: &mut Vec<u8>,
) -> Result<(), AllocError>
    ensures text { OnOk result (text.new.items ≡ text.old.items ++ spaced begun (words_of (read_by names.old reading.entry) bare bytes.now (written kind bytes.now))) }
    ensures names { OnOk result (names.new ≡ names.old) }
{
    if bare {
        let interface = interface_of(alloc, names, reading, bytes)?;
        append_full(names, interface, begun, kind, bytes, text)
    } else {
        append_full(names, None, begun, kind, bytes, text)
    }
}
