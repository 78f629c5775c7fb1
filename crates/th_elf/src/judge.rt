//! Whether a file is loadable.
ghost use Rattle.std.specs.Prelude.{◌≡◌, ◌<◌, All, IfOk};
ghost use Rattle.std.specs.List.{list_all};
ghost use Rattle.th_elf.specs.declared.error.Field.TheVariants as field;
ghost use Rattle.th_elf.specs.Loadable.{meets, first_of, header_fields, is_loaded, is_placed, are_all_apart, loaded_headers};
ghost use Rattle.th_elf.specs.Rising.{rises_from};

use crate::error::Field;
use crate::file::{byte_of, half_of, header_at, lies_in, word_of};
use crate::header::Header;
use std::alloc::{AllocError, Global};

/// How many bytes the file header has, and a program header.
const FILE_HEADER: usize = 52;

const PROGRAM_HEADER: usize = 32;

/// The type of a program header whose segment is loaded.
const PT_LOAD: u32 = 1;

/// The first address above all segments.
const LIMIT: u64 = 0x0800_0000;

fn has_magic(file: &[u8]) -> bool
    ensures { result ≡ meets file.now field.Magic }
{
    byte_of(file, 0) == 0x7F
        && byte_of(file, 1) == b'E'
        && byte_of(file, 2) == b'L'
        && byte_of(file, 3) == b'F'
}

fn has_version(file: &[u8]) -> bool
    ensures { result ≡ meets file.now field.Version }
{
    byte_of(file, 6) == 1 && word_of(file, 20) == 1
}

fn has_entries(file: &[u8]) -> bool
    ensures { result ≡ meets file.now field.Entries }
{
    let count = half_of(file, 44) as usize;
    count == 0
        || half_of(file, 42) as usize == PROGRAM_HEADER
            && lies_in(file, word_of(file, 28) as usize, PROGRAM_HEADER * count)
}

/// The first condition on the header and the table of program headers that the file doesn't meet.
pub fn header_fault(file: &[u8]) -> Option<Field>
    ensures { result ≡ first_of file.now header_fields }
{
    if file.len() < FILE_HEADER {
        return Some(Field::Length);
    }
    if !has_magic(file) {
        return Some(Field::Magic);
    }
    if byte_of(file, 4) != 1 {
        return Some(Field::Class);
    }
    if byte_of(file, 5) != 1 {
        return Some(Field::Order);
    }
    if !has_version(file) {
        return Some(Field::Version);
    }
    if half_of(file, 16) != 2 {
        return Some(Field::Kind);
    }
    if half_of(file, 18) != 243 {
        return Some(Field::Machine);
    }
    if word_of(file, 36) % 2 != 0 {
        return Some(Field::Flags);
    }
    if !has_entries(file) {
        return Some(Field::Entries);
    }
    None
}

/// Whether a program header is of something loaded.
fn is_loaded(header: &Header) -> bool
    ensures { result ≡ is_loaded header.now }
{
    header.kind == PT_LOAD && header.memsz > 0
}

/// The program headers of what is loaded, in the file's order.
pub fn loaded_headers(alloc: Global, file: &[u8]) -> Result<Vec<Header>, AllocError>
    ensures { IfOk result (λ headers. headers.items ≡ loaded_headers file.now) }
{
    let first = word_of(file, 28) as usize;
    let count = half_of(file, 44) as usize;
    let mut headers = Vec::new(alloc);
    for i in 0..count {
        let header = header_at(file, first + PROGRAM_HEADER * i);
        if is_loaded(&header) {
            headers.push(header)?;
        }
    }
    Ok(headers)
}

/// Whether a segment by itself is lawful.
fn is_placed(file: &[u8], header: &Header) -> bool
    ensures { result ≡ is_placed file.now header.now }
{
    let end = u64::from(header.vaddr) + u64::from(header.memsz);
    header.filesz <= header.memsz
        && lies_in(file, header.offset as usize, header.filesz as usize)
        && end <= LIMIT
}

/// Whether each of the segments is lawful by itself.
pub fn are_placed(file: &[u8], headers: &[Header]) -> bool
    ensures { result ≡ list_all (is_placed file.now) headers.now }
{
    headers.iter().all(|header| is_placed(file, header))
}

/// Whether each segment begins where the one before it has ended.
fn rises(headers: &[Header]) -> bool
    ensures { result ≡ rises_from 0 headers.now }
{
    let mut end = 0;
    for header in headers {
        if u64::from(header.vaddr) < end {
            return false;
        }
        end = u64::from(header.vaddr) + u64::from(header.memsz);
    }
    true
}

/// Whether no segment has an address of another. They are put in order of their addresses, so each is compared with
/// the next alone.
pub fn are_apart(alloc: Global, headers: &[Header]) -> Result<bool, AllocError>
    requires { All (λ header. 0 < header.memsz) headers.now }
    ensures { IfOk result (λ apart. apart ≡ are_all_apart headers.now) }
{
    let mut in_order = Vec::from_slice(alloc, headers)?;
    in_order.sort_unstable_by_key(|header| header.vaddr);
    Ok(rises(&in_order))
}
