//! Files of any maker, read as segments.
ghost use Rattle.std.specs.Prelude.{◌≡◌, None, true, map, IfOk, IfErr};
ghost use Rattle.std.specs.List.{list_all};
ghost use Rattle.th_elf.specs.Lawful.{AreLawful};
ghost use Rattle.th_elf.specs.Loadable.{Refuses, first_failing, is_placed, lies_in, segment_of, segments_of};

use crate::error::{ElfError, Field};
use crate::file::{part_of, word_of};
use crate::header::Header;
use crate::judge::{are_apart, are_placed, header_fault, loaded_headers};
use crate::lists::ByteList;
use crate::segments::{Segment, SegmentList, Segments};
use std::alloc::{AllocError, Global};

/// What a program header's segment is loaded as.
#[tactic(auto, unfolding(crate::specs::Loadable::segment_of))]
fn segment_of(alloc: Global, file: &[u8], header: &Header) -> Result<Segment, AllocError>
    requires { lies_in file.now header.now.offset header.now.filesz ≡ true }
    ensures { IfOk result (λ segment. segment ≡ segment_of file.now header.now) }
{
    let part = part_of(file, header.offset as usize, header.filesz as usize);
    Ok(Segment {
        at: header.vaddr,
        flags: header.flags,
        size: header.memsz,
        bytes: ByteList::of(Vec::from_slice(alloc, part)?),
    })
}

/// What the segments of program headers are loaded as.
fn segments_of(alloc: Global, file: &[u8], headers: &[Header]) -> Result<Vec<Segment>, AllocError>
    requires { list_all (is_placed file.now) headers.now ≡ true }
    ensures { IfOk result (λ segments. segments.items ≡ map (segment_of file.now) headers.now) }
{
    let mut segments = Vec::with_capacity(alloc, headers.len())?;
    for header in headers {
        segments.push(segment_of(alloc, file, header)?)?;
    }
    Ok(segments)
}

/// Reads an executable file of any maker (docs/FORMATS.md): the segments that are to be loaded, in the order of the
/// program headers.
///
/// The error is `BadElf` with the first condition that the file doesn't meet, exactly where it isn't loadable, and
/// `Memory` for want of memory.
pub fn read_elf(alloc: Global, bytes: &[u8]) -> Result<Segments, ElfError>
    ensures loadable { IfOk result (λ segments. first_failing bytes.now ≡ None) }
    ensures ok { IfOk result (λ segments. segments ≡ segments_of bytes.now) }
    ensures lawful { IfOk result (λ segments. AreLawful segments.list) }
    ensures refused { IfErr result (λ error. Refuses bytes.now error) }
{
    if let Some(field) = header_fault(bytes) {
        return Err(ElfError::BadElf(field));
    }
    let headers = loaded_headers(alloc, bytes)?;
    if !are_placed(bytes, &headers) {
        return Err(ElfError::BadElf(Field::Segment));
    }
    if !are_apart(alloc, &headers)? {
        return Err(ElfError::BadElf(Field::Segment));
    }
    let list = segments_of(alloc, bytes, &headers)?;
    Ok(Segments {
        entry: word_of(bytes, 24),
        list: SegmentList::of(list),
    })
}
