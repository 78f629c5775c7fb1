//! Program headers: what a file says of each of its segments.

/// The fields of a program header that are read (docs/FORMATS.md).
#[derive(Clone, Copy, Debug)]
pub struct Header {
    /// The type (p_type); 1 is PT_LOAD, a segment that is loaded.
    pub kind: u32,
    /// The place in the file of the segment's first byte (p_offset).
    pub offset: u32,
    /// The address of the segment's first byte (p_vaddr).
    pub vaddr: u32,
    /// How many bytes of the segment the file has (p_filesz).
    pub filesz: u32,
    /// How many bytes the segment has in memory (p_memsz).
    pub memsz: u32,
    /// What may be done with the segment's bytes (p_flags).
    pub flags: u32,
}
