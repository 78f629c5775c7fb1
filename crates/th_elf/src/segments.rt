//! What a file says is to be loaded.
ghost use Rattle.std.specs.Prelude.{◌≡◌, ℕ, List, length, option_copied, slice_get};

use crate::lists::ByteList;
use std::marker::Model;

/// A part of memory that a file fills.
#[derive(Drop)]
pub struct Segment {
    /// The first address.
    pub at: u32,
    /// A sum of 1 (fetched from), 2 (stored to) and 4 (loaded from); other bits have no meaning.
    pub flags: u32,
    /// How many bytes of memory the segment has.
    pub size: u32,
    /// The first of these bytes; all further ones are 0.
    pub bytes: ByteList,
}

/// A list of segments. A contract sees the list of its items.
#[derive(Drop)]
pub struct SegmentList {
    segments: Vec<Segment>,
}

impl Model for SegmentList {
    ghost use Rattle.std.specs.Prelude.{List};
    ghost use Rattle.th_elf.specs.declared.segments.Segment.{Segment};

    ghost Value = { List Segment };

    ghost view = { λ a. a.segments.items };
}

impl SegmentList {
    /// The list of these items. It takes no memory.
    pub fn of(items: Vec<Segment>) -> Self
        ensures { result ≡ items.items }
    {
        SegmentList { segments: items }
    }

    /// How many items the list has.
    pub fn len(&self) -> usize
        ensures { result ≡ length self.now }
    {
        self.segments.len()
    }

    /// The item at place `k`, from 0; None exactly where `k` is not below the length.
    pub fn get(&self, k: usize) -> Option<&Segment>
        ensures { option_copied result ≡ slice_get self.now k }
    {
        self.segments.get(k)
    }

    /// The items as a slice.
    pub fn as_slice(&self) -> &[Segment]
        ensures { result.now ≡ self.now }
    {
        &self.segments
    }
}

/// What a loadable file is loaded as.
#[derive(Drop)]
pub struct Segments {
    /// The address of the first instruction.
    pub entry: u32,
    /// The segments in the order of the file's program headers.
    pub list: SegmentList,
}
