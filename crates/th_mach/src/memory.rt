//! Memory: areas of bytes, of which none has an address of another.

ghost use Rattle.std.specs.Prelude.{◌≡◌, ◌<◌, ◌≤◌, ◌^◌, ℕ, [], ◌∷◌, ◌++◌, length, map, All, IsTrue, IfOk, IfSome, IfNone, Some, option_map};
ghost use Rattle.th_elf.specs.Run.{area_of, region};
ghost use Rattle.th_elf.specs.Lawful.{AreLawful};
ghost use Rattle.th_rv.specs.Memory.{byte_at, put_at, number_at, put_number, bytes_at};
ghost use Rattle.th_rv.specs.Table.{Valid};
ghost use Rattle.th_mach.specs.Code.{spelled};
ghost use Rattle.th_mach.specs.Apart.{Holds, IsNowhere};

use crate::area::{Area, REGION};
use crate::places::Places;
use arrayvec::ArrayVec;
use std::alloc::{AllocError, Global};
use std::marker::Model;
use th_elf::Segment;
use th_rv::Instr;

/// The greatest length of an exception's name, in bytes.
pub const LONGEST_NAME: usize = 129;

/// The memory of segments, in their order, and of the region. Contracts see it as its areas. The
/// places are where to look for an address; each look-up that they lead to is checked.
#[derive(Drop)]
pub(crate) struct Memory {
    areas: Vec<Area>,
    places: Places,
}

impl Model for Memory {
    ghost use Rattle.std.specs.Prelude.{List};
    ghost use Rattle.th_rv.specs.Memory as memory;
    ghost use Rattle.th_mach.specs.Apart.{Apart};

    ghost Value = { List memory.Area };

    ghost view = { λ m. m.areas.items };

    ghost invariant = { λ m. Apart m.areas.items };
}

/// The areas of segments, in their order, and of the region.
fn areas_of(alloc: Global, segments: &[Segment], room: u32) -> Result<Vec<Area>, AllocError>
    requires { All (λ s. length s.bytes ≤ s.size) segments.now }
    ensures { IfOk result (λ areas. areas.items ≡ map area_of segments.now ++ region room ∷ []) }
{
    let mut areas = Vec::new(alloc);
    for segment in segments {
        areas.push(Area::of_segment(alloc, segment)?)?;
    }
    areas.push(Area::of_region(alloc, room)?)?;
    Ok(areas)
}

/// The area that has an address, looked for in one after the other.
fn covering(areas: &[Area], at: u64) -> Option<usize>
    ensures found { IfSome result (λ k. Holds areas.now k at 1) }
    ensures none { IfNone result (IsNowhere areas.now at) }
{
    for k in 0..areas.len() {
        if areas[k].covers(at) {
            return Some(k);
        }
    }
    None
}

impl Memory {
    /// The memory at the start: of segments and of a region of so many bytes.
    pub(crate) fn of(alloc: Global, segments: &[Segment], room: u32) -> Result<Memory, AllocError>
        requires { AreLawful segments.now }
        ensures { IfOk result (λ m. m ≡ map area_of segments.now ++ region room ∷ []) }
    {
        let areas = areas_of(alloc, segments, room)?;
        let places = Places::of(alloc, &areas)?;
        Ok(Memory { areas, places })
    }

    /// Whether this area has so many addresses from one on.
    #[inline(always)]
    fn is_holder(&self, k: usize, at: u64, count: usize) -> bool
        ensures { IsTrue result → Holds self.now k at count }
    {
        if k >= self.areas.len() {
            return false;
        }
        let area = &self.areas[k];
        area.spans(at, count)
    }

    /// An area that has so many addresses from one on, where the places lead to one.
    #[inline(always)]
    fn holder(&self, at: u64, count: usize) -> Option<usize>
        ensures { IfSome result (λ k. Holds self.now k at count) }
    {
        let near = if at >= u64::from(REGION) {
            self.areas.len().wrapping_sub(1)
        } else {
            self.places.guess(at)
        };
        if self.is_holder(near, at, count) {
            return Some(near);
        }
        self.far_holder(at, count)
    }

    /// The same where the page's area isn't one.
    #[cold]
    #[inline(never)]
    fn far_holder(&self, at: u64, count: usize) -> Option<usize>
        ensures { IfSome result (λ k. Holds self.now k at count) }
    {
        let found = self.places.find(at);
        if self.is_holder(found, at, count) {
            return Some(found);
        }
        None
    }

    /// The area that has an address.
    fn place(&self, at: u64) -> Option<usize>
        ensures found { IfSome result (λ k. Holds self.now k at 1) }
        ensures none { IfNone result (IsNowhere self.now at) }
    {
        match self.holder(at, 1) {
            Some(k) => Some(k),
            None => covering(&self.areas, at),
        }
    }

    /// The byte at an address, where the flag allows it.
    pub(crate) fn byte(&self, flag: u32, at: u64) -> Option<u8>
        requires { 0 < flag }
        ensures { result ≡ byte_at flag self.now at }
    {
        match self.place(at) {
            Some(k) => {
                let area = &self.areas[k];
                area.byte(flag, at)
            }
            None => None,
        }
    }

    /// The halfword at an address, where the flag allows each of its bytes.
    #[inline(always)]
    pub(crate) fn half(&self, flag: u32, at: u64) -> Option<u32>
        requires flag { 0 < flag }
        requires room { at < 2 ^ 32 }
        ensures number { result ≡ number_at 2 flag self.now at }
        ensures low { IfSome result (λ v. v < 2 ^ 16) }
    {
        match self.holder(at, 2) {
            Some(k) => {
                let area = &self.areas[k];
                area.half(flag, at)
            }
            None => self.split_half(flag, at),
        }
    }

    /// The halfword at an address whose bytes may lie in several areas.
    #[cold]
    #[inline(never)]
    fn split_half(&self, flag: u32, at: u64) -> Option<u32>
        requires flag { 0 < flag }
        requires room { at < 2 ^ 32 }
        ensures number { result ≡ number_at 2 flag self.now at }
        ensures low { IfSome result (λ v. v < 2 ^ 16) }
    {
        let first = self.byte(flag, at)?;
        let second = self.byte(flag, at + 1)?;
        Some(u32::from(first) + 256 * u32::from(second))
    }

    /// The word at an address, where the flag allows each of its bytes.
    #[inline(always)]
    pub(crate) fn word(&self, flag: u32, at: u64) -> Option<u32>
        requires flag { 0 < flag }
        requires room { at < 2 ^ 32 }
        ensures { result ≡ number_at 4 flag self.now at }
    {
        match self.holder(at, 4) {
            Some(k) => {
                let area = &self.areas[k];
                area.word(flag, at)
            }
            None => self.split_word(flag, at),
        }
    }

    /// The word at an address whose bytes may lie in several areas.
    #[cold]
    #[inline(never)]
    fn split_word(&self, flag: u32, at: u64) -> Option<u32>
        requires flag { 0 < flag }
        requires room { at < 2 ^ 32 }
        ensures { result ≡ number_at 4 flag self.now at }
    {
        let first = self.byte(flag, at)?;
        let second = self.byte(flag, at + 1)?;
        let third = self.byte(flag, at + 2)?;
        let fourth = self.byte(flag, at + 3)?;
        let high = u32::from(third) + 256 * u32::from(fourth);
        Some(u32::from(first) + 256 * (u32::from(second) + 256 * high))
    }

    /// The instruction at an address, where it is decoded.
    #[inline(always)]
    pub(crate) fn instr(&self, at: u64) -> Option<Instr>
        ensures spells { IfSome result (λ instr. spelled (number_at 4 1 self.now at) ≡ Some instr) }
        ensures valid { IfSome result (λ instr. Valid instr) }
    {
        match self.holder(at, 4) {
            Some(k) => {
                let area = &self.areas[k];
                area.instr(at)
            }
            None => None,
        }
    }

    /// So many bytes from an address on; none where one of them can't be loaded.
    pub(crate) fn bytes(&self, at: u32, length: u32) -> Option<ArrayVec<u8, LONGEST_NAME>>
        requires { length ≤ LONGEST_NAME }
        ensures { option_map (λ bytes. bytes.items) result ≡ bytes_at length self.now at }
    {
        let mut bytes = ArrayVec::new();
        for i in 0..u64::from(length) {
            let byte = self.byte(4, u64::from(at) + i)?;
            bytes.push(byte);
        }
        Some(bytes)
    }

    /// Puts a byte at an address, where an area has it.
    pub(crate) fn put(&mut self, at: u64, value: u8)
        ensures { self.new ≡ put_at self.old at value }
    {
        match self.place(at) {
            Some(k) => {
                let area = &mut self.areas[k];
                area.put(at, value);
            }
            None => {}
        }
    }

    /// Puts the low halfword of a word at an address.
    #[inline(always)]
    pub(crate) fn put_half(&mut self, at: u64, value: u32)
        requires { at < 2 ^ 32 }
        ensures { self.new ≡ put_number 2 self.old at value }
    {
        match self.holder(at, 2) {
            Some(k) => {
                let area = &mut self.areas[k];
                area.put_half(at, value);
            }
            None => self.put_split_half(at, value),
        }
    }

    /// Puts the low halfword of a word at an address whose bytes may lie in several areas.
    #[cold]
    #[inline(never)]
    fn put_split_half(&mut self, at: u64, value: u32)
        requires { at < 2 ^ 32 }
        ensures { self.new ≡ put_number 2 self.old at value }
    {
        self.put(at, (value % 256) as u8);
        self.put(at + 1, (value / 256 % 256) as u8);
    }

    /// Puts a word at an address.
    #[inline(always)]
    pub(crate) fn put_word(&mut self, at: u64, value: u32)
        requires { at < 2 ^ 32 }
        ensures { self.new ≡ put_number 4 self.old at value }
    {
        match self.holder(at, 4) {
            Some(k) => {
                let area = &mut self.areas[k];
                area.put_word(at, value);
            }
            None => self.put_split_word(at, value),
        }
    }

    /// Puts a word at an address whose bytes may lie in several areas.
    #[cold]
    #[inline(never)]
    fn put_split_word(&mut self, at: u64, value: u32)
        requires { at < 2 ^ 32 }
        ensures { self.new ≡ put_number 4 self.old at value }
    {
        self.put(at, (value % 256) as u8);
        self.put(at + 1, (value / 256 % 256) as u8);
        self.put(at + 2, (value / 65536 % 256) as u8);
        self.put(at + 3, (value / 16777216 % 256) as u8);
    }
}
