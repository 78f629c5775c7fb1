//! An area of memory: bytes at addresses one after the other.

ghost use Rattle.std.specs.Prelude.{◌≡◌, ◌≢◌, ◌<◌, ◌≤◌, ◌+◌, ◌-◌, ◌*◌, ◌^◌, ℕ, [], ◌∷◌, length, slice_set, IsTrue, IfOk, IfSome};
ghost use Rattle.th_elf.specs.Run.{area_of, region};
ghost use Rattle.th_rv.specs.Memory.{has, allows, byte_at, put_at, area_set, number_at, put_number};
ghost use Rattle.th_mach.specs.Apart.{Spans};
ghost use Rattle.th_mach.specs.Code.{IsFetched};

use std::alloc::{AllocError, Global};
use std::marker::Model;
use th_elf::Segment;
use th_rv::{Instr, decode};

/// The first address of the region.
pub(crate) const REGION: u32 = 0x1000_0000;

/// A run of bytes from an address on. The flags are a sum of 1 (fetched from), 2 (stored to) and
/// 4 (loaded from). Of an area that is fetched from, the code has for each word the instruction
/// that it spells, or EBREAK where it spells none; where the first address isn't a multiple of 4,
/// there is no code, and each fetch decodes its word.
#[derive(Drop)]
pub(crate) struct Area {
    at: u32,
    flags: u32,
    bytes: Vec<u8>,
    code: Vec<Instr>,
}

impl Model for Area {
    ghost use Rattle.th_rv.specs.Memory as memory;

    ghost Value = { memory.Area };

    ghost use Rattle.th_mach.specs.Code.{Spells};

    ghost view = { λ a. record { at = a.at; flags = a.flags; bytes = a.bytes.items } };

    ghost invariant = { λ a. Spells (record { at = a.at; flags = a.flags; bytes = a.bytes.items }) a.code.items };
}

/// Sets the `k`-th instruction, where there is one.
fn set_code(code: &mut Vec<Instr>, k: usize, instr: Instr)
    ensures { code.new.items ≡ slice_set code.old.items k instr }
{
    if k < code.len() {
        code[k] = instr;
    }
}

impl Area {
    /// The memory of a segment: its bytes, then zeros up to its size.
    pub(crate) fn of_segment(alloc: Global, segment: &Segment) -> Result<Area, AllocError>
        requires { length segment.now.bytes ≤ segment.now.size }
        ensures { IfOk result (λ area. area ≡ area_of segment.now) }
    {
        let mut area = Area::undecoded(alloc, segment)?;
        for k in 0..area.code.len() {
            area.renew(k);
        }
        Ok(area)
    }

    /// The memory of a segment, with room for the instructions of one that is fetched from.
    #[tactic(auto, unfolding(th_elf::specs::Run::area_of))]
    fn undecoded(alloc: Global, segment: &Segment) -> Result<Area, AllocError>
        requires { length segment.now.bytes ≤ segment.now.size }
        ensures { IfOk result (λ area. area ≡ area_of segment.now) }
    {
        let size = segment.size as usize;
        let mut bytes = Vec::with_capacity(alloc, size)?;
        bytes.extend_from_slice(segment.bytes.as_slice())?;
        bytes.resize(size, 0)?;
        let is_fetched = segment.flags % 2 == 1 && segment.at % 4 == 0;
        let count = if is_fetched { size / 4 } else { 0 };
        let mut code = Vec::with_capacity(alloc, count)?;
        code.resize(count, Instr::Ebreak)?;
        Ok(Area {
            at: segment.at,
            flags: segment.flags,
            bytes,
            code,
        })
    }

    /// The region: zeros that are stored to and loaded from.
    #[tactic(auto, unfolding(th_elf::specs::Run::region))]
    pub(crate) fn of_region(alloc: Global, room: u32) -> Result<Area, AllocError>
        ensures { IfOk result (λ area. area ≡ region room) }
    {
        let size = room as usize;
        let mut bytes = Vec::with_capacity(alloc, size)?;
        bytes.resize(size, 0)?;
        Ok(Area {
            at: REGION,
            flags: 6,
            bytes,
            code: Vec::new(alloc),
        })
    }

    /// The first address.
    pub(crate) fn at(&self) -> u32 {
        self.at
    }

    /// The count of addresses.
    pub(crate) fn size(&self) -> usize {
        self.bytes.len()
    }

    /// Whether the area has the address.
    #[tactic(auto, unfolding(th_rv::specs::Memory::has))]
    pub(crate) fn covers(&self, at: u64) -> bool
        ensures same { result ≡ has self.now at }
        ensures from { IsTrue result → self.now.at ≤ at }
        ensures within { IsTrue result → at - self.now.at < length self.now.bytes }
    {
        let first = u64::from(self.at);
        at >= first && at - first < self.bytes.len() as u64
    }

    /// Whether the area has so many addresses from one on.
    pub(crate) fn spans(&self, at: u64, count: usize) -> bool
        ensures { IsTrue result → Spans self.now at count }
    {
        let first = u64::from(self.at);
        let size = self.bytes.len();
        at >= first && at - first <= size as u64 && count <= size - (at - first) as usize
    }

    /// Whether the flags of the area have the flag.
    #[tactic(auto, unfolding(th_rv::specs::Memory::allows))]
    fn permits(&self, flag: u32) -> bool
        requires { 0 < flag }
        ensures { result ≡ allows flag self.now.flags }
    {
        self.flags / flag % 2 == 1
    }

    /// The byte at an address of the area, where the flag allows it.
    pub(crate) fn byte(&self, flag: u32, at: u64) -> Option<u8>
        requires flag { 0 < flag }
        requires from { self.now.at ≤ at }
        requires within { at - self.now.at < length self.now.bytes }
        ensures { result ≡ byte_at flag (self.now ∷ []) at }
    {
        if self.permits(flag) {
            Some(self.bytes[(at - u64::from(self.at)) as usize])
        } else {
            None
        }
    }

    /// The halfword at an address of the area, where the flag allows it.
    pub(crate) fn half(&self, flag: u32, at: u64) -> Option<u32>
        requires flag { 0 < flag }
        requires room { at + 3 < 2 ^ 64 }
        requires spans { Spans self.now at 2 }
        ensures number { result ≡ number_at 2 flag (self.now ∷ []) at }
        ensures low { IfSome result (λ v. v < 2 ^ 16) }
    {
        let first = self.byte(flag, at)?;
        let second = self.byte(flag, at + 1)?;
        Some(u32::from(first) + 256 * u32::from(second))
    }

    /// The word at an address of the area, where the flag allows it.
    pub(crate) fn word(&self, flag: u32, at: u64) -> Option<u32>
        requires flag { 0 < flag }
        requires room { at + 3 < 2 ^ 64 }
        requires spans { Spans self.now at 4 }
        ensures { result ≡ number_at 4 flag (self.now ∷ []) at }
    {
        let first = self.byte(flag, at)?;
        let second = self.byte(flag, at + 1)?;
        let third = self.byte(flag, at + 2)?;
        let fourth = self.byte(flag, at + 3)?;
        let high = u32::from(third) + 256 * u32::from(fourth);
        Some(u32::from(first) + 256 * (u32::from(second) + 256 * high))
    }

    /// The instruction that the area's `k`-th word spells, or EBREAK where there is none.
    fn read(&self, k: usize) -> Instr
        ensures { result ≢ Instr.Ebreak → IsFetched self.now (self.now.at + 4 * k) result }
    {
        if k >= self.bytes.len() / 4 {
            return Instr::Ebreak;
        }
        let at = u64::from(self.at) + 4 * k as u64;
        match self.word(1, at) {
            None => Instr::Ebreak,
            Some(word) => decode(word).unwrap_or(Instr::Ebreak),
        }
    }

    /// Decodes the area's `k`-th word again.
    fn renew(&mut self, k: usize)
        ensures { self.new ≡ self.old }
    {
        if k < self.code.len() {
            let instr = self.read(k);
            self.code[k] = instr;
        }
    }

    /// The instruction at an address of the area, where it is decoded.
    pub(crate) fn instr(&self, at: u64) -> Option<Instr>
        ensures { IfSome result (λ instr. IsFetched self.now at instr) }
    {
        let first = u64::from(self.at);
        if at < first || (at - first) % 4 != 0 {
            return None;
        }
        let k = ((at - first) / 4) as usize;
        if k >= self.code.len() {
            return None;
        }
        match self.code[k] {
            Instr::Ebreak => None,
            instr => Some(instr),
        }
    }

    /// Puts a byte at an address of the area. The instruction there is no longer decoded.
    #[tactic(auto, unfolding(th_rv::specs::Memory::area_set))]
    fn write(&mut self, at: u64, value: u8)
        requires from { self.old.at ≤ at }
        requires within { at - self.old.at < length self.old.bytes }
        ensures set { self.new ≡ area_set self.old (at - self.old.at) value }
        ensures alone { put_at (self.old ∷ []) at value ≡ self.new ∷ [] }
        ensures first { self.new.at ≡ self.old.at }
        ensures size { length self.new.bytes ≡ length self.old.bytes }
    {
        let i = (at - u64::from(self.at)) as usize;
        self.bytes[i] = value;
        set_code(&mut self.code, i / 4, Instr::Ebreak);
    }

    /// Decodes the word again that has an address.
    fn renew_at(&mut self, at: u64)
        ensures { self.new ≡ self.old }
    {
        let first = u64::from(self.at);
        if at >= first {
            self.renew(((at - first) / 4) as usize);
        }
    }

    /// Puts a byte at an address of the area.
    pub(crate) fn put(&mut self, at: u64, value: u8)
        requires from { self.old.at ≤ at }
        requires within { at - self.old.at < length self.old.bytes }
        ensures set { self.new ≡ area_set self.old (at - self.old.at) value }
        ensures first { self.new.at ≡ self.old.at }
        ensures size { length self.new.bytes ≡ length self.old.bytes }
    {
        self.write(at, value);
        self.renew_at(at);
    }

    /// Puts the low halfword of a word at an address of the area.
    pub(crate) fn put_half(&mut self, at: u64, value: u32)
        requires room { at + 3 < 2 ^ 64 }
        requires spans { Spans self.old at 2 }
        ensures alone { put_number 2 (self.old ∷ []) at value ≡ self.new ∷ [] }
        ensures first { self.new.at ≡ self.old.at }
        ensures size { length self.new.bytes ≡ length self.old.bytes }
    {
        self.write(at, (value % 256) as u8);
        self.write(at + 1, (value / 256 % 256) as u8);
        self.renew_at(at);
    }

    /// Puts a word at an address of the area.
    pub(crate) fn put_word(&mut self, at: u64, value: u32)
        requires room { at + 3 < 2 ^ 64 }
        requires spans { Spans self.old at 4 }
        ensures alone { put_number 4 (self.old ∷ []) at value ≡ self.new ∷ [] }
        ensures first { self.new.at ≡ self.old.at }
        ensures size { length self.new.bytes ≡ length self.old.bytes }
    {
        self.write(at, (value % 256) as u8);
        self.write(at + 1, (value / 256 % 256) as u8);
        self.write(at + 2, (value / 65536 % 256) as u8);
        self.write(at + 3, (value / 16777216 % 256) as u8);
        self.renew_at(at);
    }
}
