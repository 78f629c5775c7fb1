//! The numbers of a file at their places, the low byte first.
ghost use Rattle.std.specs.Prelude.{◌≡◌, ◌+◌, ◌^◌, ◌<◌, true, take, drop};
ghost use Rattle.th_elf.specs.Loadable.{byte_of, half_of, word_of, header_at, lies_in};

use crate::header::Header;

/// The byte at a place; 0 beyond the file's end.
pub fn byte_of(file: &[u8], at: usize) -> u8
    ensures { result ≡ byte_of file.now at }
{
    file.get(at).copied().unwrap_or(0)
}

/// The number of 16 bits at a place.
pub fn half_of(file: &[u8], at: usize) -> u16
    requires { at + 1 < 2 ^ 64 }
    ensures { result ≡ half_of file.now at }
{
    u16::from_le_bytes([byte_of(file, at), byte_of(file, at + 1)])
}

/// The number of 32 bits at a place.
pub fn word_of(file: &[u8], at: usize) -> u32
    requires { at + 3 < 2 ^ 64 }
    ensures { result ≡ word_of file.now at }
{
    u32::from_le_bytes([
        byte_of(file, at),
        byte_of(file, at + 1),
        byte_of(file, at + 2),
        byte_of(file, at + 3),
    ])
}

/// The program header at a place.
#[tactic(auto, unfolding(crate::specs::Loadable::header_at))]
pub fn header_at(file: &[u8], at: usize) -> Header
    requires { at + 32 < 2 ^ 64 }
    ensures { result ≡ header_at file.now at }
{
    Header {
        kind: word_of(file, at),
        offset: word_of(file, at + 4),
        vaddr: word_of(file, at + 8),
        filesz: word_of(file, at + 16),
        memsz: word_of(file, at + 20),
        flags: word_of(file, at + 24),
    }
}

/// Whether `n` bytes from a place on lie in the file; no byte lies anywhere.
pub fn lies_in(file: &[u8], at: usize, n: usize) -> bool
    requires { at + n < 2 ^ 64 }
    ensures { result ≡ lies_in file.now at n }
{
    n == 0 || at + n <= file.len()
}

/// The `n` bytes from a place on, which lie in the file.
pub fn part_of(file: &[u8], at: usize, n: usize) -> &[u8]
    requires inside { lies_in file.now at n ≡ true }
    requires fits { at + n < 2 ^ 64 }
    ensures { result.now ≡ take n (drop at file.now) }
{
    if n == 0 {
        return &file[..0];
    }
    &file[at..at + n]
}
