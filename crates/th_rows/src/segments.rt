//! Machines of several segments, against docs/MACHINE.md: programs of an assembler, results by hand.

use crate::samples::GREETING;
use std::alloc::{AllocError, Global};
use std::process::Abort;
use std::test::Fail;
use th_elf::read_elf;
use th_mach::{Machine, Outcome};
use th_rv::Cause;
use th_world::{MemSink, MemSource};

/// A segment: its address, its flags, and words, of which it has the bytes from a first one on up to before another.
type Part<'a> = (u32, u32, &'a [u32], usize, usize);

/// Appends a number of 32 bits, the low byte first.
fn append(file: &mut Vec<u8>, number: u32) -> Result<(), AllocError> {
    file.extend_from_slice(&u32::to_le_bytes(number))
}

/// Appends the bytes of the segment.
fn append_part(alloc: Global, file: &mut Vec<u8>, part: &Part<'_>) -> Result<(), AllocError> {
    let (_, _, words, from, to) = *part;
    let mut bytes = Vec::new(alloc);
    for word in words {
        append(&mut bytes, *word)?;
    }
    for byte in bytes.iter().skip(from).take(to.saturating_sub(from)) {
        file.push(*byte)?;
    }
    Ok(())
}

/// The executable with these segments in this order, which begins at `entry`.
fn file_of(
    rt: &impl Abort,
    alloc: Global,
    entry: u32,
    parts: &[Part<'_>],
) -> Result<Vec<u8>, AllocError> {
    assert!(rt; parts.len() < 10);
    let header = &GREETING[..];
    let mut file = header[..24].to_vec(alloc)?;
    append(&mut file, entry)?;
    file.extend_from_slice(&header[28..44])?;
    append(&mut file, parts.len() as u32)?;
    append(&mut file, 0)?;
    let mut offset = 52 + 32 * parts.len() as u32;
    for part in parts {
        let (at, flags, _, from, to) = *part;
        assert!(rt; from <= to && to < 100);
        let size = (to - from) as u32;
        for number in [1, offset, at, at, size, size, flags, 1] {
            append(&mut file, number)?;
        }
        offset = offset.wrapping_add(size);
    }
    for part in parts {
        append_part(alloc, &mut file, part)?;
    }
    Ok(file)
}

/// The machine with these segments and a region of so many bytes, after so many steps, which have this outcome and put
/// these bytes.
fn after(
    rt: &impl Abort,
    alloc: Global,
    entry: u32,
    parts: &[Part<'_>],
    region: u32,
    steps: u64,
    answer: (Outcome, &[u8]),
) -> Result<Machine, Fail> {
    assert!(rt; region >= 4096 && region <= 67_108_864 && region % 16 == 0);
    let file = file_of(rt, alloc, entry, parts)?;
    let segments = read_elf(alloc, &file)?;
    let mut machine = Machine::load(alloc, &segments, region)?;
    let mut source = MemSource::new(Vec::new(alloc), Vec::new(alloc));
    let mut sink = MemSink::new(alloc, 10, Vec::new(alloc))?;
    let outcome = machine.run(steps, &mut source, &mut sink, &mut Vec::new(alloc));
    assert_eq!(rt; (outcome, sink.bytes()), answer);
    Ok(machine)
}

/// Stores an instruction as a word, as a half and as a byte, and runs each: `W`, `H`, `G`.
const STORED: [u32; 17] = [
    0x0000_0297, // auipc t0, 0
    0x0570_0337, // lui t1, 0x5700
    0x5133_0313, // addi t1, t1, 0x513
    0x0262_a223, // sw t1, 36(t0)
    0x4800_0313, // addi t1, zero, 0x480
    0x0262_9723, // sh t1, 46(t0)
    0x0040_0313, // addi t1, zero, 4
    0x0262_8ba3, // sb t1, 55(t0)
    0x0010_0893, // addi a7, zero, 1
    0x0000_0000, // becomes addi a0, zero, 'W'
    0x0000_0073, // ecall
    0x0570_0513, // addi a0, zero, 'W'; becomes addi a0, zero, 'H'
    0x0000_0073, // ecall
    0x0570_0513, // addi a0, zero, 'W'; becomes addi a0, zero, 'G'
    0x0000_0073, // ecall
    0x0030_0893, // addi a7, zero, 3
    0x0000_0073, // ecall
];

/// Runs an instruction three times and changes it in between: `A`, `B`, `C`.
const COUNTED: [u32; 12] = [
    0x0000_0297, // auipc t0, 0
    0x0010_0893, // addi a7, zero, 1
    0x0410_0513, // 1: addi a0, zero, 'A'
    0x0000_0073, // ecall
    0x00a2_c303, // lbu t1, 10(t0)
    0x0103_0313, // addi t1, t1, 16
    0x0062_8523, // sb t1, 10(t0)
    0x0013_8393, // addi t2, t2, 1
    0x0033_ae13, // slti t3, t2, 3
    0xfe0e_12e3, // bne t3, zero, 1b
    0x0030_0893, // addi a7, zero, 3
    0x0000_0073, // ecall
];

/// Stores a word that is no instruction in front of itself.
const ERASED: [u32; 3] = [
    0x0000_0297, // auipc t0, 0
    0x0002_a423, // sw zero, 8(t0)
    0x0000_0013, // addi zero, zero, 0; becomes 0
];

/// Puts an `A`.
const PUT: [u32; 6] = [
    0x0000_0000, // no instruction
    0x0010_0893, // addi a7, zero, 1
    0x0410_0513, // addi a0, zero, 'A'
    0x0000_0073, // ecall
    0x0030_0893, // addi a7, zero, 3
    0x0000_0073, // ecall
];

/// Puts the byte at 0x10000.
const LOADED: [u32; 6] = [
    0x0001_02b7, // lui t0, 0x10
    0x0002_c503, // lbu a0, 0(t0)
    0x0010_0893, // addi a7, zero, 1
    0x0000_0073, // ecall
    0x0030_0893, // addi a7, zero, 3
    0x0000_0073, // ecall
];

/// The bytes `ABCD`.
const LETTERS: [u32; 1] = [0x4443_4241];

/// What a trap answers where nothing was put.
macro_rules! trap {
    ($cause:ident, $pc:expr) => {
        (
            Outcome::Trap {
                cause: Cause::$cause,
                pc: $pc,
            },
            b"",
        )
    };
}

/// An entry, segments, and the outcome with the bytes put.
const PARTS: &[(u32, &[Part<'static>], (Outcome, &[u8]))] = &[
    (
        0x1_0000,
        &[(0x1_0000, 7, &STORED, 0, 68)],
        (Outcome::Ended, b"WHG"),
    ),
    (
        0x1_0000,
        &[(0x1_0000, 7, &COUNTED, 0, 48)],
        (Outcome::Ended, b"ABC"),
    ),
    (
        0x1_0000,
        &[(0x1_0000, 7, &ERASED, 0, 12)],
        trap!(Illegal, 0x1_0008),
    ),
    // What is to be changed isn't stored to.
    (
        0x1_0000,
        &[
            (0x1_0000, 7, &STORED, 0, 36),
            (0x1_0024, 5, &STORED, 36, 68),
        ],
        trap!(Store, 0x1_000c),
    ),
    // A word of code in two segments: both are fetched from, the first alone, or the second alone.
    (
        0x1_0004,
        &[(0x1_0000, 1, &PUT, 0, 10), (0x1_000a, 1, &PUT, 10, 24)],
        (Outcome::Ended, b"A"),
    ),
    (
        0x1_0004,
        &[(0x1_0000, 1, &PUT, 0, 10), (0x1_000a, 6, &PUT, 10, 24)],
        trap!(Fetch, 0x1_0008),
    ),
    (
        0x1_0004,
        &[
            (0x1_0000, 1, &PUT, 0, 8),
            (0x1_0008, 6, &PUT, 8, 10),
            (0x1_000a, 1, &PUT, 10, 24),
        ],
        trap!(Fetch, 0x1_0008),
    ),
    // A segment that begins between two words.
    (
        0x1_0004,
        &[(0x1_0002, 5, &PUT, 2, 24)],
        (Outcome::Ended, b"A"),
    ),
    (
        0x1_0002,
        &[(0x1_0002, 5, &PUT, 2, 24)],
        trap!(Fetch, 0x1_0002),
    ),
    (
        0x1_0000,
        &[(0x1_0002, 5, &PUT, 2, 24)],
        trap!(Fetch, 0x1_0000),
    ),
    // Two segments of one page, the one at the greater address first.
    (
        0x1_0008,
        &[(0x1_0008, 1, &LOADED, 0, 24), (0x1_0000, 4, &LETTERS, 0, 1)],
        (Outcome::Ended, b"A"),
    ),
    // The last word that a segment may have.
    (
        0x7ff_fffc,
        &[(0x7ff_fffc, 5, &PUT, 4, 8)],
        trap!(Fetch, 0x800_0000),
    ),
];

#[test]
fn parts(rt: HostRuntime) -> Result<(), Fail> {
    for &(entry, parts, answer) in PARTS {
        after(&rt, rt.alloc(), entry, parts, 4096, 50, answer)?;
    }
    Ok(())
}

/// The flags of two segments, which have the first and the last two bytes of the word at 0x20000; the instruction after
/// `lui t0, 0x20`; and then the outcome, t1 and the word.
const TOUCHING: &[(u32, u32, u32, (Outcome, &[u8]), u32, Option<u32>)] = &[
    // lw t1, 0(t0)
    (
        4,
        4,
        0x0002_a303,
        (Outcome::StepsUsed, b""),
        0x4443_4241,
        Some(0x4443_4241),
    ),
    (4, 2, 0x0002_a303, trap!(Load, 0x1_0004), 0, None),
    (2, 4, 0x0002_a303, trap!(Load, 0x1_0004), 0, None),
    // lhu t1, 0(t0) and lh t1, 2(t0)
    (4, 2, 0x0002_d303, (Outcome::StepsUsed, b""), 0x4241, None),
    (2, 4, 0x0022_9303, (Outcome::StepsUsed, b""), 0x4443, None),
    // sw t0, 0(t0)
    (
        6,
        6,
        0x0052_a023,
        (Outcome::StepsUsed, b""),
        0,
        Some(0x2_0000),
    ),
    (
        6,
        4,
        0x0052_a023,
        trap!(Store, 0x1_0004),
        0,
        Some(0x4443_4241),
    ),
    (
        4,
        6,
        0x0052_a023,
        trap!(Store, 0x1_0004),
        0,
        Some(0x4443_4241),
    ),
    // sh t0, 2(t0)
    (
        4,
        6,
        0x0052_9123,
        (Outcome::StepsUsed, b""),
        0,
        Some(0x4241),
    ),
];

#[test]
fn touching(rt: HostRuntime) -> Result<(), Fail> {
    for &(first, second, instruction, answer, t1, word) in TOUCHING {
        let code = [0x0002_02b7, instruction];
        let parts = [
            (0x1_0000, 1, code.as_slice(), 0, 8),
            (0x2_0000, first, LETTERS.as_slice(), 0, 2),
            (0x2_0002, second, LETTERS.as_slice(), 2, 4),
        ];
        let machine = after(&rt, rt.alloc(), 0x1_0000, &parts, 4096, 2, answer)?;
        assert_eq!(rt;
            (machine.register(6), machine.word(0x2_0000)),
            (t1, word),
            "{instruction:x}"
        );
    }
    Ok(())
}

/// Stores the last word of the region and its last byte, and loads from there.
const LAST: [u32; 7] = [
    0xfff0_0293, // addi t0, zero, -1
    0xfe55_ae23, // sw t0, -4(a1)
    0xffc5_a303, // lw t1, -4(a1)
    0xfe05_8fa3, // sb zero, -1(a1)
    0xffe5_d383, // lhu t2, -2(a1)
    0x0030_0893, // addi a7, zero, 3
    0x0000_0073, // ecall
];

/// Stores `addi zero, zero, 0` in the region and goes there.
const LEFT: [u32; 4] = [
    0x0000_02b7, // lui t0, 0
    0x0132_8293, // addi t0, t0, 0x13
    0x0055_2023, // sw t0, 0(a0)
    0x0005_0067, // jalr zero, 0(a0)
];

/// Code, how many bytes it has, the size of the region, the outcome, t1 and t2.
const REGIONS: &[(&[u32], usize, u32, (Outcome, &[u8]), u32, u32)] = &[
    (&LAST, 28, 4096, (Outcome::Ended, b""), 0xffff_ffff, 0xff),
    (
        &LAST,
        28,
        67_108_864,
        (Outcome::Ended, b""),
        0xffff_ffff,
        0xff,
    ),
    (&[0x0005_a023], 4, 4096, trap!(Store, 0x1_0000), 0, 0), // sw zero, 0(a1)
    (&[0x0005_8023], 4, 67_108_864, trap!(Store, 0x1_0000), 0, 0), // sb zero, 0(a1)
    (&[0x0005_c303], 4, 67_108_864, trap!(Load, 0x1_0000), 0, 0), // lbu t1, 0(a1)
    (&[0xffe5_a303], 4, 4096, trap!(Misaligned, 0x1_0000), 0, 0), // lw t1, -2(a1)
    (&[0xfff5_4303], 4, 4096, trap!(Load, 0x1_0000), 0, 0), // lbu t1, -1(a0)
    (&LEFT, 16, 4096, trap!(Fetch, 0x1000_0000), 0, 0),
];

#[test]
fn regions(rt: HostRuntime) -> Result<(), Fail> {
    for &(code, size, region, answer, t1, t2) in REGIONS {
        let machine = after(
            &rt,
            rt.alloc(),
            0x1_0000,
            &[(0x1_0000, 1, code, 0, size)],
            region,
            50,
            answer,
        )?;
        assert_eq!(rt;
            (machine.register(6), machine.register(7)),
            (t1, t2),
            "{region}"
        );
    }
    Ok(())
}
