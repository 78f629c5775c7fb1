//! The machine, against the RISC-V manual, programs of an assembler and results by hand.

use crate::samples::{GREETING_WORDS, LINKED};
use std::alloc::Global;
use std::process::Abort;
use std::test::Fail;
use th_elf::{ByteList, Image, MapList, NumberList, read_elf, write_elf};
use th_mach::{Machine, Outcome, Step};
use th_rv::Cause;
use th_watch::{SpanCounter, Watcher, detach};
use th_world::{MemSink, MemSource};

/// A program that takes a byte, puts it and ends.
const ECHO: [u32; 6] = [
    0x0020_0893, // addi a7, zero, 2
    0x0000_0073, // ecall
    0x0010_0893, // addi a7, zero, 1
    0x0000_0073, // ecall
    0x0030_0893, // addi a7, zero, 3
    0x0000_0073, // ecall
];

/// A machine loaded from the written form of a program, with a region of 4096 bytes.
fn machine_of(rt: &impl Abort, alloc: Global, code: &[u32]) -> Result<Machine, Fail> {
    assert!(rt; code.len() < 100);
    let image = Image {
        code: NumberList::of(code.to_vec(alloc)?),
        tables: ByteList::of(Vec::new(alloc)),
        entry: 0x1_0000,
        map: MapList::of(Vec::new(alloc)),
    };
    let file = write_elf(alloc, &image)?;
    let segments = read_elf(alloc, &file)?;
    Ok(Machine::load(alloc, &segments, 4096)?)
}

/// So many steps on an input have this outcome and put these bytes. `fail` are the numbers of the
/// calls of the source and of the sink that fail.
fn runs(
    rt: &impl Abort,
    alloc: Global,
    machine: &mut Machine,
    steps: u64,
    input: &[u8],
    fail: &[u64],
    answer: (Outcome, &[u8]),
) -> Result<(), Fail> {
    let mut source = MemSource::new(input.to_vec(alloc)?, fail.to_vec(alloc)?);
    let mut sink = MemSink::new(alloc, 10, fail.to_vec(alloc)?)?;
    let mut watchers = Vec::new(alloc);
    let outcome = machine.run(steps, &mut source, &mut sink, &mut watchers);
    assert_eq!(rt; (outcome, sink.bytes()), answer);
    Ok(())
}

/// The registers have these values.
fn has_registers(rt: &impl Abort, machine: &Machine, values: &[(u32, u32)]) {
    for &(k, value) in values {
        assert!(rt; k < 32);
        assert_eq!(rt; machine.register(k), value, "at {k}");
    }
}

#[test]
fn start(rt: HostRuntime) -> Result<(), Fail> {
    let machine = machine_of(&rt, rt.alloc(), &GREETING_WORDS)?;
    assert_eq!(rt; (machine.pc(), machine.retired()), (0x1_0000, 0));
    let values = &[
        (0, 0),
        (1, 0),
        (10, 0x1000_0000),
        (11, 0x1000_1000),
        (31, 0),
    ];
    has_registers(&rt, &machine, values);
    for &(at, word) in &[
        (0x1_0004, Some(0x0010_0893)),
        (0x1_0014, None),
        (0x1_0001, None),
        (0xfffc, None),
        (0x1000_0ffc, Some(0)),
        (0x1000_1000, None),
    ] {
        assert_eq!(rt; machine.word(at), word, "at {at:x}");
    }
    Ok(())
}

#[test]
fn names(rt: HostRuntime) -> Result<(), Fail> {
    let machine = machine_of(&rt, rt.alloc(), &GREETING_WORDS)?;
    let name = machine.name(0x1_0002, 3).expect(&rt, "a name");
    assert_eq!(rt; name.as_slice(), [0x80, 4, 0x93].as_slice());
    for &(at, length, found) in &[
        (0x1_0013, 1, true),
        (0x1_0013, 2, false),
        (0x1_0014, 0, true),
        (0x1000_0f7f, 129, true),
        (0x1000_0f80, 129, false),
    ] {
        assert!(rt; length < 130);
        assert_eq!(rt; machine.name(at, length).is_some(), found, "at {at:x}");
    }
    Ok(())
}

/// What gives a0 and a1, by `lui` and `addi` each, the values 7 and 0, -2^31 and -1, -2^31 and 0,
/// -7 and 2.
const OPERANDS: [[u32; 4]; 4] = [
    [0x0000_0537, 0x0075_0513, 0x0000_05b7, 0x0005_8593],
    [0x8000_0537, 0x0005_0513, 0x0000_05b7, 0xfff5_8593],
    [0x8000_0537, 0x0005_0513, 0x0000_05b7, 0x0005_8593],
    [0x0000_0537, 0xff95_0513, 0x0000_05b7, 0x0025_8593],
];

#[test]
fn operations(rt: HostRuntime) -> Result<(), Fail> {
    for &(name, op, results) in &[
        (
            "add",
            0x00b5_0633,
            [7, 0x7fff_ffff, 0x8000_0000, 0xffff_fffb],
        ),
        (
            "sub",
            0x40b5_0633,
            [7, 0x8000_0001, 0x8000_0000, 0xffff_fff7],
        ),
        ("sll", 0x00b5_1633, [7, 0, 0x8000_0000, 0xffff_ffe4]),
        ("slt", 0x00b5_2633, [0, 1, 1, 1]),
        ("sltu", 0x00b5_3633, [0, 1, 0, 0]),
        (
            "xor",
            0x00b5_4633,
            [7, 0x7fff_ffff, 0x8000_0000, 0xffff_fffb],
        ),
        ("srl", 0x00b5_5633, [7, 1, 0x8000_0000, 0x3fff_fffe]),
        (
            "sra",
            0x40b5_5633,
            [7, 0xffff_ffff, 0x8000_0000, 0xffff_fffe],
        ),
        (
            "or",
            0x00b5_6633,
            [7, 0xffff_ffff, 0x8000_0000, 0xffff_fffb],
        ),
        ("and", 0x00b5_7633, [0, 0x8000_0000, 0, 0]),
        ("mul", 0x02b5_0633, [0, 0x8000_0000, 0, 0xffff_fff2]),
        ("mulh", 0x02b5_1633, [0, 0, 0, 0xffff_ffff]),
        ("mulhsu", 0x02b5_2633, [0, 0x8000_0000, 0, 0xffff_ffff]),
        ("mulhu", 0x02b5_3633, [0, 0x7fff_ffff, 0, 1]),
        (
            "div",
            0x02b5_4633,
            [0xffff_ffff, 0x8000_0000, 0xffff_ffff, 0xffff_fffd],
        ),
        (
            "divu",
            0x02b5_5633,
            [0xffff_ffff, 0, 0xffff_ffff, 0x7fff_fffc],
        ),
        ("rem", 0x02b5_6633, [7, 0, 0x8000_0000, 0xffff_ffff]),
        ("remu", 0x02b5_7633, [7, 0x8000_0000, 0x8000_0000, 1]),
    ] {
        for ([a, b, c, d], result) in OPERANDS.into_iter().zip(results) {
            let mut machine = machine_of(&rt, rt.alloc(), &[a, b, c, d, op])?;
            for _instruction in 0..5 {
                machine.step();
            }
            assert_eq!(rt; machine.register(12), result, "{name}");
        }
    }
    Ok(())
}

/// A program of loads, stores, operations, jumps and branches, whose results stay in registers.
const INSTRUCTIONS: [u32; 42] = [
    0x8000_02b7, // lui t0, 0x80000
    0x0812_8293, // addi t0, t0, 0x81
    0x0055_2023, // sw t0, 0(a0)
    0x0005_0303, // lb t1, 0(a0)
    0x0005_4383, // lbu t2, 0(a0)
    0x0025_1403, // lh s0, 2(a0)
    0x0025_5483, // lhu s1, 2(a0)
    0x0055_1323, // sh t0, 6(a0)
    0x0055_02a3, // sb t0, 5(a0)
    0x0045_2603, // lw a2, 4(a0)
    0x4042_d693, // srai a3, t0, 4
    0x0042_d713, // srli a4, t0, 4
    0x0042_9793, // slli a5, t0, 4
    0x0002_a813, // slti a6, t0, 0
    0x0002_b893, // sltiu a7, t0, 0
    0xfff2_c913, // xori s2, t0, -1
    0x0702_e993, // ori s3, t0, 0x70
    0x0f02_fa13, // andi s4, t0, 0xf0
    0x4050_0ab3, // sub s5, zero, t0
    0x0050_3b33, // sltu s6, zero, t0
    0x0050_2bb3, // slt s7, zero, t0
    0x0000_1c17, // auipc s8, 1
    0x0080_0cef, // jal s9, 1f
    0x0050_0013, // addi zero, zero, 5
    0x00dc_8d13, // 1: addi s10, s9, 13
    0x000d_0de7, // jalr s11, s10, 0
    0x0010_0e13, // addi t3, zero, 1
    0x0ff0_000f, // fence
    0x0020_0e93, // addi t4, zero, 2
    0x01d2_e663, // bltu t0, t4, 2f
    0x01d2_d463, // bge t0, t4, 2f
    0x01d2_c463, // blt t0, t4, 3f
    0x0010_0073, // 2: ebreak
    0x01d2_f463, // 3: bgeu t0, t4, 4f
    0x0010_0073, // ebreak
    0xffd2_8ae3, // 4: beq t0, t4, 2b
    0x01d2_9463, // bne t0, t4, 5f
    0x0010_0073, // ebreak
    0x0030_0f13, // 5: addi t5, zero, 3
    0x41e2_dfb3, // sra t6, t0, t5
    0x0030_0893, // addi a7, zero, 3
    0x0000_0073, // ecall
];

#[test]
fn instructions(rt: HostRuntime) -> Result<(), Fail> {
    let mut machine = machine_of(&rt, rt.alloc(), &INSTRUCTIONS)?;
    let ended = (Outcome::Ended, b"".as_slice());
    runs(&rt, rt.alloc(), &mut machine, 100, &[], &[], ended)?;
    assert_eq!(rt; machine.retired(), 38);
    let values = &[
        (0, 0),
        (5, 0x8000_0081),
        (6, 0xffff_ff81),
        (7, 0x81),
        (8, 0xffff_8000),
        (9, 0x8000),
        (12, 0x0081_8100),
        (13, 0xf800_0008),
        (14, 0x0800_0008),
        (15, 0x0810),
        (16, 1),
        (18, 0x7fff_ff7e),
        (19, 0x8000_00f1),
        (20, 0x80),
        (21, 0x7fff_ff7f),
        (22, 1),
        (23, 0),
        (24, 0x1_1054),
        (25, 0x1_005c),
        (26, 0x1_0069),
        (27, 0x1_0068),
        (28, 1),
        (29, 2),
        (30, 3),
        (31, 0xf000_0010),
    ];
    has_registers(&rt, &machine, values);
    Ok(())
}

/// Code, the cause of its trap, and the address of the instruction that traps.
const TRAPS: [(&[u32], Cause, u32); 20] = [
    (&[0x0000_0000], Cause::Illegal, 0x1_0000),
    (&[0x0000_8067], Cause::Fetch, 0),
    (&[0x0000_0013], Cause::Fetch, 0x1_0004),
    (&[0x0020_006f], Cause::Jump, 0x1_0000),
    (&[0x0025_0067], Cause::Jump, 0x1_0000),
    (&[0x0000_0363], Cause::Jump, 0x1_0000),
    (&[0x0000_1163], Cause::Fetch, 0x1_0004),
    (&[0x0010_2283], Cause::Misaligned, 0x1_0000),
    (&[0x0015_1003], Cause::Misaligned, 0x1_0000),
    (&[0x00a5_2123], Cause::Misaligned, 0x1_0000),
    (&[0x0000_2283], Cause::Load, 0x1_0000),
    (&[0x0000_4503], Cause::Load, 0x1_0000),
    (&[0xffc5_a503], Cause::Fetch, 0x1_0004),
    (&[0x0001_0337, 0x0003_2023], Cause::Store, 0x1_0004),
    (&[0x00a5_a023], Cause::Store, 0x1_0000),
    (&[0x0000_0073], Cause::Ecall, 0x1_0000),
    (&[0x0060_0893, 0x0000_0073], Cause::Ecall, 0x1_0004),
    (
        &[0x0820_0593, 0x0040_0893, 0x0000_0073],
        Cause::Ecall,
        0x1_0008,
    ),
    (
        &[0x0040_0893, 0x0000_0513, 0x0000_0073],
        Cause::Ecall,
        0x1_0008,
    ),
    (&[0x0010_0073], Cause::Ebreak, 0x1_0000),
];

#[test]
fn traps(rt: HostRuntime) -> Result<(), Fail> {
    for &(code, cause, pc) in &TRAPS {
        let mut machine = machine_of(&rt, rt.alloc(), code)?;
        let trapped = (Outcome::Trap { cause, pc }, b"".as_slice());
        runs(&rt, rt.alloc(), &mut machine, 9, &[], &[], trapped)?;
        runs(&rt, rt.alloc(), &mut machine, 9, &[], &[], trapped)?;
    }
    Ok(())
}

/// Code, its outcome in 9 steps, and how many instructions two runs retire.
const ENDS: [(&[u32], Outcome, u64); 4] = [
    (&[0x0030_0893, 0x0000_0073], Outcome::Ended, 2),
    (&[0x0050_0893, 0x0000_0073], Outcome::RoomUsed, 2),
    (
        &[0x0810_0593, 0x0040_0893, 0x0000_0073],
        Outcome::Raised {
            at: 0x1000_0000,
            length: 129,
        },
        3,
    ),
    (&[0x0000_006f], Outcome::StepsUsed, 18),
];

#[test]
fn ends(rt: HostRuntime) -> Result<(), Fail> {
    for &(code, outcome, retired) in &ENDS {
        let mut machine = machine_of(&rt, rt.alloc(), code)?;
        let answer = (outcome, b"".as_slice());
        runs(&rt, rt.alloc(), &mut machine, 9, &[], &[], answer)?;
        runs(&rt, rt.alloc(), &mut machine, 9, &[], &[], answer)?;
        assert_eq!(rt; machine.retired(), retired);
    }
    Ok(())
}

/// The steps of calls one after the other, what each answers, and how many instructions are then
/// retired.
const CALLS: [(u64, (Outcome, &[u8]), u64); 5] = [
    (0, (Outcome::StepsUsed, b""), 0),
    (4, (Outcome::StepsUsed, b"H"), 4),
    (1, (Outcome::Ended, b""), 5),
    (9, (Outcome::Ended, b""), 5),
    (0, (Outcome::Ended, b""), 5),
];

#[test]
fn further_calls(rt: HostRuntime) -> Result<(), Fail> {
    let mut greeting = machine_of(&rt, rt.alloc(), &GREETING_WORDS)?;
    for &(steps, answer, retired) in &CALLS {
        runs(&rt, rt.alloc(), &mut greeting, steps, &[], &[], answer)?;
        assert_eq!(rt; greeting.retired(), retired);
    }
    Ok(())
}

/// An input, and what `ECHO` puts of it.
const ECHOES: [(&[u8], &[u8]); 2] = [(b"", b"\xff"), (b"AB", b"A")];

#[test]
fn streams(rt: HostRuntime) -> Result<(), Fail> {
    for &(input, bytes) in &ECHOES {
        let mut echo = machine_of(&rt, rt.alloc(), &ECHO)?;
        let failed = (Outcome::ReadFault, b"".as_slice());
        runs(&rt, rt.alloc(), &mut echo, 9, input, &[0], failed)?;
        assert_eq!(rt; echo.retired(), 1);
        runs(
            &rt,
            rt.alloc(),
            &mut echo,
            9,
            input,
            &[],
            (Outcome::Ended, bytes),
        )?;
    }
    Ok(())
}

#[test]
fn failing_sink(rt: HostRuntime) -> Result<(), Fail> {
    let mut greeting = machine_of(&rt, rt.alloc(), &GREETING_WORDS)?;
    let failed = (Outcome::WriteFault, b"".as_slice());
    runs(&rt, rt.alloc(), &mut greeting, 9, &[], &[0], failed)?;
    assert_eq!(rt; greeting.retired(), 2);
    let ended = (Outcome::Ended, b"H".as_slice());
    runs(&rt, rt.alloc(), &mut greeting, 9, &[], &[], ended)
}

#[test]
fn linked_program(rt: HostRuntime) -> Result<(), Fail> {
    let segments = read_elf(rt.alloc(), LINKED)?;
    let mut machine = Machine::load(rt.alloc(), &segments, 8192)?;
    let ended = (Outcome::Ended, b"G".as_slice());
    runs(&rt, rt.alloc(), &mut machine, 100, &[], &[], ended)
}

#[test]
fn watched(rt: HostRuntime) -> Result<(), Fail> {
    let alloc = rt.alloc();
    let mut machine = machine_of(&rt, alloc, &GREETING_WORDS)?;
    let mut watchers: Vec<Box<dyn Watcher>> = Vec::new(alloc);
    for (low, high) in [(0x1_0000, 0x1_0008), (0, 1)] {
        let mut counter = SpanCounter::new();
        counter.aim(low, high);
        watchers.push(Box::new(alloc, counter)?)?;
    }
    let mut source = MemSource::new(Vec::new(alloc), Vec::new(alloc));
    let mut sink = MemSink::new(alloc, 1, Vec::new(alloc))?;
    machine.run(9, &mut source, &mut sink, &mut watchers);
    assert_eq!(rt; detach(&mut watchers, 0), Some((2, Some(0x1_0004))));
    assert_eq!(rt; detach(&mut watchers, 0), Some((0, None)));
    Ok(())
}

#[test]
fn steps(rt: HostRuntime) -> Result<(), Fail> {
    let mut echo = machine_of(&rt, rt.alloc(), &ECHO)?;
    for &step in &[Step::Next, Step::Get, Step::Get] {
        assert_eq!(rt; echo.step(), step);
    }
    assert_eq!(rt; echo.retired(), 1);
    assert!(rt; echo.waiting());
    echo.give(Some(0x41));
    assert!(rt; !echo.waiting());
    for &step in &[
        Step::Next,
        Step::Put(0x41),
        Step::Next,
        Step::Ended,
        Step::Ended,
    ] {
        assert_eq!(rt; echo.step(), step);
    }
    assert_eq!(rt; echo.retired(), 6);
    Ok(())
}
