//! Instruction words, against an assembler and the RISC-V manual.

use th_rv::{Instr, decode, encode};

/// An instruction with rd and an immediate.
macro_rules! upper {
    ($name:ident, $rd:expr, $imm:expr) => {
        Instr::$name { rd: $rd, imm: $imm }
    };
}

/// An instruction with rd, rs1 and an immediate.
macro_rules! immediate {
    ($name:ident, $rd:expr, $rs1:expr, $imm:expr) => {
        Instr::$name { rd: $rd, rs1: $rs1, imm: $imm }
    };
}

/// A shift by an amount: rd, rs1 and the amount.
macro_rules! shift {
    ($name:ident, $rd:expr, $rs1:expr, $amount:expr) => {
        Instr::$name { rd: $rd, rs1: $rs1, amount: $amount }
    };
}

/// A branch or a store: rs1, rs2 and an immediate.
macro_rules! target {
    ($name:ident, $rs1:expr, $rs2:expr, $imm:expr) => {
        Instr::$name { rs1: $rs1, rs2: $rs2, imm: $imm }
    };
}

/// An instruction with rd, rs1 and rs2.
macro_rules! registers {
    ($name:ident, $rd:expr, $rs1:expr, $rs2:expr) => {
        Instr::$name { rd: $rd, rs1: $rs1, rs2: $rs2 }
    };
}

/// A fence: rd, rs1 and the other bits.
macro_rules! fence {
    ($rd:expr, $rs1:expr, $bits:expr) => {
        Instr::Fence { rd: $rd, rs1: $rs1, bits: $bits }
    };
}

/// Words and their instructions.
const WORDS: [(u32, Instr); 53] = [
    (0xfedc_b537, upper!(Lui, 10, 1043915)),
    (0xfedc_b517, upper!(Auipc, 10, 1043915)),
    (0xbfff_f56f, upper!(Jal, 10, 2096126)),
    (0xaab5_8567, immediate!(Jalr, 10, 11, 2731)),
    (0xfec5_8f63, target!(Beq, 11, 12, 6142)),
    (0xfec5_9f63, target!(Bne, 11, 12, 6142)),
    (0xfec5_cf63, target!(Blt, 11, 12, 6142)),
    (0xfec5_df63, target!(Bge, 11, 12, 6142)),
    (0xfec5_ef63, target!(Bltu, 11, 12, 6142)),
    (0xfec5_ff63, target!(Bgeu, 11, 12, 6142)),
    (0xaab5_8503, immediate!(Lb, 10, 11, 2731)),
    (0xaab5_9503, immediate!(Lh, 10, 11, 2731)),
    (0xaab5_a503, immediate!(Lw, 10, 11, 2731)),
    (0xaab5_c503, immediate!(Lbu, 10, 11, 2731)),
    (0xaab5_d503, immediate!(Lhu, 10, 11, 2731)),
    (0xaac5_85a3, target!(Sb, 11, 12, 2731)),
    (0xaac5_95a3, target!(Sh, 11, 12, 2731)),
    (0xaac5_a5a3, target!(Sw, 11, 12, 2731)),
    (0xaab5_8513, immediate!(Addi, 10, 11, 2731)),
    (0xaab5_a513, immediate!(Slti, 10, 11, 2731)),
    (0xaab5_b513, immediate!(Sltiu, 10, 11, 2731)),
    (0xaab5_c513, immediate!(Xori, 10, 11, 2731)),
    (0xaab5_e513, immediate!(Ori, 10, 11, 2731)),
    (0xaab5_f513, immediate!(Andi, 10, 11, 2731)),
    (0x01f5_9513, shift!(Slli, 10, 11, 31)),
    (0x01f5_d513, shift!(Srli, 10, 11, 31)),
    (0x41f5_d513, shift!(Srai, 10, 11, 31)),
    (0x00c5_8533, registers!(Add, 10, 11, 12)),
    (0x40c5_8533, registers!(Sub, 10, 11, 12)),
    (0x00c5_9533, registers!(Sll, 10, 11, 12)),
    (0x00c5_a533, registers!(Slt, 10, 11, 12)),
    (0x00c5_b533, registers!(Sltu, 10, 11, 12)),
    (0x00c5_c533, registers!(Xor, 10, 11, 12)),
    (0x00c5_d533, registers!(Srl, 10, 11, 12)),
    (0x40c5_d533, registers!(Sra, 10, 11, 12)),
    (0x00c5_e533, registers!(Or, 10, 11, 12)),
    (0x00c5_f533, registers!(And, 10, 11, 12)),
    (0x02c5_8533, registers!(Mul, 10, 11, 12)),
    (0x02c5_9533, registers!(Mulh, 10, 11, 12)),
    (0x02c5_a533, registers!(Mulhsu, 10, 11, 12)),
    (0x02c5_b533, registers!(Mulhu, 10, 11, 12)),
    (0x02c5_c533, registers!(Div, 10, 11, 12)),
    (0x02c5_d533, registers!(Divu, 10, 11, 12)),
    (0x02c5_e533, registers!(Rem, 10, 11, 12)),
    (0x02c5_f533, registers!(Remu, 10, 11, 12)),
    (0x0ff0_000f, fence!(0, 0, 255)),
    (0x0000_0073, Instr::Ecall),
    (0x0010_0073, Instr::Ebreak),
    (0x0480_0513, immediate!(Addi, 10, 0, 72)),
    (0x0000_006f, upper!(Jal, 0, 0)),
    (0xfe20_8ee3, target!(Beq, 1, 2, 8188)),
    (0x0273_02b3, registers!(Mul, 5, 6, 7)),
    (0xffff_8f8f, fence!(31, 31, 4095)),
];

#[test]
fn words_and_instructions(rt: HostRuntime) {
    for &(word, instr) in &WORDS {
        let decoded = decode(word).expect(&rt, "an instruction");
        assert_eq!(rt; (decoded, encode(decoded)), (instr, word), "{word:x}");
    }
}

#[test]
fn no_instructions(rt: HostRuntime) {
    for &word in &[
        0x0000_0000,
        0xffff_ffff,
        0x0000_00f3,
        0x0020_0073,
        0x0236_1e93,
        0x02da_5c13,
        0x4394_5793,
        0x0000_1067,
        0x0000_2063,
        0x0000_3003,
        0x0000_3023,
        0x4000_1033,
        0x0400_0033,
        0x0000_100f,
    ] {
        assert_eq!(rt; decode(word), None, "{word:x}");
    }
}
