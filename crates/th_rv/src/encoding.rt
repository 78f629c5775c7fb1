//! From an instruction to the word that spells it.

ghost use Rattle.std.specs.Prelude.{◌≡◌, ◌<◌, Some};
ghost use Rattle.th_rv.specs.Table.{
  Valid,
  IsRegister,
  encode,
  decode,
  pack,
  r_word,
  i_word,
  s_word,
  b_word,
  u_word,
  j_field,
};

use crate::Instr;

/// The word of its six fields, of the widths 7, 5, 5, 3, 5 and 7 from the highest on.
fn joined(funct7: u32, rs2: u32, rs1: u32, funct3: u32, rd: u32, opcode: u32) -> u32
    requires funct7_in_range { funct7 < 128 }
    requires rs2_in_range { IsRegister rs2 }
    requires rs1_in_range { IsRegister rs1 }
    requires funct3_in_range { funct3 < 8 }
    requires rd_in_range { IsRegister rd }
    requires opcode_in_range { opcode < 128 }
    ensures { result ≡ pack opcode rd funct3 rs1 rs2 funct7 }
{
    ((((funct7 << 5 | rs2) << 5 | rs1) << 3 | funct3) << 5 | rd) << 7 | opcode
}

/// A word of format I: a 12-bit immediate in bits 31 to 20.
fn immediate_word(opcode: u32, funct3: u32, rd: u32, rs1: u32, imm: u32) -> u32
    requires opcode_in_range { opcode < 128 }
    requires funct3_in_range { funct3 < 8 }
    requires rd_in_range { IsRegister rd }
    requires rs1_in_range { IsRegister rs1 }
    requires imm_in_range { imm < 4096 }
    ensures { result ≡ i_word opcode funct3 rd rs1 imm }
{
    joined(imm >> 5, imm & 0x1f, rs1, funct3, rd, opcode)
}

/// A word of format S: a 12-bit immediate in two parts.
fn store_word(funct3: u32, rs1: u32, rs2: u32, imm: u32) -> u32
    requires funct3_in_range { funct3 < 8 }
    requires rs1_in_range { IsRegister rs1 }
    requires rs2_in_range { IsRegister rs2 }
    requires imm_in_range { imm < 4096 }
    ensures { result ≡ s_word funct3 rs1 rs2 imm }
{
    joined(imm >> 5, rs2, rs1, funct3, imm & 0x1f, 0x23)
}

/// A word of format B: a 13-bit offset in four parts.
fn branch_word(funct3: u32, rs1: u32, rs2: u32, imm: u32) -> u32
    requires funct3_in_range { funct3 < 8 }
    requires rs1_in_range { IsRegister rs1 }
    requires rs2_in_range { IsRegister rs2 }
    requires imm_in_range { imm < 8192 }
    ensures { result ≡ b_word funct3 rs1 rs2 imm }
{
    let high = imm >> 12 << 6 | imm >> 5 & 0x3f;
    let low = (imm >> 1 & 0xf) << 1 | imm >> 11 & 1;
    joined(high, rs2, rs1, funct3, low, 0x63)
}

/// A word of format U: a 20-bit immediate in bits 31 to 12.
fn upper_word(opcode: u32, rd: u32, imm: u32) -> u32
    requires opcode_in_range { opcode < 128 }
    requires rd_in_range { IsRegister rd }
    requires imm_in_range { imm < 1048576 }
    ensures { result ≡ u_word opcode rd imm }
{
    (imm << 5 | rd) << 7 | opcode
}

/// The upper 20 bits of a word of format J: a 21-bit offset in four parts.
fn jump_field(imm: u32) -> u32
    requires { imm < 2097152 }
    ensures value { result ≡ j_field imm }
    ensures in_range { result < 1048576 }
{
    ((imm >> 20 << 10 | imm >> 1 & 0x3ff) << 1 | imm >> 11 & 1) << 8 | imm >> 12 & 0xff
}

/// A word of format R: three registers.
fn register_word(funct3: u32, funct7: u32, rd: u32, rs1: u32, rs2: u32) -> u32
    requires funct3_in_range { funct3 < 8 }
    requires funct7_in_range { funct7 < 128 }
    requires rd_in_range { IsRegister rd }
    requires rs1_in_range { IsRegister rs1 }
    requires rs2_in_range { IsRegister rs2 }
    ensures { result ≡ r_word funct3 funct7 rd rs1 rs2 }
{
    joined(funct7, rs2, rs1, funct3, rd, 0x33)
}

/// The word that spells an instruction, whose fields must be in the ranges of its format, as `Instr`
/// says them. It takes no memory and constant time. docs/MACHINE.md has the table of words.
#[tactic(auto, using(crate::proofs::EncodeLemmas::decode_encode))]
pub fn encode(instr: Instr) -> u32
    requires { Valid instr }
    ensures word { result ≡ encode instr }
    ensures read_back { decode result ≡ Some instr }
{
    match instr {
        Instr::Lui { rd, imm } => upper_word(0x37, rd, imm),
        Instr::Auipc { rd, imm } => upper_word(0x17, rd, imm),
        Instr::Jal { rd, imm } => upper_word(0x6f, rd, jump_field(imm)),
        Instr::Jalr { rd, rs1, imm } => immediate_word(0x67, 0, rd, rs1, imm),
        Instr::Beq { rs1, rs2, imm } => branch_word(0, rs1, rs2, imm),
        Instr::Bne { rs1, rs2, imm } => branch_word(1, rs1, rs2, imm),
        Instr::Blt { rs1, rs2, imm } => branch_word(4, rs1, rs2, imm),
        Instr::Bge { rs1, rs2, imm } => branch_word(5, rs1, rs2, imm),
        Instr::Bltu { rs1, rs2, imm } => branch_word(6, rs1, rs2, imm),
        Instr::Bgeu { rs1, rs2, imm } => branch_word(7, rs1, rs2, imm),
        Instr::Lb { rd, rs1, imm } => immediate_word(0x03, 0, rd, rs1, imm),
        Instr::Lh { rd, rs1, imm } => immediate_word(0x03, 1, rd, rs1, imm),
        Instr::Lw { rd, rs1, imm } => immediate_word(0x03, 2, rd, rs1, imm),
        Instr::Lbu { rd, rs1, imm } => immediate_word(0x03, 4, rd, rs1, imm),
        Instr::Lhu { rd, rs1, imm } => immediate_word(0x03, 5, rd, rs1, imm),
        Instr::Sb { rs1, rs2, imm } => store_word(0, rs1, rs2, imm),
        Instr::Sh { rs1, rs2, imm } => store_word(1, rs1, rs2, imm),
        Instr::Sw { rs1, rs2, imm } => store_word(2, rs1, rs2, imm),
        Instr::Addi { rd, rs1, imm } => immediate_word(0x13, 0, rd, rs1, imm),
        Instr::Slti { rd, rs1, imm } => immediate_word(0x13, 2, rd, rs1, imm),
        Instr::Sltiu { rd, rs1, imm } => immediate_word(0x13, 3, rd, rs1, imm),
        Instr::Xori { rd, rs1, imm } => immediate_word(0x13, 4, rd, rs1, imm),
        Instr::Ori { rd, rs1, imm } => immediate_word(0x13, 6, rd, rs1, imm),
        Instr::Andi { rd, rs1, imm } => immediate_word(0x13, 7, rd, rs1, imm),
        Instr::Slli { rd, rs1, amount } => joined(0, amount, rs1, 1, rd, 0x13),
        Instr::Srli { rd, rs1, amount } => joined(0, amount, rs1, 5, rd, 0x13),
        Instr::Srai { rd, rs1, amount } => joined(0x20, amount, rs1, 5, rd, 0x13),
        Instr::Add { rd, rs1, rs2 } => register_word(0, 0, rd, rs1, rs2),
        Instr::Sub { rd, rs1, rs2 } => register_word(0, 0x20, rd, rs1, rs2),
        Instr::Sll { rd, rs1, rs2 } => register_word(1, 0, rd, rs1, rs2),
        Instr::Slt { rd, rs1, rs2 } => register_word(2, 0, rd, rs1, rs2),
        Instr::Sltu { rd, rs1, rs2 } => register_word(3, 0, rd, rs1, rs2),
        Instr::Xor { rd, rs1, rs2 } => register_word(4, 0, rd, rs1, rs2),
        Instr::Srl { rd, rs1, rs2 } => register_word(5, 0, rd, rs1, rs2),
        Instr::Sra { rd, rs1, rs2 } => register_word(5, 0x20, rd, rs1, rs2),
        Instr::Or { rd, rs1, rs2 } => register_word(6, 0, rd, rs1, rs2),
        Instr::And { rd, rs1, rs2 } => register_word(7, 0, rd, rs1, rs2),
        Instr::Mul { rd, rs1, rs2 } => register_word(0, 1, rd, rs1, rs2),
        Instr::Mulh { rd, rs1, rs2 } => register_word(1, 1, rd, rs1, rs2),
        Instr::Mulhsu { rd, rs1, rs2 } => register_word(2, 1, rd, rs1, rs2),
        Instr::Mulhu { rd, rs1, rs2 } => register_word(3, 1, rd, rs1, rs2),
        Instr::Div { rd, rs1, rs2 } => register_word(4, 1, rd, rs1, rs2),
        Instr::Divu { rd, rs1, rs2 } => register_word(5, 1, rd, rs1, rs2),
        Instr::Rem { rd, rs1, rs2 } => register_word(6, 1, rd, rs1, rs2),
        Instr::Remu { rd, rs1, rs2 } => register_word(7, 1, rd, rs1, rs2),
        Instr::Fence { rd, rs1, bits } => immediate_word(0x0f, 0, rd, rs1, bits),
        Instr::Ecall => 0x0000_0073,
        Instr::Ebreak => 0x0010_0073,
    }
}
