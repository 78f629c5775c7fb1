//! From a word to the instruction that it spells.

ghost use Rattle.std.specs.Prelude.{◌≡◌, ◌≢◌, IfSome, IfNone};
ghost use Rattle.th_rv.specs.Table.{
  Valid,
  encode,
  decode,
  opcode_of,
  rd_of,
  funct3_of,
  rs1_of,
  rs2_of,
  funct7_of,
  i_imm,
  s_imm,
  b_imm,
  u_imm,
  j_imm,
  branch_of,
  load_of,
  store_of,
  immediate_of,
  shift_of,
  register_of,
  base_of,
  other_of,
  product_of,
  system_of,
};

use crate::Instr;

/// Bits 6 to 0.
fn opcode(word: u32) -> u32
    ensures { result ≡ opcode_of word }
{
    word & 0x7f
}

/// Bits 11 to 7.
fn rd(word: u32) -> u32
    ensures { result ≡ rd_of word }
{
    word >> 7 & 0x1f
}

/// Bits 14 to 12.
fn funct3(word: u32) -> u32
    ensures { result ≡ funct3_of word }
{
    word >> 12 & 0x7
}

/// Bits 19 to 15.
fn rs1(word: u32) -> u32
    ensures { result ≡ rs1_of word }
{
    word >> 15 & 0x1f
}

/// Bits 24 to 20.
fn rs2(word: u32) -> u32
    ensures { result ≡ rs2_of word }
{
    word >> 20 & 0x1f
}

/// Bits 31 to 25.
fn funct7(word: u32) -> u32
    ensures { result ≡ funct7_of word }
{
    word >> 25
}

/// The 12-bit immediate of format I.
fn i_immediate(word: u32) -> u32
    ensures { result ≡ i_imm (rs2_of word) (funct7_of word) }
{
    word >> 20
}

/// The 12-bit immediate of format S.
fn s_immediate(word: u32) -> u32
    ensures { result ≡ s_imm (rd_of word) (funct7_of word) }
{
    word >> 25 << 5 | word >> 7 & 0x1f
}

/// The 13-bit offset of format B.
fn b_immediate(word: u32) -> u32
    ensures { result ≡ b_imm (rd_of word) (funct7_of word) }
{
    (((word >> 31 << 1 | word >> 7 & 1) << 6 | word >> 25 & 0x3f) << 4 | word >> 8 & 0xf) << 1
}

/// The 20-bit immediate of format U.
fn u_immediate(word: u32) -> u32
    ensures { result ≡ u_imm (funct3_of word) (rs1_of word) (rs2_of word) (funct7_of word) }
{
    word >> 12
}

/// The 21-bit offset of format J.
fn j_immediate(word: u32) -> u32
    ensures { result ≡ j_imm (u_imm (funct3_of word) (rs1_of word) (rs2_of word) (funct7_of word)) }
{
    (((word >> 31 << 8 | word >> 12 & 0xff) << 1 | word >> 20 & 1) << 10 | word >> 21 & 0x3ff) << 1
}

/// The branches, by funct3.
#[tactic(auto, unfolding(crate::specs::Table::branch_of))]
fn branch(funct3: u32, rs1: u32, rs2: u32, imm: u32) -> Option<Instr>
    ensures { result ≡ branch_of funct3 rs1 rs2 imm }
{
    match funct3 {
        0 => Some(Instr::Beq { rs1, rs2, imm }),
        1 => Some(Instr::Bne { rs1, rs2, imm }),
        4 => Some(Instr::Blt { rs1, rs2, imm }),
        5 => Some(Instr::Bge { rs1, rs2, imm }),
        6 => Some(Instr::Bltu { rs1, rs2, imm }),
        7 => Some(Instr::Bgeu { rs1, rs2, imm }),
        _ => None,
    }
}

/// The loads, by funct3.
#[tactic(auto, unfolding(crate::specs::Table::load_of))]
fn load(funct3: u32, rd: u32, rs1: u32, imm: u32) -> Option<Instr>
    ensures { result ≡ load_of funct3 rd rs1 imm }
{
    match funct3 {
        0 => Some(Instr::Lb { rd, rs1, imm }),
        1 => Some(Instr::Lh { rd, rs1, imm }),
        2 => Some(Instr::Lw { rd, rs1, imm }),
        4 => Some(Instr::Lbu { rd, rs1, imm }),
        5 => Some(Instr::Lhu { rd, rs1, imm }),
        _ => None,
    }
}

/// The stores, by funct3.
#[tactic(auto, unfolding(crate::specs::Table::store_of))]
fn store(funct3: u32, rs1: u32, rs2: u32, imm: u32) -> Option<Instr>
    ensures { result ≡ store_of funct3 rs1 rs2 imm }
{
    match funct3 {
        0 => Some(Instr::Sb { rs1, rs2, imm }),
        1 => Some(Instr::Sh { rs1, rs2, imm }),
        2 => Some(Instr::Sw { rs1, rs2, imm }),
        _ => None,
    }
}

/// The operations on two registers with funct7 0, by funct3.
#[tactic(auto, unfolding(crate::specs::Table::base_of))]
fn base(funct3: u32, rd: u32, rs1: u32, rs2: u32) -> Option<Instr>
    ensures { result ≡ base_of funct3 rd rs1 rs2 }
{
    match funct3 {
        0 => Some(Instr::Add { rd, rs1, rs2 }),
        1 => Some(Instr::Sll { rd, rs1, rs2 }),
        2 => Some(Instr::Slt { rd, rs1, rs2 }),
        3 => Some(Instr::Sltu { rd, rs1, rs2 }),
        4 => Some(Instr::Xor { rd, rs1, rs2 }),
        5 => Some(Instr::Srl { rd, rs1, rs2 }),
        6 => Some(Instr::Or { rd, rs1, rs2 }),
        7 => Some(Instr::And { rd, rs1, rs2 }),
        _ => None,
    }
}

/// The operations on two registers with funct7 0x20, by funct3.
#[tactic(auto, unfolding(crate::specs::Table::other_of))]
fn other(funct3: u32, rd: u32, rs1: u32, rs2: u32) -> Option<Instr>
    ensures { result ≡ other_of funct3 rd rs1 rs2 }
{
    match funct3 {
        0 => Some(Instr::Sub { rd, rs1, rs2 }),
        5 => Some(Instr::Sra { rd, rs1, rs2 }),
        _ => None,
    }
}

/// The operations of the M extension, by funct3.
#[tactic(auto, unfolding(crate::specs::Table::product_of))]
fn product(funct3: u32, rd: u32, rs1: u32, rs2: u32) -> Option<Instr>
    ensures { result ≡ product_of funct3 rd rs1 rs2 }
{
    match funct3 {
        0 => Some(Instr::Mul { rd, rs1, rs2 }),
        1 => Some(Instr::Mulh { rd, rs1, rs2 }),
        2 => Some(Instr::Mulhsu { rd, rs1, rs2 }),
        3 => Some(Instr::Mulhu { rd, rs1, rs2 }),
        4 => Some(Instr::Div { rd, rs1, rs2 }),
        5 => Some(Instr::Divu { rd, rs1, rs2 }),
        6 => Some(Instr::Rem { rd, rs1, rs2 }),
        7 => Some(Instr::Remu { rd, rs1, rs2 }),
        _ => None,
    }
}

/// The operations on two registers, by funct7 and funct3.
#[tactic(auto, unfolding(crate::specs::Table::register_of))]
fn register(funct3: u32, funct7: u32, rd: u32, rs1: u32, rs2: u32) -> Option<Instr>
    ensures { result ≡ register_of funct3 funct7 rd rs1 rs2 }
{
    match funct7 {
        0 => base(funct3, rd, rs1, rs2),
        0x20 => other(funct3, rd, rs1, rs2),
        1 => product(funct3, rd, rs1, rs2),
        _ => None,
    }
}

/// The shifts by an immediate, by funct3 and funct7.
#[tactic(auto, unfolding(crate::specs::Table::shift_of))]
fn shift(funct3: u32, funct7: u32, rd: u32, rs1: u32, amount: u32) -> Option<Instr>
    ensures { result ≡ shift_of funct3 funct7 rd rs1 amount }
{
    match (funct3, funct7) {
        (1, 0) => Some(Instr::Slli { rd, rs1, amount }),
        (5, 0) => Some(Instr::Srli { rd, rs1, amount }),
        (5, 0x20) => Some(Instr::Srai { rd, rs1, amount }),
        _ => None,
    }
}

/// The operations on a register and an immediate, by funct3.
#[tactic(auto, unfolding(crate::specs::Table::immediate_of))]
fn immediate(word: u32) -> Option<Instr>
    ensures { result ≡ immediate_of (funct3_of word) (rd_of word) (rs1_of word) (rs2_of word) (funct7_of word) }
{
    let rd = rd(word);
    let rs1 = rs1(word);
    let imm = i_immediate(word);
    match funct3(word) {
        0 => Some(Instr::Addi { rd, rs1, imm }),
        2 => Some(Instr::Slti { rd, rs1, imm }),
        3 => Some(Instr::Sltiu { rd, rs1, imm }),
        4 => Some(Instr::Xori { rd, rs1, imm }),
        6 => Some(Instr::Ori { rd, rs1, imm }),
        7 => Some(Instr::Andi { rd, rs1, imm }),
        funct3 => shift(funct3, funct7(word), rd, rs1, rs2(word)),
    }
}

/// The two whole words of opcode 0x73.
#[tactic(auto, unfolding(crate::specs::Table::system_of))]
fn system(word: u32) -> Option<Instr>
    ensures { result ≡ system_of word }
{
    match word {
        0x0000_0073 => Some(Instr::Ecall),
        0x0010_0073 => Some(Instr::Ebreak),
        _ => None,
    }
}

/// The instruction of the table that a word spells.
#[tactic(auto, using(crate::proofs::Fields::repack), unfolding(crate::specs::Table::of_fields))]
fn spelled(word: u32) -> Option<Instr>
    ensures { result ≡ decode word }
{
    let (rd, rs1, rs2, funct3) = (rd(word), rs1(word), rs2(word), funct3(word));
    match opcode(word) {
        0x37 => Some(Instr::Lui {
            rd,
            imm: u_immediate(word),
        }),
        0x17 => Some(Instr::Auipc {
            rd,
            imm: u_immediate(word),
        }),
        0x6f => Some(Instr::Jal {
            rd,
            imm: j_immediate(word),
        }),
        0x67 if funct3 == 0 => Some(Instr::Jalr {
            rd,
            rs1,
            imm: i_immediate(word),
        }),
        0x63 => branch(funct3, rs1, rs2, b_immediate(word)),
        0x03 => load(funct3, rd, rs1, i_immediate(word)),
        0x23 => store(funct3, rs1, rs2, s_immediate(word)),
        0x13 => immediate(word),
        0x33 => register(funct3, funct7(word), rd, rs1, rs2),
        0x0f if funct3 == 0 => Some(Instr::Fence {
            rd,
            rs1,
            bits: i_immediate(word),
        }),
        0x73 => system(word),
        _ => None,
    }
}

/// The instruction that a word spells; `None` exactly where it is no word of RV32IM. It takes no
/// memory and constant time. docs/MACHINE.md has the table of words.
pub fn decode(word: u32) -> Option<Instr>
    ensures table { result ≡ decode word }
    ensures valid { IfSome result (λ instr. Valid instr) }
    ensures spells { IfSome result (λ instr. encode instr ≡ word) }
    ensures none { IfNone result ((instr : Instr) → Valid instr → encode instr ≢ word) }
{
    spelled(word)
}
