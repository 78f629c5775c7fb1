//! The instructions of RV32I with the M extension, and the causes of traps.

/// An instruction with its fields. docs/MACHINE.md states what each does.
///
/// `rd`, `rs1` and `rs2` are numbers of registers, below 32. An immediate is the field as its format
/// spells it, without its sign taken out: 12 bits in loads, stores, JALR and the operations with an
/// immediate; 13 bits, even, in branches; 20 bits in LUI and AUIPC (bits 31 to 12 of the value);
/// 21 bits, even, in JAL; 5 bits (`amount`) in the shifts with an immediate.
#[derive(Clone, Copy, PartialEq, Eq, Debug)]
pub enum Instr {
    Lui { rd: u32, imm: u32 },
    Auipc { rd: u32, imm: u32 },
    Jal { rd: u32, imm: u32 },
    Jalr { rd: u32, rs1: u32, imm: u32 },
    Beq { rs1: u32, rs2: u32, imm: u32 },
    Bne { rs1: u32, rs2: u32, imm: u32 },
    Blt { rs1: u32, rs2: u32, imm: u32 },
    Bge { rs1: u32, rs2: u32, imm: u32 },
    Bltu { rs1: u32, rs2: u32, imm: u32 },
    Bgeu { rs1: u32, rs2: u32, imm: u32 },
    Lb { rd: u32, rs1: u32, imm: u32 },
    Lh { rd: u32, rs1: u32, imm: u32 },
    Lw { rd: u32, rs1: u32, imm: u32 },
    Lbu { rd: u32, rs1: u32, imm: u32 },
    Lhu { rd: u32, rs1: u32, imm: u32 },
    Sb { rs1: u32, rs2: u32, imm: u32 },
    Sh { rs1: u32, rs2: u32, imm: u32 },
    Sw { rs1: u32, rs2: u32, imm: u32 },
    Addi { rd: u32, rs1: u32, imm: u32 },
    Slti { rd: u32, rs1: u32, imm: u32 },
    Sltiu { rd: u32, rs1: u32, imm: u32 },
    Xori { rd: u32, rs1: u32, imm: u32 },
    Ori { rd: u32, rs1: u32, imm: u32 },
    Andi { rd: u32, rs1: u32, imm: u32 },
    Slli { rd: u32, rs1: u32, amount: u32 },
    Srli { rd: u32, rs1: u32, amount: u32 },
    Srai { rd: u32, rs1: u32, amount: u32 },
    Add { rd: u32, rs1: u32, rs2: u32 },
    Sub { rd: u32, rs1: u32, rs2: u32 },
    Sll { rd: u32, rs1: u32, rs2: u32 },
    Slt { rd: u32, rs1: u32, rs2: u32 },
    Sltu { rd: u32, rs1: u32, rs2: u32 },
    Xor { rd: u32, rs1: u32, rs2: u32 },
    Srl { rd: u32, rs1: u32, rs2: u32 },
    Sra { rd: u32, rs1: u32, rs2: u32 },
    Or { rd: u32, rs1: u32, rs2: u32 },
    And { rd: u32, rs1: u32, rs2: u32 },
    Mul { rd: u32, rs1: u32, rs2: u32 },
    Mulh { rd: u32, rs1: u32, rs2: u32 },
    Mulhsu { rd: u32, rs1: u32, rs2: u32 },
    Mulhu { rd: u32, rs1: u32, rs2: u32 },
    Div { rd: u32, rs1: u32, rs2: u32 },
    Divu { rd: u32, rs1: u32, rs2: u32 },
    Rem { rd: u32, rs1: u32, rs2: u32 },
    Remu { rd: u32, rs1: u32, rs2: u32 },
    /// A FENCE does nothing; its other twelve bits, `rs1` and `rd` are kept.
    Fence { rd: u32, rs1: u32, bits: u32 },
    Ecall,
    Ebreak,
}

/// Why an instruction traps. A trap changes nothing and isn't retired. docs/MACHINE.md states when
/// each cause comes.
#[derive(Clone, Copy, PartialEq, Eq, Debug)]
pub enum Cause {
    /// The program counter isn't a multiple of 4, or its word can't be fetched.
    Fetch,
    /// The word is no instruction.
    Illegal,
    /// A jump or taken branch goes to an address that isn't a multiple of 4.
    Jump,
    /// A halfword or word is loaded or stored at an address that isn't a multiple of its size.
    Misaligned,
    /// A byte to be loaded is in no area that is loaded from.
    Load,
    /// A byte to be stored is in no area that is stored to.
    Store,
    /// The environment call has no such number, or the name that it gives can't be loaded.
    Ecall,
    /// EBREAK.
    Ebreak,
}
