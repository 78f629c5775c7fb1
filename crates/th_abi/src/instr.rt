//! One instruction after another is appended to a row.
ghost use Rattle.std.specs.Prelude.{◌≡◌, ◌+◌, ◌<◌, ◌++◌, ◌∷◌, [], length};
ghost use Rattle.th_rv.specs.declared.instr.Instr.TheVariants.{Lui, Jal, Jalr, Beq, Bne, Bge, Bltu, Bgeu, Lw, Sw, Addi, Slti, Sltiu, Srai, Add, Sub, Slt, Sltu, Mul, Mulh, Div, Rem, Divu, Remu, Ecall};
ghost use Rattle.th_rv.specs.Table.{Valid};
ghost use Rattle.th_abi.specs.Words.{plain};

use crate::word::{PatternWord, Words};
use th_rv::{Instr, encode};

/// An instruction.
fn append(words: &mut Words, instr: Instr)
    requires room { length words.old.items < 64 }
    requires valid { Valid instr }
    ensures words { words.new.items ≡ words.old.items ++ plain instr ∷ [] }
    ensures count { length words.new.items ≡ length words.old.items + 1 }
{
    words.push(PatternWord {
        word: encode(instr),
        reloc: None,
        failure: None,
        label: None,
    });
}

/// The upper 20 bits of a register are set, and the others cleared.
pub(crate) fn lui(words: &mut Words, rd: u32, imm: u32)
    requires room { length words.old.items < 64 }
    requires valid { Valid (Lui rd imm) }
    ensures words { words.new.items ≡ words.old.items ++ plain (Lui rd imm) ∷ [] }
    ensures count { length words.new.items ≡ length words.old.items + 1 }
{
    append(words, Instr::Lui { rd, imm });
}

/// A linking jump by an offset.
pub(crate) fn jal(words: &mut Words, rd: u32, imm: u32)
    requires room { length words.old.items < 64 }
    requires valid { Valid (Jal rd imm) }
    ensures words { words.new.items ≡ words.old.items ++ plain (Jal rd imm) ∷ [] }
    ensures count { length words.new.items ≡ length words.old.items + 1 }
{
    append(words, Instr::Jal { rd, imm });
}

/// A linking jump to a register and an offset.
pub(crate) fn jalr(words: &mut Words, rd: u32, rs1: u32, imm: u32)
    requires room { length words.old.items < 64 }
    requires valid { Valid (Jalr rd rs1 imm) }
    ensures words { words.new.items ≡ words.old.items ++ plain (Jalr rd rs1 imm) ∷ [] }
    ensures count { length words.new.items ≡ length words.old.items + 1 }
{
    append(words, Instr::Jalr { rd, rs1, imm });
}

/// A branch where two registers are equal.
pub(crate) fn beq(words: &mut Words, rs1: u32, rs2: u32, imm: u32)
    requires room { length words.old.items < 64 }
    requires valid { Valid (Beq rs1 rs2 imm) }
    ensures words { words.new.items ≡ words.old.items ++ plain (Beq rs1 rs2 imm) ∷ [] }
    ensures count { length words.new.items ≡ length words.old.items + 1 }
{
    append(words, Instr::Beq { rs1, rs2, imm });
}

/// A branch where two registers differ.
pub(crate) fn bne(words: &mut Words, rs1: u32, rs2: u32, imm: u32)
    requires room { length words.old.items < 64 }
    requires valid { Valid (Bne rs1 rs2 imm) }
    ensures words { words.new.items ≡ words.old.items ++ plain (Bne rs1 rs2 imm) ∷ [] }
    ensures count { length words.new.items ≡ length words.old.items + 1 }
{
    append(words, Instr::Bne { rs1, rs2, imm });
}

/// A branch where the first register is at least the second.
pub(crate) fn bge(words: &mut Words, rs1: u32, rs2: u32, imm: u32)
    requires room { length words.old.items < 64 }
    requires valid { Valid (Bge rs1 rs2 imm) }
    ensures words { words.new.items ≡ words.old.items ++ plain (Bge rs1 rs2 imm) ∷ [] }
    ensures count { length words.new.items ≡ length words.old.items + 1 }
{
    append(words, Instr::Bge { rs1, rs2, imm });
}

/// A branch where the first register is below the second, without signs.
pub(crate) fn bltu(words: &mut Words, rs1: u32, rs2: u32, imm: u32)
    requires room { length words.old.items < 64 }
    requires valid { Valid (Bltu rs1 rs2 imm) }
    ensures words { words.new.items ≡ words.old.items ++ plain (Bltu rs1 rs2 imm) ∷ [] }
    ensures count { length words.new.items ≡ length words.old.items + 1 }
{
    append(words, Instr::Bltu { rs1, rs2, imm });
}

/// A branch where the first register is at least the second, without signs.
pub(crate) fn bgeu(words: &mut Words, rs1: u32, rs2: u32, imm: u32)
    requires room { length words.old.items < 64 }
    requires valid { Valid (Bgeu rs1 rs2 imm) }
    ensures words { words.new.items ≡ words.old.items ++ plain (Bgeu rs1 rs2 imm) ∷ [] }
    ensures count { length words.new.items ≡ length words.old.items + 1 }
{
    append(words, Instr::Bgeu { rs1, rs2, imm });
}

/// A word is loaded.
pub(crate) fn lw(words: &mut Words, rd: u32, rs1: u32, imm: u32)
    requires room { length words.old.items < 64 }
    requires valid { Valid (Lw rd rs1 imm) }
    ensures words { words.new.items ≡ words.old.items ++ plain (Lw rd rs1 imm) ∷ [] }
    ensures count { length words.new.items ≡ length words.old.items + 1 }
{
    append(words, Instr::Lw { rd, rs1, imm });
}

/// The word of `rs2` is stored.
pub(crate) fn sw(words: &mut Words, rs1: u32, rs2: u32, imm: u32)
    requires room { length words.old.items < 64 }
    requires valid { Valid (Sw rs1 rs2 imm) }
    ensures words { words.new.items ≡ words.old.items ++ plain (Sw rs1 rs2 imm) ∷ [] }
    ensures count { length words.new.items ≡ length words.old.items + 1 }
{
    append(words, Instr::Sw { rs1, rs2, imm });
}

/// The sum of a register and a number.
pub(crate) fn addi(words: &mut Words, rd: u32, rs1: u32, imm: u32)
    requires room { length words.old.items < 64 }
    requires valid { Valid (Addi rd rs1 imm) }
    ensures words { words.new.items ≡ words.old.items ++ plain (Addi rd rs1 imm) ∷ [] }
    ensures count { length words.new.items ≡ length words.old.items + 1 }
{
    append(words, Instr::Addi { rd, rs1, imm });
}

/// Whether a register is less than a number.
pub(crate) fn slti(words: &mut Words, rd: u32, rs1: u32, imm: u32)
    requires room { length words.old.items < 64 }
    requires valid { Valid (Slti rd rs1 imm) }
    ensures words { words.new.items ≡ words.old.items ++ plain (Slti rd rs1 imm) ∷ [] }
    ensures count { length words.new.items ≡ length words.old.items + 1 }
{
    append(words, Instr::Slti { rd, rs1, imm });
}

/// Whether a register is less than a number, without signs.
pub(crate) fn sltiu(words: &mut Words, rd: u32, rs1: u32, imm: u32)
    requires room { length words.old.items < 64 }
    requires valid { Valid (Sltiu rd rs1 imm) }
    ensures words { words.new.items ≡ words.old.items ++ plain (Sltiu rd rs1 imm) ∷ [] }
    ensures count { length words.new.items ≡ length words.old.items + 1 }
{
    append(words, Instr::Sltiu { rd, rs1, imm });
}

/// A register shifted right with its sign.
pub(crate) fn srai(words: &mut Words, rd: u32, rs1: u32, amount: u32)
    requires room { length words.old.items < 64 }
    requires valid { Valid (Srai rd rs1 amount) }
    ensures words { words.new.items ≡ words.old.items ++ plain (Srai rd rs1 amount) ∷ [] }
    ensures count { length words.new.items ≡ length words.old.items + 1 }
{
    append(words, Instr::Srai { rd, rs1, amount });
}

/// The sum of two registers.
pub(crate) fn add(words: &mut Words, rd: u32, rs1: u32, rs2: u32)
    requires room { length words.old.items < 64 }
    requires valid { Valid (Add rd rs1 rs2) }
    ensures words { words.new.items ≡ words.old.items ++ plain (Add rd rs1 rs2) ∷ [] }
    ensures count { length words.new.items ≡ length words.old.items + 1 }
{
    append(words, Instr::Add { rd, rs1, rs2 });
}

/// The difference of two registers.
pub(crate) fn sub(words: &mut Words, rd: u32, rs1: u32, rs2: u32)
    requires room { length words.old.items < 64 }
    requires valid { Valid (Sub rd rs1 rs2) }
    ensures words { words.new.items ≡ words.old.items ++ plain (Sub rd rs1 rs2) ∷ [] }
    ensures count { length words.new.items ≡ length words.old.items + 1 }
{
    append(words, Instr::Sub { rd, rs1, rs2 });
}

/// Whether the first register is less than the second.
pub(crate) fn slt(words: &mut Words, rd: u32, rs1: u32, rs2: u32)
    requires room { length words.old.items < 64 }
    requires valid { Valid (Slt rd rs1 rs2) }
    ensures words { words.new.items ≡ words.old.items ++ plain (Slt rd rs1 rs2) ∷ [] }
    ensures count { length words.new.items ≡ length words.old.items + 1 }
{
    append(words, Instr::Slt { rd, rs1, rs2 });
}

/// Whether the first register is less than the second, without signs.
pub(crate) fn sltu(words: &mut Words, rd: u32, rs1: u32, rs2: u32)
    requires room { length words.old.items < 64 }
    requires valid { Valid (Sltu rd rs1 rs2) }
    ensures words { words.new.items ≡ words.old.items ++ plain (Sltu rd rs1 rs2) ∷ [] }
    ensures count { length words.new.items ≡ length words.old.items + 1 }
{
    append(words, Instr::Sltu { rd, rs1, rs2 });
}

/// The lower half of a product.
pub(crate) fn mul(words: &mut Words, rd: u32, rs1: u32, rs2: u32)
    requires room { length words.old.items < 64 }
    requires valid { Valid (Mul rd rs1 rs2) }
    ensures words { words.new.items ≡ words.old.items ++ plain (Mul rd rs1 rs2) ∷ [] }
    ensures count { length words.new.items ≡ length words.old.items + 1 }
{
    append(words, Instr::Mul { rd, rs1, rs2 });
}

/// The upper half of a product.
pub(crate) fn mulh(words: &mut Words, rd: u32, rs1: u32, rs2: u32)
    requires room { length words.old.items < 64 }
    requires valid { Valid (Mulh rd rs1 rs2) }
    ensures words { words.new.items ≡ words.old.items ++ plain (Mulh rd rs1 rs2) ∷ [] }
    ensures count { length words.new.items ≡ length words.old.items + 1 }
{
    append(words, Instr::Mulh { rd, rs1, rs2 });
}

/// A quotient.
pub(crate) fn div(words: &mut Words, rd: u32, rs1: u32, rs2: u32)
    requires room { length words.old.items < 64 }
    requires valid { Valid (Div rd rs1 rs2) }
    ensures words { words.new.items ≡ words.old.items ++ plain (Div rd rs1 rs2) ∷ [] }
    ensures count { length words.new.items ≡ length words.old.items + 1 }
{
    append(words, Instr::Div { rd, rs1, rs2 });
}

/// A remainder.
pub(crate) fn rem(words: &mut Words, rd: u32, rs1: u32, rs2: u32)
    requires room { length words.old.items < 64 }
    requires valid { Valid (Rem rd rs1 rs2) }
    ensures words { words.new.items ≡ words.old.items ++ plain (Rem rd rs1 rs2) ∷ [] }
    ensures count { length words.new.items ≡ length words.old.items + 1 }
{
    append(words, Instr::Rem { rd, rs1, rs2 });
}

/// A quotient without signs.
pub(crate) fn divu(words: &mut Words, rd: u32, rs1: u32, rs2: u32)
    requires room { length words.old.items < 64 }
    requires valid { Valid (Divu rd rs1 rs2) }
    ensures words { words.new.items ≡ words.old.items ++ plain (Divu rd rs1 rs2) ∷ [] }
    ensures count { length words.new.items ≡ length words.old.items + 1 }
{
    append(words, Instr::Divu { rd, rs1, rs2 });
}

/// A remainder without signs.
pub(crate) fn remu(words: &mut Words, rd: u32, rs1: u32, rs2: u32)
    requires room { length words.old.items < 64 }
    requires valid { Valid (Remu rd rs1 rs2) }
    ensures words { words.new.items ≡ words.old.items ++ plain (Remu rd rs1 rs2) ∷ [] }
    ensures count { length words.new.items ≡ length words.old.items + 1 }
{
    append(words, Instr::Remu { rd, rs1, rs2 });
}

/// An environment call.
pub(crate) fn ecall(words: &mut Words)
    requires room { length words.old.items < 64 }
    ensures words { words.new.items ≡ words.old.items ++ plain Ecall ∷ [] }
    ensures count { length words.new.items ≡ length words.old.items + 1 }
{
    append(words, Instr::Ecall);
}
