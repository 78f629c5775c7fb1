//! The code words of a unit that puts bytes.
ghost use Rattle.std.specs.Prelude.{◌≡◌, ◌<◌, ◌++◌, IfOk, OnOk};
ghost use Rattle.th_link.specs.Puts.{call_code, code_words, put_code, puts_code};

use std::alloc::{AllocError, Global};
use th_rv::{Instr, encode};

/// The register that always reads 0.
const ZERO: u32 = 0;

/// The register a0, whose low byte is put.
const A0: u32 = 10;

/// The register a7, which says what an environment call does.
const A7: u32 = 17;

/// The call that puts the low byte of a0.
const PUT: u32 = 1;

/// The call that ends the run.
const END: u32 = 3;

/// Appends the words of an environment call of this number.
fn push_call(words: &mut Vec<u32>, number: u32) -> Result<(), AllocError>
    requires { number < 256 }
    ensures { OnOk result (words.new.items ≡ words.old.items ++ code_words (call_code number)) }
{
    words.push(encode(Instr::Addi {
        rd: A7,
        rs1: ZERO,
        imm: number,
    }))?;
    words.push(encode(Instr::Ecall))?;
    Ok(())
}

/// Appends the words that put a byte.
fn push_put(words: &mut Vec<u32>, byte: u32) -> Result<(), AllocError>
    requires { byte < 256 }
    ensures { OnOk result (words.new.items ≡ words.old.items ++ code_words (put_code byte)) }
{
    words.push(encode(Instr::Addi {
        rd: A0,
        rs1: ZERO,
        imm: byte,
    }))?;
    push_call(words, PUT)
}

/// The words of a unit that puts these bytes and ends the run.
#[tactic(auto, using(crate::proofs::Words::words_more))]
pub fn code_of(alloc: Global, bytes: &[u8]) -> Result<Vec<u32>, AllocError>
    ensures { IfOk result (λ words. words.items ≡ code_words (puts_code bytes.now)) }
{
    let mut words = Vec::new(alloc);
    for &byte in bytes {
        push_put(&mut words, byte as u32)?;
    }
    push_call(&mut words, END)?;
    Ok(words)
}
