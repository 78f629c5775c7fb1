//! From texts of files to an executable and the machine that is loaded from it.

ghost use Rattle.std.specs.Prelude.{◌≡◌, ◌≤◌, ◌<◌, ℕ, List, None, Some, IfOk, IfErr, OnOk, length, map, slice_get, string_bytes};
ghost use Rattle.th_meaning.specs.Program.{Program};
ghost use Rattle.th_meaning.specs.View.{module_of};
ghost use Rattle.th_accept.specs.Answers.{Accepted};
ghost use Rattle.th_puts.specs.Form.{AreBytes, PutsBytes, puts_program};
ghost use Rattle.th_elf.specs.Loadable.{first_failing, segments_of};
ghost use Rattle.th_elf.specs.Run.{loaded};
ghost use Rattle.th_mach.specs.Counted.{fresh};
ghost use Rattle.th_words.specs.Words.{AreFiles};
ghost use Rattle.th_top.specs.Built.{IsProductOf, IsProduct, MeansAlone};
ghost use Rattle.th_top.specs.Texts.{Stops, StopsAlone, StopsUnbuilt};
ghost use Rattle.th_top.specs.Verdict.{verdict_of};

use crate::texts::{Judged, accepted_texts, are_of_form};
use crate::verdict::Verdict;
use std::alloc::{AllocError, Global};
use th_elf::{ElfError, Segments, read_elf, write_elf};
use th_link::link;
use th_mach::Machine;
use th_meaning::CoreModule;
use th_puts::{Puts, puts_of};
use th_world::Files;

/// The bytes of the region of a machine.
const REGION: u32 = 1_048_576;

/// An executable, and the machine that was loaded from its bytes.
#[derive(Drop)]
pub struct Product {
    pub bytes: Vec<u8>,
    pub machine: Machine,
}

/// Loads a machine from the bytes of an executable in the written form.
fn load(alloc: Global, bytes: &[u8]) -> Result<Machine, AllocError>
    requires { first_failing bytes.now ≡ None }
    ensures { IfOk result (λ machine. machine ≡ fresh (loaded (segments_of bytes.now) REGION)) }
{
    match read_elf(alloc, bytes) {
        Ok(segments) => Machine::load(alloc, &segments, REGION),
        Err(ElfError::Memory) => Err(AllocError),
        Err(ElfError::BadElf(_)) => unreachable!(),
    }
}

/// The executable of a program that puts bytes, and the machine that was loaded from its bytes.
fn produce(alloc: Global, program: &Puts) -> Result<Product, AllocError>
    requires bytes { AreBytes program.now.bytes.items }
    requires few { length program.now.bytes.items ≤ 4999 }
    ensures { IfOk result (IsProductOf (puts_program program.now.name program.now.bytes.items)) }
{
    let image = link(alloc, program)?;
    let bytes = write_elf(alloc, &image)?;
    let machine = load(alloc, &bytes)?;
    Ok(Product { bytes, machine })
}

/// What the program of one file puts; or the verdict that the file isn't built.
fn alone<'a>(alloc: Global, name: &'a str, modules: &[CoreModule]) -> Result<Puts, Verdict<'a>>
    ensures puts { IfOk result (λ puts. PutsBytes (map module_of modules.now) puts.name puts.bytes.items) }
    ensures stops { IfErr result (λ v. StopsAlone name.now (map module_of modules.now) (verdict_of v)) }
{
    match puts_of(alloc, modules) {
        Ok(Some(puts)) => Ok(puts),
        Ok(None) => Err(Verdict::NotBuilt(name)),
        Err(AllocError) => Err(Verdict::NoMemory),
    }
}

/// The verdict on the texts of several files, which names the first that isn't built.
fn several<'a>(alloc: Global, names: &'a [String], texts: &[Vec<u8>]) -> Verdict<'a>
    requires two { 1 < length names.now }
    requires many { length texts.now ≡ length names.now }
    requires short { (k : ℕ) (t : List ℕ) → slice_get (map (λ x. x.items) texts.now) k ≡ Some t → length t ≤ 2097152 }
    ensures { StopsUnbuilt (map string_bytes names.now) (map (λ x. x.items) texts.now) (verdict_of result) }
{
    let Ok(first) = are_of_form(alloc, &texts[..1]) else {
        return Verdict::NoMemory;
    };
    if first {
        Verdict::NotBuilt(names[1].as_str())
    } else {
        Verdict::NotBuilt(names[0].as_str())
    }
}

/// What the program in texts of files puts, where they are one text of the form that is built; else the verdict that names the first
/// file that isn't built.
fn meant<'a>(alloc: Global, names: &'a [String], judged: &Judged) -> Result<Puts, Verdict<'a>>
    requires some { 0 < length names.now }
    requires many { length judged.now.texts.items ≡ length names.now }
    requires short { (k : ℕ) (t : List ℕ) → slice_get (map (λ x. x.items) judged.now.texts.items) k ≡ Some t → length t ≤ 2097152 }
    requires accepted { Accepted (map (λ x. x.items) judged.now.texts.items) (map module_of judged.now.modules.items) }
    ensures means { IfOk result (λ puts. MeansAlone (map (λ x. x.items) judged.now.texts.items) (puts_program puts.name puts.bytes.items)) }
    ensures bytes { IfOk result (λ puts. AreBytes puts.bytes.items) }
    ensures few { IfOk result (λ puts. length puts.bytes.items ≤ 4999) }
    ensures stops { IfErr result (λ v. StopsUnbuilt (map string_bytes names.now) (map (λ x. x.items) judged.now.texts.items) (verdict_of v)) }
{
    if names.len() == 1 {
        alone(alloc, names[0].as_str(), &judged.modules)
    } else {
        Err(several(alloc, names, &judged.texts))
    }
}

/// The executable of texts of files, and the machine that was loaded from its bytes, where they are one text of the form that is
/// built.
fn build_texts<'a>(
    alloc: Global,
    names: &'a [String],
    judged: &Judged,
) -> Result<Product, Verdict<'a>>
    requires some { 0 < length names.now }
    requires many { length judged.now.texts.items ≡ length names.now }
    requires short { (k : ℕ) (t : List ℕ) → slice_get (map (λ x. x.items) judged.now.texts.items) k ≡ Some t → length t ≤ 2097152 }
    requires accepted { Accepted (map (λ x. x.items) judged.now.texts.items) (map module_of judged.now.modules.items) }
    ensures built { IfOk result (λ p. (modules : Program) × MeansAlone (map (λ x. x.items) judged.now.texts.items) modules × IsProductOf modules p) }
    ensures stops { IfErr result (λ v. StopsUnbuilt (map string_bytes names.now) (map (λ x. x.items) judged.now.texts.items) (verdict_of v)) }
{
    let program = match meant(alloc, names, judged) {
        Ok(program) => program,
        Err(verdict) => return Err(verdict),
    };
    match produce(alloc, &program) {
        Ok(product) => Ok(product),
        Err(AllocError) => Err(Verdict::NoMemory),
    }
}

/// The executable of the program in files, and the machine that was loaded from its bytes, where their texts are accepted and
/// built; or why the command stops. No file is written.
pub fn build<'a, F: Files>(
    alloc: Global,
    names: &'a [String],
    files: &mut F,
) -> Result<Product, Verdict<'a>>
    requires { AreFiles (map string_bytes names.now) }
    ensures built { IfOk result (IsProduct (F.map files.old) (map string_bytes names.now)) }
    ensures no_fault { OnOk result (F.faults files.new ≡ F.faults files.old) }
    ensures stops { IfErr result (λ v. Stops (F.map files.old) (map string_bytes names.now) (F.faults files.old) (F.faults files.new) (verdict_of v)) }
    ensures same_files { F.map files.new ≡ F.map files.old }
    ensures same_written { F.written files.new ≡ F.written files.old }
{
    match accepted_texts(alloc, names, files) {
        Ok(judged) => build_texts(alloc, names, &judged),
        Err(verdict) => Err(verdict),
    }
}
