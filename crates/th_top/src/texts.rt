//! The texts of files, accepted.

ghost use Rattle.std.specs.Prelude.{◌≡◌, ◌↔◌, ◌≤◌, IsTrue, length, map, slice_get, string_bytes, ℕ, List, Some, None, IfSome, IfNone, IfOk, IfErr, OnOk};
ghost use Rattle.th_accept.specs.Answers.{Accepted, Refused};
ghost use Rattle.th_accept.specs.declared.refusal.Refusal.TheVariants.{Memory};
ghost use Rattle.th_files.specs.Reading.{AreThere, IsReadError, Told};
ghost use Rattle.th_meaning.specs.Program.{ProgramModule};
ghost use Rattle.th_meaning.specs.View.{module_of};
ghost use Rattle.th_puts.specs.Form.{IsPuts};
ghost use Rattle.th_words.specs.Words.{AreFiles};
ghost use Rattle.th_top.specs.Answers.{text_limit, text_of};
ghost use Rattle.th_top.specs.Meant.{AreOfForm};
ghost use Rattle.th_top.specs.Texts.{Stops};
ghost use Rattle.th_top.specs.Verdict.{verdict_of};

use crate::verdict::Verdict;
use std::alloc::{AllocError, Global};
use th_accept::{Refusal, accept_all};
use th_files::{ReadError, read_files};
use th_meaning::CoreModule;
use th_puts::puts_of;
use th_world::Files;

/// The most bytes of a text.
const TEXT_LIMIT: u32 = 2_097_152;

/// The name of the file at a place.
#[tactic(auto, using(crate::proofs::Told::name_there, crate::proofs::Told::name_past))]
fn name_at(names: &[String], place: usize) -> Option<&str>
    ensures some { IfSome result (λ name. slice_get (map string_bytes names.now) place ≡ Some name.now) }
    ensures none { IfNone result (slice_get (map string_bytes names.now) place ≡ None) }
{
    match names.get(place) {
        None => None,
        Some(name) => Some(name.as_str()),
    }
}

/// The verdict where files weren't read.
fn unread<'a>(names: &'a [String], error: ReadError) -> Verdict<'a>
    ensures { (told : Told) (before later : ℕ) → IsReadError error text_limit told (map string_bytes names.now) before later
        → Stops told (map string_bytes names.now) before later (verdict_of result) }
{
    match error {
        ReadError::Memory => Verdict::NoMemory,
        ReadError::File(place) => match name_at(names, place) {
            None => Verdict::NoMemory,
            Some(name) => Verdict::BadFile(name),
        },
    }
}

/// The number of the text that is refused.
fn text_of(refusal: &Refusal) -> Option<u32>
    ensures { result ≡ text_of refusal.now }
{
    match refusal {
        Refusal::BadByte(place) => Some(place.text),
        Refusal::WideNumber(place) => Some(place.text),
        Refusal::Syntax(place) => Some(place.text),
        Refusal::MissingInterface(place, _) => Some(place.text),
        Refusal::Rule { place, .. } => Some(place.text),
        Refusal::TooLarge { place, .. } => Some(place.text),
        Refusal::Memory => None,
    }
}

/// The verdict where texts are refused.
fn refused<'a>(names: &'a [String], refusal: Refusal) -> Verdict<'a>
    ensures { (told : Told) (faults : ℕ) (texts : List (List ℕ)) → AreThere text_limit told (map string_bytes names.now) texts → Refused texts refusal
        → ((modules : List ProgramModule) → Accepted texts modules → refusal ≡ Memory) → Stops told (map string_bytes names.now) faults faults (verdict_of result) }
{
    let Some(text) = text_of(&refusal) else {
        return Verdict::NoMemory;
    };
    match name_at(names, text as usize) {
        None => Verdict::NoMemory,
        Some(name) => Verdict::Refused(name, refusal),
    }
}

/// Texts of files, and the checked modules of their program.
#[derive(Drop)]
pub struct Judged {
    pub texts: Vec<Vec<u8>>,
    pub modules: Vec<CoreModule>,
}

/// The checked modules of texts of files, where they are accepted as a program.
fn judge<'a>(
    alloc: Global,
    names: &'a [String],
    texts: &[Vec<u8>],
) -> Result<Vec<CoreModule>, Verdict<'a>>
    requires few { length texts.now ≤ 64 }
    requires short { (k : ℕ) (t : List ℕ) → slice_get (map (λ x. x.items) texts.now) k ≡ Some t → length t ≤ 2097152 }
    ensures accepted { IfOk result (λ ms. Accepted (map (λ x. x.items) texts.now) (map module_of ms.items)) }
    ensures stops { IfErr result (λ v. (told : Told) (faults : ℕ) → AreThere text_limit told (map string_bytes names.now) (map (λ x. x.items) texts.now)
        → Stops told (map string_bytes names.now) faults faults (verdict_of v)) }
{
    match accept_all(alloc, texts) {
        Ok(modules) => Ok(modules),
        Err(refusal) => Err(refused(names, refusal)),
    }
}

/// The texts of files, which are accepted as a program; or why the command stops. No file is written.
pub fn accepted_texts<'a, F: Files>(
    alloc: Global,
    names: &'a [String],
    files: &mut F,
) -> Result<Judged, Verdict<'a>>
    requires { AreFiles (map string_bytes names.now) }
    ensures there { IfOk result (λ j. AreThere text_limit (F.map files.old) (map string_bytes names.now) (map (λ t. t.items) j.texts.items)) }
    ensures accepted { IfOk result (λ j. Accepted (map (λ t. t.items) j.texts.items) (map module_of j.modules.items)) }
    ensures no_fault { OnOk result (F.faults files.new ≡ F.faults files.old) }
    ensures stops { IfErr result (λ v. Stops (F.map files.old) (map string_bytes names.now) (F.faults files.old) (F.faults files.new) (verdict_of v)) }
    ensures same_files { F.map files.new ≡ F.map files.old }
    ensures same_written { F.written files.new ≡ F.written files.old }
{
    let texts = match read_files(alloc, names, TEXT_LIMIT, files) {
        Ok(texts) => texts,
        Err(error) => return Err(unread(names, error)),
    };
    match judge(alloc, names, &texts) {
        Ok(modules) => Ok(Judged { texts, modules }),
        Err(verdict) => Err(verdict),
    }
}

/// Whether checked modules are a program that puts bytes.
fn are_puts(alloc: Global, modules: &[CoreModule]) -> Result<bool, AllocError>
    ensures { IfOk result (λ is. IsTrue is ↔ IsPuts (map module_of modules.now)) }
{
    match puts_of(alloc, modules)? {
        Some(_) => Ok(true),
        None => Ok(false),
    }
}

/// Whether texts are of the form that is built.
pub fn are_of_form(alloc: Global, texts: &[Vec<u8>]) -> Result<bool, AllocError>
    requires few { length texts.now ≤ 64 }
    requires short { (k : ℕ) (t : List ℕ) → slice_get (map (λ x. x.items) texts.now) k ≡ Some t → length t ≤ 2097152 }
    ensures { IfOk result (λ is. IsTrue is ↔ AreOfForm (map (λ x. x.items) texts.now)) }
{
    match accept_all(alloc, texts) {
        Ok(modules) => are_puts(alloc, &modules),
        Err(refusal) => match text_of(&refusal) {
            Some(_) => Ok(false),
            None => Err(AllocError),
        },
    }
}
