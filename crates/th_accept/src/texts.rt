//! From texts to checked modules.
ghost use Rattle.std.specs.Prelude.{◌≡◌, ◌≤◌, ◌∷◌, ◌<◌, [], ℕ, List, IfErr, IfOk, OnErr, OnOk, Some, length, map, slice_get};
ghost use Rattle.th_tree.specs.DeclView.{interface_of, module_of as tree_of};
ghost use Rattle.th_hier.specs.Numbering.{Grown};
ghost use Rattle.th_meaning.specs.Program.{ProgramModule};
ghost use Rattle.th_meaning.specs.View.{module_of};
ghost use Rattle.th_module_rules.specs.Texts.{AllGiven, HasNames};
ghost use Rattle.th_program.specs.Programs.{Ascending, IsPaired, program_of};
ghost use Rattle.th_texts.specs.Reading.{AreShort};
ghost use Rattle.th_texts.specs.Tokens.{AreAllTokens};
ghost use Rattle.th_full_names.specs.Numbering.{with_full_names};
ghost use Rattle.th_accept.specs.Answers.{Accepted, AcceptedWith, IsModuleFirst, Refused, RefusedWith};
ghost use Rattle.th_accept.specs.declared.refusal.Refusal.TheVariants.{Memory};
ghost use Rattle.th_accept.specs.Stages.{HasRead, LacksInterface, RefusedLate, text_refusal};

use crate::limits::demand_limits;
use crate::refusal::Refusal;
use crate::rules::check_rules;
use std::alloc::{AllocError, Global};
use th_full_names::{demand_interfaces, number_items};
use th_meaning::CoreModule;
use th_program::Trees;
use th_texts::{TextError, lex_all, read_all, read_with};
use th_tree::Tokens;

/// The refusal of texts that are not read.
fn refusal_of(error: TextError) -> Refusal
    ensures { result ≡ text_refusal error }
{
    match error {
        TextError::BadByte(place) => Refusal::BadByte(place),
        TextError::WideNumber(place) => Refusal::WideNumber(place),
        TextError::Syntax(place) => Refusal::Syntax(place),
        TextError::Memory => Refusal::Memory,
    }
}

/// The tokens of texts.
#[tactic(auto, using(crate::proofs::Reading::not_cut, crate::proofs::Reading::not_cut_with, crate::proofs::Reading::short_tokens))]
fn tokens_of<'a>(alloc: Global, texts: &[&'a [u8]]) -> Result<Vec<Tokens<'a>>, Refusal>
    requires short { (k : ℕ) (t : List ℕ) → slice_get (map (λ x. x.now) texts.now) k ≡ Some t → length t ≤ 2097152 }
    ensures tokens { IfOk result (λ tokens. AreAllTokens (map (λ x. x.now) texts.now) tokens.items) }
    ensures short { IfOk result (λ tokens. AreShort tokens.items) }
    ensures refused { IfErr result (Refused (map (λ x. x.now) texts.now)) }
    ensures refused_with { IfErr result (RefusedWith (map (λ x. x.now) texts.now)) }
{
    match lex_all(alloc, texts) {
        Ok(tokens) => Ok(tokens),
        Err(error) => Err(refusal_of(error)),
    }
}

/// The trees of texts with these tokens, each of the form that its first token says.
#[tactic(auto, using(crate::proofs::Reading::not_read))]
fn trees_of(alloc: Global, tokens: &[Tokens<'_>]) -> Result<Trees, Refusal>
    requires short { AreShort tokens.now }
    ensures paired { IfOk result (λ trees. IsPaired trees) }
    ensures ascending { IfOk result (λ trees. Ascending trees.interface_texts.items) }
    ensures read { (texts : List (List ℕ)) → AreAllTokens texts tokens.now → IfOk result (λ trees. HasRead texts tokens.now trees) }
    ensures refused { (texts : List (List ℕ)) → AreAllTokens texts tokens.now → IfErr result (Refused texts) }
{
    match read_all(alloc, tokens) {
        Ok(trees) => Ok(trees),
        Err(error) => Err(refusal_of(error)),
    }
}

/// The trees of texts with these tokens, of which the first is a module and the others are interfaces.
#[tactic(auto, using(crate::proofs::Reading::not_read_with))]
fn trees_with(alloc: Global, tokens: &[Tokens<'_>]) -> Result<Trees, Refusal>
    requires some { 0 < length tokens.now }
    requires short { AreShort tokens.now }
    ensures paired { IfOk result (λ trees. IsPaired trees) }
    ensures ascending { IfOk result (λ trees. Ascending trees.interface_texts.items) }
    ensures read { (texts : List (List ℕ)) → AreAllTokens texts tokens.now → IfOk result (λ trees. HasRead texts tokens.now trees) }
    ensures first { IfOk result (λ trees. trees.module_texts.items ≡ 0 ∷ []) }
    ensures refused { (texts : List (List ℕ)) → AreAllTokens texts tokens.now → IfErr result (RefusedWith texts) }
{
    match read_with(alloc, tokens) {
        Ok(trees) => Ok(trees),
        Err(error) => Err(refusal_of(error)),
    }
}

/// Refuses the first name after `uses` or `implements` that is not that of an interface.
fn demand_given(alloc: Global, trees: &Trees) -> Result<(), Refusal>
    requires paired { IsPaired trees.now }
    ensures given { IfOk result (λ _. AllGiven (program_of trees.now)) }
    ensures missing { IfErr result (LacksInterface (program_of trees.now)) }
{
    match demand_interfaces(alloc, trees) {
        Ok(None) => Ok(()),
        Ok(Some(missing)) => Err(Refusal::MissingInterface(missing.place, missing.name)),
        Err(_) => Err(Refusal::Memory),
    }
}

/// Puts the full names of all items into the table.
fn put_names(alloc: Global, trees: &mut Trees) -> Result<(), Refusal>
    requires paired { IsPaired trees.old }
    ensures paired { IsPaired trees.new }
    ensures grown { Grown trees.old.names trees.new.names }
    ensures texts { trees.new.interface_texts ≡ trees.old.interface_texts }
    ensures interfaces { (program_of trees.new).interfaces ≡ (program_of trees.old).interfaces }
    ensures modules { (program_of trees.new).modules ≡ (program_of trees.old).modules }
    ensures table { IfOk result (λ _. trees.new.names ≡ with_full_names trees.old.names (map interface_of trees.old.interfaces.items) (map tree_of trees.old.modules.items)) }
    ensures named { IfOk result (λ _. HasNames (program_of trees.new)) }
    ensures memory { IfErr result (λ e. e ≡ Memory) }
{
    match number_items(alloc, trees) {
        Ok(()) => Ok(()),
        Err(_) => Err(Refusal::Memory),
    }
}

/// The checked modules of texts with these tokens and trees, in the order of the texts, where they are accepted.
#[tactic(auto, using(crate::proofs::Accepting::lacks_refused))]
fn checked(
    alloc: Global,
    tokens: &[Tokens<'_>],
    mut trees: Trees,
) -> Result<Vec<CoreModule>, Refusal>
    requires paired { IsPaired trees }
    requires ascending { Ascending trees.interface_texts.items }
    ensures accepted { (texts : List (List ℕ)) → HasRead texts tokens.now trees → IfOk result (λ r. Accepted texts (map module_of r.items)) }
    ensures many { IfOk result (λ r. length r.items ≡ length trees.module_texts.items) }
    ensures refused { (texts : List (List ℕ)) → HasRead texts tokens.now trees → IfErr result (RefusedLate texts) }
{
    demand_given(alloc, &trees)?;
    put_names(alloc, &mut trees)?;
    let modules = check_rules(alloc, tokens, &mut trees)?;
    demand_limits(alloc, tokens, &trees, &modules)?;
    Ok(modules)
}

/// The bytes of texts.
fn bytes_of<'a>(alloc: Global, texts: &'a [Vec<u8>]) -> Result<Vec<&'a [u8]>, AllocError>
    ensures { IfOk result (λ r. map (λ x. x.now) r.items ≡ map (λ x. x.items) texts.now) }
{
    let mut done = Vec::new(alloc);
    for text in texts {
        done.push(text.as_slice())?;
    }
    Ok(done)
}

/// The checked modules of texts, in their order, or why they are refused.
#[tactic(auto, using(crate::proofs::Accepting::late_refused))]
fn judge_all(alloc: Global, texts: &[Vec<u8>]) -> Result<Vec<CoreModule>, Refusal>
    requires short { (k : ℕ) (t : List ℕ) → slice_get (map (λ x. x.items) texts.now) k ≡ Some t → length t ≤ 2097152 }
    ensures accepted { IfOk result (λ r. Accepted (map (λ x. x.items) texts.now) (map module_of r.items)) }
    ensures refused { IfErr result (Refused (map (λ x. x.items) texts.now)) }
{
    let texts = bytes_of(alloc, texts).map_err(|_| Refusal::Memory)?;
    let tokens = tokens_of(alloc, &texts)?;
    let trees = trees_of(alloc, &tokens)?;
    checked(alloc, &tokens, trees)
}

/// The checked modules of a program, in the order of the texts. A text whose first token is `interface` is an interface, and each
/// other one a module.
pub fn accept_all(alloc: Global, texts: &[Vec<u8>]) -> Result<Vec<CoreModule>, Refusal>
    requires few { length texts.now ≤ 64 }
    requires short { (k : ℕ) (t : List ℕ) → slice_get (map (λ x. x.items) texts.now) k ≡ Some t → length t ≤ 2097152 }
    ensures accepted { IfOk result (λ r. Accepted (map (λ x. x.items) texts.now) (map module_of r.items)) }
    ensures refused { IfErr result (Refused (map (λ x. x.items) texts.now)) }
    ensures complete { IfErr result (λ e. (ms : List ProgramModule) → Accepted (map (λ x. x.items) texts.now) ms → e ≡ Memory) }
{
    judge_all(alloc, texts)
}

/// The bytes of a text and of further ones.
fn bytes_with<'a>(
    alloc: Global,
    text: &'a [u8],
    others: &'a [Vec<u8>],
) -> Result<Vec<&'a [u8]>, AllocError>
    ensures { IfOk result (λ r. map (λ x. x.now) r.items ≡ text.now ∷ map (λ x. x.items) others.now) }
{
    let mut done = Vec::new(alloc);
    done.push(text)?;
    for other in others {
        done.push(other.as_slice())?;
    }
    Ok(done)
}

/// The same, with the refusal for want of memory.
fn texts_with<'a>(
    alloc: Global,
    text: &'a [u8],
    others: &'a [Vec<u8>],
) -> Result<Vec<&'a [u8]>, Refusal>
    ensures bytes { IfOk result (λ r. map (λ x. x.now) r.items ≡ text.now ∷ map (λ x. x.items) others.now) }
    ensures memory { IfErr result (λ e. e ≡ Memory) }
{
    match bytes_with(alloc, text, others) {
        Ok(texts) => Ok(texts),
        Err(_) => Err(Refusal::Memory),
    }
}

/// The checked module of texts with these tokens and trees, of which the first is the only module, where they are accepted.
#[tactic(auto, using(crate::proofs::Accepting::late_refused_with, crate::proofs::Accepting::module_first))]
fn checked_module(alloc: Global, tokens: &[Tokens<'_>], trees: Trees) -> Result<CoreModule, Refusal>
    requires paired { IsPaired trees }
    requires ascending { Ascending trees.interface_texts.items }
    requires first { trees.module_texts.items ≡ 0 ∷ [] }
    ensures accepted { (texts : List (List ℕ)) → HasRead texts tokens.now trees → IfOk result (λ r. AcceptedWith texts (module_of r)) }
    ensures refused { (texts : List (List ℕ)) → HasRead texts tokens.now trees → IfErr result (RefusedWith texts) }
{
    let mut modules = checked(alloc, tokens, trees)?;
    match modules.pop() {
        Some(program) => Ok(program),
        None => unreachable!(),
    }
}

/// The checked module of a text with these interfaces, or why they are refused.
fn judge_with(alloc: Global, text: &[u8], interfaces: &[Vec<u8>]) -> Result<CoreModule, Refusal>
    requires long { length text.now ≤ 2097152 }
    requires short { (k : ℕ) (t : List ℕ) → slice_get (map (λ x. x.items) interfaces.now) k ≡ Some t → length t ≤ 2097152 }
    ensures accepted { IfOk result (λ r. AcceptedWith (text.now ∷ map (λ x. x.items) interfaces.now) (module_of r)) }
    ensures refused { IfErr result (RefusedWith (text.now ∷ map (λ x. x.items) interfaces.now)) }
{
    let texts = texts_with(alloc, text, interfaces)?;
    let tokens = tokens_of(alloc, &texts)?;
    let trees = trees_with(alloc, &tokens)?;
    checked_module(alloc, &tokens, trees)
}

/// The checked module of a text with these interfaces. The module is the text 0, and the k-th interface, from 0, is the text
/// k + 1.
pub fn accept(alloc: Global, text: &[u8], interfaces: &[Vec<u8>]) -> Result<CoreModule, Refusal>
    requires few { length interfaces.now ≤ 63 }
    requires long { length text.now ≤ 2097152 }
    requires short { (k : ℕ) (t : List ℕ) → slice_get (map (λ x. x.items) interfaces.now) k ≡ Some t → length t ≤ 2097152 }
    ensures accepted { IfOk result (λ r. AcceptedWith (text.now ∷ map (λ x. x.items) interfaces.now) (module_of r)) }
    ensures refused { IfErr result (RefusedWith (text.now ∷ map (λ x. x.items) interfaces.now)) }
    ensures complete { IfErr result (λ e. (m : ProgramModule) → AcceptedWith (text.now ∷ map (λ x. x.items) interfaces.now) m → e ≡ Memory) }
{
    judge_with(alloc, text, interfaces)
}
