//! The trees of texts.
ghost use Rattle.std.specs.Prelude.{◌≡◌, ◌+◌, ◌<◌, ◌-◌, ◌^◌, ◌↔◌, ℕ, true, List, [], ◌∷◌, IfOk, IfErr, OnOk, length};
ghost use Rattle.th_hier.specs.Numbering.{Grown};
ghost use Rattle.th_module_rules.specs.Texts.{AreRead};
ghost use Rattle.th_program.specs.Programs.{Ascending, IsPaired, program_of};
ghost use Rattle.th_texts.specs.Adding.{Adds, AreModuleTexts, HasNoTreeIn, HaveNoTreesIn};
ghost use Rattle.th_texts.specs.Reading.{AreShort, HaveNoTrees, HaveNoTreesWith, IsInterface, with_all_tokens};
ghost use Rattle.th_texts.specs.Tokens.{AreAllTokens};

use crate::error::TextError;
use crate::one_text::{add_interface, add_module};
use crate::source::{begins_interface, text_number};
use std::alloc::Global;
use th_program::Trees;
use th_tree::{NameTable, Tokens};

/// How it is known which texts are interfaces.
#[derive(Clone, Copy)]
enum Told {
    /// Those whose first token is the word `interface`.
    ByFirstToken,
    /// All but the first text.
    ByPlace,
}

/// Whether a table has room for the names of a text.
fn has_room(names: &NameTable, tokens: &Tokens<'_>) -> bool
    ensures { result ≡ true → length names.now + length tokens.now.list < 2 ^ 32 - 1 }
{
    names.len().saturating_add(tokens.len()) < 0xffff_ffff
}

/// Whether the text of this number is an interface.
fn is_interface(told: Told, number: usize, tokens: &Tokens<'_>) -> bool
    ensures { (result ≡ true) ↔ IsInterface told number tokens.now.list }
{
    match told {
        Told::ByFirstToken => begins_interface(tokens),
        Told::ByPlace => 0 < number,
    }
}

/// Reads the text of this number, as an interface or as a module.
fn add_text(
    alloc: Global,
    told: Told,
    trees: &mut Trees,
    number: usize,
    tokens: &Tokens<'_>,
) -> Result<(), TextError>
    requires short { length tokens.now.text < 2 ^ 32 }
    ensures added { OnOk result (Adds told trees.old number tokens.now trees.new) }
    ensures refused { IfErr result (λ e. HasNoTreeIn told trees.old.names number tokens.now trees.new.names e) }
{
    if !has_room(&trees.names, tokens) {
        return Err(TextError::Memory);
    }
    let text = text_number(number)?;
    if is_interface(told, number, tokens) {
        add_interface(alloc, trees, text, tokens)
    } else {
        add_module(alloc, trees, text, tokens)
    }
}

/// The trees of texts with these tokens.
fn read(alloc: Global, told: Told, tokens: &[Tokens<'_>]) -> Result<Trees, TextError>
    requires short { AreShort tokens.now }
    ensures paired { IfOk result (λ trees. IsPaired trees) }
    ensures ascending { IfOk result (λ trees. Ascending trees.interface_texts.items) }
    ensures first { IfOk result (λ trees. AreModuleTexts told (length tokens.now) trees.module_texts.items) }
    ensures table { IfOk result (λ trees. trees.names ≡ with_all_tokens [] tokens.now) }
    ensures read { (texts : List (List ℕ)) → AreAllTokens texts tokens.now → IfOk result (λ trees. (table : List (List ℕ)) → Grown trees.names table → AreRead table 0 texts (program_of trees).interfaces (program_of trees).modules) }
    ensures refused { (texts : List (List ℕ)) → AreAllTokens texts tokens.now → IfErr result (λ e. HaveNoTreesIn told texts e) }
{
    let mut trees = Trees::new(alloc);
    for k in 0..tokens.len() {
        add_text(alloc, told, &mut trees, k, &tokens[k])?;
    }
    Ok(trees)
}

/// The trees of texts with these tokens, each of the form that its first token says. They are those of the texts over any longer
/// table as well.
pub fn read_all(alloc: Global, tokens: &[Tokens<'_>]) -> Result<Trees, TextError>
    requires short { AreShort tokens.now }
    ensures paired { IfOk result (λ trees. IsPaired trees) }
    ensures ascending { IfOk result (λ trees. Ascending trees.interface_texts.items) }
    ensures table { IfOk result (λ trees. trees.names ≡ with_all_tokens [] tokens.now) }
    ensures read { (texts : List (List ℕ)) → AreAllTokens texts tokens.now → IfOk result (λ trees. (table : List (List ℕ)) → Grown trees.names table → AreRead table 0 texts (program_of trees).interfaces (program_of trees).modules) }
    ensures refused { (texts : List (List ℕ)) → AreAllTokens texts tokens.now → IfErr result (λ e. HaveNoTrees texts e) }
{
    read(alloc, Told::ByFirstToken, tokens)
}

/// The trees of texts with these tokens, of which the first is a module and the others are interfaces. They are those of the texts
/// over any longer table as well.
pub fn read_with(alloc: Global, tokens: &[Tokens<'_>]) -> Result<Trees, TextError>
    requires short { AreShort tokens.now }
    ensures paired { IfOk result (λ trees. IsPaired trees) }
    ensures ascending { IfOk result (λ trees. Ascending trees.interface_texts.items) }
    ensures first { 0 < length tokens.now → IfOk result (λ trees. trees.module_texts.items ≡ 0 ∷ []) }
    ensures table { IfOk result (λ trees. trees.names ≡ with_all_tokens [] tokens.now) }
    ensures read { (texts : List (List ℕ)) → AreAllTokens texts tokens.now → IfOk result (λ trees. (table : List (List ℕ)) → Grown trees.names table → AreRead table 0 texts (program_of trees).interfaces (program_of trees).modules) }
    ensures refused { (texts : List (List ℕ)) → AreAllTokens texts tokens.now → IfErr result (λ e. HaveNoTreesWith texts e) }
{
    read(alloc, Told::ByPlace, tokens)
}
