//! The tokens of texts.
ghost use Rattle.std.specs.Prelude.{◌≡◌, ◌≤◌, ◌↔◌, ℕ, true, List, [], ◌∷◌, ◌++◌, IfOk, IfErr, OnOk, Some, length, map, slice_get};
ghost use Rattle.th_module_rules.specs.Texts.{BeginsInterface};
ghost use Rattle.th_texts.specs.Tokens.{AreAllTokens, HaveNoTokens, error_of};

use crate::error::TextError;
use std::alloc::Global;
use th_lex::{LexError, lex};
use th_tree::{Reserved, TokenKind, Tokens};
use th_type::Place;

/// The number of a text as one of 32 bits; a greater one is want of memory.
pub fn text_number(number: usize) -> Result<u32, TextError>
    ensures number { IfOk result (λ r. r ≡ number) }
    ensures memory { IfErr result (λ e. e ≡ TextError.Memory) }
{
    match u32::try_from(number) {
        Ok(number) => Ok(number),
        Err(_) => Err(TextError::Memory),
    }
}

/// Why the text of this number has no tokens.
fn error_of(text: u32, error: LexError) -> TextError
    ensures { result ≡ error_of text error }
{
    match error {
        LexError::BadByte(at) => TextError::BadByte(Place { text, at }),
        LexError::WideNumber(at) => TextError::WideNumber(Place { text, at }),
        LexError::Memory => TextError::Memory,
    }
}

/// Puts the tokens of a text to those of others.
fn keep<'a>(done: &mut Vec<Tokens<'a>>, tokens: Tokens<'a>) -> Result<(), TextError>
    ensures kept { OnOk result (done.new.items ≡ done.old.items ++ tokens.entry ∷ []) }
    ensures memory { IfErr result (λ e. e ≡ TextError.Memory) }
{
    done.push(tokens).map_err(|_| TextError::Memory)
}

/// The tokens of each text, or the fault of the first text that has none.
pub fn lex_all<'a>(alloc: Global, texts: &[&'a [u8]]) -> Result<Vec<Tokens<'a>>, TextError>
    requires short { (k : ℕ) (t : List ℕ) → slice_get (map (λ x. x.now) texts.now) k ≡ Some t → length t ≤ 1073741824 }
    ensures tokens { IfOk result (λ tokens. AreAllTokens (map (λ x. x.now) texts.now) tokens.items) }
    ensures refused { IfErr result (λ e. HaveNoTokens (map (λ x. x.now) texts.now) e) }
{
    let mut done = Vec::new(alloc);
    for text in texts {
        match lex(alloc, text) {
            Ok(tokens) => keep(&mut done, tokens)?,
            Err(error) => return Err(error_of(text_number(done.len())?, error)),
        }
    }
    Ok(done)
}

/// Whether the first token is the word `interface`.
pub fn begins_interface(tokens: &Tokens<'_>) -> bool
    ensures { (result ≡ true) ↔ BeginsInterface tokens.now.list }
{
    match tokens.get(0) {
        None => false,
        Some(token) => matches!(token.kind, TokenKind::Word(Reserved::KeyInterface)),
    }
}
