//! The canonical texts of the heads of classes.
ghost use Rattle.std.specs.Prelude.{◌≡◌, drop, false, map, None, IfOk};
ghost use Rattle.std.specs.List.{join_with_byte};
ghost use Rattle.th_tree.specs.DeclView.{class_head_of};
ghost use Rattle.th_lex.specs.Canonical.{canonical};
ghost use Rattle.th_head_texts.specs.Heads.{declared_head, private_head, private_words, up_to_end};
ghost use Rattle.th_head_texts.specs.Spaced.{read_by};

use crate::bare::{Reading, append_words};
use crate::head_tokens::HeadTokens;
use crate::kinds::{is_for_or, is_semicolon, kind_at, may_mean_item, token_at};
use crate::words::append_token;
use std::alloc::{AllocError, Global};
use th_hier::{Index, Numbers};
use th_tree::{ClassHead, Ident, NameTable, Tokens};

/// The canonical text of the tokens from place `from` up to the first `;`.
#[tactic(auto, using(crate::proofs::Spacing::joined_spaced, crate::proofs::Heads::spelled_all))]
fn spelled_from(alloc: Global, tokens: &Tokens<'_>, from: usize) -> Result<Vec<u8>, AllocError>
    ensures { IfOk result (λ r. r.items ≡ canonical tokens.now.text (up_to_end (drop from tokens.now.list))) }
{
    let mut text = Vec::new(alloc);
    let mut begun = false;
    for k in from..tokens.len() {
        let token = token_at(tokens, k);
        append_token(&mut text, begun, token.kind, tokens.slice(k))?;
        if is_semicolon(token.kind) {
            return Ok(text);
        }
        begun = true;
    }
    Ok(text)
}

/// The canonical text of the head of a class of an interface, which starts at the byte. It takes time linear in its tokens, and
/// logarithmic in those of the text.
pub fn declared_head_text(
    alloc: Global,
    tokens: &HeadTokens<'_, '_>,
    at: u32,
) -> Result<Vec<u8>, AllocError>
    ensures { IfOk result (λ r. r.items ≡ declared_head tokens.now at) }
{
    spelled_from(alloc, tokens.tokens(), tokens.place_from(at))
}

/// The words of the tokens from place `from` up to the first `;`, which are those of the head of a private class.
#[tactic(auto, using(crate::proofs::Spacing::joined_spaced, crate::proofs::Heads::private_all))]
fn private_from(
    alloc: Global,
    names: &mut NameTable,
    reading: Reading<'_>,
    tokens: &Tokens<'_>,
    from: usize,
) -> Result<Vec<u8>, AllocError>
    ensures text { IfOk result (λ r. r.items ≡ join_with_byte 32 (private_words (read_by names.old reading.entry) tokens.now.text false None (up_to_end (drop from tokens.now.list)))) }
    ensures names { IfOk result (λ _. names.new ≡ names.old) }
{
    let mut text = Vec::new(alloc);
    let mut after_for = false;
    let mut before = None;
    for k in from..tokens.len() {
        let token = token_at(tokens, k);
        let bare = may_mean_item(after_for, before, token.kind, kind_at(tokens, k + 1));
        append_words(
            alloc,
            names,
            reading,
            bare,
            before.is_some(),
            token.kind,
            tokens.slice(k),
            &mut text,
        )?;
        if is_semicolon(token.kind) {
            return Ok(text);
        }
        after_for = is_for_or(after_for, token.kind);
        before = Some(token.kind);
    }
    Ok(text)
}

/// The numbers of the names.
fn numbers_of(alloc: Global, names: &[Ident]) -> Result<Vec<u32>, AllocError>
    ensures { IfOk result (λ r. r.items ≡ map (λ i. i.name) names.now) }
{
    names.iter().map(|name| name.name).collect(alloc)
}

/// The canonical text of the head of a private class of a module. No name is new in the table; a name of the head that is not in the
/// table is answered as want of memory, but every name of a text that was read is there. It takes time linear in the head's tokens, and
/// logarithmic in those of the text.
pub fn private_head_text(
    alloc: Global,
    names: &mut NameTable,
    index: &Index,
    implements: Option<u32>,
    tokens: &HeadTokens<'_, '_>,
    head: &ClassHead,
) -> Result<Vec<u8>, AllocError>
    ensures text { IfOk result (λ r. r.items ≡ private_head names.old index.now implements tokens.now (class_head_of head.now)) }
    ensures names { IfOk result (λ _. names.new ≡ names.old) }
{
    let params = numbers_of(alloc, &head.params)?;
    let params = Numbers::of(alloc, &params)?;
    let reading = Reading {
        index,
        implements,
        params: &params,
    };
    private_from(
        alloc,
        names,
        reading,
        tokens.tokens(),
        tokens.place_from(head.at),
    )
}
