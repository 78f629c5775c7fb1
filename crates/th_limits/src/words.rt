//! The counts of the names and the string literals of a text. docs/LANGUAGE.md, "Limits", states the limits.
ghost use Rattle.std.specs.Prelude.{◌≡◌, ◌<◌, length, OnOk, Some, slice_get};
ghost use Rattle.th_limits.specs.Earliest.{earliest};
ghost use Rattle.th_limits.specs.Words.{token_counts, tokens_counts};

use crate::excess::{Excess, measure};
use std::alloc::{AllocError, Global};
use th_tree::{Token, TokenKind, Tokens};
use th_type::{Place, What};

/// Measures the token at place `k`.
fn measure_token(
    alloc: Global,
    first: &mut Option<Excess>,
    text: u32,
    tokens: &Tokens<'_>,
    k: usize,
    token: Token,
) -> Result<(), AllocError>
    requires below { k < length tokens.now.list }
    requires is { slice_get tokens.now.list k ≡ Some token }
    ensures { OnOk result (first.new ≡ earliest first.old (token_counts text tokens.now.text token)) }
{
    let place = Place {
        text,
        at: token.start,
    };
    match token.kind {
        TokenKind::Name => measure(first, What::Name, tokens.slice(k).len() as u64, place),
        TokenKind::Text => {
            let value = tokens.value(alloc, k)?;
            measure(first, What::Literal, value.len() as u64, place);
        }
        _ => {}
    }
    Ok(())
}

/// Measures the names and the string literals among the tokens of the text of this number.
pub fn measure_tokens(
    alloc: Global,
    first: &mut Option<Excess>,
    text: u32,
    tokens: &Tokens<'_>,
) -> Result<(), AllocError>
    ensures { OnOk result (first.new ≡ earliest first.old (tokens_counts text tokens.now.text tokens.now.list)) }
{
    let list = tokens.as_slice();
    for (k, token) in list.iter().enumerate() {
        measure_token(alloc, first, text, tokens, k, *token)?;
    }
    Ok(())
}
