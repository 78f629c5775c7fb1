//! Tokens in which heads of classes are found.
ghost use Rattle.std.specs.Prelude.{◌≡◌, ◌<◌, ◌≤◌, drop, IsTrue};
ghost use Rattle.std.specs.List.Sorted.{IsNonDecreasingBy};
ghost use Rattle.th_head_texts.specs.Heads.{from_byte};

use std::marker::Model;
use th_tree::{Token, Tokens};

/// The tokens of a text, in which heads of classes are found by the bytes where they begin. A contract sees the text with its tokens.
#[derive(Drop)]
pub struct HeadTokens<'a, 't> {
    tokens: &'a Tokens<'t>,
    /// Whether the tokens are known to stand in order. Those of a text do.
    in_order: bool,
}

impl<'a, 't> Model for HeadTokens<'a, 't> {
    ghost use Rattle.std.specs.Prelude.{◌≡◌, true};
    ghost use Rattle.std.specs.List.Sorted.{IsNonDecreasingBy};
    ghost use Rattle.th_tree.specs.Spans.{Tokenized};

    ghost Value = { Tokenized };

    ghost view = { λ a. a.tokens.now };

    ghost invariant = { λ a. a.in_order ≡ true → IsNonDecreasingBy (λ t. t.start) a.tokens.now.list };
}

impl<'a, 't> HeadTokens<'a, 't> {
    /// These tokens. It takes time linear in their number and no memory.
    pub fn of(tokens: &'a Tokens<'t>) -> Self
        ensures { result ≡ tokens.now }
    {
        HeadTokens {
            tokens,
            in_order: are_in_order(tokens.as_slice()),
        }
    }

    /// The tokens.
    pub(crate) fn tokens(&self) -> &'a Tokens<'t>
        ensures { result.now ≡ self.now }
    {
        self.tokens
    }

    /// The place of the first token that starts at the byte or after it; the number of tokens where there is none. Where the tokens
    /// stand in order, it takes time logarithmic in their number.
    pub(crate) fn place_from(&self, at: u32) -> usize
        ensures { from_byte at self.now.list ≡ drop result self.now.list }
    {
        let tokens = self.tokens.as_slice();
        if self.in_order {
            place_by_halves(tokens, at)
        } else {
            place_by_steps(tokens, at)
        }
    }
}

/// Whether each token starts where the one before it does or after it.
#[tactic(auto, using(crate::proofs::Starts::rising_none, crate::proofs::Starts::rising_more, crate::proofs::Starts::rising_all))]
fn are_in_order(tokens: &[Token]) -> bool
    ensures { IsTrue result → IsNonDecreasingBy (λ t. t.start) tokens.now }
{
    for k in 1..tokens.len() {
        if tokens[k].start < tokens[k - 1].start {
            return false;
        }
    }
    true
}

/// The place of the first of tokens in order that starts at the byte or after it.
fn place_by_halves(tokens: &[Token], at: u32) -> usize
    requires { IsNonDecreasingBy (λ t. t.start) tokens.now }
    ensures { from_byte at tokens.now ≡ drop result tokens.now }
{
    tokens.partition_point(|token| token.start < at)
}

/// The place of the first token that starts at the byte or after it.
#[tactic(auto, using(crate::proofs::Starts::passed, crate::proofs::Starts::reached, crate::proofs::Starts::none_reached))]
fn place_by_steps(tokens: &[Token], at: u32) -> usize
    ensures { from_byte at tokens.now ≡ drop result tokens.now }
{
    for (k, token) in tokens.iter().enumerate() {
        if token.start >= at {
            return k;
        }
    }
    tokens.len()
}
