//! What stands at the front of a text.
ghost use Rattle.std.specs.Prelude.{◌≡◌, ◌<◌, ◌≤◌, length, drop, slice_index, Some, None, true, false, [], ◌∷◌};
ghost use Rattle.std.specs.List.{prefix_len};
ghost use Rattle.th_tree.specs.Tokens as tokens;
ghost use Rattle.th_tree.specs.Cut.{in_line};
ghost use Rattle.th_tree.specs.Tokens.{written_as};
ghost use Rattle.th_lex.specs.ByLength.{symbols_of};
ghost use Rattle.th_lex.specs.Stands.{Stands, decimal_of, quoted};

use crate::classes::{is_blank, is_digit, is_escape, is_inner, is_letter, is_printed};
use crate::symbols::{pair, single};
use crate::words::reserved;
use th_tree::{Sym, TokenKind};

/// What stands at the front of a text that is not empty.
#[derive(Clone, Copy)]
pub(crate) enum Item {
    /// A blank or a comment of so many bytes.
    Gap(usize),
    /// The longest token there, and how many bytes it has.
    Token(TokenKind, usize),
    /// A byte that begins no token.
    BadByte,
    /// A number that is too great for a token.
    WideNumber,
}

/// What stands at the front of the text.
pub(crate) fn first_item(text: &[u8]) -> Item
    requires { 0 < length text.now }
    ensures { Stands text.now result }
{
    let first = text[0];
    if is_blank(first) {
        Item::Gap(1)
    } else if first == b'#' {
        Item::Gap(comment_len(text))
    } else if is_letter(first) {
        word(text)
    } else if is_digit(first) {
        number(text)
    } else if first == b'"' {
        literal(text)
    } else {
        symbol(text)
    }
}

/// How many bytes from the front on stand before the first line feed.
fn comment_len(text: &[u8]) -> usize
    ensures { result ≡ prefix_len in_line text.now }
{
    text.iter().take_while(|byte| **byte != b'\n').count()
}

/// How many bytes from the front on may stand in a name after its first.
fn inner_len(text: &[u8]) -> usize
    ensures { result ≡ prefix_len tokens.is_inner text.now }
{
    text.iter().take_while(|byte| is_inner(**byte)).count()
}

/// How many bytes from the front on are digits.
fn digits_len(text: &[u8]) -> usize
    ensures { result ≡ prefix_len tokens.is_digit text.now }
{
    text.iter().take_while(|byte| is_digit(**byte)).count()
}

/// The name or reserved word at the front.
fn word(text: &[u8]) -> Item
    requires some { 0 < length text.now }
    requires letter { tokens.is_letter (slice_index text.now 0) ≡ true }
    ensures { Stands text.now result }
{
    let len = inner_len(text);
    match reserved(&text[..len]) {
        Some(word) => Item::Token(TokenKind::Word(word), len),
        None => Item::Token(TokenKind::Name, len),
    }
}

/// The number at the front.
fn number(text: &[u8]) -> Item
    requires some { 0 < length text.now }
    requires no_letter { tokens.is_letter (slice_index text.now 0) ≡ false }
    requires digit { tokens.is_digit (slice_index text.now 0) ≡ true }
    ensures { Stands text.now result }
{
    let len = digits_len(text);
    match decimal(&text[..len]) {
        Some(value) => Item::Token(TokenKind::Number(value), len),
        None => Item::WideNumber,
    }
}

/// The value of the digits; None where it is above 2147483647.
fn decimal(digits: &[u8]) -> Option<u32>
    requires { tokens.all tokens.is_digit digits.now ≡ true }
    ensures { result ≡ decimal_of digits.now }
{
    let mut value = 0;
    for digit in digits {
        value = value * 10 + u64::from(*digit - b'0');
        if value > 2_147_483_647 {
            return None;
        }
    }
    Some(value as u32)
}

/// The string literal at the front.
fn literal(text: &[u8]) -> Item
    requires some { 0 < length text.now }
    requires quote { slice_index text.now 0 ≡ 34 }
    ensures { Stands text.now result }
{
    match quoted_len(&text[1..]) {
        Some(len) => Item::Token(TokenKind::Text, 1 + len),
        None => Item::BadByte,
    }
}

/// How many bytes a string literal has after its opening quote; None where it has no end.
fn quoted_len(text: &[u8]) -> Option<usize>
    ensures { result ≡ quoted text.now }
{
    let mut at = 0;
    while at < text.len() {
        match text[at] {
            b'"' => return Some(at + 1),
            b'\\' => {
                if at + 1 == text.len() || !is_escape(text[at + 1]) {
                    return None;
                }
                at += 2;
            }
            byte => {
                if !is_printed(byte) {
                    return None;
                }
                at += 1;
            }
        }
    }
    None
}

/// The symbol at the front.
fn symbol(text: &[u8]) -> Item
    requires some { 0 < length text.now }
    requires no_blank { tokens.is_blank (slice_index text.now 0) ≡ false }
    requires no_comment { slice_index text.now 0 ≡ 35 → ⊥ }
    requires no_letter { tokens.is_letter (slice_index text.now 0) ≡ false }
    requires no_digit { tokens.is_digit (slice_index text.now 0) ≡ false }
    requires no_quote { slice_index text.now 0 ≡ 34 → ⊥ }
    ensures { Stands text.now result }
{
    match leading_pair(text) {
        Some(sym) => Item::Token(TokenKind::Symbol(sym), 2),
        None => match single(text[0]) {
            Some(sym) => Item::Token(TokenKind::Symbol(sym), 1),
            None => Item::BadByte,
        },
    }
}

/// The symbol of the first two bytes; None where there is none.
fn leading_pair(text: &[u8]) -> Option<Sym>
    ensures long { 1 < length text.now → result ≡ written_as tokens.sign (symbols_of 2) (slice_index text.now 0 ∷ slice_index text.now 1 ∷ []) }
    ensures short { length text.now ≤ 1 → result ≡ None }
{
    match text {
        [first, second, ..] => pair(*first, *second),
        _ => None,
    }
}
