//! The lexemes of tokens.
ghost use Rattle.std.specs.Prelude.{◌≡◌, ◌+◌, ◌<◌, ◌≤◌, ◌-◌, ◌^◌, drop, length, IfOk, OnOk, OnErr};
ghost use Rattle.th_tree.specs.Numbered.{literal_value, mark_of, with_token, with_tokens, lexemes_of};
ghost use Rattle.th_syntax.specs.Grown.{Grown, TokenThere};

use std::alloc::{AllocError, Global};
use th_tree::{Lexeme, Mark, NameTable, TokenKind, Tokens};

/// The bytes that a literal stands for, given as it is written, with its quotes.
fn value_of(alloc: Global, literal: &[u8]) -> Result<Vec<u8>, AllocError>
    ensures { IfOk result (λ value. value.items ≡ literal_value literal.now) }
{
    let mut value = Vec::new(alloc);
    let [_, inside @ ..] = literal else {
        return Ok(value);
    };
    let mut left = inside;
    while let [first, second, rest @ ..] = left {
        if *first == b'\\' {
            value.push(if *second == b'n' { b'\n' } else { *second })?;
            left = rest;
        } else {
            value.push(*first)?;
            left = &left[1..];
        }
    }
    Ok(value)
}

/// The mark of a token of the kind that is written so; a name or a literal gets a number in the table.
fn mark(
    alloc: Global,
    names: &mut NameTable,
    kind: TokenKind,
    bytes: &[u8],
) -> Result<Mark, AllocError>
    requires { length names.old < 2 ^ 32 - 1 }
    ensures mark { IfOk result (λ mark. mark ≡ mark_of names.new kind bytes.now) }
    ensures there { OnOk result (TokenThere names.new kind bytes.now) }
    ensures table { OnOk result (names.new ≡ with_token names.old kind bytes.now) }
    ensures unchanged { OnErr result (names.new ≡ names.old) }
{
    match kind {
        TokenKind::Name => Ok(Mark::Name(names.number(alloc, bytes)?)),
        TokenKind::Word(word) => Ok(Mark::Word(word)),
        TokenKind::Number(number) => Ok(Mark::Number(number)),
        TokenKind::Symbol(sym) => Ok(Mark::Symbol(sym)),
        TokenKind::Text => {
            let value = value_of(alloc, bytes)?;
            Ok(Mark::Text(names.number(alloc, &value)?))
        }
    }
}

/// The lexemes of the tokens from token `from` on. After an error the table has perhaps more names at its end.
pub fn lexemes(
    alloc: Global,
    tokens: &Tokens<'_>,
    names: &mut NameTable,
    from: usize,
) -> Result<Vec<Lexeme>, AllocError>
    requires within { from ≤ length tokens.now.list }
    requires room { length names.old + length tokens.now.list < 2 ^ 32 - 1 }
    ensures lexemes { IfOk result (λ lexemes. lexemes.items ≡ lexemes_of names.new tokens.now.text (drop from tokens.now.list)) }
    ensures table { OnOk result (names.new ≡ with_tokens names.old tokens.now.text (drop from tokens.now.list)) }
    ensures grown { Grown names.old names.new }
{
    let mut found = Vec::new(alloc);
    for k in from..tokens.len() {
        let token = tokens.as_slice()[k];
        let mark = mark(alloc, names, token.kind, tokens.slice(k))?;
        found.push(Lexeme {
            mark,
            at: token.start,
        })?;
    }
    Ok(found)
}
