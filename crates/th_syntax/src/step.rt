//! Reading one lexeme.
ghost use Rattle.std.specs.Prelude.{◌≡◌, ◌↔◌, IsTrue, Some};
ghost use Rattle.th_tree.specs.declared.lexeme.Mark.TheVariants.{Word, Symbol};
ghost use Rattle.th_syntax.specs.Read.{peek, is_mark, mark};
ghost use Rattle.th_syntax.specs.Parse.{read_name, read_ref};
ghost use Rattle.th_syntax.specs.Gives.{Gives};

use std::alloc::Global;
use th_tree::{Ident, Lexeme, Mark, RefTree, Reserved, Sym};

/// Why nothing was read: the lexemes from the first wrong one on, or want of memory.
#[derive(Clone, Copy, Drop)]
pub enum Stop<'a> {
    Memory,
    Wrong(&'a [Lexeme]),
}

/// What was read and the lexemes after it.
pub type Step<'a, T> = Result<(T, &'a [Lexeme]), Stop<'a>>;

/// Reads with lists of at most `most` items.
#[derive(Clone, Copy, Drop)]
pub struct Reader {
    pub alloc: Global,
    pub most: usize,
}

/// Whether the symbol is next.
pub fn at_symbol(tokens: &[Lexeme], sym: Sym) -> bool
    ensures { is_mark (Symbol sym) (peek tokens.now) ≡ result }
{
    match tokens {
        [
            Lexeme {
                mark: Mark::Symbol(next),
                ..
            },
            ..
        ] => *next == sym,
        _ => false,
    }
}

fn same_word(a: Reserved, b: Reserved) -> bool
    ensures { IsTrue result ↔ (a ≡ b) }
{
    a == b
}

fn is_word(mark: Mark, word: Reserved) -> bool
    ensures { is_mark (Word word) (Some mark) ≡ result }
{
    match mark {
        Mark::Word(next) => same_word(next, word),
        _ => false,
    }
}

/// Whether the word is next.
pub fn at_word(tokens: &[Lexeme], word: Reserved) -> bool
    ensures { is_mark (Word word) (peek tokens.now) ≡ result }
{
    match tokens {
        [token, ..] => is_word(token.mark, word),
        [] => false,
    }
}

/// The symbol; the byte where it stands.
pub fn symbol(tokens: &[Lexeme], sym: Sym) -> Step<'_, u32>
    ensures { Gives (λ x. x.0) (λ x. x.1.now) result (mark (Symbol sym) tokens.now) }
{
    match tokens {
        [token, rest @ ..] if at_symbol(tokens, sym) => Ok((token.at, rest)),
        _ => Err(Stop::Wrong(tokens)),
    }
}

/// The word; the byte where it stands.
pub fn word(tokens: &[Lexeme], word: Reserved) -> Step<'_, u32>
    ensures { Gives (λ x. x.0) (λ x. x.1.now) result (mark (Word word) tokens.now) }
{
    match tokens {
        [token, rest @ ..] if at_word(tokens, word) => Ok((token.at, rest)),
        _ => Err(Stop::Wrong(tokens)),
    }
}

/// A name.
pub fn name(tokens: &[Lexeme]) -> Step<'_, Ident>
    ensures { Gives (λ x. x.0) (λ x. x.1.now) result (read_name 0 tokens.now) }
{
    match tokens {
        [
            Lexeme {
                mark: Mark::Name(name),
                at,
            },
            rest @ ..,
        ] => Ok((
            Ident {
                name: *name,
                at: *at,
            },
            rest,
        )),
        _ => Err(Stop::Wrong(tokens)),
    }
}

/// A reference.
pub fn reference(tokens: &[Lexeme]) -> Step<'_, RefTree>
    ensures { Gives (λ x. x.0) (λ x. x.1.now) result (read_ref 0 tokens.now) }
{
    let (first, rest) = name(tokens)?;
    if !at_symbol(rest, Sym::Dollar) {
        return Ok((
            RefTree {
                first,
                second: None,
            },
            rest,
        ));
    }
    let (_, rest) = symbol(rest, Sym::Dollar)?;
    let (second, rest) = name(rest)?;
    Ok((
        RefTree {
            first,
            second: Some(second),
        },
        rest,
    ))
}
