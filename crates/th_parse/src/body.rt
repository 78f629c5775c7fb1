//! Reading the statements of a unit.
ghost use Rattle.std.specs.Prelude.{◌≡◌, ◌+◌, ◌<◌, ◌≤◌, ◌-◌, ◌^◌, drop, length};
ghost use Rattle.th_tree.specs.Grammar.{height_limit};
ghost use Rattle.th_tree.specs.Numbered.{lexemes_of, with_tokens};
ghost use Rattle.th_tree.specs.Verdict.{place};
ghost use Rattle.th_syntax.specs.Grown.{Grown};
ghost use Rattle.th_parse.specs.Answer.{IsBodyAnswer, UnlessMemory, OneTree};

use crate::stmts::body_tree;
use std::alloc::{AllocError, Global};
use th_syntax::{Reader, Stop, lexemes};
use th_tree::{Body, Lexeme, NameTable, Tokens};
use thiserror::Error;

/// Why tokens have no tree.
#[derive(Clone, Copy, Debug, Drop, Error)]
pub enum ParseError {
    /// The tokens have no tree. The byte is the start of the first token such that no tree's tokens begin with those up
    /// to it, or the length of the text where the tokens end too early.
    #[error("the text has no tree: syntax at byte {0}")]
    Syntax(u32),
    /// Want of memory.
    #[error("out of memory")]
    Memory,
}

/// No tree of a greater height is in the grammar.
pub const HEIGHT_LIMIT: u32 = 600;

/// The byte where the lexemes start, or `end` where there are none.
pub fn place_of(tokens: &[Lexeme], end: u32) -> u32
    ensures { result ≡ place end tokens.now }
{
    match tokens {
        [token, ..] => token.at,
        [] => end,
    }
}

/// Statements up to the height `room`, from token `from` on.
fn body_at(
    alloc: Global,
    room: u32,
    tokens: &Tokens<'_>,
    names: &mut NameTable,
    from: usize,
) -> Result<(Body, usize), ParseError>
    requires some { 0 < room }
    requires low { room < 1000 }
    requires within { from ≤ length tokens.now.list }
    requires room { length names.old + length tokens.now.list < 2 ^ 32 - 1 }
    requires short { length tokens.now.text < 2 ^ 32 }
    ensures answer { IsBodyAnswer room (lexemes_of names.new tokens.now.text (drop from tokens.now.list)) (length tokens.now.list) (length tokens.now.text) result }
    ensures table { UnlessMemory result (names.new ≡ with_tokens names.old tokens.now.text (drop from tokens.now.list)) }
    ensures grown { Grown names.old names.new }
{
    let Ok(found) = lexemes(alloc, tokens, names, from) else {
        return Err(ParseError::Memory);
    };
    let reader = Reader {
        alloc,
        most: found.len(),
    };
    match body_tree(reader, room, &found) {
        Ok((body, rest)) => Ok((body, tokens.len() - rest.len())),
        Err(Stop::Wrong(rest)) => Err(ParseError::Syntax(place_of(
            rest,
            tokens.text().len() as u32,
        ))),
        Err(Stop::Memory) => Err(ParseError::Memory),
    }
}

/// The statements that start at token `from`, and the place of the first token that begins no statement.
/// docs/LANGUAGE.md, "Grammar", states which tokens are statements. After an error the table has perhaps more names at
/// its end.
pub fn parse_body(
    alloc: Global,
    tokens: &Tokens<'_>,
    names: &mut NameTable,
    from: usize,
) -> Result<(Body, usize), ParseError>
    requires within { from ≤ length tokens.now.list }
    requires room { length names.old + length tokens.now.list < 2 ^ 32 - 1 }
    requires short { length tokens.now.text < 2 ^ 32 }
    ensures answer { IsBodyAnswer height_limit (lexemes_of names.new tokens.now.text (drop from tokens.now.list)) (length tokens.now.list) (length tokens.now.text) result }
    ensures table { UnlessMemory result (names.new ≡ with_tokens names.old tokens.now.text (drop from tokens.now.list)) }
    ensures grown { Grown names.old names.new }
    ensures one_tree { OneTree height_limit }
{
    body_at(alloc, HEIGHT_LIMIT, tokens, names, from)
}
