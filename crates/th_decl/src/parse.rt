//! Reading whole texts.
ghost use Rattle.std.specs.Prelude.{◌≡◌, ◌+◌, ◌<◌, ◌≤◌, ◌-◌, ◌^◌, length};
ghost use Rattle.th_tree.specs.DeclView.{interface_of, module_of};
ghost use Rattle.th_tree.specs.Grammar.{height_limit};
ghost use Rattle.th_tree.specs.Declarations.{Interface as AnInterface, Module as AModule, WholeInterface, WholeModule};
ghost use Rattle.th_tree.specs.Numbered.{lexemes_of, with_tokens};
ghost use Rattle.th_syntax.specs.Grown.{Grown};
ghost use Rattle.th_parse.specs.Answer.{UnlessMemory};
ghost use Rattle.th_decl.specs.Answer.{IsTextAnswer, OneText};

use crate::items::{interface_tree, module_tree};
use std::alloc::Global;
use th_parse::{HEIGHT_LIMIT, ParseError, place_of};
use th_syntax::{Reader, Stop, lexemes};
use th_tree::{Interface, Module, NameTable, Tokens};

/// The module with the height limit `room`.
fn module_at(
    alloc: Global,
    room: u32,
    tokens: &Tokens<'_>,
    names: &mut NameTable,
) -> Result<Module, ParseError>
    requires some { 0 < room }
    requires low { room < 999 }
    requires table { length names.old + length tokens.now.list < 2 ^ 32 - 1 }
    requires short { length tokens.now.text < 2 ^ 32 }
    ensures answer { IsTextAnswer module_of (AModule room) (lexemes_of names.new tokens.now.text tokens.now.list) (length tokens.now.text) result }
    ensures table { UnlessMemory result (names.new ≡ with_tokens names.old tokens.now.text tokens.now.list) }
    ensures grown { Grown names.old names.new }
{
    let Ok(found) = lexemes(alloc, tokens, names, 0) else {
        return Err(ParseError::Memory);
    };
    let end = tokens.text().len() as u32;
    match module_tree(
        Reader {
            alloc,
            most: found.len(),
        },
        room,
        &found,
    ) {
        Ok((tree, rest)) => {
            if rest.len() == 0 {
                return Ok(tree);
            }
            Err(ParseError::Syntax(place_of(rest, end)))
        }
        Err(Stop::Wrong(rest)) => Err(ParseError::Syntax(place_of(rest, end))),
        Err(Stop::Memory) => Err(ParseError::Memory),
    }
}

/// The interface with the height limit `room`.
fn interface_at(
    alloc: Global,
    room: u32,
    tokens: &Tokens<'_>,
    names: &mut NameTable,
) -> Result<Interface, ParseError>
    requires some { 0 < room }
    requires low { room < 999 }
    requires table { length names.old + length tokens.now.list < 2 ^ 32 - 1 }
    requires short { length tokens.now.text < 2 ^ 32 }
    ensures answer { IsTextAnswer interface_of (AnInterface room) (lexemes_of names.new tokens.now.text tokens.now.list) (length tokens.now.text) result }
    ensures table { UnlessMemory result (names.new ≡ with_tokens names.old tokens.now.text tokens.now.list) }
    ensures grown { Grown names.old names.new }
{
    let Ok(found) = lexemes(alloc, tokens, names, 0) else {
        return Err(ParseError::Memory);
    };
    let end = tokens.text().len() as u32;
    match interface_tree(
        Reader {
            alloc,
            most: found.len(),
        },
        room,
        &found,
    ) {
        Ok((tree, rest)) => {
            if rest.len() == 0 {
                return Ok(tree);
            }
            Err(ParseError::Syntax(place_of(rest, end)))
        }
        Err(Stop::Wrong(rest)) => Err(ParseError::Syntax(place_of(rest, end))),
        Err(Stop::Memory) => Err(ParseError::Memory),
    }
}

/// The module that all the tokens are. docs/LANGUAGE.md, "Grammar", states which tokens are a module. After an error
/// the table has perhaps more names at its end.
pub fn parse_module(
    alloc: Global,
    tokens: &Tokens<'_>,
    names: &mut NameTable,
) -> Result<Module, ParseError>
    requires table { length names.old + length tokens.now.list < 2 ^ 32 - 1 }
    requires short { length tokens.now.text < 2 ^ 32 }
    ensures answer { IsTextAnswer module_of WholeModule (lexemes_of names.new tokens.now.text tokens.now.list) (length tokens.now.text) result }
    ensures table { UnlessMemory result (names.new ≡ with_tokens names.old tokens.now.text tokens.now.list) }
    ensures grown { Grown names.old names.new }
    ensures one_tree { OneText WholeModule }
{
    module_at(alloc, HEIGHT_LIMIT, tokens, names)
}

/// The interface that all the tokens are. docs/LANGUAGE.md, "Grammar", states which tokens are an interface. After an
/// error the table has perhaps more names at its end.
pub fn parse_interface(
    alloc: Global,
    tokens: &Tokens<'_>,
    names: &mut NameTable,
) -> Result<Interface, ParseError>
    requires table { length names.old + length tokens.now.list < 2 ^ 32 - 1 }
    requires short { length tokens.now.text < 2 ^ 32 }
    ensures answer { IsTextAnswer interface_of WholeInterface (lexemes_of names.new tokens.now.text tokens.now.list) (length tokens.now.text) result }
    ensures table { UnlessMemory result (names.new ≡ with_tokens names.old tokens.now.text tokens.now.list) }
    ensures grown { Grown names.old names.new }
    ensures one_tree { OneText WholeInterface }
{
    interface_at(alloc, HEIGHT_LIMIT, tokens, names)
}
