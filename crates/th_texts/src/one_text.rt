//! The tree of one text, put to the trees of others.
ghost use Rattle.std.specs.Prelude.{◌≡◌, ◌+◌, ◌<◌, ◌-◌, ◌^◌, IfErr, OnOk, length};
ghost use Rattle.th_tree.specs.Declarations.{WholeModule, WholeInterface};
ghost use Rattle.th_texts.specs.Adding.{AddsInterface, AddsModule, HasNoTree, KeepsInterface, KeepsModule, tree_error};

use crate::error::TextError;
use std::alloc::Global;
use th_decl::{parse_interface, parse_module};
use th_parse::ParseError;
use th_program::Trees;
use th_tree::{Interface, Module, Tokens};
use th_type::Place;

/// Why the text of this number has no tree.
fn error_of(text: u32, error: ParseError) -> TextError
    ensures { result ≡ tree_error text error }
{
    match error {
        ParseError::Syntax(at) => TextError::Syntax(Place { text, at }),
        ParseError::Memory => TextError::Memory,
    }
}

/// Puts an interface with the number of its text to the trees.
fn keep_interface(trees: &mut Trees, text: u32, tree: Interface) -> Result<(), TextError>
    ensures kept { OnOk result (KeepsInterface trees.old text tree trees.new) }
    ensures memory { IfErr result (λ e. e ≡ TextError.Memory) }
{
    trees.interfaces.push(tree).map_err(|_| TextError::Memory)?;
    trees
        .interface_texts
        .push(text)
        .map_err(|_| TextError::Memory)
}

/// Puts a module with the number of its text to the trees.
fn keep_module(trees: &mut Trees, text: u32, tree: Module) -> Result<(), TextError>
    ensures kept { OnOk result (KeepsModule trees.old text tree trees.new) }
    ensures memory { IfErr result (λ e. e ≡ TextError.Memory) }
{
    trees.modules.push(tree).map_err(|_| TextError::Memory)?;
    trees.module_texts.push(text).map_err(|_| TextError::Memory)
}

/// Reads an interface.
pub fn add_interface(
    alloc: Global,
    trees: &mut Trees,
    text: u32,
    tokens: &Tokens<'_>,
) -> Result<(), TextError>
    requires table { length trees.old.names + length tokens.now.list < 2 ^ 32 - 1 }
    requires short { length tokens.now.text < 2 ^ 32 }
    ensures added { OnOk result (AddsInterface trees.old text tokens.now trees.new) }
    ensures refused { IfErr result (λ e. HasNoTree WholeInterface trees.old.names text tokens.now trees.new.names e) }
{
    match parse_interface(alloc, tokens, &mut trees.names) {
        Ok(tree) => keep_interface(trees, text, tree),
        Err(error) => Err(error_of(text, error)),
    }
}

/// Reads a module.
pub fn add_module(
    alloc: Global,
    trees: &mut Trees,
    text: u32,
    tokens: &Tokens<'_>,
) -> Result<(), TextError>
    requires table { length trees.old.names + length tokens.now.list < 2 ^ 32 - 1 }
    requires short { length tokens.now.text < 2 ^ 32 }
    ensures added { OnOk result (AddsModule trees.old text tokens.now trees.new) }
    ensures refused { IfErr result (λ e. HasNoTree WholeModule trees.old.names text tokens.now trees.new.names e) }
{
    match parse_module(alloc, tokens, &mut trees.names) {
        Ok(tree) => keep_module(trees, text, tree),
        Err(error) => Err(error_of(text, error)),
    }
}
