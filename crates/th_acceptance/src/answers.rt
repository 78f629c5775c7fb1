//! The answers to cases.

use crate::show::{put_parts, shown_modules, shown_refusal};
use crate::texts::{MOST_BYTES, are_short};
use anyhow::{Result, bail, ensure};
use std::alloc::{AllocError, Global};
use th_accept::{accept, accept_all};
use th_meaning::CoreModule;

/// What is asked of texts.
#[derive(Clone, Copy)]
pub enum Kind {
    /// Whether they are accepted, each of the form that its first token says.
    Program,
    /// Whether the first is accepted as a module with the others as its interfaces.
    Module,
    /// As `Program`, and where they are accepted, what the modules keep of their interfaces and of their classes.
    Shown,
}

/// The most texts of a program.
const MOST: usize = 64;

/// The modules of accepted texts, perhaps with what they keep.
fn shown(alloc: Global, modules: &[CoreModule], is_shown: bool) -> Result<String, AllocError> {
    let mut text = shown_modules(alloc, modules)?;
    if is_shown {
        put_parts(alloc, &mut text, modules)?;
    }
    Ok(text)
}

/// Whether texts, each of the form that its first token says, are accepted.
fn accepted_all(alloc: Global, texts: &[Vec<u8>], is_shown: bool) -> Result<String> {
    ensure!(
        texts.len() <= MOST && are_short(texts),
        "the texts are too many or too long"
    );
    match accept_all(alloc, texts) {
        Ok(modules) => Ok(shown(alloc, &modules, is_shown)?),
        Err(refusal) => Ok(shown_refusal(alloc, &refusal)?),
    }
}

/// A module alone.
fn shown_module(alloc: Global, program: CoreModule) -> Result<String, AllocError> {
    let mut modules = Vec::new(alloc);
    modules.push(program)?;
    shown_modules(alloc, &modules)
}

/// Whether the first text is accepted as a module with the others as its interfaces.
fn accepted(alloc: Global, texts: &[Vec<u8>]) -> Result<String> {
    let Some((text, interfaces)) = texts.split_first() else {
        bail!("there is no text");
    };
    ensure!(
        texts.len() <= MOST && text.len() <= MOST_BYTES && are_short(interfaces),
        "the texts are too many or too long"
    );
    match accept(alloc, text, interfaces) {
        Ok(program) => Ok(shown_module(alloc, program)?),
        Err(refusal) => Ok(shown_refusal(alloc, &refusal)?),
    }
}

/// Whether the texts are accepted, or why they are refused.
pub fn answer(alloc: Global, kind: Kind, texts: &[Vec<u8>]) -> Result<String> {
    match kind {
        Kind::Program => accepted_all(alloc, texts, false),
        Kind::Module => accepted(alloc, texts),
        Kind::Shown => accepted_all(alloc, texts, true),
    }
}
