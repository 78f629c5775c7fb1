//! What types mean at a place of a text.

use crate::show::Shower;
use crate::texts::{OFFSET, Types, type_tree};
use anyhow::{Result, bail};
use std::alloc::{AllocError, Global};
use th_hier::{ResolveError, Scope, resolve};
use th_tree::TypeTree;
use th_type::{NumberList, Ty};

/// What is asked of a type: in which interface it stands, which one is implemented, which ones are used, the type parameters,
/// and the type. Where there is none, nothing or a bar stands.
#[derive(Clone, Copy)]
struct Asked<'a> {
    text: &'a str,
    implements: &'a str,
    uses: &'a str,
    params: &'a str,
    ty: &'a str,
}

/// The parts of a question.
fn parts_of(question: &str) -> Option<Asked<'_>> {
    let mut parts = question.split(" / ");
    Some(Asked {
        text: parts.next()?,
        implements: parts.next()?,
        uses: parts.next()?,
        params: parts.next()?,
        ty: parts.next()?,
    })
}

/// The number of a name; None for a bar.
fn perhaps(alloc: Global, types: &mut Types, name: &str) -> Result<Option<u32>> {
    if name == "-" {
        return Ok(None);
    }
    Ok(Some(types.number(alloc, name)?))
}

/// The numbers of the names in a list; none for a bar.
fn listed(alloc: Global, types: &mut Types, list: &str) -> Result<NumberList> {
    if list == "-" {
        return Ok(NumberList::of(Vec::new(alloc)));
    }
    Ok(NumberList::of(types.numbers(alloc, list)?))
}

/// A type as a text.
fn text_of(alloc: Global, types: &Types, ty: &Ty) -> Result<String, AllocError> {
    let mut shower = Shower::new(alloc, &types.names);
    shower.ty(ty)?;
    Ok(shower.into_text())
}

/// The type in a scope as a text, or why it means none and at which of its letters.
fn shown(alloc: Global, types: &Types, scope: &Scope, ty: &str, tree: &TypeTree) -> Result<String> {
    match resolve(alloc, &types.hierarchy, scope, tree) {
        Ok(ty) => Ok(text_of(alloc, types, &ty)?),
        Err(ResolveError::Unknown(at)) => Ok(failed(alloc, "unknown", ty, at)?),
        Err(ResolveError::Count(at)) => Ok(failed(alloc, "count", ty, at)?),
        Err(ResolveError::Memory) => bail!("out of memory"),
    }
}

/// A failure at a byte of the text that `type_tree` read of a type.
fn failed(alloc: Global, what: &str, ty: &str, at: u32) -> Result<String, AllocError> {
    let at = at.saturating_sub(OFFSET);
    let letters: String = ty.chars().skip(at as usize).take(24).collect(alloc)?;
    format!(in alloc; "{what} at {at}: {letters}")
}

/// The scope of a place.
fn scope_of(alloc: Global, types: &mut Types, asked: &Asked<'_>) -> Result<Scope> {
    Ok(Scope {
        text: perhaps(alloc, types, asked.text)?,
        implements: perhaps(alloc, types, asked.implements)?,
        uses: listed(alloc, types, asked.uses)?,
        params: listed(alloc, types, asked.params)?,
    })
}

/// What a type means at a place.
pub fn meant(alloc: Global, types: &mut Types, question: &str) -> Result<String> {
    let Some(asked) = parts_of(question) else {
        bail!("the parts are TEXT / IMPLEMENTS / USES / PARAMETERS / TYPE");
    };
    let scope = scope_of(alloc, types, &asked)?;
    let tree = type_tree(alloc, &mut types.names, asked.ty)?;
    shown(alloc, types, &scope, asked.ty, &tree)
}
