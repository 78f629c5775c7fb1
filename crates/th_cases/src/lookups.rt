//! What the hierarchy of interfaces answers.

use crate::show::Shower;
use crate::texts::{Types, asked_type};
use anyhow::{Result, bail};
use std::alloc::{AllocError, Global};

/// Whether the first type of `A < B` is a subtype of the second.
pub fn is_subtype(alloc: Global, types: &mut Types, question: &str) -> Result<String> {
    let Some((first, second)) = question.split_once(" < ") else {
        bail!("the types are A < B");
    };
    let first = asked_type(alloc, types, first)?;
    let second = asked_type(alloc, types, second)?;
    let answer = if types.hierarchy.is_subtype(&first, &second) {
        "yes"
    } else {
        "no"
    };
    Ok(String::from_str(alloc, answer)?)
}

/// How many type parameters the declared type has.
pub fn params(alloc: Global, types: &Types, head: u32) -> Result<String, AllocError> {
    types.hierarchy.params_of(head).to_string(alloc)
}

/// The declared supertypes of the declared type.
pub fn supertypes(alloc: Global, types: &Types, head: u32) -> Result<String, AllocError> {
    let mut shower = Shower::new(alloc, &types.names);
    shower.slice(types.hierarchy.supertypes_of(head))?;
    Ok(shower.into_text())
}

/// The signatures that are written in the declared type.
pub fn written(alloc: Global, types: &Types, head: u32) -> Result<String, AllocError> {
    let mut shower = Shower::new(alloc, &types.names);
    shower.sigs(types.hierarchy.written_in(head))?;
    Ok(shower.into_text())
}

/// The methods of the declared type.
pub fn methods(alloc: Global, types: &Types, head: u32) -> Result<String, AllocError> {
    let mut shower = Shower::new(alloc, &types.names);
    shower.sigs(types.hierarchy.methods_of(head))?;
    Ok(shower.into_text())
}

/// The method of `TYPE METHOD`.
pub fn method(alloc: Global, types: &mut Types, question: &str) -> Result<String> {
    let Some((head, method)) = question.split_once(' ') else {
        bail!("the names are TYPE METHOD");
    };
    let head = types.number(alloc, head)?;
    let method = types.number(alloc, method)?;
    let mut shower = Shower::new(alloc, &types.names);
    match types.hierarchy.method_of(head, method) {
        Some(sig) => shower.sig(sig)?,
        None => shower.put("none")?,
    }
    Ok(shower.into_text())
}

/// The declared types, in the order in which their names are numbered.
pub fn heads(alloc: Global, types: &Types) -> Result<String, AllocError> {
    let mut shower = Shower::new(alloc, &types.names);
    shower.names(types.hierarchy.heads())?;
    Ok(shower.into_text())
}

/// The declared types, each after its supertypes.
pub fn supers_first(alloc: Global, types: &Types) -> Result<String, AllocError> {
    let order = types.hierarchy.supers_first(alloc)?;
    let mut shower = Shower::new(alloc, &types.names);
    shower.names(&order)?;
    Ok(shower.into_text())
}
