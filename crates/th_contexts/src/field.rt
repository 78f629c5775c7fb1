//! Formals and fields as locals. docs/LANGUAGE.md, "Names and scopes", states what their types mean.
ghost use Rattle.std.specs.Prelude.{◌≡◌, map, IfOk};
ghost use Rattle.th_tree.specs.View.{formal_of};
ghost use Rattle.th_module_rules.specs.Contexts.{bindings};
ghost use Rattle.th_scope.specs.ItemView.{binding_of, locals_of};
ghost use Rattle.th_contexts.specs.Heads.{binding_at};

use std::alloc::{AllocError, Global};
use th_heads::{Found, Sight, walk_type};
use th_scope::{Local, LocalList};
use th_tree::Formal;

/// A number of 32 bits; a greater one is want of memory.
pub fn small(number: usize) -> Result<u32, AllocError>
    ensures { IfOk result (λ r. r ≡ number) }
{
    match u32::try_from(number) {
        Ok(number) => Ok(number),
        Err(_) => Err(AllocError),
    }
}

/// A formal or a field, by its place.
#[tactic(auto, using(crate::proofs::Heads::opt_is))]
fn local_of(
    alloc: Global,
    formal: &Formal,
    place: usize,
    found: &Found<'_>,
    sight: &Sight<'_>,
) -> Result<Local, AllocError>
    ensures { IfOk result (λ l. binding_of l ≡ binding_at found.now sight.now place (formal_of formal.now)) }
{
    let mut ignored = None;
    let ty = walk_type(alloc, &formal.of, found, sight, 0, &mut ignored)?;
    Ok(Local {
        name: formal.name.name,
        ty,
        index: small(place)?,
    })
}

/// Formals or fields, by their places.
pub fn fields_of(
    alloc: Global,
    formals: &[Formal],
    found: &Found<'_>,
    sight: &Sight<'_>,
) -> Result<LocalList, AllocError>
    ensures { IfOk result (λ r. locals_of r ≡ bindings found.now sight.now 0 (map formal_of formals.now)) }
{
    let mut done = LocalList::NoLocal;
    let mut k = formals.len();
    while k > 0 {
        k -= 1;
        let local = local_of(alloc, &formals[k], k, found, sight)?;
        done = LocalList::MoreLocal(local, Box::new(alloc, done)?);
    }
    Ok(done)
}
