//! Whether a method gives a type parameter in a declared type or above it. docs/LANGUAGE.md, "Conforming", states what follows.
ghost use Rattle.std.specs.Prelude.{◌≡◌, ◌↔◌, Some, length, map, IfOk, IsTrue, OnOk};
ghost use Rattle.std.specs.List.{list_any};
ghost use Rattle.th_type.specs.Types.{ty_of};
ghost use Rattle.th_type.specs.Methods.{ResultIsParam, method_of};
ghost use Rattle.th_type.specs.Tests.{gives_param};
ghost use Rattle.th_hier.specs.Naming.{with_number};
ghost use Rattle.th_overrides.specs.Reached.{AllReached, with_heads};

use std::alloc::{AllocError, Global};
use th_hier::{Hierarchy, Numbers};
use th_type::Ty;

/// Puts a number last, unless it is there.
fn add(names: &mut Vec<u32>, seen: &mut Numbers, name: u32) -> Result<(), AllocError>
    requires { names.old.items ≡ seen.old }
    ensures names { OnOk result (names.new.items ≡ with_number seen.old name) }
    ensures seen { OnOk result (seen.new ≡ with_number seen.old name) }
{
    if seen.add(name)? {
        names.push(name)?;
    }
    Ok(())
}

/// Puts the numbers of declared types last, those that are not there. A type that is no declared one, which no list of supertypes has, is
/// want of memory.
fn add_heads(types: &[Ty], names: &mut Vec<u32>, seen: &mut Numbers) -> Result<(), AllocError>
    requires { names.old.items ≡ seen.old }
    ensures seen { OnOk result (with_heads seen.old (map ty_of types.now) ≡ Some seen.new) }
    ensures names { OnOk result (names.new.items ≡ seen.new) }
{
    for ty in types {
        let Ty::Named(name, _) = ty else {
            return Err(AllocError);
        };
        add(names, seen, *name)?;
    }
    Ok(())
}

/// The declared type and all that it reaches, by their numbers.
fn reached(alloc: Global, hierarchy: &Hierarchy, name: u32) -> Result<Vec<u32>, AllocError>
    ensures { IfOk result (λ r. AllReached hierarchy.now.types name r.items) }
{
    let mut names = Vec::new(alloc);
    let mut seen = Numbers::new(alloc);
    add(&mut names, &mut seen, name)?;
    for k in 0..0xffff_ffff_usize {
        if k >= names.len() {
            return Ok(names);
        }
        let supertypes = hierarchy.supertypes_of(names[k]);
        add_heads(supertypes, &mut names, &mut seen)?;
    }
    Err(AllocError)
}

/// Whether the method gives a type parameter in the declared type.
fn gives_param(hierarchy: &Hierarchy, name: u32, method: u32) -> bool
    ensures { result ≡ gives_param (method_of hierarchy.now.types name method) }
{
    match hierarchy.method_of(name, method) {
        Some(sig) => matches!(sig.gives, Some(Ty::Param(_))),
        None => false,
    }
}

/// Whether the method gives a type parameter in one of the declared types.
fn any_gives_param(hierarchy: &Hierarchy, names: &[u32], method: u32) -> bool
    ensures { result ≡ list_any (λ n. gives_param (method_of hierarchy.now.types n method)) names.now }
{
    for name in names {
        if gives_param(hierarchy, *name, method) {
            return true;
        }
    }
    false
}

/// Whether the method gives a type parameter in the declared type or in a supertype that it reaches.
pub(crate) fn is_fixed(
    alloc: Global,
    hierarchy: &Hierarchy,
    name: u32,
    method: u32,
) -> Result<bool, AllocError>
    ensures { IfOk result (λ r. IsTrue r ↔ ResultIsParam hierarchy.now.types name method) }
{
    let names = reached(alloc, hierarchy, name)?;
    Ok(any_gives_param(hierarchy, &names, method))
}
