//! Whether the own methods of a class fit what they override. docs/LANGUAGE.md, "Rules of modules", states the rule.
ghost use Rattle.std.specs.Prelude.{◌≡◌, ◌↔◌, map, option_map, IfOk, IsTrue};
ghost use Rattle.th_type.specs.Types.{list_of, ty_of, tys_of};
ghost use Rattle.th_type.specs.Signatures.{find_sig, sig_of};
ghost use Rattle.th_hier.specs.Views.{sig_opt};
ghost use Rattle.th_module_rules.specs.ClassRules.{OwnFits};
ghost use Rattle.th_scope.specs.View.{class_of, context_of, items_of};
ghost use Rattle.th_overrides.specs.AncestorView.{ancestor_of};
ghost use Rattle.th_overrides.specs.Chain.{IsChain};
ghost use Rattle.th_overrides.specs.Overriding.{FitsAbove, FitsAll, FitsAmong, FitsOf, FitsOwn};

use crate::ancestor::Ancestor;
use crate::conform::{fits_hidden, fits_type};
use std::alloc::{AllocError, Global};
use th_hier::Hierarchy;
use th_scope::{ClassItem, Env, class_sig, sig_with, type_method};
use th_type::{Sig, Ty, TyList};

/// Whether an own method fits that of its name in the type of its class.
fn fits_own(
    alloc: Global,
    hierarchy: &Hierarchy,
    known: &Option<Sig>,
    sig: &Sig,
    of: &Ty,
) -> Result<bool, AllocError>
    ensures { IfOk result (λ r. IsTrue r ↔ FitsOwn hierarchy.now.types (sig_opt known.now) (sig_of sig.now) (ty_of of.now)) }
{
    let Ty::Named(name, _) = of else {
        return Ok(true);
    };
    match type_method(alloc, hierarchy, of, sig.method)? {
        None => Ok(true),
        Some(found) => fits_type(alloc, hierarchy, known, sig, *name, &found),
    }
}

/// Whether it fits that of its name in the type of a class above, inherited with these arguments.
fn fits_of(
    alloc: Global,
    hierarchy: &Hierarchy,
    known: &Option<Sig>,
    sig: &Sig,
    of: &Ty,
    args: &TyList,
) -> Result<bool, AllocError>
    ensures { IfOk result (λ r. IsTrue r ↔ FitsOf hierarchy.now.types (sig_opt known.now) (sig_of sig.now) (ty_of of.now) (list_of (tys_of args.now))) }
{
    let Ty::Named(name, _) = of else {
        return Ok(true);
    };
    match type_method(alloc, hierarchy, of, sig.method)? {
        None => Ok(true),
        Some(found) => {
            let found = sig_with(alloc, &found, args)?;
            fits_type(alloc, hierarchy, known, sig, *name, &found)
        }
    }
}

/// The first of the signatures that has the method.
fn find(sigs: &[Sig], method: u32) -> Option<&Sig>
    ensures { option_map (λ s. sig_of s.now) result ≡ find_sig (map sig_of sigs.now) method }
{
    for sig in sigs {
        if sig.method == method {
            return Some(sig);
        }
    }
    None
}

/// Whether it fits that of its name among the hidden methods of a class above.
fn fits_among(
    alloc: Global,
    hierarchy: &Hierarchy,
    known: &Option<Sig>,
    sig: &Sig,
    hidden: &[Sig],
    args: &TyList,
) -> Result<bool, AllocError>
    ensures { IfOk result (λ r. IsTrue r ↔ FitsAmong hierarchy.now.types (sig_opt known.now) (sig_of sig.now) (map sig_of hidden.now) (list_of (tys_of args.now))) }
{
    match find(hidden, sig.method) {
        None => Ok(true),
        Some(found) => {
            let found = sig_with(alloc, found, args)?;
            Ok(fits_hidden(hierarchy, known, sig, &found))
        }
    }
}

/// Whether it fits what a class above has of its name.
fn fits_above(
    alloc: Global,
    hierarchy: &Hierarchy,
    known: &Option<Sig>,
    sig: &Sig,
    ancestor: &Ancestor<'_>,
) -> Result<bool, AllocError>
    ensures { IfOk result (λ r. IsTrue r ↔ FitsAbove hierarchy.now.types (sig_opt known.now) (sig_of sig.now) (ancestor_of ancestor.now)) }
{
    let class = ancestor.class;
    if !fits_of(alloc, hierarchy, known, sig, &class.of, &ancestor.args)? {
        return Ok(false);
    }
    fits_among(alloc, hierarchy, known, sig, &class.hidden, &ancestor.args)
}

/// Whether it fits what the classes above have of its name.
fn fits_all(
    alloc: Global,
    hierarchy: &Hierarchy,
    known: &Option<Sig>,
    sig: &Sig,
    chain: &[Ancestor<'_>],
) -> Result<bool, AllocError>
    ensures { IfOk result (λ r. IsTrue r ↔ FitsAll hierarchy.now.types (sig_opt known.now) (sig_of sig.now) (map ancestor_of chain.now)) }
{
    for ancestor in chain {
        if !fits_above(alloc, hierarchy, known, sig, ancestor)? {
            return Ok(false);
        }
    }
    Ok(true)
}

/// Whether an own method of a class fits what it overrides, where these are the classes above.
pub(crate) fn own_fits(
    alloc: Global,
    env: &Env<'_>,
    class: &ClassItem,
    chain: &[Ancestor<'_>],
    sig: &Sig,
) -> Result<bool, AllocError>
    requires { IsChain (items_of env.now.items.now) (class_of class.now) (map ancestor_of chain.now) }
    ensures { IfOk result (λ r. IsTrue r ↔ OwnFits (context_of env.now) (class_of class.now) (sig_of sig.now)) }
{
    let known = class_sig(alloc, env, class, sig.method)?;
    if !fits_own(alloc, env.hierarchy, &known, sig, &class.of)? {
        return Ok(false);
    }
    fits_all(alloc, env.hierarchy, &known, sig, chain)
}
