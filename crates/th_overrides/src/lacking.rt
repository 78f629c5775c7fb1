//! Whether a class has each method of its type. docs/LANGUAGE.md, "Rules of modules", states the rule.
ghost use Rattle.std.specs.Prelude.{◌≡◌, ◌↔◌, ◌≤◌, length, map, true, IfOk, IsTrue};
ghost use Rattle.th_type.specs.Types.{list_of, tys_of};
ghost use Rattle.th_type.specs.Signatures.{sig_of};
ghost use Rattle.th_type.specs.Methods.{ExactlyConforms};
ghost use Rattle.th_module_rules.specs.ClassRules.{InheritedFits, Lacks, is_hidden_above};
ghost use Rattle.th_scope.specs.View.{class_of, context_of, items_of};
ghost use Rattle.th_contexts.specs.Bases.{bases_of};
ghost use Rattle.th_overrides.specs.AncestorView.{ancestor_of};
ghost use Rattle.th_overrides.specs.Bodies.{body_above};
ghost use Rattle.th_overrides.specs.Chain.{IsChain};
ghost use Rattle.th_overrides.specs.Lacking.{AllGiveSame, GivesSame, LacksAmong, LacksOne, Unfit};

use crate::ancestor::Ancestor;
use crate::bodies::{Bodies, has_body_above};
use crate::chain::is_hidden;
use crate::conform::{conforms, same_gives};
use crate::reached::is_fixed;
use std::alloc::{AllocError, Global};
use th_scope::{ClassItem, Env, class_sig, sig_with, super_sig};
use th_type::{Sig, Ty, TyList};

/// Whether a class above, where it has the method, gives by it what the signature gives.
fn gives_same(
    alloc: Global,
    env: &Env<'_>,
    ancestor: &Ancestor<'_>,
    of: &Sig,
) -> Result<bool, AllocError>
    ensures { IfOk result (λ r. IsTrue r ↔ GivesSame (context_of env.now) (sig_of of.now) (ancestor_of ancestor.now)) }
{
    let class = ancestor.class;
    match class_sig(alloc, env, class, of.method)? {
        None => Ok(true),
        Some(found) => {
            let found = sig_with(alloc, &found, &ancestor.args)?;
            Ok(same_gives(&found.gives, &of.gives))
        }
    }
}

/// Whether all classes above do.
fn all_give_same(
    alloc: Global,
    env: &Env<'_>,
    chain: &[Ancestor<'_>],
    of: &Sig,
) -> Result<bool, AllocError>
    ensures { IfOk result (λ r. IsTrue r ↔ AllGiveSame (context_of env.now) (sig_of of.now) (map ancestor_of chain.now)) }
{
    for ancestor in chain {
        if !gives_same(alloc, env, ancestor, of)? {
            return Ok(false);
        }
    }
    Ok(true)
}

/// Whether the signature of an inherited method exactly conforms where it is a hidden method's.
fn is_exact_where_hidden(
    env: &Env<'_>,
    class: &ClassItem,
    chain: &[Ancestor<'_>],
    sig: &Sig,
    of: &Sig,
) -> bool
    requires chain { IsChain (items_of env.now.items.now) (class_of class.now) (map ancestor_of chain.now) }
    requires short { length chain.now ≤ length (items_of env.now.items.now) }
    ensures { IsTrue result ↔ (is_hidden_above (context_of env.now) (class_of class.now) of.now.method ≡ true → ExactlyConforms (sig_of sig.now) (sig_of of.now)) }
{
    sig.conforms_exactly(of) || !is_hidden(env.hierarchy, chain, of.method)
}

/// Whether the signature of an inherited method fits that of the type of a class, where these are the classes above.
fn inherited_fits(
    alloc: Global,
    env: &Env<'_>,
    class: &ClassItem,
    chain: &[Ancestor<'_>],
    name: u32,
    sig: &Sig,
    of: &Sig,
) -> Result<bool, AllocError>
    requires chain { IsChain (items_of env.now.items.now) (class_of class.now) (map ancestor_of chain.now) }
    requires short { length chain.now ≤ length (items_of env.now.items.now) }
    ensures { IfOk result (λ r. IsTrue r ↔ InheritedFits (context_of env.now) (class_of class.now) name (sig_of sig.now) (sig_of of.now)) }
{
    if !conforms(alloc, env.hierarchy, name, sig, of)? {
        return Ok(false);
    }
    if !is_exact_where_hidden(env, class, chain, sig, of) {
        return Ok(false);
    }
    if !is_fixed(alloc, env.hierarchy, name, of.method)? {
        return Ok(true);
    }
    all_give_same(alloc, env, chain, of)
}

/// Whether the class above has the method of the signature as a body that does not fit it.
fn is_unfit(
    alloc: Global,
    env: &Env<'_>,
    class: &ClassItem,
    chain: &[Ancestor<'_>],
    name: u32,
    of: &Sig,
) -> Result<bool, AllocError>
    requires chain { IsChain (items_of env.now.items.now) (class_of class.now) (map ancestor_of chain.now) }
    requires short { length chain.now ≤ length (items_of env.now.items.now) }
    ensures { IfOk result (λ r. IsTrue r ↔ Unfit (context_of env.now) (class_of class.now) name (sig_of of.now)) }
{
    match super_sig(alloc, env, class, of.method)? {
        None => Ok(false),
        Some(sig) => {
            let fits = inherited_fits(alloc, env, class, chain, name, &sig, of)?;
            Ok(!fits)
        }
    }
}

/// Whether the method of the signature is neither defined in a class nor had by the class above as a body that fits.
#[tactic(auto, using(crate::proofs::Numbered::has_in))]
fn lacks_one(
    alloc: Global,
    env: &Env<'_>,
    class: &ClassItem,
    chain: &[Ancestor<'_>],
    bodies: &Bodies<'_>,
    name: u32,
    of: &Sig,
) -> Result<bool, AllocError>
    requires chain { IsChain (items_of env.now.items.now) (class_of class.now) (map ancestor_of chain.now) }
    requires short { length chain.now ≤ length (items_of env.now.items.now) }
    ensures { IfOk result (λ r. IsTrue r ↔ LacksOne (context_of env.now) (body_above env.now.hierarchy.now.types (bases_of bodies.now.bases.now) bodies.now.own.now (class_of class.now).inherits) (class_of class.now) bodies.now.methods.now name (sig_of of.now)) }
{
    if bodies.methods.has(of.method) {
        return Ok(false);
    }
    if !has_body_above(bodies, env.hierarchy, &class.inherits, of.method) {
        return Ok(true);
    }
    is_unfit(alloc, env, class, chain, name, of)
}

/// Whether one of the methods is lacking, with arguments in place of parameters.
fn lacks_among(
    alloc: Global,
    env: &Env<'_>,
    class: &ClassItem,
    chain: &[Ancestor<'_>],
    bodies: &Bodies<'_>,
    name: u32,
    args: &TyList,
    sigs: &[Sig],
) -> Result<bool, AllocError>
    requires chain { IsChain (items_of env.now.items.now) (class_of class.now) (map ancestor_of chain.now) }
    requires short { length chain.now ≤ length (items_of env.now.items.now) }
    ensures { IfOk result (λ r. IsTrue r ↔ LacksAmong (context_of env.now) (body_above env.now.hierarchy.now.types (bases_of bodies.now.bases.now) bodies.now.own.now (class_of class.now).inherits) (class_of class.now) bodies.now.methods.now name (list_of (tys_of args.now)) (map sig_of sigs.now)) }
{
    for sig in sigs {
        let sig = sig_with(alloc, sig, args)?;
        if lacks_one(alloc, env, class, chain, bodies, name, &sig)? {
            return Ok(true);
        }
    }
    Ok(false)
}

/// Whether a class lacks a method of its type, where these are the classes above.
pub(crate) fn lacks(
    alloc: Global,
    env: &Env<'_>,
    class: &ClassItem,
    chain: &[Ancestor<'_>],
    bodies: &Bodies<'_>,
) -> Result<bool, AllocError>
    requires chain { IsChain (items_of env.now.items.now) (class_of class.now) (map ancestor_of chain.now) }
    requires short { length chain.now ≤ length (items_of env.now.items.now) }
    ensures { IfOk result (λ r. IsTrue r ↔ Lacks (context_of env.now) (body_above env.now.hierarchy.now.types (bases_of bodies.now.bases.now) bodies.now.own.now (class_of class.now).inherits) (class_of class.now) bodies.now.methods.now) }
{
    let Ty::Named(name, args) = &class.of else {
        return Ok(false);
    };
    let sigs = env.hierarchy.methods_of(*name);
    lacks_among(alloc, env, class, chain, bodies, *name, args, sigs)
}
