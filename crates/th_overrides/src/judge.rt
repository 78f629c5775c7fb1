//! The rules on what a class of a module defines and inherits. docs/LANGUAGE.md, "Rules of modules", states them.
ghost use Rattle.std.specs.Prelude.{◌≡◌, ◌↔◌, ℕ, List, map, IfOk, IsTrue, OnOk};
ghost use Rattle.th_tree.specs.DeclView.{class_of as class_tree_of, method_of, sig_of as sig_tree_of};
ghost use Rattle.th_type.specs.Judged.{SameNumbers};
ghost use Rattle.th_type.specs.Failures.{IsLeastOf};
ghost use Rattle.th_type.specs.Signatures.{sig_of};
ghost use Rattle.th_hier.specs.Naming.{different};
ghost use Rattle.th_module_rules.specs.ClassRules.{OverridesFail, OwnFits};
ghost use Rattle.th_module_rules.specs.Contexts.{bare_sig, sig_or_bare};
ghost use Rattle.th_scope.specs.View.{class_of, context_of, items_of};
ghost use Rattle.th_contexts.specs.Bases.{bases_of};
ghost use Rattle.th_overrides.specs.AncestorView.{ancestor_of};
ghost use Rattle.th_overrides.specs.Bodies.{body_above};
ghost use Rattle.th_overrides.specs.Chain.{IsChain};
ghost use Rattle.th_overrides.specs.Judging.{FailsToo, MethodsFail};

use crate::ancestor::Ancestor;
use crate::bodies::Bodies;
use crate::chain::chain_of;
use crate::lacking::lacks;
use crate::overriding::own_fits;
use std::alloc::{AllocError, Global};
use th_contexts::Bases;
use th_heads::{Found, Sight, walk_sig};
use th_hier::Numbers;
use th_scope::{ClassItem, Env};
use th_tree::{ClassDecl, MethodTree, SigTree};
use th_type::{Failure, NumberList, Place, Sig, TyList, demand};

/// The signature without parts of the method.
fn bare(alloc: Global, method: u32) -> Sig
    ensures { sig_of result ≡ bare_sig method }
{
    Sig {
        method,
        iterator: false,
        formals: TyList::NoTy,
        gives: None,
        signals: NumberList::of(Vec::new(alloc)),
    }
}

/// The signature of a method, or a bare one where it does not resolve.
fn sig_or_bare(
    alloc: Global,
    sig: &SigTree,
    found: &Found<'_>,
    sight: &Sight<'_>,
) -> Result<Sig, AllocError>
    ensures { IfOk result (λ s. sig_of s ≡ sig_or_bare found.now sight.now (sig_tree_of sig.now)) }
{
    let mut ignored = None;
    match walk_sig(alloc, sig, found, sight, 0, &mut ignored)? {
        Some(sig) => Ok(sig),
        None => Ok(bare(alloc, sig.name.name)),
    }
}

/// Whether a method fits what it overrides, where these are the classes above its class.
fn method_fits(
    alloc: Global,
    env: &Env<'_>,
    class: &ClassItem,
    chain: &[Ancestor<'_>],
    sig: &SigTree,
    found: &Found<'_>,
    sight: &Sight<'_>,
) -> Result<bool, AllocError>
    requires { IsChain (items_of env.now.items.now) (class_of class.now) (map ancestor_of chain.now) }
    ensures { IfOk result (λ r. IsTrue r ↔ OwnFits (context_of env.now) (class_of class.now) (sig_or_bare found.now sight.now (sig_tree_of sig.now))) }
{
    let sig = sig_or_bare(alloc, sig, found, sight)?;
    own_fits(alloc, env, class, chain, &sig)
}

/// Judges that the methods fit what they override.
fn judge_methods(
    alloc: Global,
    env: &Env<'_>,
    class: &ClassItem,
    chain: &[Ancestor<'_>],
    methods: &[MethodTree],
    found: &Found<'_>,
    sight: &Sight<'_>,
    least: &mut Option<Failure>,
) -> Result<(), AllocError>
    requires { IsChain (items_of env.now.items.now) (class_of class.now) (map ancestor_of chain.now) }
    ensures { OnOk result (IsLeastOf (FailsToo least.old (MethodsFail (context_of env.now) (sig_or_bare found.now sight.now) (class_of class.now) (map method_of methods.now))) least.new) }
{
    for method in methods {
        let fits = method_fits(alloc, env, class, chain, &method.sig, found, sight)?;
        let place = Place {
            text: env.text,
            at: method.sig.name.at,
        };
        demand(least, fits, 14, place);
    }
    Ok(())
}

/// The numbers of the names of methods, each once.
fn names_of(alloc: Global, methods: &[MethodTree]) -> Result<Numbers, AllocError>
    ensures { IfOk result (λ r. r ≡ different (map (λ m. m.sig.name.name) (map method_of methods.now))) }
{
    let mut names = Numbers::new(alloc);
    for method in methods {
        names.add(method.sig.name.name)?;
    }
    Ok(names)
}

/// Judges what a class defines and inherits: it has each method of its type, and its own methods fit what they override. `own` are the
/// numbers of the full names of the module's own classes.
pub fn judge_class(
    alloc: Global,
    env: &Env<'_>,
    class: &ClassItem,
    tree: &ClassDecl,
    bases: &Bases,
    own: &Numbers,
    found: &Found<'_>,
    sight: &Sight<'_>,
    least: &mut Option<Failure>,
) -> Result<(), AllocError>
    ensures { OnOk result ((fulls : List ℕ) → SameNumbers own.now fulls → IsLeastOf (FailsToo least.old (OverridesFail (context_of env.now) (body_above env.now.hierarchy.now.types (bases_of bases.now) fulls (class_of class.now).inherits) (sig_or_bare found.now sight.now) (class_of class.now) (class_tree_of tree.now))) least.new) }
{
    let chain = chain_of(alloc, env.items, class)?;
    let methods = names_of(alloc, &tree.methods)?;
    let bodies = Bodies {
        bases,
        own,
        methods: &methods,
    };
    let lacking = lacks(alloc, env, class, &chain, &bodies)?;
    let place = Place {
        text: env.text,
        at: tree.head.name.at,
    };
    demand(least, !lacking, 13, place);
    judge_methods(
        alloc,
        env,
        class,
        &chain,
        &tree.methods,
        found,
        sight,
        least,
    )
}
