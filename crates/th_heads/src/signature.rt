//! Signatures and clauses of items: their failures and what they mean. docs/LANGUAGE.md, "Names and scopes", states the rules.
ghost use Rattle.std.specs.Prelude.{◌≡◌, ◌++◌, [], None, map, unwrap_or, IfOk, OnOk};
ghost use Rattle.th_tree.specs.View.{formal_of, option_of, type_of};
ghost use Rattle.th_tree.specs.DeclView.{clause_of as clause_tree_of, init_head_of, method_of, sig_of as sig_tree_of};
ghost use Rattle.th_type.specs.Failures.{lowest};
ghost use Rattle.th_type.specs.Signatures.{clause_of, sig_of};
ghost use Rattle.th_hier.specs.Spots.{repeats, sig_spots, spot_at};
ghost use Rattle.th_hier.specs.Heads.{clause_fails, clauses_fail, head_fails, signature_of, with_parts};
ghost use Rattle.th_hier.specs.Texts.{sig_fails, sigs_fail};
ghost use Rattle.th_hier.specs.Views.{parts_opt, sig_opt};
ghost use Rattle.th_module_rules.specs.Contexts.{bare_sig, constraint, init_sig, signatures, to_list};
ghost use Rattle.th_heads.specs.Clauses.{clause_seen, clauses_seen};

use crate::found::{Found, Sight};
use crate::parts::{walk_clause, walk_head};
use std::alloc::{AllocError, Global};
use th_hier::{Parts, Spot, judge_repeats};
use th_tree::{ClauseTree, InitHead, MethodTree, SigTree};
use th_type::{Clause, Failure, NumberList, Place, Sig, TyList};

/// The signature of these parts, where they are there.
fn signature(method: u32, iterator: bool, parts: Option<Parts>) -> Option<Sig>
    ensures { sig_opt result ≡ with_parts method iterator (parts_opt parts) }
{
    let parts = parts?;
    Some(Sig {
        method,
        iterator,
        formals: parts.formals,
        gives: parts.gives,
        signals: parts.signals,
    })
}

/// The signature of these parts, or one without parts.
pub fn signature_or_bare(alloc: Global, method: u32, iterator: bool, parts: Option<Parts>) -> Sig
    ensures { sig_of result ≡ unwrap_or (with_parts method iterator (parts_opt parts)) (bare_sig method) }
{
    match signature(method, iterator, parts) {
        Some(sig) => sig,
        None => Sig {
            method,
            iterator: false,
            formals: TyList::NoTy,
            gives: None,
            signals: NumberList::of(Vec::new(alloc)),
        },
    }
}

/// Judges a signature: what it means, where it resolves.
pub fn walk_sig(
    alloc: Global,
    sig: &SigTree,
    found: &Found<'_>,
    sight: &Sight<'_>,
    text: u32,
    least: &mut Option<Failure>,
) -> Result<Option<Sig>, AllocError>
    ensures means { IfOk result (λ r. sig_opt r ≡ signature_of found.now sight.now (sig_tree_of sig.now)) }
    ensures least { OnOk result (least.new ≡ lowest least.old (sig_fails found.now sight.now text (sig_tree_of sig.now))) }
{
    let parts = walk_head(
        alloc,
        &sig.formals,
        &sig.gives,
        &sig.signals,
        found,
        sight,
        text,
        least,
    )?;
    Ok(signature(sig.name.name, sig.iterator, parts))
}

/// Puts the signature last, where there is one.
fn push_sig(sigs: &mut Vec<Sig>, sig: Option<Sig>) -> Result<(), AllocError>
    ensures { OnOk result (map sig_of sigs.new.items ≡ map sig_of sigs.old.items ++ to_list (sig_opt sig)) }
{
    if let Some(sig) = sig {
        sigs.push(sig)?;
    }
    Ok(())
}

/// Judges signatures: those that resolve.
pub fn walk_sigs(
    alloc: Global,
    sigs: &[SigTree],
    found: &Found<'_>,
    sight: &Sight<'_>,
    text: u32,
    least: &mut Option<Failure>,
) -> Result<Vec<Sig>, AllocError>
    ensures means { IfOk result (λ r. map sig_of r.items ≡ signatures found.now sight.now (map sig_tree_of sigs.now)) }
    ensures least { OnOk result (least.new ≡ lowest least.old (sigs_fail found.now sight.now text (map sig_tree_of sigs.now))) }
{
    let mut done = Vec::new(alloc);
    for sig in sigs {
        let sig = walk_sig(alloc, sig, found, sight, text, least)?;
        push_sig(&mut done, sig)?;
    }
    Ok(done)
}

/// Judges the signatures of methods: those that resolve.
pub fn walk_methods(
    alloc: Global,
    methods: &[MethodTree],
    found: &Found<'_>,
    sight: &Sight<'_>,
    text: u32,
    least: &mut Option<Failure>,
) -> Result<Vec<Sig>, AllocError>
    ensures means { IfOk result (λ r. map sig_of r.items ≡ signatures found.now sight.now (map (λ m. m.sig) (map method_of methods.now))) }
    ensures least { OnOk result (least.new ≡ lowest least.old (sigs_fail found.now sight.now text (map (λ m. m.sig) (map method_of methods.now)))) }
{
    let mut done = Vec::new(alloc);
    for method in methods {
        let sig = walk_sig(alloc, &method.sig, found, sight, text, least)?;
        push_sig(&mut done, sig)?;
    }
    Ok(done)
}

/// The names of methods where they stand in the text.
fn method_spots(alloc: Global, text: u32, methods: &[MethodTree]) -> Result<Vec<Spot>, AllocError>
    ensures { IfOk result (λ r. r.items ≡ map (λ m. spot_at text m.sig.name) methods.now) }
{
    methods
        .iter()
        .map(|method| Spot {
            name: method.sig.name.name,
            place: Place {
                text,
                at: method.sig.name.at,
            },
        })
        .collect(alloc)
}

/// Judges that methods have different names.
#[tactic(auto, using(crate::proofs::Mapped::methods_mapped))]
pub fn judge_method_names(
    alloc: Global,
    text: u32,
    methods: &[MethodTree],
    least: &mut Option<Failure>,
) -> Result<(), AllocError>
    ensures { OnOk result (least.new ≡ lowest least.old (repeats 3 [] (sig_spots text (map (λ m. m.sig) (map method_of methods.now))))) }
{
    let spots = method_spots(alloc, text, methods)?;
    judge_repeats(alloc, 3, &spots, least)
}

/// Judges the head of an initializer of the class with this bare name: its signature.
pub fn walk_init(
    alloc: Global,
    name: u32,
    init: &InitHead,
    found: &Found<'_>,
    sight: &Sight<'_>,
    text: u32,
    least: &mut Option<Failure>,
) -> Result<Sig, AllocError>
    ensures means { IfOk result (λ r. sig_of r ≡ init_sig found.now sight.now name (init_head_of init.now)) }
    ensures least { OnOk result (least.new ≡ lowest least.old (head_fails found.now sight.now text (init_head_of init.now).formals None (init_head_of init.now).signals)) }
{
    let parts = walk_head(
        alloc,
        &init.formals,
        &None,
        &init.signals,
        found,
        sight,
        text,
        least,
    )?;
    Ok(signature_or_bare(alloc, name, false, parts))
}

/// Puts the clause last, where its type parameter and its parts are there.
fn push_clause(
    clauses: &mut Vec<Clause>,
    method: u32,
    param: Option<u32>,
    parts: Option<Parts>,
) -> Result<(), AllocError>
    ensures { OnOk result (map clause_of clauses.new.items ≡ map clause_of clauses.old.items ++ constraint method param (parts_opt parts)) }
{
    let Some(param) = param else {
        return Ok(());
    };
    let Some(sig) = signature(method, false, parts) else {
        return Ok(());
    };
    clauses.push(Clause { param, sig })?;
    Ok(())
}

/// Judges a clause, and puts it last, where its type parameter and its parts are there.
fn add_clause(
    alloc: Global,
    clause: &ClauseTree,
    found: &Found<'_>,
    sight: &Sight<'_>,
    text: u32,
    done: &mut Vec<Clause>,
    least: &mut Option<Failure>,
) -> Result<(), AllocError>
    ensures means { OnOk result (map clause_of done.new.items ≡ map clause_of done.old.items ++ clause_seen found.now sight.now (clause_tree_of clause.now)) }
    ensures least { OnOk result (least.new ≡ lowest least.old (clause_fails found.now sight.now text (clause_tree_of clause.now))) }
{
    let param = sight.params().place(clause.param.name);
    let parts = walk_clause(alloc, clause, found, sight, text, least)?;
    push_clause(done, clause.method.name, param, parts)
}

/// Judges clauses: those whose type parameters and parts are there.
pub fn walk_clauses(
    alloc: Global,
    clauses: &[ClauseTree],
    found: &Found<'_>,
    sight: &Sight<'_>,
    text: u32,
    least: &mut Option<Failure>,
) -> Result<Vec<Clause>, AllocError>
    ensures means { IfOk result (λ r. map clause_of r.items ≡ clauses_seen found.now sight.now (map clause_tree_of clauses.now)) }
    ensures least { OnOk result (least.new ≡ lowest least.old (clauses_fail found.now sight.now text (map clause_tree_of clauses.now))) }
{
    let mut done = Vec::new(alloc);
    for clause in clauses {
        add_clause(alloc, clause, found, sight, text, &mut done, least)?;
    }
    Ok(done)
}
