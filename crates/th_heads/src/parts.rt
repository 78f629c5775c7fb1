//! Formals, results, signals and clauses in a text: their failures and what they mean. docs/LANGUAGE.md, "Names and scopes", states
//! the rules.
ghost use Rattle.std.specs.Prelude.{◌≡◌, [], ◌∷◌, ◌++◌, map, option_map, IfOk, OnOk};
ghost use Rattle.th_tree.specs.View.{formal_of, option_of, type_of, types_of};
ghost use Rattle.th_tree.specs.DeclView.{clause_of};
ghost use Rattle.th_type.specs.Failures.{lowest};
ghost use Rattle.th_hier.specs.Resolve.{resolved_types, type_fails, types_fails};
ghost use Rattle.th_hier.specs.Heads.{clause_fails, clauses_fail, exception_of, exception_sort, formal_types, gives_fails, gives_type, head_fails, parts, parts_fail, parts_of, refs_fail, signal_numbers, signal_spots, signals_fail};
ghost use Rattle.th_hier.specs.Views.{gives_opt, parts_opt, tys_opt};

use crate::found::{Found, Sight};
use crate::named::{turned, with_type};
use crate::walk::{walk_type, walk_types};
use std::alloc::{AllocError, Global};
use th_hier::{Parts, Spot, exception_of, judge_formals, judge_repeats};
use th_tree::{ClauseTree, Formal, RefTree, TypeTree};
use th_type::{Failure, NumberList, Place, Ty, TyList, demand};

/// Judges the types of formals.
pub fn walk_formals(
    alloc: Global,
    formals: &[Formal],
    found: &Found<'_>,
    sight: &Sight<'_>,
    text: u32,
    least: &mut Option<Failure>,
) -> Result<Option<TyList>, AllocError>
    ensures means { IfOk result (λ r. tys_opt r ≡ resolved_types found.now sight.now (formal_types (map formal_of formals.now))) }
    ensures least { OnOk result (least.new ≡ lowest least.old (types_fails found.now sight.now text (formal_types (map formal_of formals.now)))) }
{
    let mut done = Some(TyList::NoTy);
    for formal in formals {
        let ty = walk_type(alloc, &formal.of, found, sight, text, least)?;
        done = with_type(alloc, done, ty)?;
    }
    Ok(turned(done))
}

/// Judges a result or a yielded type.
pub fn walk_gives(
    alloc: Global,
    gives: &Option<TypeTree>,
    found: &Found<'_>,
    sight: &Sight<'_>,
    text: u32,
    least: &mut Option<Failure>,
) -> Result<Option<Option<Ty>>, AllocError>
    ensures means { IfOk result (λ r. gives_opt r ≡ gives_type found.now sight.now (option_of type_of gives.now)) }
    ensures least { OnOk result (least.new ≡ lowest least.old (gives_fails found.now sight.now text (option_of type_of gives.now))) }
{
    let Some(tree) = gives else {
        return Ok(Some(None));
    };
    match walk_type(alloc, tree, found, sight, text, least)? {
        None => Ok(None),
        Some(ty) => Ok(Some(Some(ty))),
    }
}

/// Judges that the names are those of exceptions: the exceptions where they are named, and their numbers where all are.
#[tactic(auto, using(th_type::proofs::Least::lowest_append))]
fn walk_refs(
    alloc: Global,
    refs: &[RefTree],
    found: &Found<'_>,
    sight: &Sight<'_>,
    text: u32,
    least: &mut Option<Failure>,
) -> Result<(Vec<Spot>, Option<NumberList>), AllocError>
    ensures spots { IfOk result (λ r. r.0.items ≡ signal_spots found.now sight.now text refs.now) }
    ensures numbers { IfOk result (λ r. r.1 ≡ signal_numbers found.now sight.now refs.now) }
    ensures least { OnOk result (least.new ≡ lowest least.old (refs_fail found.now sight.now text refs.now)) }
{
    let mut spots = Vec::new(alloc);
    let mut numbers = Vec::new(alloc);
    let mut whole = true;
    for named in refs {
        let place = Place {
            text,
            at: named.first.at,
        };
        match exception_of(found.meaning(sight, named)) {
            None => {
                demand(least, false, 4, place);
                whole = false;
            }
            Some(name) => {
                spots.push(Spot { name, place })?;
                numbers.push(name)?;
            }
        }
    }
    if whole {
        Ok((spots, Some(NumberList::of(numbers))))
    } else {
        Ok((spots, None))
    }
}

/// Judges a list of signals: the numbers of the exceptions, where each name is that of one.
#[tactic(auto, using(th_type::proofs::Least::lowest_append))]
fn walk_signals(
    alloc: Global,
    refs: &[RefTree],
    found: &Found<'_>,
    sight: &Sight<'_>,
    text: u32,
    least: &mut Option<Failure>,
) -> Result<Option<NumberList>, AllocError>
    ensures means { IfOk result (λ r. r ≡ signal_numbers found.now sight.now refs.now) }
    ensures least { OnOk result (least.new ≡ lowest least.old (signals_fail found.now sight.now text refs.now)) }
{
    let (spots, numbers) = walk_refs(alloc, refs, found, sight, text, least)?;
    judge_repeats(alloc, 7, &spots, least)?;
    Ok(numbers)
}

/// The parts, where all are there.
fn joined(
    formals: Option<TyList>,
    gives: Option<Option<Ty>>,
    signals: Option<NumberList>,
) -> Option<Parts>
    ensures { parts_opt result ≡ parts (tys_opt formals) (gives_opt gives) signals }
{
    let formals = formals?;
    let gives = gives?;
    let signals = signals?;
    Some(Parts {
        formals,
        gives,
        signals,
    })
}

/// Judges a clause's formals, result and signals.
#[tactic(auto, using(th_type::proofs::Least::lowest_append))]
pub fn walk_clause(
    alloc: Global,
    clause: &ClauseTree,
    found: &Found<'_>,
    sight: &Sight<'_>,
    text: u32,
    least: &mut Option<Failure>,
) -> Result<Option<Parts>, AllocError>
    ensures means { IfOk result (λ r. parts_opt r ≡ parts_of found.now sight.now (clause_of clause.now).formals (clause_of clause.now).gives (clause_of clause.now).signals) }
    ensures least { OnOk result (least.new ≡ lowest least.old (clause_fails found.now sight.now text (clause_of clause.now))) }
{
    let formals = walk_types(alloc, &clause.formals, found, sight, text, least)?;
    let gives = walk_gives(alloc, &clause.gives, found, sight, text, least)?;
    let signals = walk_signals(alloc, &clause.signals, found, sight, text, least)?;
    Ok(joined(formals, gives, signals))
}

/// Judges formals, a result and signals.
#[tactic(auto, using(th_type::proofs::Least::lowest_append))]
pub fn walk_head(
    alloc: Global,
    formals: &[Formal],
    gives: &Option<TypeTree>,
    signals: &[RefTree],
    found: &Found<'_>,
    sight: &Sight<'_>,
    text: u32,
    least: &mut Option<Failure>,
) -> Result<Option<Parts>, AllocError>
    ensures means { IfOk result (λ r. parts_opt r ≡ parts_of found.now sight.now (formal_types (map formal_of formals.now)) (option_of type_of gives.now) signals.now) }
    ensures least { OnOk result (least.new ≡ lowest least.old (head_fails found.now sight.now text (map formal_of formals.now) (option_of type_of gives.now) signals.now)) }
{
    judge_formals(alloc, text, formals, least)?;
    let formals = walk_formals(alloc, formals, found, sight, text, least)?;
    let gives = walk_gives(alloc, gives, found, sight, text, least)?;
    let signals = walk_signals(alloc, signals, found, sight, text, least)?;
    Ok(joined(formals, gives, signals))
}
