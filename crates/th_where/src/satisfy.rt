//! Which supplies stand for where-clauses.
ghost use Rattle.std.specs.Prelude.{◌≡◌, ◌<◌, ◌^◌, ◌↔◌, length, map, IfOk, IsTrue, MatchOption, MatchResult};
ghost use Rattle.th_type.specs.declared.sig.Supply.{Supply};
ghost use Rattle.th_type.specs.Lists.{IsIn};
ghost use Rattle.th_type.specs.Types.{ty_of};
ghost use Rattle.th_type.specs.Signatures.{Constraint, sig_of, clause_of};
ghost use Rattle.th_where.specs.Supplies.{Offer, offer_of, offers_of, all_offers, IsFound, StandFor, StandsFor, FirstMissing};
ghost use Rattle.th_where.specs.Refusals.{RefusedBy};

use crate::candidates::{Candidate, CandidateList};
use std::alloc::{AllocError, Global};
use th_type::{Clause, Sig, Supply, SupplyList, Ty};

/// Why where-clauses are not satisfied.
#[derive(Debug, Drop, thiserror::Error)]
pub enum WhereError {
    /// The clause at this place, from 0, is the first that nothing satisfies.
    #[error("nothing satisfies clause {0}")]
    Missing(u32),
    /// Memory ran out.
    #[error("out of memory")]
    Memory,
}

/// Whether a candidate has the method of the wanted signature, and exactly conforms to it.
fn fits(candidate: &Candidate, wanted: &Sig) -> bool
    ensures { IsTrue result ↔ IsFound (sig_of wanted.now) (offer_of candidate.now) }
{
    if candidate.sig.method != wanted.method {
        return false;
    }
    candidate.sig.conforms_exactly(wanted)
}

/// What stands for the wanted signature among the candidates; None exactly where nothing does.
fn find(candidates: &[Candidate], wanted: &Sig) -> Option<Supply>
    ensures { MatchOption result ((x : Offer) → IsIn x (offers_of candidates.now) → ¬ IsFound (sig_of wanted.now) x) (λ s. (x : Offer) × IsIn x (offers_of candidates.now) × IsFound (sig_of wanted.now) x × (s ≡ x.supply)) }
{
    for candidate in candidates {
        if fits(candidate, wanted) {
            return Some(candidate.supply);
        }
    }
    None
}

/// What stands for a clause; None exactly where nothing does.
fn find_supply(
    alloc: Global,
    candidates: &[CandidateList],
    clause: &Clause,
    args: &[Ty],
) -> Result<Option<Supply>, AllocError>
    requires { clause.now.param < length candidates.now }
    ensures { IfOk result (λ r. MatchOption r ((s : Supply) → ¬ StandsFor (all_offers candidates.now) (map ty_of args.now) (clause_of clause.now) s) (λ s. StandsFor (all_offers candidates.now) (map ty_of args.now) (clause_of clause.now) s)) }
{
    let wanted = clause.sig.substitute(alloc, args)?;
    let offered = &candidates[clause.param as usize];
    Ok(find(&offered.candidates, &wanted))
}

/// What stands for the clauses, in order, or the place of the first for which nothing does.
fn find_all(
    alloc: Global,
    candidates: &[CandidateList],
    clauses: &[Clause],
    args: &[Ty],
) -> Result<Result<SupplyList, u32>, AllocError>
    requires params { (c : Constraint) → IsIn c (map clause_of clauses.now) → c.param < length candidates.now }
    requires few { length clauses.now < 2 ^ 32 }
    ensures { IfOk result (λ r. MatchResult r (λ list. StandFor (all_offers candidates.now) (map ty_of args.now) (map clause_of clauses.now) list) (λ k. FirstMissing (all_offers candidates.now) (map ty_of args.now) (map clause_of clauses.now) k)) }
{
    let mut supplies = Vec::new(alloc);
    for k in 0..clauses.len() {
        match find_supply(alloc, candidates, &clauses[k], args)? {
            Some(supply) => supplies.push(supply)?,
            None => return Ok(Err(k as u32)),
        }
    }
    Ok(Ok(SupplyList::of(supplies)))
}

/// What stands for the clauses of an item at a call: for each clause, in order, the supply of the candidate of the clause's
/// parameter that has the clause's method and exactly conforms to it after substitution. `candidates` and `args` are those of
/// the item's parameters, in order. docs/LANGUAGE.md, "Where-clauses", states which candidates a type has.
pub fn satisfies(
    alloc: Global,
    candidates: &[CandidateList],
    clauses: &[Clause],
    args: &[Ty],
) -> Result<SupplyList, WhereError>
    requires counts { length candidates.now ≡ length args.now }
    requires params { (c : Constraint) → IsIn c (map clause_of clauses.now) → c.param < length args.now }
    requires few { length clauses.now < 2 ^ 32 }
    ensures { MatchResult result (λ list. StandFor (all_offers candidates.now) (map ty_of args.now) (map clause_of clauses.now) list) (λ e. RefusedBy (all_offers candidates.now) (map ty_of args.now) (map clause_of clauses.now) e) }
{
    match find_all(alloc, candidates, clauses, args) {
        Ok(Ok(list)) => Ok(list),
        Ok(Err(k)) => Err(WhereError::Missing(k)),
        Err(_) => Err(WhereError::Memory),
    }
}
