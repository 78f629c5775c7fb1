//! The lattice of declared types. docs/LANGUAGE.md, "Subtypes" and "Methods of a type", states what it answers.
ghost use Rattle.std.specs.Prelude.{◌≡◌, ◌↔◌, ℕ, length, map, option_map, IfOk, IsTrue, MatchResult};
ghost use Rattle.std.specs.Ordering.{nat_cmp};
ghost use Rattle.std.specs.List.Sorted.{IsSorted, IsNonDecreasingBy, IsPermutation};
ghost use Rattle.th_type.specs.Tables.{up_of};
ghost use Rattle.th_type.specs.Types.{ty_of};
ghost use Rattle.th_type.specs.Signatures.{sig_of, find_sig};
ghost use Rattle.th_type.specs.Declarations.{decls_of, declared_types, supers_of, sigs_of, params_of};
ghost use Rattle.th_type.specs.Subtypes.{Subtype};
ghost use Rattle.th_type.specs.Methods.{method_of};
ghost use Rattle.th_type.specs.Rules.{WellFormed, IsNamed, NoneFails};
ghost use Rattle.th_type.specs.MethodTables.{Rising};
ghost use Rattle.th_type.specs.Refusals.{RefusedBy};
ghost use Rattle.th_type.specs.Ordering.{SupersFirst};
ghost use Rattle.th_type.specs.Ways.{WaysEnd};

use crate::above::Ancestors;
use crate::defs::Defs;
use crate::judge::judge_supertypes;
use crate::known::Tables;
use crate::methods::tabulate;
use crate::place::Failure;
use crate::rows::{Row, make_heads, make_rows};
use crate::sig::Sig;
use crate::ty::Ty;
use crate::typedef::TypeDef;
use indexmap::IndexMap;
use std::alloc::{AllocError, Global};
use std::marker::Model;

/// Why declared types make no lattice.
#[derive(Debug, Drop, thiserror::Error)]
pub enum LatticeError {
    /// The rule fails at the place: the least failure of those that were found before and of the rule on supertypes, or, where
    /// there is none of these, of the rule on inherited methods.
    #[error("rule {} fails at byte {} of text {}", .0.rule, .0.place.at, .0.place.text)]
    Rule(Failure),
    /// Memory ran out.
    #[error("out of memory")]
    Memory,
}

/// The declared types, with what each reaches and its methods. A contract sees the list of the declared types.
#[derive(Drop)]
pub struct Lattice {
    rows: IndexMap<u32, Row>,
    heads: Vec<u32>,
    tables: Tables,
}

impl Model for Lattice {
    ghost use Rattle.std.specs.Prelude.{List};
    ghost use Rattle.std.specs.Coded.{coded_list};
    ghost use Rattle.th_type.specs.Declarations.{DeclaredType};
    ghost use Rattle.th_type.specs.Codes.{coded_declared};
    ghost use Rattle.th_type.specs.Rows.{rows_of};
    ghost use Rattle.th_type.specs.Tables.{tables_up, tables_methods};
    ghost use Rattle.th_type.specs.LatticeRight.{LatticeRight};

    ghost Value = { List DeclaredType };

    ghost coded = { coded_list coded_declared };

    ghost view = { λ a. rows_of a.rows.entries };

    ghost invariant = { λ a. LatticeRight (rows_of a.rows.entries) a.heads.items (tables_up a.tables) (tables_methods a.tables) };
}

/// The lattice of these declared types, or the failure that is named.
fn judged(
    alloc: Global,
    declared: Vec<TypeDef>,
    mut found: Option<Failure>,
) -> Result<Result<Lattice, Failure>, AllocError>
    requires { WellFormed (decls_of declared.items) }
    ensures answer { IfOk result (λ r. MatchResult r (λ l. (l ≡ declared_types (decls_of declared.items)) × NoneFails (decls_of declared.items) found) (λ f. IsNamed (decls_of declared.items) found f)) }
    ensures ends { IfOk result (λ r. IfOk r (λ l. WaysEnd l)) }
{
    let defs = Defs::of(alloc, declared)?;
    let ancestors = judge_supertypes(alloc, &defs, &mut found)?;
    match found {
        Some(failure) => return Ok(Err(failure)),
        None => {}
    }
    let methods = tabulate(alloc, &defs, &ancestors)?;
    let tables = Tables { ancestors, methods };
    let mut least = None;
    tables.judge_methods(alloc, &defs, &mut least)?;
    match least {
        Some(failure) => Ok(Err(failure)),
        None => {
            let rows = make_rows(alloc, &defs)?;
            let heads = make_heads(alloc, &defs)?;
            Ok(Ok(Lattice {
                rows,
                heads,
                tables,
            }))
        }
    }
}

/// The numbers in ascending order of how many supertypes the declared types reach.
fn by_rank(alloc: Global, heads: &[u32], ancestors: &Ancestors) -> Result<Vec<u32>, AllocError>
    ensures sorted { IfOk result (λ order. IsNonDecreasingBy (λ n. length (up_of ancestors.now n)) order.items) }
    ensures same { IfOk result (λ order. IsPermutation heads.now order.items) }
{
    let mut order = Vec::from_slice(alloc, heads)?;
    order.sort_unstable_by_key(|name| ancestors.rank(*name));
    Ok(order)
}

impl Lattice {
    /// The lattice of these declared types, where no failure was found before and none of the rules on supertypes and on
    /// inherited methods fails. docs/LANGUAGE.md, "Which failure is named", states which failure is named.
    pub fn of(
        alloc: Global,
        declared: Vec<TypeDef>,
        found: Option<Failure>,
    ) -> Result<Lattice, LatticeError>
        requires { WellFormed (decls_of declared.items) }
        ensures answer { MatchResult result (λ l. (l ≡ declared_types (decls_of declared.items)) × NoneFails (decls_of declared.items) found) (λ e. RefusedBy (decls_of declared.items) found e) }
        ensures ends { IfOk result (λ l. WaysEnd l) }
    {
        match judged(alloc, declared, found) {
            Ok(Ok(lattice)) => Ok(lattice),
            Ok(Err(failure)) => Err(LatticeError::Rule(failure)),
            Err(_) => Err(LatticeError::Memory),
        }
    }

    /// Whether the first type is a subtype of the second.
    pub fn is_subtype(&self, a: &Ty, b: &Ty) -> bool
        ensures { IsTrue result ↔ Subtype self.now (ty_of a.now) (ty_of b.now) }
    {
        self.tables.ancestors.is_subtype(a, b)
    }

    /// The methods of the declared type over its own parameters, ascending by their numbers; none for a number that is no
    /// declared type.
    pub fn methods_of(&self, head: u32) -> &[Sig]
        ensures ascending { Rising (map sig_of result.now) }
        ensures finds { (m : ℕ) → find_sig (map sig_of result.now) m ≡ method_of self.now head m }
    {
        self.tables.methods_of(head)
    }

    /// The method of the declared type over its own parameters; None exactly where it has no such method.
    pub fn method_of(&self, head: u32, method: u32) -> Option<&Sig>
        ensures { option_map (λ s. sig_of s.now) result ≡ method_of self.now head method }
    {
        self.tables.method_of(head, method)
    }

    /// The numbers of all declared types, ascending.
    pub fn heads(&self) -> &[u32]
        ensures ascending { IsSorted nat_cmp result.now }
        ensures all { IsPermutation (map (λ d. d.name) self.now) result.now }
    {
        &self.heads
    }

    /// The numbers of all declared types, each after its declared supertypes.
    pub fn supers_first(&self, alloc: Global) -> Result<Vec<u32>, AllocError>
        ensures order { IfOk result (λ order. SupersFirst self.now order.items) }
        ensures all { IfOk result (λ order. IsPermutation (map (λ d. d.name) self.now) order.items) }
    {
        let order = by_rank(alloc, &self.heads, &self.tables.ancestors)?;
        Ok(order)
    }

    /// The number of the declared type's parameters; 0 for a number that is no declared type.
    pub fn params_of(&self, head: u32) -> u32
        ensures { result ≡ params_of self.now head }
    {
        match self.rows.get(&head) {
            Some(row) => row.params,
            None => 0,
        }
    }

    /// The declared supertypes over the declared type's own parameters, in the order of the text; none for a number that is no
    /// declared type.
    pub fn supertypes_of(&self, head: u32) -> &[Ty]
        ensures { map ty_of result.now ≡ supers_of self.now head }
    {
        match self.rows.get(&head) {
            Some(row) => &row.supertypes,
            None => &[],
        }
    }

    /// The signatures that are written in the declared type, in the order of the text; none for a number that is no declared
    /// type.
    pub fn written_in(&self, head: u32) -> &[Sig]
        ensures { map sig_of result.now ≡ sigs_of self.now head }
    {
        match self.rows.get(&head) {
            Some(row) => &row.written,
            None => &[],
        }
    }
}
