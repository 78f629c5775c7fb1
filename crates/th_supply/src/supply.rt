//! What stands for the where-clauses of an item that is used with type arguments. docs/LANGUAGE.md, "Where-clauses", states it.
ghost use Rattle.std.specs.Prelude.{◌≡◌, map, IfOk};
ghost use Rattle.th_type.specs.Conforming.{exactly};
ghost use Rattle.th_type.specs.Types.{list_of, ty_of, tys_of};
ghost use Rattle.th_type.specs.Signatures.{clause_of, sig_of};
ghost use Rattle.th_meaning.specs.Trees.{by_method};
ghost use Rattle.th_hier.specs.Views.{sig_opt};
ghost use Rattle.th_rules.specs.Cores.{name_at};
ghost use Rattle.th_rules.specs.Supplies.{bool_primitive, clause_supply, exact_supply, find_clause, int_primitive, primitive_supply, supplies_of, supply_of, test_sig};
ghost use Rattle.th_scope.specs.View.{context_of};
ghost use Rattle.th_supply.specs.View.{clause_met, clause_use_opt, supplies_opt, supply_opt};

use std::alloc::{AllocError, Global};
use th_meaning::{CoreSupply, Primitive};
use th_scope::{Env, argument, sig_with, spelled, type_method};
use th_tree::NameTable;
use th_type::{Clause, NumberList, Sig, Ty, TyList};

/// The bytes of the name of the test on equal values.
const EQUAL: &[u8] = b"equal";

/// The bytes of the name of the test on ordered values.
const LESS: &[u8] = b"less";

/// Whether the first signature exactly conforms to the second.
fn is_exact(sig: &Sig, needed: &Sig) -> bool
    ensures { result ≡ exactly (sig_of sig.now) (sig_of needed.now) }
{
    sig.conforms_exactly(needed)
}

/// A where-clause of the unit, by its place.
#[derive(Clone, Copy)]
pub struct ClausePart<'a> {
    pub place: u32,
    pub sig: &'a Sig,
}

/// The clause of the unit for a type parameter and a method. A place above 2^32 - 1 is want of memory.
pub fn own_clause<'a>(
    clauses: &'a [Clause],
    param: u32,
    method: u32,
) -> Result<Option<ClausePart<'a>>, AllocError>
    ensures { IfOk result (λ r. clause_use_opt r ≡ find_clause 0 (map clause_of clauses.now) param method) }
{
    let mut place: u32 = 0;
    for clause in clauses {
        if clause.param == param && clause.sig.method == method {
            return Ok(Some(ClausePart {
                place,
                sig: &clause.sig,
            }));
        }
        match place.checked_add(1) {
            Some(next) => place = next,
            None => return Err(AllocError),
        }
    }
    Ok(None)
}

/// A clause of the unit that is passed on, where its signature exactly conforms to what is needed.
fn clause_supply(needed: &Sig, found: Option<ClausePart<'_>>) -> Option<CoreSupply>
    ensures { supply_opt result ≡ clause_supply (sig_of needed.now) (clause_use_opt found.entry) }
{
    let found = found?;
    if is_exact(found.sig, needed) {
        Some(CoreSupply::Passed(found.place))
    } else {
        None
    }
}

/// The primitive of `int` by the number of its name.
fn int_primitive(names: &NameTable, method: u32) -> Option<Primitive>
    ensures { result ≡ int_primitive (name_at names.now method) }
{
    let name = names.name(method)?;
    if name == EQUAL {
        Some(Primitive::IntEqual)
    } else if name == LESS {
        Some(Primitive::IntLess)
    } else {
        None
    }
}

/// The primitive of `bool` by the number of its name.
fn bool_primitive(names: &NameTable, method: u32) -> Option<Primitive>
    ensures { result ≡ bool_primitive (name_at names.now method) }
{
    let name = names.name(method)?;
    if name == EQUAL {
        Some(Primitive::BoolEqual)
    } else {
        None
    }
}

/// The signature of a method of two values of one type that gives a truth value.
fn test_sig(alloc: Global, method: u32, ty: &Ty) -> Result<Sig, AllocError>
    ensures { IfOk result (λ s. sig_of s ≡ test_sig method (ty_of ty.now)) }
{
    let ty = Box::new(alloc, ty.try_clone(alloc)?)?;
    let formals = TyList::MoreTy(ty, Box::new(alloc, TyList::NoTy)?);
    Ok(Sig {
        method,
        iterator: false,
        formals,
        gives: Some(Ty::Bool),
        signals: NumberList::of(Vec::new(alloc)),
    })
}

/// A primitive of the type, where its signature exactly conforms to what is needed.
fn primitive_supply(
    alloc: Global,
    needed: &Sig,
    ty: &Ty,
    primitive: Option<Primitive>,
) -> Result<Option<CoreSupply>, AllocError>
    ensures { IfOk result (λ r. supply_opt r ≡ primitive_supply (sig_of needed.now) (ty_of ty.now) primitive) }
{
    let Some(primitive) = primitive else {
        return Ok(None);
    };
    let sig = test_sig(alloc, needed.method, ty)?;
    if is_exact(&sig, needed) {
        Ok(Some(CoreSupply::Primitive(primitive)))
    } else {
        Ok(None)
    }
}

/// A method of a declared type with this number, where its signature exactly conforms to what is needed.
fn method_supply(
    alloc: Global,
    env: &Env<'_>,
    number: u32,
    needed: &Sig,
    sig: Option<Sig>,
) -> Result<Option<CoreSupply>, AllocError>
    ensures { IfOk result (λ r. supply_opt r ≡ exact_supply (sig_of needed.now) (by_method (name_at env.now.names.now number) (name_at env.now.names.now needed.now.method)) (sig_opt sig)) }
{
    let Some(sig) = sig else {
        return Ok(None);
    };
    if !is_exact(&sig, needed) {
        return Ok(None);
    }
    let of = spelled(alloc, env.names, number)?;
    let method = spelled(alloc, env.names, needed.method)?;
    Ok(Some(CoreSupply::Method(of, method)))
}

/// What stands for the method that is needed of the type; None exactly where nothing does.
fn supply_of(
    alloc: Global,
    env: &Env<'_>,
    needed: &Sig,
    ty: &Ty,
) -> Result<Option<CoreSupply>, AllocError>
    ensures { IfOk result (λ r. supply_opt r ≡ supply_of (context_of env.now) (sig_of needed.now) (ty_of ty.now)) }
{
    match ty {
        Ty::Int => primitive_supply(alloc, needed, ty, int_primitive(env.names, needed.method)),
        Ty::Bool => primitive_supply(alloc, needed, ty, bool_primitive(env.names, needed.method)),
        Ty::Named(number, _) => {
            let sig = type_method(alloc, env.hierarchy, ty, needed.method)?;
            method_supply(alloc, env, *number, needed, sig)
        }
        Ty::Param(place) => {
            let found = own_clause(env.clauses, *place, needed.method)?;
            Ok(clause_supply(needed, found))
        }
        Ty::Text => Ok(None),
        Ty::Array(_) => Ok(None),
    }
}

/// What stands for a clause of an item that is used with these type arguments; None exactly where nothing does.
fn supply_for(
    alloc: Global,
    env: &Env<'_>,
    args: &TyList,
    clause: &Clause,
) -> Result<Option<CoreSupply>, AllocError>
    ensures { IfOk result (λ r. supply_opt r ≡ clause_met (context_of env.now) (list_of (tys_of args.now)) (clause_of clause.now)) }
{
    let needed = sig_with(alloc, &clause.sig, args)?;
    let ty = argument(alloc, args, clause.param)?;
    supply_of(alloc, env, &needed, &ty)
}

/// What stands for the clauses, in order, where the item is used with these type arguments; None exactly where nothing
/// stands for one of them.
#[tactic(auto, using(crate::proofs::Supplying::after_none, crate::proofs::Supplying::after_one))]
pub fn supplies_of(
    alloc: Global,
    env: &Env<'_>,
    args: &TyList,
    clauses: &[Clause],
) -> Result<Option<Vec<CoreSupply>>, AllocError>
    ensures { IfOk result (λ r. supplies_opt r ≡ supplies_of (context_of env.now) (list_of (tys_of args.now)) (map clause_of clauses.now)) }
{
    let mut done = Vec::new(alloc);
    for clause in clauses {
        match supply_for(alloc, env, args, clause)? {
            None => return Ok(None),
            Some(supply) => done.push(supply)?,
        }
    }
    Ok(Some(done))
}
