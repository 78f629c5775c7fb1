//! What stands for the where-clauses of a routine at a call.
ghost use Rattle.std.specs.Prelude.{◌<◌, map, IsTrue};
ghost use Rattle.th_type.specs.Lists.{IsIn};
ghost use Rattle.th_type.specs.Signatures.{Constraint, clause_of};

use crate::show::Shower;
use crate::texts::{Types, list_of, type_of};
use anyhow::{Result, bail, ensure};
use std::alloc::{AllocError, Global};
use th_hier::{Hierarchy, Home, Sight, exception_of, walk_type, walk_types};
use th_tree::{
    ClauseTree, Ident, Interface, InterfaceItem, RefTree, RoutineHead, TypeList, TypeTree,
};
use th_type::{Clause, NumberList, Prim_, Sig, Supply, Ty, TyList};
use th_where::{Candidate, CandidateList, WhereError, satisfies};

/// The most clauses of a routine.
const MOST: usize = 1000;

/// The routine of the first interface that has the name.
fn routine<'a>(interfaces: &'a [Interface], name: u32) -> Result<&'a RoutineHead> {
    let Some(interface) = interfaces.first() else {
        bail!("there is no interface");
    };
    for item in &interface.items {
        if let InterfaceItem::Routine(head) = item {
            if head.name.name == name {
                return Ok(head);
            }
        }
    }
    bail!("there is no such routine")
}

/// The place of a name among type parameters.
fn place_of(params: &[Ident], name: u32) -> Result<u32> {
    let mut place: u32 = 0;
    for param in params {
        if param.name == name {
            return Ok(place);
        }
        place = place.saturating_add(1);
    }
    bail!("a clause is for no type parameter")
}

/// The exceptions that are referred to.
fn exceptions(
    alloc: Global,
    hierarchy: &Hierarchy,
    sight: &Sight<'_>,
    refs: &[RefTree],
) -> Result<NumberList> {
    let mut numbers = Vec::new(alloc);
    for named in refs {
        match exception_of(hierarchy.index().meaning(sight, named)) {
            Some(number) => numbers.push(number)?,
            None => bail!("a clause names no exception"),
        }
    }
    Ok(NumberList::of(numbers))
}

/// What a clause's result means.
fn gives(
    alloc: Global,
    hierarchy: &Hierarchy,
    sight: &Sight<'_>,
    tree: &Option<TypeTree>,
) -> Result<Option<Ty>> {
    let Some(tree) = tree else {
        return Ok(None);
    };
    let mut least = None;
    match walk_type(alloc, tree, hierarchy.index(), sight, 0, &mut least)? {
        Some(ty) => Ok(Some(ty)),
        None => bail!("a clause's result is no type"),
    }
}

/// What a clause's formals mean.
fn formals(
    alloc: Global,
    hierarchy: &Hierarchy,
    sight: &Sight<'_>,
    trees: &TypeList,
) -> Result<TyList> {
    let mut least = None;
    match walk_types(alloc, trees, hierarchy.index(), sight, 0, &mut least)? {
        Some(types) => Ok(types),
        None => bail!("a clause's formals are no types"),
    }
}

/// A clause of an item with these type parameters.
fn clause(
    alloc: Global,
    hierarchy: &Hierarchy,
    sight: &Sight<'_>,
    params: &[Ident],
    tree: &ClauseTree,
) -> Result<Clause> {
    let param = place_of(params, tree.param.name)?;
    let sig = Sig {
        method: tree.method.name,
        iterator: false,
        formals: formals(alloc, hierarchy, sight, &tree.formals)?,
        gives: gives(alloc, hierarchy, sight, &tree.gives)?,
        signals: exceptions(alloc, hierarchy, sight, &tree.signals)?,
    };
    Ok(Clause { param, sig })
}

/// The clauses of a routine of the first interface.
fn clauses(alloc: Global, types: &Types, head: &RoutineHead) -> Result<Vec<Clause>> {
    let Some(interface) = types.interfaces.first() else {
        bail!("there is no interface");
    };
    let home = Home::of(alloc, interface)?;
    let sight = Sight::of(alloc, &home, &head.params)?;
    let mut list = Vec::new(alloc);
    for tree in &head.clauses {
        list.push(clause(alloc, &types.hierarchy, &sight, &head.params, tree)?)?;
    }
    ensure!(list.len() <= MOST, "there are too many clauses");
    Ok(list)
}

/// The numbers of the names of the methods that `int` and `bool` have.
#[derive(Clone, Copy)]
struct Tests {
    equal: u32,
    less: u32,
}

impl Tests {
    /// The numbers in the table of names.
    fn of(alloc: Global, types: &mut Types) -> Result<Tests> {
        Ok(Tests {
            equal: types.number(alloc, "equal")?,
            less: types.number(alloc, "less")?,
        })
    }
}

/// A primitive that takes a value of a type and gives a truth value.
fn primitive(alloc: Global, method: u32, of: Ty, supply: Prim_) -> Result<Candidate, AllocError> {
    let formals = TyList::MoreTy(Box::new(alloc, of)?, Box::new(alloc, TyList::NoTy)?);
    Ok(Candidate {
        sig: Sig {
            method,
            iterator: false,
            formals,
            gives: Some(Ty::Bool),
            signals: NumberList::of(Vec::new(alloc)),
        },
        supply: Supply::Primitive(supply),
    })
}

/// The methods of `int`.
fn of_int(alloc: Global, tests: Tests) -> Result<Vec<Candidate>, AllocError> {
    let mut list = Vec::new(alloc);
    list.push(primitive(alloc, tests.equal, Ty::Int, Prim_::IntEqual)?)?;
    list.push(primitive(alloc, tests.less, Ty::Int, Prim_::IntLess)?)?;
    Ok(list)
}

/// The methods of `bool`.
fn of_bool(alloc: Global, tests: Tests) -> Result<Vec<Candidate>, AllocError> {
    let mut list = Vec::new(alloc);
    list.push(primitive(alloc, tests.equal, Ty::Bool, Prim_::BoolEqual)?)?;
    Ok(list)
}

/// The types of a list.
fn listed(alloc: Global, types: &TyList) -> Result<Vec<Ty>, AllocError> {
    let mut list = Vec::new(alloc);
    let mut left = types;
    while let TyList::MoreTy(first, rest) = left {
        list.push(first.try_clone(alloc)?)?;
        left = rest;
    }
    Ok(list)
}

/// The methods of a declared type with these arguments.
fn declared(
    alloc: Global,
    hierarchy: &Hierarchy,
    head: u32,
    args: &TyList,
) -> Result<Vec<Candidate>, AllocError> {
    let args = listed(alloc, args)?;
    let mut list = Vec::new(alloc);
    for sig in hierarchy.methods_of(head) {
        list.push(Candidate {
            sig: sig.substitute(alloc, &args)?,
            supply: Supply::Method(head, sig.method),
        })?;
    }
    Ok(list)
}

/// The clauses for the type parameter at a place.
fn passed(alloc: Global, own: &[Clause], place: u32) -> Result<Vec<Candidate>, AllocError> {
    let mut list = Vec::new(alloc);
    let mut number: u32 = 0;
    for clause in own {
        if clause.param == place {
            list.push(Candidate {
                sig: clause.sig.try_clone(alloc)?,
                supply: Supply::Passed(number),
            })?;
        }
        number = number.saturating_add(1);
    }
    Ok(list)
}

/// The methods that a type has in a routine with these clauses.
fn methods_of(
    alloc: Global,
    hierarchy: &Hierarchy,
    tests: Tests,
    own: &[Clause],
    ty: &Ty,
) -> Result<CandidateList, AllocError> {
    let list = match ty {
        Ty::Int => of_int(alloc, tests)?,
        Ty::Bool => of_bool(alloc, tests)?,
        Ty::Named(head, args) => declared(alloc, hierarchy, *head, args)?,
        Ty::Param(place) => passed(alloc, own, *place)?,
        Ty::Text => Vec::new(alloc),
        Ty::Array(_) => Vec::new(alloc),
    };
    Ok(CandidateList::of(list))
}

/// The methods that each type has in a routine with these clauses.
fn methods_of_all(
    alloc: Global,
    hierarchy: &Hierarchy,
    tests: Tests,
    own: &[Clause],
    args: &[Ty],
) -> Result<Vec<CandidateList>, AllocError> {
    let mut lists = Vec::new(alloc);
    for ty in args {
        lists.push(methods_of(alloc, hierarchy, tests, own, ty)?)?;
    }
    Ok(lists)
}

/// Whether the parameter of each clause is below the count.
fn are_below(clauses: &[Clause], count: usize) -> bool
    ensures { IsTrue result → (c : Constraint) → IsIn c (map clause_of clauses.now) → c.param < count }
{
    for clause in clauses {
        if clause.param as usize >= count {
            return false;
        }
    }
    true
}

/// Puts what stands for a clause.
fn put_supply(shower: &mut Shower<'_>, supply: Supply) -> Result<(), AllocError> {
    match supply {
        Supply::Primitive(Prim_::IntEqual) => shower.put("int.equal"),
        Supply::Primitive(Prim_::IntLess) => shower.put("int.less"),
        Supply::Primitive(Prim_::BoolEqual) => shower.put("bool.equal"),
        Supply::Method(head, method) => {
            shower.name(head)?;
            shower.put(".")?;
            shower.name(method)
        }
        Supply::Passed(place) => {
            shower.put("clause ")?;
            shower.number(place)
        }
    }
}

/// Puts what stands for clauses, with semicolons between.
fn put_supplies(shower: &mut Shower<'_>, supplies: &[Supply]) -> Result<(), AllocError> {
    if supplies.is_empty() {
        return shower.put("none");
    }
    let mut before = "";
    for supply in supplies {
        shower.put(before)?;
        put_supply(shower, *supply)?;
        before = "; ";
    }
    Ok(())
}

/// Puts what stands for the wanted clauses, or the place of the first for which nothing does.
fn put_answer(
    alloc: Global,
    shower: &mut Shower<'_>,
    lists: &[CandidateList],
    wanted: &[Clause],
    args: &[Ty],
) -> Result<()> {
    ensure!(
        lists.len() == args.len() && wanted.len() <= MOST,
        "there are too many types"
    );
    if !are_below(wanted, args.len()) {
        bail!("a clause is for no type of the call");
    }
    match satisfies(alloc, lists, wanted, args) {
        Ok(supplies) => put_supplies(shower, supplies.as_slice())?,
        Err(WhereError::Missing(place)) => {
            shower.put("missing ")?;
            shower.number(place)?;
        }
        Err(WhereError::Memory) => bail!("out of memory"),
    }
    Ok(())
}

/// The numbers of the names of type parameters.
fn names_of(alloc: Global, params: &[Ident]) -> Result<Vec<u32>, AllocError> {
    params.iter().map(|param| param.name).collect(alloc)
}

/// The routine in which a call or a type stands.
#[derive(Drop)]
struct Own {
    params: Vec<u32>,
    clauses: Vec<Clause>,
}

/// The routine of that name of the first interface.
fn own_of(alloc: Global, types: &mut Types, name: &str) -> Result<Own> {
    let name = types.number(alloc, name)?;
    let head = routine(&types.interfaces, name)?;
    Ok(Own {
        params: names_of(alloc, &head.params)?,
        clauses: clauses(alloc, types, head)?,
    })
}

/// The clauses of the routine of that name of the first interface, which is called with so many types.
fn wanted_of(alloc: Global, types: &mut Types, name: &str, count: usize) -> Result<Vec<Clause>> {
    let name = types.number(alloc, name)?;
    let head = routine(&types.interfaces, name)?;
    ensure!(
        head.params.len() == count,
        "the call has another number of types"
    );
    clauses(alloc, types, head)
}

/// What stands for the clauses, at types in a routine with its own clauses.
fn stood(
    alloc: Global,
    types: &Types,
    tests: Tests,
    own: &[Clause],
    wanted: &[Clause],
    args: &[Ty],
) -> Result<String> {
    let lists = methods_of_all(alloc, &types.hierarchy, tests, own, args)?;
    let mut shower = Shower::new(alloc, &types.names);
    put_answer(alloc, &mut shower, &lists, wanted, args)?;
    Ok(shower.into_text())
}

/// What stands for the clauses of the routine CALLED at a call in the routine OWN.
fn supplied(
    alloc: Global,
    types: &mut Types,
    own: &str,
    called: &str,
    list: &str,
) -> Result<String> {
    let tests = Tests::of(alloc, types)?;
    let Own { params, clauses } = own_of(alloc, types, own)?;
    let args = list_of(alloc, types, params, list)?;
    let wanted = wanted_of(alloc, types, called, args.len())?;
    stood(alloc, types, tests, &clauses, &wanted, &args)
}

/// What stands for the clauses of a call `OWN / CALLED / TYPES`: in the routine OWN of the first interface, of its routine CALLED,
/// with these types.
pub fn supplies(alloc: Global, types: &mut Types, question: &str) -> Result<String> {
    let Some((own, rest)) = question.split_once(" / ") else {
        bail!("the parts are OWN / CALLED / TYPES");
    };
    let Some((called, list)) = rest.split_once(" / ") else {
        bail!("the parts are OWN / CALLED / TYPES");
    };
    supplied(alloc, types, own, called, list)
}

/// Puts candidates, each with what stands for it, with semicolons between.
fn put_candidates(shower: &mut Shower<'_>, list: &CandidateList) -> Result<(), AllocError> {
    if list.len() == 0 {
        return shower.put("none");
    }
    let mut before = "";
    for place in 0..list.len() {
        if let Some(candidate) = list.get(place) {
            shower.put(before)?;
            shower.sig(&candidate.sig)?;
            shower.put(" by ")?;
            put_supply(shower, candidate.supply)?;
            before = "; ";
        }
    }
    Ok(())
}

/// The methods that a type has in a routine of the first interface: `OWN / TYPE`.
pub fn candidates(alloc: Global, types: &mut Types, question: &str) -> Result<String> {
    let Some((own, text)) = question.split_once(" / ") else {
        bail!("the parts are OWN / TYPE");
    };
    let tests = Tests::of(alloc, types)?;
    let Own { params, clauses } = own_of(alloc, types, own)?;
    let ty = type_of(alloc, types, params, text)?;
    let list = methods_of(alloc, &types.hierarchy, tests, &clauses, &ty)?;
    let mut shower = Shower::new(alloc, &types.names);
    put_candidates(&mut shower, &list)?;
    Ok(shower.into_text())
}
