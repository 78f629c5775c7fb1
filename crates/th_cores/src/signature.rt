//! Signatures and where-clauses with full names.
ghost use Rattle.std.specs.Prelude.{◌≡◌, map, option_map, IfOk};
ghost use Rattle.th_type.specs.Types.{list_of, ty_of, tys_of};
ghost use Rattle.th_type.specs.Signatures.{clause_of, sig_of};
ghost use Rattle.th_meaning.specs.View.{clause_of as core_clause_of, method_of as core_method_of, sig_of as core_sig_of, type_of};
ghost use Rattle.th_rules.specs.Cores.{core_type, name_at};
ghost use Rattle.th_module_rules.specs.Units.{core_clause, core_sig};
ghost use Rattle.th_cores.specs.Cores.{core_method};

use std::alloc::{AllocError, Global};
use th_meaning::{CoreClause, CoreMethodSig, CoreSig, CoreType};
use th_scope::{core_type, spelled};
use th_tree::{Name, NameTable};
use th_type::{Clause, Sig, Ty, TyList};

/// Types with full names.
fn core_list(alloc: Global, list: &TyList, names: &NameTable) -> Result<Vec<CoreType>, AllocError>
    ensures { IfOk result (λ r. map type_of r.items ≡ map (core_type names.now) (list_of (tys_of list.now))) }
{
    let mut done = Vec::new(alloc);
    let mut rest = list;
    while let TyList::MoreTy(first, next) = rest {
        done.push(core_type(alloc, first, names)?)?;
        rest = next;
    }
    Ok(done)
}

/// A type that there may be, with full names.
pub fn core_ty(
    alloc: Global,
    ty: &Option<Ty>,
    names: &NameTable,
) -> Result<Option<CoreType>, AllocError>
    ensures { IfOk result (λ r. option_map type_of r ≡ option_map (core_type names.now) (option_map ty_of ty.now)) }
{
    match ty {
        None => Ok(None),
        Some(ty) => Ok(Some(core_type(alloc, ty, names)?)),
    }
}

/// The full names with these numbers.
fn full_names(alloc: Global, numbers: &[u32], names: &NameTable) -> Result<Vec<Name>, AllocError>
    ensures { IfOk result (λ r. r.items ≡ map (name_at names.now) numbers.now) }
{
    let mut done = Vec::new(alloc);
    for number in numbers {
        done.push(spelled(alloc, names, *number)?)?;
    }
    Ok(done)
}

/// A signature with full names.
pub fn core_sig(alloc: Global, sig: &Sig, names: &NameTable) -> Result<CoreSig, AllocError>
    ensures { IfOk result (λ r. core_sig_of r ≡ core_sig names.now (sig_of sig.now)) }
{
    Ok(CoreSig {
        iterator: sig.iterator,
        formals: core_list(alloc, &sig.formals, names)?,
        gives: core_ty(alloc, &sig.gives, names)?,
        signals: full_names(alloc, sig.signals.as_slice(), names)?,
    })
}

/// A where-clause with full names.
fn core_clause(alloc: Global, clause: &Clause, names: &NameTable) -> Result<CoreClause, AllocError>
    ensures { IfOk result (λ r. core_clause_of r ≡ core_clause names.now (clause_of clause.now)) }
{
    Ok(CoreClause {
        param: clause.param,
        method: core_method(alloc, &clause.sig, names)?,
    })
}

/// Where-clauses with full names.
pub fn core_clauses(
    alloc: Global,
    clauses: &[Clause],
    names: &NameTable,
) -> Result<Vec<CoreClause>, AllocError>
    ensures { IfOk result (λ r. map core_clause_of r.items ≡ map (core_clause names.now) (map clause_of clauses.now)) }
{
    let mut done = Vec::new(alloc);
    for clause in clauses {
        done.push(core_clause(alloc, clause, names)?)?;
    }
    Ok(done)
}

/// A method's name and signature, with full names.
pub fn core_method(alloc: Global, sig: &Sig, names: &NameTable) -> Result<CoreMethodSig, AllocError>
    ensures { IfOk result (λ r. core_method_of r ≡ core_method names.now (sig_of sig.now)) }
{
    let name = spelled(alloc, names, sig.method)?;
    let sig = core_sig(alloc, sig, names)?;
    Ok(CoreMethodSig { name, sig })
}

/// Methods' names and signatures, with full names.
pub fn core_methods(
    alloc: Global,
    sigs: &[Sig],
    names: &NameTable,
) -> Result<Vec<CoreMethodSig>, AllocError>
    ensures { IfOk result (λ r. map core_method_of r.items ≡ map (core_method names.now) (map sig_of sigs.now)) }
{
    let mut done = Vec::new(alloc);
    for sig in sigs {
        done.push(core_method(alloc, sig, names)?)?;
    }
    Ok(done)
}
