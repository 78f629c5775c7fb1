//! What is looked up of declared types.
ghost use Rattle.std.specs.Prelude.{◌≡◌, ◌∷◌, ◌++◌, [], map, nat_eq, IfOk, None};
ghost use Rattle.std.specs.Ordering.{nat_cmp};
ghost use Rattle.std.specs.List.Sorted.{IsSorted, IsPermutation};
ghost use Rattle.std.specs.Map.{lookup};
ghost use Rattle.th_type.specs.Types.{ty_of};
ghost use Rattle.th_type.specs.Signatures.{sig_of};
ghost use Rattle.th_type.specs.Declarations.{super_of, meant_of, types_meant, resolved, declared_type, declared_types, named_decl};
ghost use Rattle.th_type.specs.MethodTables.{written_sigs};
ghost use Rattle.th_type.specs.Rows.{row_of, rows_of};
ghost use Rattle.th_type.specs.Rules.{NamesDiffer};
ghost use Rattle.th_type.specs.Tables.{defs_of};

use crate::defs::Defs;
use crate::sig::Sig;
use crate::ty::Ty;
use crate::typedef::{Meaning, Supertype, TypeDef, Written};
use indexmap::IndexMap;
use std::alloc::{AllocError, Global};

/// What is looked up of a declared type.
#[derive(Drop)]
pub(crate) struct Row {
    pub(crate) params: u32,
    pub(crate) supertypes: Vec<Ty>,
    pub(crate) written: Vec<Sig>,
}

/// Takes the type of a member of a list of supertypes, if it resolves.
fn take(alloc: Global, types: &mut Vec<Ty>, meaning: &Meaning) -> Result<(), AllocError>
    ensures { IfOk result (λ _. map ty_of types.new.items ≡ map ty_of types.old.items ++ types_meant (meant_of meaning.now)) }
{
    let Meaning::Whole(name, args) = meaning else {
        return Ok(());
    };
    let args = args.try_clone(alloc)?;
    match types.push(Ty::Named(*name, args)) {
        Ok(()) => Ok(()),
        Err(_) => Err(AllocError),
    }
}

/// The types of a list of supertypes.
fn types(alloc: Global, members: &[Supertype]) -> Result<Vec<Ty>, AllocError>
    ensures { IfOk result (λ types. map ty_of types.items ≡ resolved (map super_of members.now)) }
{
    let mut types = Vec::new(alloc);
    for member in members {
        take(alloc, &mut types, &member.meaning)?;
    }
    Ok(types)
}

/// The signatures that are written in a type.
fn sigs(alloc: Global, written: &[Written]) -> Result<Vec<Sig>, AllocError>
    ensures { IfOk result (λ sigs. map sig_of sigs.items ≡ written_sigs written.now) }
{
    let mut sigs = Vec::new(alloc);
    for method in written {
        sigs.push(method.sig.try_clone(alloc)?)?;
    }
    Ok(sigs)
}

/// What is looked up of a declared type.
fn make_row(alloc: Global, name: u32, def: &TypeDef) -> Result<Row, AllocError>
    ensures { IfOk result (λ row. row_of (name, row) ≡ declared_type (named_decl name def.now)) }
{
    let supertypes = types(alloc, &def.supertypes)?;
    let written = sigs(alloc, &def.methods)?;
    Ok(Row {
        params: def.params,
        supertypes,
        written,
    })
}

/// Puts a declared type that is not there last.
fn put(rows: &mut IndexMap<u32, Row>, name: u32, row: Row) -> Result<(), AllocError>
    requires { lookup (nat_eq name) rows.old.entries ≡ None }
    ensures { IfOk result (λ _. rows.new.entries ≡ rows.old.entries ++ (name, row) ∷ []) }
{
    match rows.insert(name, row) {
        Ok(_) => Ok(()),
        Err(_) => Err(AllocError),
    }
}

/// What is looked up of all declared types.
pub(crate) fn make_rows(alloc: Global, defs: &Defs) -> Result<IndexMap<u32, Row>, AllocError>
    requires { NamesDiffer (defs_of defs.now) }
    ensures { IfOk result (λ rows. rows_of rows.entries ≡ declared_types (defs_of defs.now)) }
{
    let mut rows = IndexMap::new(alloc);
    for k in 0..defs.len() {
        let (name, def) = defs.at(k);
        let row = make_row(alloc, name, def)?;
        put(&mut rows, name, row)?;
    }
    Ok(rows)
}

/// The numbers of all declared types, ascending.
pub(crate) fn make_heads(alloc: Global, defs: &Defs) -> Result<Vec<u32>, AllocError>
    ensures sorted { IfOk result (λ heads. IsSorted nat_cmp heads.items) }
    ensures permutation { IfOk result (λ heads. IsPermutation (map (λ d. d.name) (declared_types (defs_of defs.now))) heads.items) }
{
    let mut heads = Vec::new(alloc);
    for k in 0..defs.len() {
        let (name, _) = defs.at(k);
        heads.push(name)?;
    }
    heads.sort()?;
    Ok(heads)
}
