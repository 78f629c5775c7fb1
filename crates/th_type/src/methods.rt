//! The methods of declared types. docs/LANGUAGE.md, "Methods of a type", states them.
ghost use Rattle.std.specs.Prelude.{◌≡◌, ◌∷◌, ◌++◌, ◌+◌, ◌<◌, [], length, map, nat_eq, option_copied, IfOk, MatchResult, None, is_some};
ghost use Rattle.std.specs.Map.{lookup};
ghost use Rattle.th_type.specs.Types.{list_of, tys_of};
ghost use Rattle.th_type.specs.Signatures.{sig_of, subst_sig};
ghost use Rattle.th_type.specs.Declarations.{declared_types, super_of, meant_of, types_meant, resolved, named_decl};
ghost use Rattle.th_type.specs.Rules.{WellFormed};
ghost use Rattle.th_type.specs.Judged.{Ascended};
ghost use Rattle.th_type.specs.Tables.{defs_of, up_of};
ghost use Rattle.th_type.specs.MethodTables.{Rising, FoundAt, GoesAt, Merged, Joined, Put, Filling, MethodsRight, written_sigs};

use crate::above::Ancestors;
use crate::defs::Defs;
use crate::sig::Sig;
use crate::ty::{Args, TyList};
use crate::typedef::{Meaning, TypeDef, Written};
use indexmap::IndexMap;
use std::alloc::{AllocError, Global};

/// The place of the method's signature in an ascending list, or the place where it would go.
pub(crate) fn place(sigs: &[Sig], method: u32) -> Result<usize, usize>
    requires { Rising (map sig_of sigs.now) }
    ensures { MatchResult result (FoundAt (map sig_of sigs.now) method) (GoesAt (map sig_of sigs.now) method) }
{
    let mut low = 0;
    let mut high = sigs.len();
    while low < high {
        let middle = low + (high - low) / 2;
        let at = sigs[middle].method;
        if at == method {
            return Ok(middle);
        }
        if at < method {
            low = middle + 1;
        } else {
            high = middle;
        }
    }
    Err(low)
}

/// Puts a signature where it goes, unless there is one of its method.
fn add(sigs: &mut Vec<Sig>, sig: Sig) -> Result<(), AllocError>
    requires { Rising (map sig_of sigs.old.items) }
    ensures { IfOk result (λ _. Merged (map sig_of sigs.old.items) (sig_of sig ∷ []) (map sig_of sigs.new.items)) }
{
    match place(sigs, sig.method) {
        Ok(_) => Ok(()),
        Err(at) => match sigs.insert(at, sig) {
            Ok(()) => Ok(()),
            Err(_) => Err(AllocError),
        },
    }
}

/// Adds the signatures that are written in a type.
fn add_written(alloc: Global, sigs: &mut Vec<Sig>, written: &[Written]) -> Result<(), AllocError>
    requires { Rising (map sig_of sigs.old.items) }
    ensures { IfOk result (λ _. Merged (map sig_of sigs.old.items) (written_sigs written.now) (map sig_of sigs.new.items)) }
{
    for method in written {
        add(sigs, method.sig.try_clone(alloc)?)?;
    }
    Ok(())
}

/// Adds the signatures of a supertype, with arguments substituted.
fn add_inherited(
    alloc: Global,
    sigs: &mut Vec<Sig>,
    inherited: &[Sig],
    args: &TyList,
) -> Result<(), AllocError>
    requires { Rising (map sig_of sigs.old.items) }
    ensures { IfOk result (λ _. Merged (map sig_of sigs.old.items) (map (subst_sig (list_of (tys_of args.now))) (map sig_of inherited.now)) (map sig_of sigs.new.items)) }
{
    for sig in inherited {
        add(sigs, sig.with_args(alloc, Args::List(args))?)?;
    }
    Ok(())
}

/// Adds the methods of a member of a list of supertypes.
fn add_member(
    alloc: Global,
    sigs: &mut Vec<Sig>,
    table: &Methods,
    meaning: &Meaning,
) -> Result<(), AllocError>
    requires { Rising (map sig_of sigs.old.items) }
    ensures { IfOk result (λ _. Joined table.now.map.entries (map sig_of sigs.old.items) (types_meant (meant_of meaning.now)) (map sig_of sigs.new.items)) }
{
    let Meaning::Whole(name, args) = meaning else {
        return Ok(());
    };
    match table.find(*name) {
        Some(inherited) => {
            add_inherited(alloc, sigs, inherited, args)?;
            Ok(())
        }
        None => Ok(()),
    }
}

/// The methods of a declared type: those written in it, and those of its supertypes by the table.
fn build(alloc: Global, table: &Methods, def: &TypeDef) -> Result<Vec<Sig>, AllocError>
    ensures { IfOk result (λ sigs. Joined table.now.map.entries (written_sigs def.now.methods.items) (resolved (map super_of def.now.supertypes.items)) (map sig_of sigs.items)) }
{
    let mut sigs = Vec::new(alloc);
    add_written(alloc, &mut sigs, &def.methods)?;
    for member in &def.supertypes {
        add_member(alloc, &mut sigs, table, &member.meaning)?;
    }
    Ok(sigs)
}

/// Puts a declared type into the table, all of whose supertypes are there.
fn fill_one(alloc: Global, table: &mut Methods, name: u32, def: &TypeDef) -> Result<(), AllocError>
    ensures { IfOk result (λ _. Put table.old.map.entries table.new.map.entries (named_decl name def.now)) }
{
    if table.has(name) {
        return Ok(());
    }
    let sigs = build(alloc, table, def)?;
    table.put(name, sigs)?;
    Ok(())
}

/// Puts the declared types into the table that reach so many supertypes.
fn fill(
    alloc: Global,
    defs: &Defs,
    ancestors: &Ancestors,
    table: &mut Methods,
    rank: usize,
) -> Result<(), AllocError>
    requires formed { WellFormed (defs_of defs.now) }
    requires ascended { Ascended (defs_of defs.now) (up_of ancestors.now) }
    requires filled { Filling (declared_types (defs_of defs.now)) (up_of ancestors.now) table.old.map.entries rank [] }
    ensures { IfOk result (λ _. Filling (declared_types (defs_of defs.now)) (up_of ancestors.now) table.new.map.entries rank (defs_of defs.now)) }
{
    for k in 0..defs.len() {
        let (name, def) = defs.at(k);
        if ancestors.rank(name) == rank {
            fill_one(alloc, table, name, def)?;
        }
    }
    Ok(())
}

/// The methods of all declared types.
pub(crate) fn tabulate(
    alloc: Global,
    defs: &Defs,
    ancestors: &Ancestors,
) -> Result<Methods, AllocError>
    requires formed { WellFormed (defs_of defs.now) }
    requires ascended { Ascended (defs_of defs.now) (up_of ancestors.now) }
    ensures { IfOk result (λ table. MethodsRight (declared_types (defs_of defs.now)) (up_of ancestors.now) table.map.entries) }
{
    let mut table = Methods::new(alloc);
    let ranks = ancestors.highest() + 1;
    for rank in 0..ranks {
        fill(alloc, defs, ancestors, &mut table, rank)?;
    }
    Ok(table)
}

/// For each declared type its methods, ascending by their numbers.
#[derive(Drop)]
pub(crate) struct Methods {
    pub(crate) map: IndexMap<u32, Vec<Sig>>,
}

impl Methods {
    /// No declared types.
    fn new(alloc: Global) -> Methods
        ensures { result.map.entries ≡ [] }
    {
        Methods {
            map: IndexMap::new(alloc),
        }
    }

    /// The methods of the declared type with the number; None where it is not there.
    pub(crate) fn find(&self, name: u32) -> Option<&Vec<Sig>>
        ensures { option_copied result ≡ lookup (nat_eq name) self.now.map.entries }
    {
        self.map.get(&name)
    }

    /// Whether the declared type with the number is there.
    fn has(&self, name: u32) -> bool
        ensures { result ≡ is_some (lookup (nat_eq name) self.now.map.entries) }
    {
        match self.map.get(&name) {
            Some(_) => true,
            None => false,
        }
    }

    /// Puts a declared type that is not there last.
    fn put(&mut self, name: u32, sigs: Vec<Sig>) -> Result<(), AllocError>
        requires { lookup (nat_eq name) self.old.map.entries ≡ None }
        ensures { IfOk result (λ _. self.new.map.entries ≡ self.old.map.entries ++ (name, sigs) ∷ []) }
    {
        match self.map.insert(name, sigs) {
            Ok(_) => Ok(()),
            Err(_) => Err(AllocError),
        }
    }
}
