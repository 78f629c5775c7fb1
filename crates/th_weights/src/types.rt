//! The supertypes of types over their arguments.
ghost use Rattle.std.specs.Prelude.{◌≡◌, ℕ, suc, List, map, Option, IfOk, option_map, slice_get};
ghost use Rattle.th_meaning.specs.View.{type_of, types_of};
ghost use Rattle.th_meaning.specs.Program.{Program};
ghost use Rattle.th_meaning.specs.Weights.{supertypes, substituted, type_list, first_reaches, steps_up};
ghost use Rattle.th_weights.specs.Types.{IsTypeTable};
ghost use Rattle.th_weights.specs.Supers.{Declared, reached};

use crate::table::TypeTable;
use std::alloc::{AllocError, Global};
use th_meaning::{CoreType, CoreTypeDecl, CoreTypeList};
use th_subst::{copy_of, is_same, with_args};

impl<'a> TypeTable<'a> {
    /// The declaration of a type that has one, and its arguments.
    #[tactic(auto, using(crate::proofs::Supertypes::declared_none, crate::proofs::Supertypes::declared_some))]
    fn declared<'t>(&self, this: &'t CoreType) -> Option<(&'a CoreTypeDecl, &'t CoreTypeList)>
        ensures { (p : Program) → IsTypeTable self.now p → Declared result (supertypes p (type_of this.now)) }
    {
        match this {
            CoreType::Named(name, args) => match self.named(name.as_bytes()) {
                None => None,
                Some(of) => Some((of, args)),
            },
            CoreType::Int => None,
            CoreType::Bool => None,
            CoreType::Text => None,
            CoreType::Array(_) => None,
            CoreType::Param(_) => None,
        }
    }

    /// The declared supertypes of a type.
    pub(crate) fn supertypes(
        &self,
        alloc: Global,
        this: &CoreType,
    ) -> Result<Vec<CoreType>, AllocError>
        ensures { IfOk result (λ types. (p : Program) → IsTypeTable self.now p → map type_of types.items ≡ supertypes p (type_of this.now)) }
    {
        match self.declared(this) {
            None => Ok(Vec::new(alloc)),
            Some((of, args)) => {
                let types = all_with_args(alloc, &of.supertypes, args)?;
                Ok(types)
            }
        }
    }

    /// The first of the declared supertypes of a type, where there is one.
    fn first_supertype(
        &self,
        alloc: Global,
        this: &CoreType,
    ) -> Result<Option<CoreType>, AllocError>
        ensures { IfOk result (λ first. (p : Program) → IsTypeTable self.now p → option_map type_of first ≡ slice_get (supertypes p (type_of this.now)) 0) }
    {
        match self.declared(this) {
            None => Ok(None),
            Some((of, args)) => {
                let first = first_with_args(alloc, &of.supertypes, args)?;
                Ok(first)
            }
        }
    }

    /// Whether a type is another one or has it on its chain of first supertypes.
    pub(crate) fn reaches(
        &self,
        alloc: Global,
        this: &CoreType,
        other: &CoreType,
    ) -> Result<bool, AllocError>
        ensures { IfOk result (λ reaches. (p : Program) → IsTypeTable self.now p → reaches ≡ first_reaches (steps_up p) p (type_of other.now) (type_of this.now)) }
    {
        let mut at = copy_of(this, alloc)?;
        for step in 0..self.count {
            let found = self.reach_at(alloc, &at, other)?;
            match found {
                Reach::Here => return Ok(true),
                Reach::Nowhere => return Ok(false),
                Reach::Above(above) => at = above,
            }
        }
        Ok(is_same(&at, other))
    }

    /// What is found at a type on a chain of first supertypes.
    #[tactic(auto, using(crate::proofs::Supertypes::reaches_here, crate::proofs::Supertypes::reaches_above, crate::proofs::Supertypes::reaches_none))]
    fn reach_at(&self, alloc: Global, at: &CoreType, other: &CoreType) -> Result<Reach, AllocError>
        ensures { IfOk result (λ found. (p : Program) (n : ℕ) → IsTypeTable self.now p → first_reaches (suc n) p (type_of other.now) (type_of at.now) ≡ reached p (type_of other.now) n found) }
    {
        if is_same(at, other) {
            return Ok(Reach::Here);
        }
        match self.first_supertype(alloc, at)? {
            None => Ok(Reach::Nowhere),
            Some(above) => Ok(Reach::Above(above)),
        }
    }
}

/// What is found at a type on a chain of first supertypes: the type that is looked for, the type to go on with, or
/// neither.
#[derive(Drop)]
enum Reach {
    Here,
    Above(CoreType),
    Nowhere,
}

/// Types with arguments in place of parameters.
fn all_with_args(
    alloc: Global,
    types: &[CoreType],
    args: &CoreTypeList,
) -> Result<Vec<CoreType>, AllocError>
    ensures { IfOk result (λ done. map type_of done.items ≡ map (substituted (type_list (types_of args.now))) (map type_of types.now)) }
{
    let mut done = Vec::new(alloc);
    for one in types {
        let second = with_args(one, alloc, args)?;
        done.push(second)?;
    }
    Ok(done)
}

/// The first type with arguments in place of parameters.
#[tactic(auto, using(crate::proofs::Supertypes::first_mapped))]
fn first_with_args(
    alloc: Global,
    types: &[CoreType],
    args: &CoreTypeList,
) -> Result<Option<CoreType>, AllocError>
    ensures { IfOk result (λ first. option_map type_of first ≡ slice_get (map (substituted (type_list (types_of args.now))) (map type_of types.now)) 0) }
{
    match types.first() {
        None => Ok(None),
        Some(first) => {
            let first = with_args(first, alloc, args)?;
            Ok(Some(first))
        }
    }
}
