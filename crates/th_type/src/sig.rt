//! Signatures, where-clauses and what stands for them. docs/LANGUAGE.md, "Types" and "Where-clauses", states what they mean.
ghost use Rattle.std.specs.Prelude.{◌≡◌, map, IfOk};
ghost use Rattle.th_type.specs.Types.{ty_of};
ghost use Rattle.th_type.specs.Args.{args_items};
ghost use Rattle.th_type.specs.Signatures.{sig_of, subst_sig};

use crate::lists::NumberList;
use crate::ty::{Args, Ty, TyList};
use std::alloc::{AllocError, Global};

/// A signature, with its names resolved.
#[derive(Drop)]
pub struct Sig {
    /// The number of the method's bare name.
    pub method: u32,
    pub iterator: bool,
    pub formals: TyList,
    /// The result or the yielded type; an iterator has one.
    pub gives: Option<Ty>,
    /// The numbers of the full names of the exceptions that it may raise.
    pub signals: NumberList,
}

impl Sig {
    /// A second signature, equal to this one.
    pub fn try_clone(&self, alloc: Global) -> Result<Sig, AllocError>
        ensures { IfOk result (λ s. sig_of s ≡ sig_of self.now) }
    {
        let formals = self.formals.try_clone(alloc)?;
        let gives = match &self.gives {
            Some(gives) => Some(gives.try_clone(alloc)?),
            None => None,
        };
        let signals = self.signals.try_clone(alloc)?;
        Ok(Sig {
            method: self.method,
            iterator: self.iterator,
            formals,
            gives,
            signals,
        })
    }

    /// The signature with the k-th argument in place of each parameter `k`; a parameter without one stays.
    pub fn substitute(&self, alloc: Global, args: &[Ty]) -> Result<Sig, AllocError>
        ensures { IfOk result (λ s. sig_of s ≡ subst_sig (map ty_of args.now) (sig_of self.now)) }
    {
        self.with_args(alloc, Args::Slice(args))
    }

    /// The same, of arguments in a slice or a list.
    pub(crate) fn with_args(&self, alloc: Global, args: Args<'_>) -> Result<Sig, AllocError>
        ensures { IfOk result (λ s. sig_of s ≡ subst_sig (args_items args.entry) (sig_of self.now)) }
    {
        let formals = self.formals.with_args(alloc, args)?;
        let gives = match &self.gives {
            Some(gives) => Some(gives.with_args(alloc, args)?),
            None => None,
        };
        let signals = self.signals.try_clone(alloc)?;
        Ok(Sig {
            method: self.method,
            iterator: self.iterator,
            formals,
            gives,
            signals,
        })
    }
}

/// A where-clause: the type parameter at place `param` of the item has a method with this signature.
#[derive(Drop)]
pub struct Clause {
    pub param: u32,
    pub sig: Sig,
}

/// A method of a primitive type that may stand for a where-clause. `Prim` is a word of the proofs, so the name ends in `_`.
#[derive(Clone, Copy, Debug, PartialEq, Eq)]
pub enum Prim_ {
    /// `equal` of `int`.
    IntEqual,
    /// `less` of `int`.
    IntLess,
    /// `equal` of `bool`.
    BoolEqual,
}

/// What stands for a where-clause at a call.
#[derive(Clone, Copy, Debug, PartialEq, Eq)]
pub enum Supply {
    /// A method of a primitive type.
    Primitive(Prim_),
    /// A method of a declared type: the numbers of the type's full name and of the method's bare name.
    Method(u32, u32),
    /// A where-clause of the item that calls, by its place there.
    Passed(u32),
}
