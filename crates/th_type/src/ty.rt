//! Types whose names are resolved. docs/LANGUAGE.md, "Types", states what they mean.
//!
//! A list of types is empty, or a type and the rest. A type has a height of at most 600; a list may have any length, so
//! that lists are walked and dropped by loops.
ghost use Rattle.std.specs.Prelude.{◌≡◌, ◌-◌, ◌^◌, length, min, slice_get, map, option_map, IfOk, MatchOption, option_copied, IsTrue, ◌↔◌, ◌≤◌};
ghost use Rattle.th_type.specs.Args.{args_items};
ghost use Rattle.th_type.specs.Conforming.{is_param_ty};
ghost use Rattle.th_type.specs.Types.{ty_of, tys_of, list_of, tys_onto, ty_height, tys_height, subst_ty, subst_tys, same_ty, same_tys, arg_at, param_ty, ParamsBelow, AllParamsBelow};

use std::alloc::{AllocError, Global};
use std::mem;

/// A type.
#[derive(Drop)]
#[cycle(types)]
pub enum Ty {
    /// `int`
    Int,
    /// `bool`
    Bool,
    /// `string`
    Text,
    /// `array[T]`: the type of the elements.
    Array(Box<Ty>),
    /// A declared type: the number of its full name, and its arguments.
    Named(u32, TyList),
    /// A type parameter: its place among the parameters of the item, from 0.
    Param(u32),
}

/// Types, in order.
#[cycle(types)]
pub enum TyList {
    NoTy,
    MoreTy(Box<Ty>, Box<TyList>),
}

impl Drop for TyList {
    #[cycle(types)]
    fn drop(mut self) {
        loop {
            match self {
                TyList::NoTy => return,
                TyList::MoreTy(_, rest) => self = Box::into_inner(rest),
            }
        }
    }
}

impl Ty {
    /// A second type, equal to this one.
    #[cycle(copies)]
    pub fn try_clone(&self, alloc: Global) -> Result<Ty, AllocError>
        ensures { IfOk result (λ t. ty_of t ≡ ty_of self.now) }
    {
        match self {
            Ty::Int => Ok(Ty::Int),
            Ty::Bool => Ok(Ty::Bool),
            Ty::Text => Ok(Ty::Text),
            Ty::Array(of) => {
                let of = of.try_clone(alloc)?;
                Ok(Ty::Array(Box::new(alloc, of)?))
            }
            Ty::Named(name, args) => {
                let args = args.try_clone(alloc)?;
                Ok(Ty::Named(*name, args))
            }
            Ty::Param(place) => Ok(Ty::Param(*place)),
        }
    }

    /// Whether the two types are equal.
    #[cycle(same)]
    pub fn is_same(&self, other: &Ty) -> bool
        ensures { result ≡ same_ty (ty_of self.now) (ty_of other.now) }
    {
        match (self, other) {
            (Ty::Int, Ty::Int) => true,
            (Ty::Bool, Ty::Bool) => true,
            (Ty::Text, Ty::Text) => true,
            (Ty::Array(a), Ty::Array(b)) => a.is_same(b),
            (Ty::Named(n, a), Ty::Named(m, b)) => *n == *m && a.is_same(b),
            (Ty::Param(k), Ty::Param(l)) => *k == *l,
            _ => false,
        }
    }
}

impl Ty {
    /// Whether the height of the type is at most the limit.
    #[cycle(heights)]
    pub fn is_within(&self, limit: u32) -> bool
        ensures { IsTrue result ↔ (ty_height (ty_of self.now) ≤ limit) }
    {
        match self {
            Ty::Array(of) => limit > 0 && of.is_within(limit - 1),
            Ty::Named(_, args) => limit > 0 && args.is_within(limit - 1),
            _ => limit > 0,
        }
    }
}

impl TyList {
    /// Whether the height of each type is at most the limit.
    #[cycle(heights)]
    pub fn is_within(&self, limit: u32) -> bool
        ensures { IsTrue result ↔ (tys_height (tys_of self.now) ≤ limit) }
    {
        let mut rest = self;
        while let TyList::MoreTy(first, next) = rest {
            if !first.is_within(limit) {
                return false;
            }
            rest = next;
        }
        true
    }
}

impl TyList {
    /// How many types there are.
    pub fn len(&self) -> usize
        ensures { result ≡ min (length (list_of (tys_of self.now))) (2 ^ 64 - 1) }
    {
        let mut count: usize = 0;
        let mut rest = self;
        loop {
            match rest {
                TyList::NoTy => return count,
                TyList::MoreTy(_, next) => {
                    count = count.saturating_add(1);
                    rest = next;
                }
            }
        }
    }

    /// The type at place `k`, from 0; None exactly where `k` is not below the length.
    pub fn get(&self, k: usize) -> Option<&Ty>
        ensures { option_map (λ t. ty_of t.now) result ≡ slice_get (list_of (tys_of self.now)) k }
    {
        let mut left = k;
        let mut rest = self;
        while let TyList::MoreTy(first, next) = rest {
            if left == 0 {
                return Some(first);
            }
            left -= 1;
            rest = next;
        }
        None
    }

    /// The types the other way round, before those of `end`.
    pub fn turned(mut self, end: TyList) -> TyList
        ensures { tys_of result ≡ tys_onto (tys_of self) (tys_of end) }
    {
        let mut done = end;
        loop {
            match self {
                TyList::NoTy => return done,
                TyList::MoreTy(first, mut others) => {
                    self = mem::replace(&mut *others, done);
                    done = TyList::MoreTy(first, others);
                }
            }
        }
    }

    /// A second list of equal types.
    #[cycle(copies)]
    pub fn try_clone(&self, alloc: Global) -> Result<TyList, AllocError>
        ensures { IfOk result (λ ts. tys_of ts ≡ tys_of self.now) }
    {
        let mut done = TyList::NoTy;
        let mut rest = self;
        while let TyList::MoreTy(first, next) = rest {
            let first = first.try_clone(alloc)?;
            done = TyList::MoreTy(Box::new(alloc, first)?, Box::new(alloc, done)?);
            rest = next;
        }
        Ok(done.turned(TyList::NoTy))
    }

    /// Whether the two lists have equal types in order.
    #[cycle(same)]
    pub fn is_same(&self, other: &TyList) -> bool
        ensures { result ≡ same_tys (tys_of self.now) (tys_of other.now) }
    {
        let mut left = self;
        let mut right = other;
        loop {
            match (left, right) {
                (TyList::NoTy, TyList::NoTy) => return true,
                (TyList::MoreTy(a, more), TyList::MoreTy(b, others)) => {
                    if !a.is_same(b) {
                        return false;
                    }
                    left = more;
                    right = others;
                }
                _ => return false,
            }
        }
    }
}

/// Arguments that take the place of parameters.
#[derive(Clone, Copy)]
pub(crate) enum Args<'a> {
    Slice(&'a [Ty]),
    List(&'a TyList),
}

/// The type at place `k` of the slice; None exactly where there is none.
fn item(items: &[Ty], k: usize) -> Option<&Ty>
    ensures { option_copied result ≡ slice_get items.now k }
{
    items.get(k)
}

impl<'a> Args<'a> {
    /// The argument at a place; None exactly where there is none.
    fn get(&self, place: u32) -> Option<&'a Ty>
        ensures { MatchOption result (arg_at (args_items self.now) place place ≡ param_ty place) (λ t. arg_at (args_items self.now) place place ≡ ty_of t.now) }
    {
        match self {
            Args::Slice(items) => item(items, place as usize),
            Args::List(list) => list.get(place as usize),
        }
    }

    /// Whether the argument at a place is the type; where there is none, whether the type is the parameter.
    pub(crate) fn is_at(&self, place: u32, ty: &Ty) -> bool
        ensures { result ≡ same_ty (arg_at (args_items self.now) place place) (ty_of ty.now) }
    {
        match self.get(place) {
            Some(arg) => arg.is_same(ty),
            None => ty.is_param(place),
        }
    }
}

/// The type with the k-th argument in place of each parameter `k`.
pub fn substitute(alloc: Global, ty: &Ty, args: &[Ty]) -> Result<Ty, AllocError>
    requires { ParamsBelow (length args.now) (ty_of ty.now) }
    ensures { IfOk result (λ t. ty_of t ≡ subst_ty (map ty_of args.now) (ty_of ty.now)) }
{
    ty.with_args(alloc, Args::Slice(args))
}

/// The types with the k-th argument in place of each parameter `k`.
pub fn substitute_list(alloc: Global, list: &TyList, args: &[Ty]) -> Result<TyList, AllocError>
    requires { AllParamsBelow (length args.now) (tys_of list.now) }
    ensures { IfOk result (λ ts. tys_of ts ≡ subst_tys (map ty_of args.now) (tys_of list.now)) }
{
    list.with_args(alloc, Args::Slice(args))
}

impl Ty {
    /// The type with the argument at each place in place of the parameter there; a parameter without one stays.
    #[cycle(substitution)]
    pub(crate) fn with_args(&self, alloc: Global, args: Args<'_>) -> Result<Ty, AllocError>
        ensures { IfOk result (λ t. ty_of t ≡ subst_ty (args_items args.entry) (ty_of self.now)) }
    {
        match self {
            Ty::Int => Ok(Ty::Int),
            Ty::Bool => Ok(Ty::Bool),
            Ty::Text => Ok(Ty::Text),
            Ty::Array(of) => {
                let of = of.with_args(alloc, args)?;
                Ok(Ty::Array(Box::new(alloc, of)?))
            }
            Ty::Named(name, list) => {
                let list = list.with_args(alloc, args)?;
                Ok(Ty::Named(*name, list))
            }
            Ty::Param(place) => match args.get(*place) {
                Some(arg) => arg.try_clone(alloc),
                None => Ok(Ty::Param(*place)),
            },
        }
    }
}

impl TyList {
    /// The types with the argument at each place in place of the parameter there; a parameter without one stays.
    #[cycle(substitution)]
    pub(crate) fn with_args(&self, alloc: Global, args: Args<'_>) -> Result<TyList, AllocError>
        ensures { IfOk result (λ ts. tys_of ts ≡ subst_tys (args_items args.entry) (tys_of self.now)) }
    {
        let mut done = TyList::NoTy;
        let mut rest = self;
        while let TyList::MoreTy(first, next) = rest {
            let first = first.with_args(alloc, args)?;
            done = TyList::MoreTy(Box::new(alloc, first)?, Box::new(alloc, done)?);
            rest = next;
        }
        Ok(done.turned(TyList::NoTy))
    }
}

impl Ty {
    /// The type with the k-th argument in place of each parameter `k`; a parameter without one stays.
    pub fn apply(&self, alloc: Global, args: &TyList) -> Result<Ty, AllocError>
        ensures { IfOk result (λ t. ty_of t ≡ subst_ty (list_of (tys_of args.now)) (ty_of self.now)) }
    {
        self.with_args(alloc, Args::List(args))
    }

    /// Whether the type, with the k-th argument in place of each parameter `k`, is the other; a parameter without one stays.
    pub fn is_applied(&self, args: &TyList, other: &Ty) -> bool
        ensures { result ≡ same_ty (subst_ty (list_of (tys_of args.now)) (ty_of self.now)) (ty_of other.now) }
    {
        self.is_with(Args::List(args), other)
    }
}

impl Ty {
    /// Whether the type, with arguments in place of parameters, is the other.
    #[cycle(matching)]
    pub(crate) fn is_with(&self, args: Args<'_>, other: &Ty) -> bool
        ensures { result ≡ same_ty (subst_ty (args_items args.entry) (ty_of self.now)) (ty_of other.now) }
    {
        match self {
            Ty::Int => matches!(other, Ty::Int),
            Ty::Bool => matches!(other, Ty::Bool),
            Ty::Text => matches!(other, Ty::Text),
            Ty::Array(of) => match other {
                Ty::Array(other) => of.is_with(args, other),
                _ => false,
            },
            Ty::Named(name, list) => match other {
                Ty::Named(other, others) => *name == *other && list.is_with(args, others),
                _ => false,
            },
            Ty::Param(place) => match args.get(*place) {
                Some(arg) => arg.is_same(other),
                None => other.is_param(*place),
            },
        }
    }

    /// Whether the type is a parameter.
    pub(crate) fn is_any_param(&self) -> bool
        ensures { result ≡ is_param_ty (ty_of self.now) }
    {
        match self {
            Ty::Param(_) => true,
            _ => false,
        }
    }

    /// Whether the type is the parameter at the place.
    fn is_param(&self, place: u32) -> bool
        ensures { result ≡ same_ty (param_ty place) (ty_of self.now) }
    {
        match self {
            Ty::Param(other) => place == *other,
            _ => false,
        }
    }
}

impl TyList {
    /// Whether the types, with arguments in place of parameters, are the others in order.
    #[cycle(matching)]
    pub(crate) fn is_with(&self, args: Args<'_>, others: &TyList) -> bool
        ensures { result ≡ same_tys (subst_tys (args_items args.entry) (tys_of self.now)) (tys_of others.now) }
    {
        let mut left = self;
        let mut right = others;
        loop {
            match (left, right) {
                (TyList::NoTy, TyList::NoTy) => return true,
                (TyList::MoreTy(a, more), TyList::MoreTy(b, rest)) => {
                    if !a.is_with(args, b) {
                        return false;
                    }
                    left = more;
                    right = rest;
                }
                _ => return false,
            }
        }
    }
}
