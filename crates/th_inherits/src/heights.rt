//! How high type parameters stand in types. A list of heights has at place 0 the greatest height of what is no parameter, and
//! at place `k + 1` that of the parameter `k`; 0 stands for what is not there, and 601 for every height above 600.
ghost use Rattle.std.specs.Prelude.{◌≡◌, ◌+◌, OnOk};
ghost use Rattle.th_type.specs.Types.{ty_of, tys_of};
ghost use Rattle.th_inherits.specs.Heights.{padded, lifted, above, raised, raised_all, put, spread, carried, stepped};

use std::alloc::{AllocError, Global};
use th_type::{Ty, TyList};

/// Every height above 600.
const HIGHEST: u32 = 601;

/// Puts zeros at the end of the list until it has the place.
fn pad(heights: &mut Vec<u32>, place: usize) -> Result<(), AllocError>
    ensures { OnOk result (heights.new.items ≡ padded place heights.old.items) }
{
    while heights.len() <= place {
        heights.push(0)?;
    }
    Ok(())
}

/// Lifts what has the place to the height, where it stands lower.
fn lift(heights: &mut Vec<u32>, place: usize, height: u32) -> Result<(), AllocError>
    ensures { OnOk result (heights.new.items ≡ lifted place height heights.old.items) }
{
    pad(heights, place)?;
    if heights[place] < height {
        heights[place] = height;
    }
    Ok(())
}

/// One more, at most 601.
fn above(height: u32) -> u32
    ensures { result ≡ above height }
{
    if height < HIGHEST {
        height + 1
    } else {
        HIGHEST
    }
}

/// Lifts what stands in the type, whose top is at the height.
#[cycle(raising)]
fn raise(heights: &mut Vec<u32>, height: u32, ty: &Ty) -> Result<(), AllocError>
    ensures { OnOk result (heights.new.items ≡ raised height (ty_of ty.now) heights.old.items) }
{
    match ty {
        Ty::Int => lift(heights, 0, height),
        Ty::Bool => lift(heights, 0, height),
        Ty::Text => lift(heights, 0, height),
        Ty::Array(of) => raise(heights, above(height), of),
        Ty::Named(_, args) => {
            lift(heights, 0, height)?;
            raise_all(heights, above(height), args)
        }
        Ty::Param(k) => lift(heights, *k as usize + 1, height),
    }
}

/// The same of all types.
#[cycle(raising)]
fn raise_all(heights: &mut Vec<u32>, height: u32, types: &TyList) -> Result<(), AllocError>
    ensures { OnOk result (heights.new.items ≡ raised_all height (tys_of types.now) heights.old.items) }
{
    let mut rest = types;
    while let TyList::MoreTy(first, next) = rest {
        raise(heights, height, first)?;
        rest = next;
    }
    Ok(())
}

/// The same, where the type is there.
fn put(heights: &mut Vec<u32>, height: u32, ty: &Ty) -> Result<(), AllocError>
    ensures { OnOk result (heights.new.items ≡ put height (ty_of ty.now) heights.old.items) }
{
    if height == 0 {
        return Ok(());
    }
    raise(heights, height, ty)
}

/// Lifts what stands in the arguments, each at the height of its parameter; a parameter without an argument stays.
fn spread(heights: &mut Vec<u32>, params: &[u32], args: &TyList) -> Result<(), AllocError>
    ensures { OnOk result (heights.new.items ≡ spread 0 (tys_of args.now) params.now heights.old.items) }
{
    let mut rest = args;
    for k in 0..params.len() {
        match rest {
            TyList::MoreTy(first, next) => {
                put(heights, params[k], first)?;
                rest = next;
            }
            TyList::NoTy => lift(heights, k + 1, params[k])?,
        }
    }
    Ok(())
}

/// Lifts what stands in types over parameters of these heights, with the arguments in place of the parameters.
fn carry(heights: &mut Vec<u32>, inherited: &[u32], args: &TyList) -> Result<(), AllocError>
    ensures { OnOk result (heights.new.items ≡ carried inherited.now (tys_of args.now) heights.old.items) }
{
    match inherited.split_first() {
        None => Ok(()),
        Some((fixed, params)) => {
            lift(heights, 0, *fixed)?;
            spread(heights, params, args)
        }
    }
}

/// Lifts what a class reaches that inherits one of these heights at the arguments.
pub(crate) fn step(
    heights: &mut Vec<u32>,
    inherited: &[u32],
    args: &TyList,
) -> Result<(), AllocError>
    ensures { OnOk result (heights.new.items ≡ stepped inherited.now (tys_of args.now) heights.old.items) }
{
    lift(heights, 0, 1)?;
    raise_all(heights, 2, args)?;
    carry(heights, inherited, args)
}
