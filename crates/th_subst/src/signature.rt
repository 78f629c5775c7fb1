//! Signatures with arguments in place of parameters.
ghost use Rattle.std.specs.Prelude.{◌≡◌, IfOk, map, option_map};
ghost use Rattle.th_meaning.specs.View.{type_of, types_of, sig_of};
ghost use Rattle.th_meaning.specs.Weights.{substituted, type_list};
ghost use Rattle.th_meaning.specs.Typing.{sig_with};
ghost use Rattle.th_subst.specs.Tests.{formals_in};

use crate::arguments::with_args;
use crate::copies::copy_of_names;
use std::alloc::{AllocError, Global};
use th_meaning::{CoreSig, CoreType, CoreTypeList};

/// The types with arguments in place of parameters.
fn all_with_args(
    alloc: Global,
    types: &[CoreType],
    args: &CoreTypeList,
) -> Result<Vec<CoreType>, AllocError>
    ensures { IfOk result (λ ts. map type_of ts.items ≡ map (substituted (type_list (types_of args.now))) (map type_of types.now)) }
{
    let mut done = Vec::new(alloc);
    for one in types {
        let second = with_args(one, alloc, args)?;
        done.push(second)?;
    }
    Ok(done)
}

/// What is given, with arguments in place of parameters.
fn gives_with_args(
    alloc: Global,
    gives: &Option<CoreType>,
    args: &CoreTypeList,
) -> Result<Option<CoreType>, AllocError>
    ensures { IfOk result (λ t. option_map type_of t ≡ option_map (substituted (type_list (types_of args.now))) (option_map type_of gives.now)) }
{
    match gives {
        Some(gives) => Ok(Some(with_args(gives, alloc, args)?)),
        None => Ok(None),
    }
}

/// The signature with the k-th argument in place of each parameter `k`.
pub fn sig_with_args(
    alloc: Global,
    sig: &CoreSig,
    args: &CoreTypeList,
) -> Result<CoreSig, AllocError>
    ensures { IfOk result (λ s. sig_of s ≡ sig_with (type_list (types_of args.now)) (sig_of sig.now)) }
{
    let formals = all_with_args(alloc, &sig.formals, args)?;
    let gives = gives_with_args(alloc, &sig.gives, args)?;
    let signals = copy_of_names(alloc, &sig.signals)?;
    Ok(CoreSig {
        iterator: sig.iterator,
        formals,
        gives,
        signals,
    })
}

/// The types of the formals of a signature; none where there is no signature.
pub fn formals_of(sig: &Option<CoreSig>) -> &[CoreType]
    ensures { map type_of result.now ≡ formals_in (option_map sig_of sig.now) }
{
    match sig {
        Some(sig) => &sig.formals,
        None => &[],
    }
}
