//! Second types, equal to the first.
ghost use Rattle.std.specs.Prelude.{◌≡◌, IfOk, map};
ghost use Rattle.th_meaning.specs.View.{type_of, types_of, sig_of};

use std::alloc::{AllocError, Global};
use th_meaning::{CoreSig, CoreType, CoreTypeList};
use th_tree::Name;

/// A second type, equal to this one.
#[cycle(copies)]
pub fn copy_of(this: &CoreType, alloc: Global) -> Result<CoreType, AllocError>
    ensures { IfOk result (λ t. type_of t ≡ type_of this.now) }
{
    match this {
        CoreType::Int => Ok(CoreType::Int),
        CoreType::Bool => Ok(CoreType::Bool),
        CoreType::Text => Ok(CoreType::Text),
        CoreType::Array(of) => {
            let of = copy_of(of, alloc)?;
            Ok(CoreType::Array(Box::new(alloc, of)?))
        }
        CoreType::Named(name, args) => {
            let args = copy_of_list(args, alloc)?;
            let name = name.try_clone(alloc)?;
            Ok(CoreType::Named(name, Box::new(alloc, args)?))
        }
        CoreType::Param(place) => Ok(CoreType::Param(*place)),
    }
}

/// A second list of equal types.
#[cycle(copies)]
pub fn copy_of_list(list: &CoreTypeList, alloc: Global) -> Result<CoreTypeList, AllocError>
    ensures { IfOk result (λ ts. types_of ts ≡ types_of list.now) }
{
    let mut done = CoreTypeList::NoType;
    let mut rest = list;
    while let CoreTypeList::MoreType(first, next) = rest {
        let first = copy_of(first, alloc)?;
        done = CoreTypeList::MoreType(Box::new(alloc, first)?, Box::new(alloc, done)?);
        rest = next;
    }
    Ok(done.turned(CoreTypeList::NoType))
}

/// Second types, equal to these.
fn copy_of_all(alloc: Global, types: &[CoreType]) -> Result<Vec<CoreType>, AllocError>
    ensures { IfOk result (λ ts. map type_of ts.items ≡ map type_of types.now) }
{
    let mut done = Vec::new(alloc);
    for one in types {
        let second = copy_of(one, alloc)?;
        done.push(second)?;
    }
    Ok(done)
}

/// Second names, equal to these.
pub fn copy_of_names(alloc: Global, names: &[Name]) -> Result<Vec<Name>, AllocError>
    ensures { IfOk result (λ ns. ns.items ≡ names.now) }
{
    let mut done = Vec::new(alloc);
    for name in names {
        let second = name.try_clone(alloc)?;
        done.push(second)?;
    }
    Ok(done)
}

/// A second signature, equal to this one.
pub fn copy_of_sig(alloc: Global, sig: &CoreSig) -> Result<CoreSig, AllocError>
    ensures { IfOk result (λ s. sig_of s ≡ sig_of sig.now) }
{
    let formals = copy_of_all(alloc, &sig.formals)?;
    let gives = match &sig.gives {
        Some(gives) => Some(copy_of(gives, alloc)?),
        None => None,
    };
    let signals = copy_of_names(alloc, &sig.signals)?;
    Ok(CoreSig {
        iterator: sig.iterator,
        formals,
        gives,
        signals,
    })
}
