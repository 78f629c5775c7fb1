//! Arguments in place of parameters.
ghost use Rattle.std.specs.Prelude.{◌≡◌, IfOk, MatchOption, map};
ghost use Rattle.th_meaning.specs.View.{type_of, types_of};
ghost use Rattle.th_meaning.specs.Trees.{param_type};
ghost use Rattle.th_meaning.specs.Weights.{substituted, all_substituted, type_list, argument_at};

use crate::copies::copy_of;
use crate::same::type_at;
use std::alloc::{AllocError, Global};
use th_meaning::{CoreType, CoreTypeList};

/// The argument at a place; None where there is none, and the parameter stays.
fn argument(args: &CoreTypeList, place: u32) -> Option<&CoreType>
    ensures { MatchOption result (argument_at (type_list (types_of args.now)) place place ≡ param_type place) (λ t. argument_at (type_list (types_of args.now)) place place ≡ type_of t.now) }
{
    type_at(args, place)
}

/// The type with the k-th argument in place of each parameter `k`; a parameter without one stays.
#[cycle(substitution)]
pub fn with_args(
    this: &CoreType,
    alloc: Global,
    args: &CoreTypeList,
) -> Result<CoreType, AllocError>
    ensures { IfOk result (λ t. type_of t ≡ substituted (type_list (types_of args.now)) (type_of this.now)) }
{
    match this {
        CoreType::Int => Ok(CoreType::Int),
        CoreType::Bool => Ok(CoreType::Bool),
        CoreType::Text => Ok(CoreType::Text),
        CoreType::Array(of) => {
            let of = with_args(of, alloc, args)?;
            Ok(CoreType::Array(Box::new(alloc, of)?))
        }
        CoreType::Named(name, list) => {
            let list = list_with_args(list, alloc, args)?;
            let name = name.try_clone(alloc)?;
            Ok(CoreType::Named(name, Box::new(alloc, list)?))
        }
        CoreType::Param(place) => match argument(args, *place) {
            Some(arg) => copy_of(arg, alloc),
            None => Ok(CoreType::Param(*place)),
        },
    }
}

/// The types with the k-th argument in place of each parameter `k`; a parameter without one stays.
#[cycle(substitution)]
pub fn list_with_args(
    list: &CoreTypeList,
    alloc: Global,
    args: &CoreTypeList,
) -> Result<CoreTypeList, AllocError>
    ensures { IfOk result (λ ts. types_of ts ≡ all_substituted (type_list (types_of args.now)) (types_of list.now)) }
{
    let mut done = CoreTypeList::NoType;
    let mut rest = list;
    while let CoreTypeList::MoreType(first, next) = rest {
        let first = with_args(first, alloc, args)?;
        done = CoreTypeList::MoreType(Box::new(alloc, first)?, Box::new(alloc, done)?);
        rest = next;
    }
    Ok(done.turned(CoreTypeList::NoType))
}
