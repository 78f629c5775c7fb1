//! Names and types in checked trees, which have full names in place of numbers.
ghost use Rattle.std.specs.Prelude.{◌≡◌, IfOk};
ghost use Rattle.th_type.specs.Types.{ty_of, tys_of};
ghost use Rattle.th_meaning.specs.View.{type_of, types_of};
ghost use Rattle.th_rules.specs.Cores.{name_at, core_type, core_types};

use std::alloc::{AllocError, Global};
use th_meaning::{CoreType, CoreTypeList};
use th_tree::{Name, NameTable};
use th_type::{Ty, TyList};

/// The name with the number; the empty one where the number is not below the count.
pub fn spelled(alloc: Global, names: &NameTable, number: u32) -> Result<Name, AllocError>
    ensures { IfOk result (λ n. n ≡ name_at names.now number) }
{
    match names.name(number) {
        Some(bytes) => Ok(Name::of(Vec::from_slice(alloc, bytes)?)),
        None => Ok(Name::of(Vec::new(alloc))),
    }
}

/// The type with full names.
#[cycle(spelling)]
pub fn core_type(alloc: Global, ty: &Ty, names: &NameTable) -> Result<CoreType, AllocError>
    ensures { IfOk result (λ t. type_of t ≡ core_type names.now (ty_of ty.now)) }
{
    match ty {
        Ty::Int => Ok(CoreType::Int),
        Ty::Bool => Ok(CoreType::Bool),
        Ty::Text => Ok(CoreType::Text),
        Ty::Array(of) => {
            let of = core_type(alloc, of, names)?;
            Ok(CoreType::Array(Box::new(alloc, of)?))
        }
        Ty::Named(name, args) => {
            let args = core_types(alloc, args, names)?;
            let name = spelled(alloc, names, *name)?;
            Ok(CoreType::Named(name, Box::new(alloc, args)?))
        }
        Ty::Param(place) => Ok(CoreType::Param(*place)),
    }
}

/// The types with full names.
#[cycle(spelling)]
pub fn core_types(
    alloc: Global,
    list: &TyList,
    names: &NameTable,
) -> Result<CoreTypeList, AllocError>
    ensures { IfOk result (λ ts. types_of ts ≡ core_types names.now (tys_of list.now)) }
{
    let mut done = CoreTypeList::NoType;
    let mut rest = list;
    while let TyList::MoreTy(first, next) = rest {
        let first = core_type(alloc, first, names)?;
        done = CoreTypeList::MoreType(Box::new(alloc, first)?, Box::new(alloc, done)?);
        rest = next;
    }
    Ok(done.turned(CoreTypeList::NoType))
}
