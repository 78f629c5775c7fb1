//! Interfaces with full names.
ghost use Rattle.std.specs.Prelude.{◌≡◌, map, option_map, IfOk, OnOk};
ghost use Rattle.th_type.specs.Types.{ty_of};
ghost use Rattle.th_meaning.specs.View.{class_decl_of, exception_of, interface_of, routine_decl_of, type_decl_of, type_of};
ghost use Rattle.th_hier.specs.Naming.{is_number};
ghost use Rattle.th_rules.specs.Cores.{core_type};
ghost use Rattle.th_scope.specs.View.{item_head_of, item_of, routine_of};
ghost use Rattle.th_cores.specs.Cores.{core_exception, core_interface, core_routine_decl, core_type_decl, declared_from, with_declared};
ghost use Rattle.th_cores.specs.View.{declared_of};

use crate::class::core_class_decl;
use crate::signature::{core_clauses, core_methods, core_sig, core_ty};
use std::alloc::{AllocError, Global};
use th_hier::Hierarchy;
use th_meaning::{
    CoreClassDecl, CoreException, CoreInterface, CoreRoutineDecl, CoreType, CoreTypeDecl,
};
use th_scope::{Head, Item, RoutineItem, core_type, spelled};
use th_tree::{ByteList, NameTable};
use th_type::Ty;

/// What an interface declares.
#[derive(Drop)]
pub(crate) struct Declared {
    pub(crate) types: Vec<CoreTypeDecl>,
    pub(crate) exceptions: Vec<CoreException>,
    pub(crate) classes: Vec<CoreClassDecl>,
    pub(crate) routines: Vec<CoreRoutineDecl>,
}

/// Types with full names.
fn core_list(alloc: Global, types: &[Ty], names: &NameTable) -> Result<Vec<CoreType>, AllocError>
    ensures { IfOk result (λ r. map type_of r.items ≡ map (core_type names.now) (map ty_of types.now)) }
{
    let mut done = Vec::new(alloc);
    for ty in types {
        done.push(core_type(alloc, ty, names)?)?;
    }
    Ok(done)
}

/// A declared type, whose full name has this number.
fn core_type_decl(
    alloc: Global,
    full: u32,
    params: u32,
    hierarchy: &Hierarchy,
    names: &NameTable,
) -> Result<CoreTypeDecl, AllocError>
    ensures { IfOk result (λ r. type_decl_of r ≡ core_type_decl names.now hierarchy.now.types full params) }
{
    Ok(CoreTypeDecl {
        name: spelled(alloc, names, full)?,
        params,
        supertypes: core_list(alloc, hierarchy.supertypes_of(full), names)?,
        methods: core_methods(alloc, hierarchy.written_in(full), names)?,
    })
}

/// An exception, whose full name has this number.
fn core_exception(
    alloc: Global,
    full: u32,
    argument: &Option<Ty>,
    names: &NameTable,
) -> Result<CoreException, AllocError>
    ensures { IfOk result (λ r. exception_of r ≡ core_exception names.now full (option_map ty_of argument.now)) }
{
    Ok(CoreException {
        name: spelled(alloc, names, full)?,
        argument: core_ty(alloc, argument, names)?,
    })
}

/// A routine or an iterator, whose full name has this number.
fn core_routine_decl(
    alloc: Global,
    full: u32,
    routine: &RoutineItem,
    names: &NameTable,
) -> Result<CoreRoutineDecl, AllocError>
    ensures { IfOk result (λ r. routine_decl_of r ≡ core_routine_decl names.now full (routine_of routine.now)) }
{
    Ok(CoreRoutineDecl {
        name: spelled(alloc, names, full)?,
        params: routine.params,
        sig: core_sig(alloc, &routine.sig, names)?,
        clauses: core_clauses(alloc, &routine.clauses, names)?,
    })
}

/// Puts an item last among what is declared.
fn push_item(
    alloc: Global,
    item: &Item,
    hierarchy: &Hierarchy,
    names: &NameTable,
    done: &mut Declared,
) -> Result<(), AllocError>
    ensures { OnOk result (declared_of done.new ≡ with_declared names.now hierarchy.now.types (declared_of done.old) item.now.full (item_head_of item.now.head)) }
{
    let full = item.full;
    match &item.head {
        Head::Exception(argument) => {
            let exception = core_exception(alloc, full, argument, names)?;
            done.exceptions.push(exception)?;
        }
        Head::Declared(params) => {
            let decl = core_type_decl(alloc, full, *params, hierarchy, names)?;
            done.types.push(decl)?;
        }
        Head::Class(class) => {
            let class = core_class_decl(alloc, full, class, names)?;
            done.classes.push(class)?;
        }
        Head::Routine(routine) => {
            let routine = core_routine_decl(alloc, full, routine, names)?;
            done.routines.push(routine)?;
        }
    }
    Ok(())
}

/// Whether an item is one of the interface.
fn is_from(item: &Item, interface: u32) -> bool
    ensures { result ≡ is_number item.now.from interface }
{
    match item.from {
        None => false,
        Some(from) => from == interface,
    }
}

/// What the interface of this name declares among items.
fn declared_from(
    alloc: Global,
    interface: u32,
    items: &[Item],
    hierarchy: &Hierarchy,
    names: &NameTable,
) -> Result<Declared, AllocError>
    ensures { IfOk result (λ r. declared_of r ≡ declared_from names.now hierarchy.now.types interface (map item_of items.now)) }
{
    let mut done = Declared {
        types: Vec::new(alloc),
        exceptions: Vec::new(alloc),
        classes: Vec::new(alloc),
        routines: Vec::new(alloc),
    };
    for item in items {
        if is_from(item, interface) {
            push_item(alloc, item, hierarchy, names, &mut done)?;
        }
    }
    Ok(done)
}

/// The interface of this name, whose items are among these and whose canonical text this is.
pub fn core_interface(
    alloc: Global,
    interface: u32,
    items: &[Item],
    canonical: Vec<u8>,
    hierarchy: &Hierarchy,
    names: &NameTable,
) -> Result<CoreInterface, AllocError>
    ensures { IfOk result (λ r. interface_of r ≡ core_interface names.now hierarchy.now.types interface (map item_of items.now) canonical.items) }
{
    let declared = declared_from(alloc, interface, items, hierarchy, names)?;
    Ok(CoreInterface {
        name: spelled(alloc, names, interface)?,
        canonical: ByteList::of(canonical),
        types: declared.types,
        exceptions: declared.exceptions,
        classes: declared.classes,
        routines: declared.routines,
    })
}
