//! Classes with full names.
ghost use Rattle.std.specs.Prelude.{◌≡◌, map, IfOk};
ghost use Rattle.th_tree.specs.DeclView.{method_of as method_tree_of};
ghost use Rattle.th_type.specs.Signatures.{sig_of};
ghost use Rattle.th_meaning.specs.View.{class_decl_of, class_of as core_class_of, field_of, head_of, type_of};
ghost use Rattle.th_scope.specs.View.{binding_of, class_of, locals_of};
ghost use Rattle.th_cores.specs.Cores.{core_class, core_class_decl, core_field, core_head, field_type, method_names, sig_names};

use crate::signature::{core_clauses, core_methods, core_sig, core_ty};
use std::alloc::{AllocError, Global};
use th_meaning::{CoreClass, CoreClassDecl, CoreClassHead, CoreField, CoreType};
use th_scope::{ClassItem, Local, LocalList, core_type, spelled};
use th_tree::{ByteList, MethodTree, Name, NameTable};
use th_type::Sig;

/// The head of a class whose full name has this number.
fn core_head(
    alloc: Global,
    full: u32,
    class: &ClassItem,
    names: &NameTable,
) -> Result<CoreClassHead, AllocError>
    ensures { IfOk result (λ r. head_of r ≡ core_head names.now full (class_of class.now)) }
{
    Ok(CoreClassHead {
        name: spelled(alloc, names, full)?,
        params: class.params,
        of: core_type(alloc, &class.of, names)?,
        inherits: core_ty(alloc, &class.inherits, names)?,
        clauses: core_clauses(alloc, &class.clauses, names)?,
    })
}

/// A class of an interface, whose full name has this number.
pub fn core_class_decl(
    alloc: Global,
    full: u32,
    class: &ClassItem,
    names: &NameTable,
) -> Result<CoreClassDecl, AllocError>
    ensures { IfOk result (λ r. class_decl_of r ≡ core_class_decl names.now full (class_of class.now)) }
{
    Ok(CoreClassDecl {
        head: core_head(alloc, full, class, names)?,
        hidden: core_methods(alloc, &class.hidden, names)?,
        init: core_sig(alloc, &class.init, names)?,
    })
}

/// The type of a field, or `int` where its declaration names none.
fn field_type(alloc: Global, field: &Local, names: &NameTable) -> Result<CoreType, AllocError>
    ensures { IfOk result (λ r. type_of r ≡ field_type names.now (binding_of field.now)) }
{
    match &field.ty {
        None => Ok(CoreType::Int),
        Some(ty) => core_type(alloc, ty, names),
    }
}

/// A field.
fn core_field(alloc: Global, field: &Local, names: &NameTable) -> Result<CoreField, AllocError>
    ensures { IfOk result (λ r. field_of r ≡ core_field names.now (binding_of field.now)) }
{
    Ok(CoreField {
        name: spelled(alloc, names, field.name)?,
        of: field_type(alloc, field, names)?,
    })
}

/// Fields.
fn core_fields(
    alloc: Global,
    fields: &LocalList,
    names: &NameTable,
) -> Result<Vec<CoreField>, AllocError>
    ensures { IfOk result (λ r. map field_of r.items ≡ map (core_field names.now) (locals_of fields.now)) }
{
    let mut done = Vec::new(alloc);
    let mut rest = fields;
    while let LocalList::MoreLocal(first, next) = rest {
        done.push(core_field(alloc, first, names)?)?;
        rest = next;
    }
    Ok(done)
}

/// The names of signatures.
fn sig_names(alloc: Global, sigs: &[Sig], names: &NameTable) -> Result<Vec<Name>, AllocError>
    ensures { IfOk result (λ r. r.items ≡ sig_names names.now (map sig_of sigs.now)) }
{
    let mut done = Vec::new(alloc);
    for sig in sigs {
        done.push(spelled(alloc, names, sig.method)?)?;
    }
    Ok(done)
}

/// The names of methods.
fn method_names(
    alloc: Global,
    methods: &[MethodTree],
    names: &NameTable,
) -> Result<Vec<Name>, AllocError>
    ensures { IfOk result (λ r. r.items ≡ method_names names.now (map method_tree_of methods.now)) }
{
    let mut done = Vec::new(alloc);
    for method in methods {
        done.push(spelled(alloc, names, method.sig.name.name)?)?;
    }
    Ok(done)
}

/// A class of a module, whose full name has this number, with these bodies of methods; `text` is the canonical text of its head.
pub fn core_class(
    alloc: Global,
    full: u32,
    class: &ClassItem,
    methods: &[MethodTree],
    text: Vec<u8>,
    names: &NameTable,
) -> Result<CoreClass, AllocError>
    ensures { IfOk result (λ r. core_class_of r ≡ core_class names.now full (class_of class.now) (map method_tree_of methods.now) text.items) }
{
    Ok(CoreClass {
        text: ByteList::of(text),
        head: core_head(alloc, full, class, names)?,
        fields: core_fields(alloc, &class.fields, names)?,
        hidden: sig_names(alloc, &class.hidden, names)?,
        methods: method_names(alloc, methods, names)?,
    })
}
