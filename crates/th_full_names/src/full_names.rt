//! The full names of items. docs/LANGUAGE.md, "Names and scopes", states what a full name is.
ghost use Rattle.std.specs.Prelude.{◌≡◌, ◌∷◌, ◌++◌, ℕ, List, [], Some, codes, map, slice_get, IfOk, OnOk};
ghost use Rattle.th_tree.specs.DeclView.{interface_of, interface_item_of, module_of, module_item_of};
ghost use Rattle.th_tree.specs.Names.{with_name};
ghost use Rattle.th_hier.specs.Numbering.{Grown, name_bytes};
ghost use Rattle.th_hier.specs.Spots.{item_name};
ghost use Rattle.th_module_rules.specs.Own.{head_item};
ghost use Rattle.th_module_rules.specs.Texts.{HasNames};
ghost use Rattle.th_program.specs.Programs.{program_of};
ghost use Rattle.th_full_names.specs.Numbering.{Adds, full_names, joined, names_behind, names_in_interfaces, names_in_module, names_in_modules, with_full_names, with_names};

use std::alloc::{AllocError, Global};
use th_program::Trees;
use th_tree::{Interface, InterfaceItem, Module, ModuleItem, Name, NameTable};

/// The most names that a table has.
const MOST_NAMES: usize = 0xffff_fffe;

/// The bytes of the name with the number, where the table has one.
fn bytes_of(names: &NameTable, number: u32) -> Result<&[u8], AllocError>
    ensures { IfOk result (λ name. slice_get names.now number ≡ Some name.now) }
{
    match names.name(number) {
        Some(name) => Ok(name),
        None => Err(AllocError),
    }
}

/// Two names with a byte between them.
fn joined(
    alloc: Global,
    names: &NameTable,
    first: u32,
    between: u8,
    second: u32,
) -> Result<Name, AllocError>
    ensures { IfOk result (λ name. (t : List (List ℕ)) → Grown names.now t → name ≡ joined t first between second) }
{
    let mut bytes = Vec::from_slice(alloc, bytes_of(names, first)?)?;
    bytes.push(between)?;
    bytes.extend_from_slice(bytes_of(names, second)?)?;
    Ok(Name::of(bytes))
}

/// The name with the number, and `/` after it.
fn scope_name(alloc: Global, names: &NameTable, number: u32) -> Result<Name, AllocError>
    ensures { IfOk result (λ name. (t : List (List ℕ)) → Grown names.now t → name ≡ name_bytes t number ++ 47 ∷ []) }
{
    let mut bytes = Vec::from_slice(alloc, bytes_of(names, number)?)?;
    bytes.push(b'/')?;
    Ok(Name::of(bytes))
}

/// The number of the name of an item of an interface.
fn interface_item_name(item: &InterfaceItem) -> u32
    ensures { result ≡ (item_name (interface_item_of item.now)).name }
{
    match item {
        InterfaceItem::Exception(exception) => exception.name.name,
        InterfaceItem::Type(decl) => decl.name.name,
        InterfaceItem::Class(class) => class.head.name.name,
        InterfaceItem::Routine(head) => head.name.name,
    }
}

/// The number of the name of an item of a module.
fn module_item_name(item: &ModuleItem) -> u32
    ensures { result ≡ (item_name (head_item (module_item_of item.now))).name }
{
    match item {
        ModuleItem::Class(class) => class.head.name.name,
        ModuleItem::Routine(routine) => routine.head.name.name,
    }
}

/// Adds two names with a byte between them, as one name.
fn add_joined(
    alloc: Global,
    names: &NameTable,
    further: &mut Vec<Name>,
    first: u32,
    between: u8,
    second: u32,
) -> Result<(), AllocError>
    ensures { OnOk result (Adds names.now (λ t. joined t first between second ∷ []) further.old.items further.new.items) }
{
    let name = joined(alloc, names, first, between, second)?;
    further.push(name)?;
    Ok(())
}

/// Adds the full names of items of the interface with this name.
fn add_items(
    alloc: Global,
    names: &NameTable,
    further: &mut Vec<Name>,
    interface: u32,
    items: &[InterfaceItem],
) -> Result<(), AllocError>
    ensures { OnOk result (Adds names.now (λ t. names_behind t interface 36 (map interface_item_of items.now)) further.old.items further.new.items) }
{
    for item in items {
        let name = interface_item_name(item);
        add_joined(alloc, names, further, interface, b'$', name)?;
    }
    Ok(())
}

/// Adds the full names of the items of interfaces.
fn add_interfaces(
    alloc: Global,
    names: &NameTable,
    further: &mut Vec<Name>,
    interfaces: &[Interface],
) -> Result<(), AllocError>
    ensures { OnOk result (Adds names.now (λ t. names_in_interfaces t (map interface_of interfaces.now)) further.old.items further.new.items) }
{
    for interface in interfaces {
        add_items(alloc, names, further, interface.name.name, &interface.items)?;
    }
    Ok(())
}

/// Adds the names of items of the module with this name as private ones.
fn add_own_items(
    alloc: Global,
    names: &NameTable,
    further: &mut Vec<Name>,
    program: u32,
    items: &[ModuleItem],
) -> Result<(), AllocError>
    ensures { OnOk result (Adds names.now (λ t. names_behind t program 47 (map head_item (map module_item_of items.now))) further.old.items further.new.items) }
{
    for item in items {
        let name = module_item_name(item);
        add_joined(alloc, names, further, program, b'/', name)?;
    }
    Ok(())
}

/// Adds the name under which the own items of the module with this name stand.
fn add_scope(
    alloc: Global,
    names: &NameTable,
    further: &mut Vec<Name>,
    program: u32,
) -> Result<(), AllocError>
    ensures { OnOk result (Adds names.now (λ t. (name_bytes t program ++ 47 ∷ []) ∷ []) further.old.items further.new.items) }
{
    let name = scope_name(alloc, names, program)?;
    further.push(name)?;
    Ok(())
}

/// Adds the names under which the items of a module stand.
fn add_module(
    alloc: Global,
    names: &NameTable,
    further: &mut Vec<Name>,
    program: &Module,
) -> Result<(), AllocError>
    ensures { OnOk result (Adds names.now (λ t. names_in_module t (module_of program.now)) further.old.items further.new.items) }
{
    add_scope(alloc, names, further, program.name.name)?;
    add_own_items(alloc, names, further, program.name.name, &program.items)
}

/// Adds the names under which the items of modules stand.
fn add_modules(
    alloc: Global,
    names: &NameTable,
    further: &mut Vec<Name>,
    modules: &[Module],
) -> Result<(), AllocError>
    ensures { OnOk result (Adds names.now (λ t. names_in_modules t (map module_of modules.now)) further.old.items further.new.items) }
{
    for program in modules {
        add_module(alloc, names, further, program)?;
    }
    Ok(())
}

/// The list that has the name `main` alone.
fn main_alone(alloc: Global) -> Result<Vec<Name>, AllocError>
    ensures { IfOk result (λ further. further.items ≡ codes "main" ∷ []) }
{
    let name = Name::of(Vec::from_slice(alloc, b"main")?);
    let mut further = Vec::new(alloc);
    further.push(name)?;
    Ok(further)
}

/// The full names of all items, after the name `main`.
fn full_names(
    alloc: Global,
    names: &NameTable,
    interfaces: &[Interface],
    modules: &[Module],
) -> Result<Vec<Name>, AllocError>
    ensures { IfOk result (λ further. (t : List (List ℕ)) → Grown names.now t → further.items ≡ full_names t (map interface_of interfaces.now) (map module_of modules.now)) }
{
    let mut further = main_alone(alloc)?;
    add_interfaces(alloc, names, &mut further, interfaces)?;
    add_modules(alloc, names, &mut further, modules)?;
    Ok(further)
}

/// Puts a name into the table.
#[tactic(auto, using(crate::proofs::NameLaws::with_grown))]
fn put(alloc: Global, names: &mut NameTable, name: &[u8]) -> Result<(), AllocError>
    ensures grown { Grown names.old names.new }
    ensures table { OnOk result (names.new ≡ with_name names.old name.now) }
{
    if names.len() >= MOST_NAMES {
        return Err(AllocError);
    }
    names.number(alloc, name)?;
    Ok(())
}

/// Puts names into the table.
fn put_all(alloc: Global, names: &mut NameTable, further: &[Name]) -> Result<(), AllocError>
    ensures grown { Grown names.old names.new }
    ensures table { OnOk result (names.new ≡ with_names names.old further.now) }
{
    for name in further {
        put(alloc, names, name.as_bytes())?;
    }
    Ok(())
}

/// Puts the name `main` and the full names of all items into the table of trees, each at the end unless it is there. It is an error
/// if the trees have a number that the table lacks. After an error the table has perhaps more names at its end.
pub fn number_items(alloc: Global, trees: &mut Trees) -> Result<(), AllocError>
    ensures grown { Grown trees.old.names trees.new.names }
    ensures interfaces { (trees.new.interfaces ≡ trees.old.interfaces) × (trees.new.interface_texts ≡ trees.old.interface_texts) }
    ensures modules { (trees.new.modules ≡ trees.old.modules) × (trees.new.module_texts ≡ trees.old.module_texts) }
    ensures table { OnOk result (trees.new.names ≡ with_full_names trees.old.names (map interface_of trees.old.interfaces.items) (map module_of trees.old.modules.items)) }
    ensures named { OnOk result (HasNames (program_of trees.new)) }
{
    let further = full_names(alloc, &trees.names, &trees.interfaces, &trees.modules)?;
    put_all(alloc, &mut trees.names, &further)
}
