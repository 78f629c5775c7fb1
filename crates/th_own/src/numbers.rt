//! The numbers of a module's own items. docs/LANGUAGE.md, "Names and scopes", states what a full name is.
ghost use Rattle.std.specs.Prelude.{◌≡◌, ◌+◌, ◌-◌, ◌^◌, ◌<◌, ◌∷◌, ◌++◌, [], length, map, true, IfOk, OnOk};
ghost use Rattle.th_tree.specs.Names.{is_there, place_of};
ghost use Rattle.th_tree.specs.DeclView.{module_item_of, module_of};
ghost use Rattle.th_hier.specs.Naming.{item_in};
ghost use Rattle.th_hier.specs.Spots.{item_name};
ghost use Rattle.th_hier.specs.Numbering.{item_sort, name_bytes};
ghost use Rattle.th_module_rules.specs.Own.{full_or, head_item, head_items, implemented, own_items, own_scope};
ghost use Rattle.th_module_rules.specs.Texts.{HasOwnNames};
ghost use Rattle.th_heads.specs.Adding.{with_own};
ghost use Rattle.th_own.specs.Named.{AllThere};
ghost use Rattle.th_own.specs.Owned.{own_entry, own_key, owned, visible_under};

use crate::kinds::item_name;
use std::alloc::{AllocError, Global};
use th_heads::{OwnItems, names_of};
use th_hier::{Entry, Home, Index, ItemName, Numbers, Sort};
use th_tree::{Module, ModuleItem, NameTable};

/// The name with the number, which is empty where the table has no such number.
fn name_bytes(names: &NameTable, number: u32) -> &[u8]
    ensures { result.now ≡ name_bytes names.now number }
{
    match names.name(number) {
        Some(name) => name,
        None => &[],
    }
}

/// The name of the module with `/` after it.
fn scope_bytes(alloc: Global, names: &NameTable, program: u32) -> Result<Vec<u8>, AllocError>
    ensures { IfOk result (λ r. r.items ≡ name_bytes names.now program ++ 47 ∷ []) }
{
    let mut bytes = Vec::from_slice(alloc, name_bytes(names, program))?;
    bytes.push(b'/')?;
    Ok(bytes)
}

/// The full name of a private item.
fn private_bytes(
    alloc: Global,
    names: &NameTable,
    program: u32,
    name: u32,
) -> Result<Vec<u8>, AllocError>
    ensures { IfOk result (λ r. r.items ≡ name_bytes names.now program ++ 47 ∷ name_bytes names.now name) }
{
    let mut bytes = Vec::from_slice(alloc, name_bytes(names, program))?;
    bytes.push(b'/')?;
    bytes.extend_from_slice(name_bytes(names, name))?;
    Ok(bytes)
}

/// The number of a name that the table has.
fn number_there(alloc: Global, names: &mut NameTable, name: &[u8]) -> Result<u32, AllocError>
    requires room { length names.old < 2 ^ 32 - 1 }
    requires there { is_there names.old name.now ≡ true }
    ensures number { IfOk result (λ n. n ≡ place_of names.old name.now) }
    ensures names { names.new ≡ names.old }
{
    let number = names.number(alloc, name)?;
    Ok(number)
}

/// The number of the module's name with `/` after it.
fn scope_number(alloc: Global, names: &mut NameTable, program: u32) -> Result<u32, AllocError>
    requires room { length names.old < 2 ^ 32 - 1 }
    requires there { is_there names.old (name_bytes names.old program ++ 47 ∷ []) ≡ true }
    ensures number { IfOk result (λ n. n ≡ place_of names.old (name_bytes names.old program ++ 47 ∷ [])) }
    ensures names { names.new ≡ names.old }
{
    let bytes = scope_bytes(alloc, names, program)?;
    number_there(alloc, names, &bytes)
}

/// The number of the full name of an item: that of the implemented interface's item of its name, else that of a private one.
fn full_number(
    alloc: Global,
    names: &mut NameTable,
    index: &Index,
    implements: Option<u32>,
    program: u32,
    name: u32,
) -> Result<u32, AllocError>
    requires room { length names.old < 2 ^ 32 - 1 }
    requires there { is_there names.old (name_bytes names.old program ++ 47 ∷ name_bytes names.old name) ≡ true }
    ensures number { IfOk result (λ n. n ≡ full_or (place_of names.old (name_bytes names.old program ++ 47 ∷ name_bytes names.old name)) (item_in index.now implements name)) }
    ensures names { names.new ≡ names.old }
{
    match index.get_in(implements, name) {
        Some(entry) => Ok(entry.full),
        None => {
            let bytes = private_bytes(alloc, names, program, name)?;
            number_there(alloc, names, &bytes)
        }
    }
}

/// The number as one of 32 bits; a greater one is want of memory.
fn small(number: usize) -> Result<u32, AllocError>
    ensures { IfOk result (λ r. r ≡ number) }
{
    match u32::try_from(number) {
        Ok(number) => Ok(number),
        Err(_) => Err(AllocError),
    }
}

/// The sort of an item of a module, with the number of its type parameters.
fn sort_of(item: &ModuleItem) -> Result<Sort, AllocError>
    ensures { IfOk result (λ r. r ≡ item_sort (head_item (module_item_of item.now))) }
{
    match item {
        ModuleItem::Class(class) => Ok(Sort::Class(small(class.head.params.len())?)),
        ModuleItem::Routine(routine) => {
            let params = small(routine.head.params.len())?;
            if routine.head.iterator {
                Ok(Sort::Iterator(params))
            } else {
                Ok(Sort::Routine(params))
            }
        }
    }
}

/// Where items of a module stand: the number of the module's name, that of its own items, and the implemented interface.
#[derive(Clone, Copy)]
struct Origin {
    program: u32,
    scope: u32,
    implements: Option<u32>,
}

/// Adds an item, unless one has its name.
fn add_item(
    alloc: Global,
    names: &mut NameTable,
    index: &Index,
    origin: Origin,
    item: &ModuleItem,
    own: &mut OwnItems,
) -> Result<(), AllocError>
    requires room { length names.old < 2 ^ 32 - 1 }
    requires there { is_there names.old (name_bytes names.old origin.program ++ 47 ∷ name_bytes names.old (item_name (head_item (module_item_of item.now))).name) ≡ true }
    ensures added { OnOk result (own.new ≡ with_own own.old (own_key origin.scope (head_item (module_item_of item.now))) (own_entry names.old index.now origin.program origin.implements (head_item (module_item_of item.now)))) }
    ensures names { names.new ≡ names.old }
{
    let name = item_name(item).name;
    let full = full_number(alloc, names, index, origin.implements, origin.program, name)?;
    let sort = sort_of(item)?;
    let key = ItemName {
        interface: origin.scope,
        name,
    };
    own.add(key, Entry { full, sort })
}

/// The items, each the first of its name.
fn items_of(
    alloc: Global,
    names: &mut NameTable,
    index: &Index,
    origin: Origin,
    items: &[ModuleItem],
) -> Result<OwnItems, AllocError>
    requires room { length names.old < 2 ^ 32 - 1 }
    requires there { AllThere names.old origin.program (map head_item (map module_item_of items.now)) }
    ensures items { IfOk result (λ own. own ≡ owned names.old index.now origin.scope origin.program origin.implements [] (map head_item (map module_item_of items.now))) }
    ensures names { names.new ≡ names.old }
{
    let mut own = OwnItems::new(alloc);
    for item in items {
        add_item(alloc, names, index, origin, item, &mut own)?;
    }
    Ok(own)
}

/// The number of the implemented interface's name.
pub fn implemented(program: &Module) -> Option<u32>
    ensures { result ≡ implemented (module_of program.now) }
{
    match program.implements {
        None => None,
        Some(name) => Some(name.name),
    }
}

/// The own items of a module by name, each the first of its name, and the number under which they stand.
pub fn own_items(
    alloc: Global,
    names: &mut NameTable,
    index: &Index,
    program: &Module,
) -> Result<(OwnItems, u32), AllocError>
    requires room { length names.old < 2 ^ 32 - 1 }
    requires named { HasOwnNames names.old (module_of program.now) }
    ensures items { IfOk result (λ r. r.0 ≡ own_items names.old index.now (module_of program.now) [] (head_items (module_of program.now))) }
    ensures scope { IfOk result (λ r. r.1 ≡ own_scope names.old (module_of program.now)) }
    ensures names { names.new ≡ names.old }
{
    let name = program.name.name;
    let scope = scope_number(alloc, names, name)?;
    let origin = Origin {
        program: name,
        scope,
        implements: implemented(program),
    };
    let own = items_of(alloc, names, index, origin, &program.items)?;
    Ok((own, scope))
}

/// What can be seen in a module outside its items, where its own items stand under this number.
pub fn home_of(alloc: Global, program: &Module, scope: u32) -> Result<Home, AllocError>
    ensures { IfOk result (λ h. h ≡ visible_under scope (module_of program.now)) }
{
    let uses = names_of(alloc, &program.uses)?;
    Ok(Home {
        text: Some(scope),
        implements: implemented(program),
        uses: Numbers::of(alloc, &uses)?,
    })
}
