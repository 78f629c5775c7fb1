//! The interfaces that a module names, directly or not. docs/LANGUAGE.md, "Names and scopes", states what a text names.
ghost use Rattle.std.specs.Prelude.{◌≡◌, ◌↔◌, ℕ, true, map, IfOk, OnOk};
ghost use Rattle.th_tree.specs.View.{option_of};
ghost use Rattle.th_tree.specs.DeclView.{interface_of, module_of};
ghost use Rattle.th_hier.specs.Naming.{has, with_number, with_numbers};
ghost use Rattle.th_checked.specs.Reaching.{Reached, first_name, first_names, numbers_of, tree_names, used_by};

use std::alloc::{AllocError, Global};
use th_hier::Numbers;
use th_tree::{Ident, Interface, Module};

/// The names that the interface of that name uses; `names` are the names of the interfaces.
#[tactic(auto, using(crate::proofs::Used::used_by_at))]
fn used_by<'a>(interfaces: &'a [Interface], names: &Numbers, name: u32) -> &'a [Ident]
    requires { names.now ≡ tree_names (map interface_of interfaces.now) }
    ensures { numbers_of result.now ≡ used_by (map interface_of interfaces.now) name }
{
    match names.place(name) {
        None => &[],
        Some(place) => match interfaces.get(place as usize) {
            None => &[],
            Some(interface) => &interface.uses,
        },
    }
}

/// Adds a number to those that were found; `list` has them in order.
fn find(found: &mut Numbers, list: &mut Vec<u32>, number: u32) -> Result<(), AllocError>
    requires { list.old.items ≡ found.old }
    ensures found { OnOk result (found.new ≡ with_number found.old number) }
    ensures list { OnOk result (list.new.items ≡ found.new) }
{
    if found.add(number)? {
        list.push(number)?;
    }
    Ok(())
}

/// Adds the numbers of names.
fn find_all(found: &mut Numbers, list: &mut Vec<u32>, names: &[Ident]) -> Result<(), AllocError>
    requires { list.old.items ≡ found.old }
    ensures found { OnOk result (found.new ≡ with_numbers found.old (numbers_of names.now)) }
    ensures list { OnOk result (list.new.items ≡ found.new) }
{
    for name in names {
        find(found, list, name.name)?;
    }
    Ok(())
}

/// Adds the number of a name that there may be.
fn find_one(
    found: &mut Numbers,
    list: &mut Vec<u32>,
    name: &Option<Ident>,
) -> Result<(), AllocError>
    requires { list.old.items ≡ found.old }
    ensures found { OnOk result (found.new ≡ with_numbers found.old (first_name name.now)) }
    ensures list { OnOk result (list.new.items ≡ found.new) }
{
    match name {
        None => Ok(()),
        Some(name) => find(found, list, name.name),
    }
}

/// Adds the names that a module has directly.
fn find_first(found: &mut Numbers, list: &mut Vec<u32>, program: &Module) -> Result<(), AllocError>
    requires { list.old.items ≡ found.old }
    ensures found { OnOk result (found.new ≡ with_numbers found.old (first_names (module_of program.now))) }
    ensures list { OnOk result (list.new.items ≡ found.new) }
{
    find_one(found, list, &program.implements)?;
    find_all(found, list, &program.uses)
}

/// The names of the interfaces that a module names, directly or not. Each name that is found goes last into a list, and the names
/// that its interface uses are found from there, each once.
pub(crate) fn reached(
    alloc: Global,
    interfaces: &[Interface],
    names: &Numbers,
    program: &Module,
) -> Result<Numbers, AllocError>
    requires { names.now ≡ tree_names (map interface_of interfaces.now) }
    ensures { IfOk result (λ r. (n : ℕ) → (has r n ≡ true) ↔ Reached (used_by (map interface_of interfaces.now)) (first_names (module_of program.now)) n) }
{
    let mut found = Numbers::new(alloc);
    let mut list = Vec::new(alloc);
    find_first(&mut found, &mut list, program)?;
    let mut at = 0;
    while at < list.len() {
        let used = used_by(interfaces, names, list[at]);
        find_all(&mut found, &mut list, used)?;
        at += 1;
    }
    Ok(found)
}
