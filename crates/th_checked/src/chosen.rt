//! The interfaces that a checked module keeps.
ghost use Rattle.std.specs.Prelude.{◌≡◌, ◌++◌, ◌∷◌, [], length, map, IfOk, OnOk};
ghost use Rattle.th_tree.specs.DeclView.{interface_of, module_of};
ghost use Rattle.th_meaning.specs.View.{interface_of as core_interface_of};
ghost use Rattle.th_program.specs.Programs.{with_texts};
ghost use Rattle.th_checked.specs.Checked.{canonical_at};
ghost use Rattle.th_checked.specs.Made.{NamedAre, all_chosen, chosen, own_interface};
ghost use Rattle.th_checked.specs.Reaching.{tree_names};

use crate::common::Common;
use crate::reach::reached;
use std::alloc::{AllocError, Global};
use std::slice;
use th_contexts::interface_items;
use th_cores::core_interface;
use th_hier::{Hierarchy, Numbers};
use th_lex::spell;
use th_meaning::CoreInterface;
use th_tree::{Interface, Module, NameTable, Tokens};

/// The canonical text of the text of that number.
#[tactic(auto, using(crate::proofs::Texts::text_there, crate::proofs::Texts::text_past))]
fn canonical_text(alloc: Global, tokens: &[Tokens<'_>], text: u32) -> Result<Vec<u8>, AllocError>
    ensures { IfOk result (λ r. r.items ≡ canonical_at tokens.now text) }
{
    match tokens.get(text as usize) {
        None => Ok(Vec::new(alloc)),
        Some(tokens) => spell(alloc, tokens),
    }
}

/// An interface, which is the text of that number.
fn own_interface(
    alloc: Global,
    tokens: &[Tokens<'_>],
    text: u32,
    interface: &Interface,
    hierarchy: &Hierarchy,
    names: &NameTable,
) -> Result<CoreInterface, AllocError>
    ensures { IfOk result (λ r. core_interface_of r ≡ own_interface names.now hierarchy.now tokens.now text (interface_of interface.now)) }
{
    let items = interface_items(alloc, slice::from_ref(interface), hierarchy.index())?;
    let canonical = canonical_text(alloc, tokens, text)?;
    core_interface(
        alloc,
        interface.name.name,
        &items,
        canonical,
        hierarchy,
        names,
    )
}

/// Puts an interface last, where its name is one of these.
fn push_chosen(
    alloc: Global,
    tokens: &[Tokens<'_>],
    named: &Numbers,
    text: u32,
    interface: &Interface,
    hierarchy: &Hierarchy,
    names: &NameTable,
    done: &mut Vec<CoreInterface>,
) -> Result<(), AllocError>
    ensures { OnOk result (map core_interface_of done.new.items ≡ map core_interface_of done.old.items ++ chosen names.now hierarchy.now tokens.now named.now text (interface_of interface.now)) }
{
    if named.has(interface.name.name) {
        let interface = own_interface(alloc, tokens, text, interface, hierarchy, names)?;
        done.push(interface)?;
    }
    Ok(())
}

/// The interfaces whose names are among these; each interface is the text of its number.
fn all_chosen(
    alloc: Global,
    tokens: &[Tokens<'_>],
    named: &Numbers,
    texts: &[u32],
    interfaces: &[Interface],
    hierarchy: &Hierarchy,
    names: &NameTable,
) -> Result<Vec<CoreInterface>, AllocError>
    requires { length texts.now ≡ length interfaces.now }
    ensures { IfOk result (λ r. map core_interface_of r.items ≡ all_chosen names.now hierarchy.now tokens.now named.now (with_texts texts.now (map interface_of interfaces.now))) }
{
    let mut done = Vec::new(alloc);
    for (k, interface) in interfaces.iter().enumerate() {
        push_chosen(
            alloc, tokens, named, texts[k], interface, hierarchy, names, &mut done,
        )?;
    }
    Ok(done)
}

/// The interfaces that a module names, directly or not, in the order of the texts.
pub(crate) fn named_interfaces(
    alloc: Global,
    common: &Common<'_, '_, '_>,
    names: &NameTable,
    program: &Module,
) -> Result<Vec<CoreInterface>, AllocError>
    requires paired { length common.now.texts.now ≡ length common.now.interfaces.now }
    requires names { common.now.names.now ≡ tree_names (map interface_of common.now.interfaces.now) }
    ensures { IfOk result (λ r. NamedAre names.now common.now.hierarchy.now common.now.tokens.now (with_texts common.now.texts.now (map interface_of common.now.interfaces.now)) (map interface_of common.now.interfaces.now) (module_of program.now) (map core_interface_of r.items)) }
{
    let interfaces = common.interfaces;
    let named = reached(alloc, interfaces, common.names, program)?;
    let tokens = common.tokens;
    let hierarchy = common.hierarchy;
    all_chosen(
        alloc,
        tokens,
        &named,
        common.texts,
        interfaces,
        hierarchy,
        names,
    )
}
