//! Checked modules.
ghost use Rattle.std.specs.Prelude.{◌≡◌, length, map, None, IfOk};
ghost use Rattle.th_tree.specs.DeclView.{interface_of, module_of as tree_of};
ghost use Rattle.th_type.specs.Failures.{IsLeastOf};
ghost use Rattle.th_meaning.specs.View.{module_of, unit_of};
ghost use Rattle.th_scope.specs.View.{items_of};
ghost use Rattle.th_module_rules.specs.Stages.{FailsFirst, hierarchy_in};
ghost use Rattle.th_hier.specs.Naming.{different};
ghost use Rattle.th_program.specs.Programs.{IsPaired, program, program_of, with_texts};
ghost use Rattle.th_bodies.specs.Bodies.{AreBodies};
ghost use Rattle.th_checked.specs.Checked.{AreChecked};
ghost use Rattle.th_checked.specs.Made.{IsMade, AllMade};
ghost use Rattle.th_checked.specs.Reaching.{tree_names};

use crate::chosen::named_interfaces;
use crate::classes::core_classes;
use crate::common::Common;
use crate::places::Places;
use std::alloc::{AllocError, Global};
use th_bodies::Bodies;
use th_contexts::Known;
use th_head_texts::HeadTokens;
use th_hier::{Hierarchy, Numbers};
use th_meaning::{CoreModule, CoreUnit};
use th_program::Trees;
use th_scope::spelled;
use th_tree::{Interface, Module, NameTable, Tokens};

/// A module of these units, which is the text of that number.
fn core_module(
    alloc: Global,
    common: &Common<'_, '_, '_>,
    names: &mut NameTable,
    text: u32,
    program: &Module,
    known: &Known,
    units: Vec<CoreUnit>,
) -> Result<CoreModule, AllocError>
    requires paired { length common.now.texts.now ≡ length common.now.interfaces.now }
    requires names { common.now.names.now ≡ tree_names (map interface_of common.now.interfaces.now) }
    ensures made { IfOk result (λ r. IsMade names.old common.now.hierarchy.now common.now.tokens.now common.now.heads.now (with_texts common.now.texts.now (map interface_of common.now.interfaces.now)) (map interface_of common.now.interfaces.now) common.now.places.now text (tree_of program.now) (items_of known.now.items) (map unit_of units.items) (module_of r)) }
    ensures names { IfOk result (λ _. names.new ≡ names.old) }
{
    let interfaces = named_interfaces(alloc, common, names, program)?;
    let classes = core_classes(alloc, common, names, text, program, &known.items)?;
    Ok(CoreModule {
        name: spelled(alloc, names, program.name.name)?,
        interfaces,
        classes,
        units,
    })
}

/// Modules of these units, each the text of its number, in order.
fn all_modules(
    alloc: Global,
    common: &Common<'_, '_, '_>,
    names: &mut NameTable,
    texts: &[u32],
    modules: &[Module],
    known: &[Known],
    units: Vec<Vec<CoreUnit>>,
) -> Result<Vec<CoreModule>, AllocError>
    requires paired { length common.now.texts.now ≡ length common.now.interfaces.now }
    requires names { common.now.names.now ≡ tree_names (map interface_of common.now.interfaces.now) }
    requires texts { length texts.now ≡ length modules.now }
    requires known { length known.now ≡ length modules.now }
    requires units { length units.items ≡ length modules.now }
    ensures made { IfOk result (λ r. AllMade names.old common.now.hierarchy.now common.now.tokens.now common.now.heads.now (with_texts common.now.texts.now (map interface_of common.now.interfaces.now)) (map interface_of common.now.interfaces.now) common.now.places.now (with_texts texts.now (map tree_of modules.now)) (map (λ k. items_of k.items) known.now) (map (λ u. map unit_of u.items) units.items) (map module_of r.items)) }
    ensures names { IfOk result (λ _. names.new ≡ names.old) }
{
    let mut done = Vec::new(alloc);
    let mut k = 0;
    for own in units {
        let module = core_module(alloc, common, names, texts[k], &modules[k], &known[k], own)?;
        done.push(module)?;
        k += 1;
    }
    Ok(done)
}

/// Modules of these bodies, each the text of its number, in order, by what they have in common.
fn made_modules<'a, 't, 'h>(
    alloc: Global,
    tokens: &'a [Tokens<'t>],
    heads: &'a [HeadTokens<'h, 't>],
    interface_texts: &'a [u32],
    interfaces: &'a [Interface],
    different: &'a Numbers,
    hierarchy: &'a Hierarchy,
    places: &'a Places,
    names: &mut NameTable,
    module_texts: &[u32],
    modules: &[Module],
    bodies: Bodies,
) -> Result<Vec<CoreModule>, AllocError>
    requires paired { length interface_texts.now ≡ length interfaces.now }
    requires names { different.now ≡ tree_names (map interface_of interfaces.now) }
    requires texts { length module_texts.now ≡ length modules.now }
    requires known { length bodies.known.items ≡ length modules.now }
    requires units { length bodies.units.items ≡ length modules.now }
    ensures made { IfOk result (λ r. AllMade names.old hierarchy.now tokens.now heads.now (with_texts interface_texts.now (map interface_of interfaces.now)) (map interface_of interfaces.now) places.now (with_texts module_texts.now (map tree_of modules.now)) (map (λ k. items_of k.items) bodies.known.items) (map (λ u. map unit_of u.items) bodies.units.items) (map module_of r.items)) }
    ensures names { IfOk result (λ _. names.new ≡ names.old) }
{
    let common = Common {
        tokens,
        heads,
        texts: interface_texts,
        interfaces,
        names: different,
        hierarchy,
        places,
    };
    let units = bodies.units;
    let known = &bodies.known;
    all_modules(alloc, &common, names, module_texts, modules, known, units)
}

/// The tokens of texts as heads are found in them.
fn head_tokens<'a, 't>(
    alloc: Global,
    tokens: &'a [Tokens<'t>],
) -> Result<Vec<HeadTokens<'a, 't>>, AllocError>
    ensures { IfOk result (λ r. r.items ≡ tokens.now) }
{
    let mut done = Vec::new(alloc);
    for text in tokens {
        done.push(HeadTokens::of(text))?;
    }
    Ok(done)
}

/// The names of interfaces.
fn name_list(alloc: Global, interfaces: &[Interface]) -> Result<Vec<u32>, AllocError>
    ensures { IfOk result (λ r. r.items ≡ tree_names (map interface_of interfaces.now)) }
{
    let mut done = Vec::new(alloc);
    for interface in interfaces {
        done.push(interface.name.name)?;
    }
    Ok(done)
}

/// The names of interfaces, each once.
fn different_names(alloc: Global, interfaces: &[Interface]) -> Result<Numbers, AllocError>
    ensures { IfOk result (λ r. r ≡ different (tree_names (map interface_of interfaces.now))) }
{
    let list = name_list(alloc, interfaces)?;
    Numbers::of(alloc, &list)
}

/// The checked modules, each the text of its number, in order.
fn checked_modules(
    alloc: Global,
    tokens: &[Tokens<'_>],
    names: &mut NameTable,
    interface_texts: &[u32],
    interfaces: &[Interface],
    module_texts: &[u32],
    modules: &[Module],
    hierarchy: &Hierarchy,
    bodies: Bodies,
) -> Result<Vec<CoreModule>, AllocError>
    requires interfaces { length interface_texts.now ≡ length interfaces.now }
    requires modules { length module_texts.now ≡ length modules.now }
    requires hierarchy { hierarchy.now ≡ hierarchy_in (program names.old interface_texts.now (map interface_of interfaces.now) module_texts.now (map tree_of modules.now)) }
    requires first { IsLeastOf (FailsFirst (program names.old interface_texts.now (map interface_of interfaces.now) module_texts.now (map tree_of modules.now))) None }
    requires bodies { AreBodies (program names.old interface_texts.now (map interface_of interfaces.now) module_texts.now (map tree_of modules.now)) bodies }
    ensures checked { IfOk result (λ r. AreChecked (program names.old interface_texts.now (map interface_of interfaces.now) module_texts.now (map tree_of modules.now)) tokens.now (with_texts module_texts.now (map tree_of modules.now)) (map module_of r.items)) }
    ensures names { IfOk result (λ _. names.new ≡ names.old) }
{
    let different = different_names(alloc, interfaces)?;
    let places = Places::of(alloc, interface_texts, interfaces)?;
    let heads = head_tokens(alloc, tokens)?;
    let done = made_modules(
        alloc,
        tokens,
        &heads,
        interface_texts,
        interfaces,
        &different,
        hierarchy,
        &places,
        names,
        module_texts,
        modules,
        bodies,
    )?;
    Ok(done)
}

/// The checked modules of texts with these tokens, trees and bodies, in the order of the texts.
pub fn core_modules(
    alloc: Global,
    tokens: &[Tokens<'_>],
    trees: &mut Trees,
    hierarchy: &Hierarchy,
    bodies: Bodies,
) -> Result<Vec<CoreModule>, AllocError>
    requires paired { IsPaired trees.old }
    requires hierarchy { hierarchy.now ≡ hierarchy_in (program_of trees.old) }
    requires first { IsLeastOf (FailsFirst (program_of trees.old)) None }
    requires bodies { AreBodies (program_of trees.old) bodies }
    ensures checked { IfOk result (λ r. AreChecked (program_of trees.old) tokens.now (program_of trees.old).modules (map module_of r.items)) }
    ensures trees { IfOk result (λ _. program_of trees.new ≡ program_of trees.old) }
{
    checked_modules(
        alloc,
        tokens,
        &mut trees.names,
        &trees.interface_texts,
        &trees.interfaces,
        &trees.module_texts,
        &trees.modules,
        hierarchy,
        bodies,
    )
}
