//! The limits on texts. docs/LANGUAGE.md, "Limits", states each.
ghost use Rattle.std.specs.Prelude.{◌≡◌, map, IfErr, IfOk, OnOk, None};
ghost use Rattle.th_tree.specs.DeclView.{interface_of, module_of as tree_of};
ghost use Rattle.th_meaning.specs.View.{module_of};
ghost use Rattle.th_module_rules.specs.Limits.{KeepsLimits};
ghost use Rattle.th_program.specs.Programs.{program_of, with_texts};
ghost use Rattle.th_limits.specs.Earliest.{earliest};
ghost use Rattle.th_accept.specs.Counts.{all_counts, interfaces_counts, modules_counts, words_counts};
ghost use Rattle.th_accept.specs.Stages.{Exceeds};

use crate::refusal::Refusal;
use std::alloc::{AllocError, Global};
use th_limits::{Excess, measure_interface, measure_module, measure_tokens};
use th_meaning::CoreModule;
use th_program::Trees;
use th_tree::{Interface, Module, Tokens};

/// The number of a text as one of 32 bits.
fn text_number(number: usize) -> Result<u32, AllocError>
    ensures { IfOk result (λ r. r ≡ number) }
{
    match u32::try_from(number) {
        Ok(number) => Ok(number),
        Err(_) => Err(AllocError),
    }
}

/// Measures the names and the string literals of texts.
fn measure_words(
    alloc: Global,
    first: &mut Option<Excess>,
    texts: &[Tokens<'_>],
) -> Result<(), AllocError>
    ensures { OnOk result (first.new ≡ earliest first.old (words_counts 0 texts.now)) }
{
    for (k, tokens) in texts.iter().enumerate() {
        measure_tokens(alloc, first, text_number(k)?, tokens)?;
    }
    Ok(())
}

/// Measures interfaces, each of which is the text of its number.
fn measure_interfaces(first: &mut Option<Excess>, texts: &[u32], interfaces: &[Interface])
    ensures { first.new ≡ earliest first.old (interfaces_counts (with_texts texts.now (map interface_of interfaces.now))) }
{
    let mut k = 0;
    while k < texts.len() && k < interfaces.len() {
        measure_interface(first, texts[k], &interfaces[k]);
        k += 1;
    }
}

/// Measures modules that were checked, each of which is the text of its number.
fn measure_modules(
    alloc: Global,
    first: &mut Option<Excess>,
    texts: &[u32],
    modules: &[Module],
    checked: &[CoreModule],
) -> Result<(), AllocError>
    ensures { OnOk result (first.new ≡ earliest first.old (modules_counts (with_texts texts.now (map tree_of modules.now)) (map module_of checked.now))) }
{
    let mut k = 0;
    while k < texts.len() && k < modules.len() && k < checked.len() {
        measure_module(alloc, first, texts[k], &modules[k], &checked[k])?;
        k += 1;
    }
    Ok(())
}

/// The first that is too large in texts with these tokens, trees and checked modules, where something is.
fn measure_texts(
    alloc: Global,
    tokens: &[Tokens<'_>],
    trees: &Trees,
    checked: &[CoreModule],
) -> Result<Option<Excess>, AllocError>
    ensures { IfOk result (λ first. first ≡ earliest None (all_counts tokens.now (program_of trees.now) (map module_of checked.now))) }
{
    let mut first = None;
    measure_words(alloc, &mut first, tokens)?;
    measure_interfaces(&mut first, &trees.interface_texts, &trees.interfaces);
    measure_modules(
        alloc,
        &mut first,
        &trees.module_texts,
        &trees.modules,
        checked,
    )?;
    Ok(first)
}

/// Refuses the first that is too large.
pub fn demand_limits(
    alloc: Global,
    tokens: &[Tokens<'_>],
    trees: &Trees,
    checked: &[CoreModule],
) -> Result<(), Refusal>
    ensures kept { IfOk result (λ _. KeepsLimits (all_counts tokens.now (program_of trees.now) (map module_of checked.now))) }
    ensures exceeded { IfErr result (Exceeds (all_counts tokens.now (program_of trees.now) (map module_of checked.now))) }
{
    match measure_texts(alloc, tokens, trees, checked) {
        Ok(None) => Ok(()),
        Ok(Some(excess)) => Err(Refusal::TooLarge {
            what: excess.what,
            count: excess.count,
            place: excess.place,
        }),
        Err(_) => Err(Refusal::Memory),
    }
}
