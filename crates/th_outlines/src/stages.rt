//! The stages before that of bodies.
ghost use Rattle.std.specs.Prelude.{◌≡◌, ◌-◌, ◌^◌, ◌<◌, length, map, None, IfOk};
ghost use Rattle.th_tree.specs.DeclView.{interface_of, module_of};
ghost use Rattle.th_type.specs.Failures.{lowest, IsLeastOf};
ghost use Rattle.th_type.specs.Ways.{WaysEnd};
ghost use Rattle.th_module_rules.specs.Stages.{hierarchy_in, FailsThird};
ghost use Rattle.th_module_rules.specs.Texts.{HasNames};
ghost use Rattle.th_program.specs.Programs.{program, Ascending};
ghost use Rattle.th_outlines.specs.Stages.{lists_fail, outline_stages, IsAnswer};

use crate::fulls::full_numbers;
use crate::hierarchy::judge_hierarchy;
use crate::inheriting::{judge_all_own, judge_exported};
use crate::least::keep;
use crate::lists::{judge_interfaces, judge_modules, main_number};
use std::alloc::{AllocError, Global};
use th_hier::{Hierarchy, Index};
use th_program::RuleError;
use th_tree::{Interface, Module, NameTable};
use th_type::Failure;

/// The least failure of names, clauses and `main`.
fn judge_lists(
    alloc: Global,
    names: &mut NameTable,
    index: &Index,
    interface_texts: &[u32],
    interfaces: &[Interface],
    module_texts: &[u32],
    modules: &[Module],
) -> Result<Option<Failure>, AllocError>
    requires room { length names.old < 2 ^ 32 - 1 }
    requires named { HasNames (program names.old interface_texts.now (map interface_of interfaces.now) module_texts.now (map module_of modules.now)) }
    ensures least { IfOk result (λ least. least ≡ lowest None (lists_fail index.now (program names.old interface_texts.now (map interface_of interfaces.now) module_texts.now (map module_of modules.now)))) }
    ensures names { names.new ≡ names.old }
{
    let main = main_number(alloc, names)?;
    let mut least = None;
    judge_interfaces(alloc, main, interface_texts, interfaces, &mut least)?;
    judge_modules(alloc, names, main, index, module_texts, modules, &mut least)?;
    Ok(least)
}

/// The least failure outside bodies and initializers, where the rules on names, supertypes and inherited methods hold in the
/// interfaces; `index` has their items.
fn judge_third(
    alloc: Global,
    names: &mut NameTable,
    index: &Index,
    interface_texts: &[u32],
    interfaces: &[Interface],
    module_texts: &[u32],
    modules: &[Module],
) -> Result<Option<Failure>, AllocError>
    requires room { length names.old < 2 ^ 32 - 1 }
    requires paired { length interface_texts.now ≡ length interfaces.now }
    requires ascending { Ascending interface_texts.now }
    requires named { HasNames (program names.old interface_texts.now (map interface_of interfaces.now) module_texts.now (map module_of modules.now)) }
    requires items { index.now ≡ (hierarchy_in (program names.old interface_texts.now (map interface_of interfaces.now) module_texts.now (map module_of modules.now))).items }
    ensures least { IfOk result (λ least. IsLeastOf (FailsThird (program names.old interface_texts.now (map interface_of interfaces.now) module_texts.now (map module_of modules.now))) least) }
    ensures names { names.new ≡ names.old }
{
    let mut least = judge_lists(
        alloc,
        names,
        index,
        interface_texts,
        interfaces,
        module_texts,
        modules,
    )?;
    let fulls = full_numbers(alloc, index, interfaces)?;
    let exported = judge_exported(alloc, &fulls, index, interface_texts, interfaces)?;
    keep(&mut least, exported);
    judge_all_own(
        alloc,
        names,
        &fulls,
        index,
        module_texts,
        modules,
        interfaces,
        &mut least,
    )?;
    Ok(least)
}

/// Judges interfaces and modules outside bodies and initializers: the hierarchy of the interfaces where no rule fails, or the
/// failure that is named, the least of the first stage in which something fails. Each interface and each module is the text of its
/// number; the table has the full names of all items and the name `main`. After an error the table has perhaps more names at its
/// end.
pub fn judge_outlines(
    alloc: Global,
    names: &mut NameTable,
    interface_texts: &[u32],
    interfaces: &[Interface],
    module_texts: &[u32],
    modules: &[Module],
) -> Result<Hierarchy, RuleError>
    requires paired { length interface_texts.now ≡ length interfaces.now }
    requires ascending { Ascending interface_texts.now }
    requires named { HasNames (program names.old interface_texts.now (map interface_of interfaces.now) module_texts.now (map module_of modules.now)) }
    ensures answer { IsAnswer (program names.old interface_texts.now (map interface_of interfaces.now) module_texts.now (map module_of modules.now)) (outline_stages (program names.old interface_texts.now (map interface_of interfaces.now) module_texts.now (map module_of modules.now))) result }
    ensures names { IfOk result (λ _. names.new ≡ names.old) }
    ensures ends { IfOk result (λ h. WaysEnd h.types) }
{
    match judge_hierarchy(alloc, names, interface_texts, interfaces) {
        Err(error) => Err(error),
        Ok(hierarchy) => {
            let index = hierarchy.index();
            match judge_third(
                alloc,
                names,
                index,
                interface_texts,
                interfaces,
                module_texts,
                modules,
            ) {
                Ok(None) => Ok(hierarchy),
                Ok(Some(failure)) => Err(RuleError::Rule(failure)),
                Err(_) => Err(RuleError::Memory),
            }
        }
    }
}
