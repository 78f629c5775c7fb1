//! Bodies of all texts.
ghost use Rattle.std.specs.Prelude.{◌≡◌, ◌-◌, ◌^◌, ◌<◌, None, true, length, map, IfOk};
ghost use Rattle.th_tree.specs.DeclView.{interface_of, module_of};
ghost use Rattle.th_type.specs.Failures.{IsLeastOf};
ghost use Rattle.th_type.specs.Ways.{WaysEnd};
ghost use Rattle.th_module_rules.specs.Stages.{FailsThird, FailsFourth, hierarchy_in, Program};
ghost use Rattle.th_module_rules.specs.Texts.{HasNames};
ghost use Rattle.th_program.specs.Programs.{IsPaired, program, program_of};
ghost use Rattle.th_bodies.specs.Bodies.{AreBodies, IsBodiesAnswer};

use crate::exported::judge_exported;
use crate::modules::judge_modules;
use std::alloc::{AllocError, Global};
use th_contexts::Known;
use th_hier::Hierarchy;
use th_meaning::CoreUnit;
use th_program::{RuleError, Trees};
use th_tree::{Interface, Module, NameTable};
use th_type::Failure;

/// The checked units of each module, in the order of the texts, and what is known of the module's items.
#[derive(Drop)]
pub struct Bodies {
    pub units: Vec<Vec<CoreUnit>>,
    pub known: Vec<Known>,
}

/// Judges bodies, initializers and definitions in all texts: the units of each module where nothing fails, and the least failure.
/// Each interface and each module is the text of its number.
fn judge_all(
    alloc: Global,
    names: &mut NameTable,
    interface_texts: &[u32],
    interfaces: &[Interface],
    module_texts: &[u32],
    modules: &[Module],
    hierarchy: &Hierarchy,
) -> Result<(Bodies, Option<Failure>), AllocError>
    requires room { length names.old < 2 ^ 32 - 1 }
    requires paired { length interface_texts.now ≡ length interfaces.now }
    requires named { HasNames (program names.old interface_texts.now (map interface_of interfaces.now) module_texts.now (map module_of modules.now)) }
    requires hierarchy { hierarchy.now ≡ hierarchy_in (program names.old interface_texts.now (map interface_of interfaces.now) module_texts.now (map module_of modules.now)) }
    requires ends { WaysEnd hierarchy.now.types }
    requires outlines { IsLeastOf (FailsThird (program names.old interface_texts.now (map interface_of interfaces.now) module_texts.now (map module_of modules.now))) None }
    ensures least { IfOk result (λ r. IsLeastOf (FailsFourth (program names.old interface_texts.now (map interface_of interfaces.now) module_texts.now (map module_of modules.now))) r.1) }
    ensures bodies { IfOk result (λ r. r.1 ≡ None → AreBodies (program names.old interface_texts.now (map interface_of interfaces.now) module_texts.now (map module_of modules.now)) r.0) }
    ensures names { names.new ≡ names.old }
{
    let mut least = None;
    judge_exported(
        alloc,
        names,
        hierarchy,
        interface_texts,
        interfaces,
        &mut least,
    )?;
    let bodies = judge_modules(
        alloc,
        names,
        module_texts,
        modules,
        interfaces,
        hierarchy,
        &mut least,
    )?;
    Ok((bodies, least))
}

/// Whether a table has room for one name more.
fn has_room(names: &NameTable) -> bool
    ensures { result ≡ true → length names.now < 2 ^ 32 - 1 }
{
    names.len() < 0xffff_ffff
}

/// The bodies where nothing fails, or the failure.
fn answer(judged: Result<(Bodies, Option<Failure>), AllocError>) -> Result<Bodies, RuleError>
    ensures { (p : Program) → IfOk judged (λ r. IsLeastOf (FailsFourth p) r.1) → IfOk judged (λ r. r.1 ≡ None → AreBodies p r.0) → IsBodiesAnswer p result }
{
    match judged {
        Ok((bodies, None)) => Ok(bodies),
        Ok((_, Some(failure))) => Err(RuleError::Rule(failure)),
        Err(_) => Err(RuleError::Memory),
    }
}

/// Judges bodies, initializers and definitions in all texts, where no other rule fails: the units of each module, or the least
/// failure. After an error the table has perhaps more names at its end.
pub fn judge_bodies(
    alloc: Global,
    trees: &mut Trees,
    hierarchy: &Hierarchy,
) -> Result<Bodies, RuleError>
    requires paired { IsPaired trees.old }
    requires named { HasNames (program_of trees.old) }
    requires hierarchy { hierarchy.now ≡ hierarchy_in (program_of trees.old) }
    requires ends { WaysEnd hierarchy.now.types }
    requires outlines { IsLeastOf (FailsThird (program_of trees.old)) None }
    ensures answer { IsBodiesAnswer (program_of trees.old) result }
    ensures paired { IsPaired trees.new }
    ensures trees { program_of trees.new ≡ program_of trees.old }
{
    if !has_room(&trees.names) {
        return Err(RuleError::Memory);
    }
    let judged = judge_all(
        alloc,
        &mut trees.names,
        &trees.interface_texts,
        &trees.interfaces,
        &trees.module_texts,
        &trees.modules,
        hierarchy,
    );
    answer(judged)
}
