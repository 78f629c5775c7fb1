//! The bodies, initializers and definitions of modules.
ghost use Rattle.std.specs.Prelude.{◌≡◌, ◌∷◌, ◌++◌, ◌-◌, ◌^◌, ◌<◌, List, [], Some, None, length, map, IfOk, OnOk};
ghost use Rattle.th_tree.specs.DeclView.{interface_of, module_of};
ghost use Rattle.th_type.specs.Ways.{WaysEnd};
ghost use Rattle.th_meaning.specs.Program.{ProgramUnit};
ghost use Rattle.th_meaning.specs.View.{unit_of};
ghost use Rattle.th_module_rules.specs.Modules.{judged, ModuleFails};
ghost use Rattle.th_module_rules.specs.Texts.{HasOwnNames};
ghost use Rattle.th_modules.specs.Lowering.{Lowers};
ghost use Rattle.th_modules.specs.View.{units_opt};
ghost use Rattle.th_program.specs.Programs.{with_texts};
ghost use Rattle.th_bodies.specs.Judging.{judged_at, AllNamed, ModulesFail, Pushed, UnitsHere};

use crate::bodies::Bodies;
use crate::known::judge_own;
use std::alloc::{AllocError, Global};
use th_contexts::Known;
use th_hier::Hierarchy;
use th_meaning::CoreUnit;
use th_tree::{Interface, Module, NameTable};
use th_type::Failure;

/// The units, or none where they are not there.
fn units_or_none(alloc: Global, units: Option<Vec<CoreUnit>>) -> Vec<CoreUnit>
    ensures { (us : List ProgramUnit) → units_opt units ≡ Some us → map unit_of result.items ≡ us }
{
    match units {
        Some(units) => units,
        None => Vec::new(alloc),
    }
}

/// Puts the units of a module and what is known of its items last.
fn push_units(done: &mut Bodies, units: Vec<CoreUnit>, known: Known) -> Result<(), AllocError>
    ensures units { OnOk result (done.new.units.items ≡ done.old.units.items ++ units ∷ []) }
    ensures known { OnOk result (done.new.known.items ≡ done.old.known.items ++ known ∷ []) }
{
    done.units.push(units)?;
    done.known.push(known)?;
    Ok(())
}

/// Judges a module, and puts its units and what is known of its items last.
fn push_module(
    alloc: Global,
    names: &mut NameTable,
    text: u32,
    program: &Module,
    interfaces: &[Interface],
    hierarchy: &Hierarchy,
    done: &mut Bodies,
    least: &mut Option<Failure>,
) -> Result<(), AllocError>
    requires room { length names.old < 2 ^ 32 - 1 }
    requires named { HasOwnNames names.old (module_of program.now) }
    requires ends { WaysEnd hierarchy.now.types }
    ensures pushed { OnOk result (Pushed (judged text names.old hierarchy.now (map interface_of interfaces.now) (module_of program.now)) least.new done.old done.new) }
    ensures least { OnOk result (Lowers (ModuleFails (judged text names.old hierarchy.now (map interface_of interfaces.now) (module_of program.now))) least.old least.new) }
    ensures names { names.new ≡ names.old }
{
    let (units, known) = judge_own(alloc, names, text, program, interfaces, hierarchy, least)?;
    push_units(done, units_or_none(alloc, units), known)
}

/// Judges modules: the units of each, where no rule fails, and what is known of its items. Each module is the text of its number.
pub fn judge_modules(
    alloc: Global,
    names: &mut NameTable,
    texts: &[u32],
    modules: &[Module],
    interfaces: &[Interface],
    hierarchy: &Hierarchy,
    least: &mut Option<Failure>,
) -> Result<Bodies, AllocError>
    requires room { length names.old < 2 ^ 32 - 1 }
    requires named { AllNamed names.old (with_texts texts.now (map module_of modules.now)) }
    requires ends { WaysEnd hierarchy.now.types }
    ensures bodies { IfOk result (λ b. least.new ≡ None → UnitsHere (judged_at names.old hierarchy.now (map interface_of interfaces.now)) (with_texts texts.now (map module_of modules.now)) b.units.items b.known.items) }
    ensures least { OnOk result (Lowers (ModulesFail (judged_at names.old hierarchy.now (map interface_of interfaces.now)) (with_texts texts.now (map module_of modules.now))) least.old least.new) }
    ensures names { names.new ≡ names.old }
{
    let mut done = Bodies {
        units: Vec::new(alloc),
        known: Vec::new(alloc),
    };
    let mut k = 0;
    while k < modules.len() && k < texts.len() {
        push_module(
            alloc,
            names,
            texts[k],
            &modules[k],
            interfaces,
            hierarchy,
            &mut done,
            least,
        )?;
        k += 1;
    }
    Ok(done)
}
