//! One module, judged by what is known in it.
ghost use Rattle.std.specs.Prelude.{◌≡◌, ◌-◌, ◌^◌, ◌<◌, None, length, map, IfOk, OnOk};
ghost use Rattle.th_tree.specs.DeclView.{interface_of, module_of};
ghost use Rattle.th_type.specs.Ways.{WaysEnd};
ghost use Rattle.th_module_rules.specs.Own.{all_items, module_visible};
ghost use Rattle.th_module_rules.specs.Modules.{judged, ModuleFails};
ghost use Rattle.th_module_rules.specs.Texts.{HasOwnNames};
ghost use Rattle.th_module_rules.specs.Units.{module_units};
ghost use Rattle.th_scope.specs.View.{items_of};
ghost use Rattle.th_modules.specs.Lowering.{Lowers};
ghost use Rattle.th_modules.specs.Own.{AreOwn};
ghost use Rattle.th_modules.specs.View.{units_opt};
ghost use Rattle.th_bodies.specs.Judging.{known_judged};

use std::alloc::{AllocError, Global};
use th_contexts::{Known, ModuleEnv, known_in};
use th_heads::Found;
use th_hier::{Hierarchy, Home};
use th_meaning::CoreUnit;
use th_modules::{Judging, judge_module};
use th_own::{home_of, own_items};
use th_tree::{Interface, Module, NameTable};
use th_type::Failure;

/// Judges a module, of which this is known.
fn judge_by<'a>(
    alloc: Global,
    names: &'a NameTable,
    text: u32,
    program: &'a Module,
    hierarchy: &'a Hierarchy,
    found: &'a Found<'a>,
    home: &'a Home,
    known: &'a Known,
    least: &mut Option<Failure>,
) -> Result<Option<Vec<CoreUnit>>, AllocError>
    requires ends { WaysEnd hierarchy.now.types }
    requires found { found.now ≡ all_items names.now hierarchy.now.items (module_of program.now) }
    requires home { home.now ≡ module_visible names.now (module_of program.now) }
    ensures units { IfOk result (λ r. AreOwn (known_judged text names.now hierarchy.now known.now (module_of program.now)) → least.new ≡ None → units_opt r ≡ module_units (known_judged text names.now hierarchy.now known.now (module_of program.now))) }
    ensures least { OnOk result (Lowers (ModuleFails (known_judged text names.now hierarchy.now known.now (module_of program.now))) least.old least.new) }
{
    let env = ModuleEnv {
        text,
        names,
        hierarchy,
        items: &known.items,
        home,
    };
    let judging = Judging {
        env,
        found,
        bases: &known.bases,
        own: &known.own,
        tree: program,
    };
    judge_module(alloc, &judging, least)
}

/// Judges a module, where these items are found by name: its units, where no rule fails, and what is known of its items.
fn judge_found(
    alloc: Global,
    names: &NameTable,
    text: u32,
    program: &Module,
    interfaces: &[Interface],
    hierarchy: &Hierarchy,
    found: &Found<'_>,
    home: &Home,
    least: &mut Option<Failure>,
) -> Result<(Option<Vec<CoreUnit>>, Known), AllocError>
    requires ends { WaysEnd hierarchy.now.types }
    requires found { found.now ≡ all_items names.now hierarchy.now.items (module_of program.now) }
    requires home { home.now ≡ module_visible names.now (module_of program.now) }
    ensures units { IfOk result (λ r. AreOwn (judged text names.now hierarchy.now (map interface_of interfaces.now) (module_of program.now)) → least.new ≡ None → units_opt r.0 ≡ module_units (judged text names.now hierarchy.now (map interface_of interfaces.now) (module_of program.now))) }
    ensures items { IfOk result (λ r. items_of r.1.items ≡ (judged text names.now hierarchy.now (map interface_of interfaces.now) (module_of program.now)).items) }
    ensures least { OnOk result (Lowers (ModuleFails (judged text names.now hierarchy.now (map interface_of interfaces.now) (module_of program.now))) least.old least.new) }
{
    let known = known_in(alloc, interfaces, hierarchy, program, found, home)?;
    let units = judge_by(
        alloc, names, text, program, hierarchy, found, home, &known, least,
    )?;
    Ok((units, known))
}

/// Judges a module: its units, where no rule fails, and what is known of its items.
pub fn judge_own(
    alloc: Global,
    names: &mut NameTable,
    text: u32,
    program: &Module,
    interfaces: &[Interface],
    hierarchy: &Hierarchy,
    least: &mut Option<Failure>,
) -> Result<(Option<Vec<CoreUnit>>, Known), AllocError>
    requires room { length names.old < 2 ^ 32 - 1 }
    requires named { HasOwnNames names.old (module_of program.now) }
    requires ends { WaysEnd hierarchy.now.types }
    ensures units { IfOk result (λ r. AreOwn (judged text names.old hierarchy.now (map interface_of interfaces.now) (module_of program.now)) → least.new ≡ None → units_opt r.0 ≡ module_units (judged text names.old hierarchy.now (map interface_of interfaces.now) (module_of program.now))) }
    ensures items { IfOk result (λ r. items_of r.1.items ≡ (judged text names.old hierarchy.now (map interface_of interfaces.now) (module_of program.now)).items) }
    ensures least { OnOk result (Lowers (ModuleFails (judged text names.old hierarchy.now (map interface_of interfaces.now) (module_of program.now))) least.old least.new) }
    ensures names { names.new ≡ names.old }
{
    let index = hierarchy.index();
    let (own, scope) = own_items(alloc, names, index, program)?;
    let home = home_of(alloc, program, scope)?;
    let found = Found::of(own, index);
    judge_found(
        alloc, names, text, program, interfaces, hierarchy, &found, &home, least,
    )
}
