//! The rules on names, clauses and `main`, outside bodies and initializers.
ghost use Rattle.std.specs.Prelude.{◌≡◌, ◌-◌, ◌^◌, ◌<◌, ℕ, List, ◌++◌, length, map, true, codes, IfOk, OnOk};
ghost use Rattle.th_tree.specs.Names.{is_there};
ghost use Rattle.th_tree.specs.DeclView.{interface_of, module_of};
ghost use Rattle.th_type.specs.Failures.{lowest};
ghost use Rattle.th_module_rules.specs.Clauses.{main_number, module_items_fail};
ghost use Rattle.th_module_rules.specs.Own.{head_items, module_names_fail};
ghost use Rattle.th_module_rules.specs.Stages.{interfaces_fail, modules_fail};
ghost use Rattle.th_module_rules.specs.Texts.{HasOwnNames};
ghost use Rattle.th_program.specs.Programs.{with_texts};
ghost use Rattle.th_outlines.specs.Programs.{AllNamed};

use std::alloc::{AllocError, Global};
use th_hier::Index;
use th_own::{judge_interface_items, judge_module_items, judge_module_names};
use th_tree::{Interface, Module, NameTable};
use th_type::Failure;

/// The number of the name `main`, which the table has.
pub fn main_number(alloc: Global, names: &mut NameTable) -> Result<u32, AllocError>
    requires room { length names.old < 2 ^ 32 - 1 }
    requires there { is_there names.old (codes "main") ≡ true }
    ensures number { IfOk result (λ n. n ≡ main_number names.old) }
    ensures names { names.new ≡ names.old }
{
    let number = names.number(alloc, b"main")?;
    Ok(number)
}

/// Judges the clauses and the names `main` in interfaces.
pub fn judge_interfaces(
    alloc: Global,
    main: u32,
    texts: &[u32],
    interfaces: &[Interface],
    least: &mut Option<Failure>,
) -> Result<(), AllocError>
    ensures { (table : List (List ℕ)) → main ≡ main_number table → OnOk result (least.new ≡ lowest least.old (interfaces_fail table (with_texts texts.now (map interface_of interfaces.now)))) }
{
    let mut k = 0;
    while k < interfaces.len() && k < texts.len() {
        judge_interface_items(alloc, main, texts[k], &interfaces[k].items, least)?;
        k += 1;
    }
    Ok(())
}

/// Judges names, clauses and `main` in a module.
#[tactic(auto, using(th_type::proofs::Least::lowest_append))]
fn judge_module(
    alloc: Global,
    names: &mut NameTable,
    main: u32,
    index: &Index,
    text: u32,
    program: &Module,
    least: &mut Option<Failure>,
) -> Result<(), AllocError>
    requires room { length names.old < 2 ^ 32 - 1 }
    requires named { HasOwnNames names.old (module_of program.now) }
    requires main { main ≡ main_number names.old }
    ensures least { OnOk result (least.new ≡ lowest least.old (module_names_fail names.old index.now text (module_of program.now) ++ module_items_fail names.old text (head_items (module_of program.now)))) }
    ensures names { names.new ≡ names.old }
{
    judge_module_names(alloc, names, index, text, program, least)?;
    judge_module_items(alloc, main, text, &program.items, least)
}

/// Judges names, clauses and `main` in modules.
pub fn judge_modules(
    alloc: Global,
    names: &mut NameTable,
    main: u32,
    index: &Index,
    texts: &[u32],
    modules: &[Module],
    least: &mut Option<Failure>,
) -> Result<(), AllocError>
    requires room { length names.old < 2 ^ 32 - 1 }
    requires named { AllNamed names.old (with_texts texts.now (map module_of modules.now)) }
    requires main { main ≡ main_number names.old }
    ensures least { OnOk result (least.new ≡ lowest least.old (modules_fail names.old index.now (with_texts texts.now (map module_of modules.now)))) }
    ensures names { names.new ≡ names.old }
{
    let mut k = 0;
    while k < modules.len() && k < texts.len() {
        judge_module(alloc, names, main, index, texts[k], &modules[k], least)?;
        k += 1;
    }
    Ok(())
}
