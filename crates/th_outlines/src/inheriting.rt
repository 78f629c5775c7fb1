//! The rule on what classes are for and what they inherit.
ghost use Rattle.std.specs.Prelude.{◌≡◌, ◌-◌, ◌^◌, ◌<◌, ◌++◌, length, map, IfOk, OnOk};
ghost use Rattle.th_tree.specs.DeclView.{interface_of, module_of};
ghost use Rattle.th_type.specs.Failures.{IsLeastOf};
ghost use Rattle.th_module_rules.specs.Inheriting.{interfaces_rows, module_rows, InheritingFails};
ghost use Rattle.th_module_rules.specs.Texts.{HasOwnNames};
ghost use Rattle.th_inherits.specs.Rows.{rows_of};
ghost use Rattle.th_outlines.specs.Placing.{Placed};
ghost use Rattle.th_program.specs.Programs.{with_texts, Ascending};
ghost use Rattle.th_outlines.specs.Programs.{AllNamed};
ghost use Rattle.th_outlines.specs.Stages.{KeepsLeast, OwnFails};

use crate::least::{keep, placed_found};
use std::alloc::{AllocError, Global};
use th_class_rows::{interfaces_rows, module_rows};
use th_heads::Found;
use th_hier::{Index, Numbers};
use th_inherits::{Row, judge_inheriting};
use th_own::{home_of, own_items};
use th_tree::{Interface, Module, NameTable};
use th_type::Failure;

/// The least failure in the classes of interfaces, at its text.
pub fn judge_exported(
    alloc: Global,
    fulls: &Numbers,
    index: &Index,
    texts: &[u32],
    interfaces: &[Interface],
) -> Result<Option<Failure>, AllocError>
    requires paired { length texts.now ≡ length interfaces.now }
    requires ascending { Ascending texts.now }
    ensures { IfOk result (λ least. IsLeastOf (Placed texts.now (InheritingFails fulls.now (interfaces_rows index.now 0 (map interface_of interfaces.now)) (interfaces_rows index.now 0 (map interface_of interfaces.now)))) least) }
{
    let rows = interfaces_rows(alloc, interfaces, index)?;
    let found = judge_inheriting(alloc, fulls, &rows, &rows)?;
    Ok(placed_found(texts, found))
}

/// The classes of a module.
fn own_rows(
    alloc: Global,
    names: &mut NameTable,
    index: &Index,
    text: u32,
    program: &Module,
) -> Result<Vec<Row>, AllocError>
    requires room { length names.old < 2 ^ 32 - 1 }
    requires named { HasOwnNames names.old (module_of program.now) }
    ensures rows { IfOk result (λ rows. rows_of rows.items ≡ module_rows names.old index.now text (module_of program.now)) }
    ensures names { names.new ≡ names.old }
{
    let (own, scope) = own_items(alloc, names, index, program)?;
    let home = home_of(alloc, program, scope)?;
    let found = Found::of(own, index);
    module_rows(alloc, &program.items, &found, &home, text)
}

/// Classes and further ones.
fn joined(mut rows: Vec<Row>, others: Vec<Row>) -> Result<Vec<Row>, AllocError>
    ensures { IfOk result (λ all. rows_of all.items ≡ rows_of rows.items ++ rows_of others.items) }
{
    for row in others {
        rows.push(row)?;
    }
    Ok(rows)
}

/// The least failure in the classes of a module.
fn judge_own(
    alloc: Global,
    names: &mut NameTable,
    fulls: &Numbers,
    index: &Index,
    text: u32,
    program: &Module,
    interfaces: &[Interface],
) -> Result<Option<Failure>, AllocError>
    requires room { length names.old < 2 ^ 32 - 1 }
    requires named { HasOwnNames names.old (module_of program.now) }
    ensures least { IfOk result (λ least. IsLeastOf (InheritingFails fulls.now (module_rows names.old index.now text (module_of program.now) ++ interfaces_rows index.now 0 (map interface_of interfaces.now)) (module_rows names.old index.now text (module_of program.now))) least) }
    ensures names { names.new ≡ names.old }
{
    let own = own_rows(alloc, names, index, text, program)?;
    let rows = own_rows(alloc, names, index, text, program)?;
    let exported = interfaces_rows(alloc, interfaces, index)?;
    let rows = joined(rows, exported)?;
    judge_inheriting(alloc, fulls, &rows, &own)
}

/// Judges the classes of modules.
pub fn judge_all_own(
    alloc: Global,
    names: &mut NameTable,
    fulls: &Numbers,
    index: &Index,
    texts: &[u32],
    modules: &[Module],
    interfaces: &[Interface],
    least: &mut Option<Failure>,
) -> Result<(), AllocError>
    requires room { length names.old < 2 ^ 32 - 1 }
    requires named { AllNamed names.old (with_texts texts.now (map module_of modules.now)) }
    ensures least { OnOk result (KeepsLeast least.old (OwnFails names.old fulls.now index.now (interfaces_rows index.now 0 (map interface_of interfaces.now)) (with_texts texts.now (map module_of modules.now))) least.new) }
    ensures names { names.new ≡ names.old }
{
    let mut k = 0;
    while k < modules.len() && k < texts.len() {
        let found = judge_own(
            alloc,
            names,
            fulls,
            index,
            texts[k],
            &modules[k],
            interfaces,
        )?;
        keep(least, found);
        k += 1;
    }
    Ok(())
}
