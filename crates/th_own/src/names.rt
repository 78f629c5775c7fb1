//! The rules on names in a module, outside its bodies. docs/LANGUAGE.md, "Rules of modules", states the rules.
ghost use Rattle.std.specs.Prelude.{◌≡◌, ◌-◌, ◌^◌, ◌<◌, [], length, map, IfOk, OnOk};
ghost use Rattle.th_tree.specs.DeclView.{module_item_of, module_of};
ghost use Rattle.th_type.specs.Failures.{lowest};
ghost use Rattle.th_hier.specs.Spots.{item_name, item_spots, repeats, spot_at};
ghost use Rattle.th_module_rules.specs.Own.{head_item, module_names_fail};
ghost use Rattle.th_module_rules.specs.Texts.{HasOwnNames};

use crate::heads::{judge_fields, judge_heads};
use crate::kinds::{item_name, judge_kinds};
use crate::numbers::{home_of, implemented, own_items};
use std::alloc::{AllocError, Global};
use th_heads::Found;
use th_hier::{Index, Spot, judge_repeats};
use th_tree::{Ident, Module, ModuleItem, NameTable};
use th_type::{Failure, Place};

/// The name where it stands in the text.
fn spot_at(text: u32, name: Ident) -> Spot
    ensures { result ≡ spot_at text name }
{
    Spot {
        name: name.name,
        place: Place { text, at: name.at },
    }
}

/// The names of items where they stand in the text.
fn item_spots(alloc: Global, text: u32, items: &[ModuleItem]) -> Result<Vec<Spot>, AllocError>
    ensures { IfOk result (λ r. r.items ≡ map (λ i. spot_at text (item_name (head_item (module_item_of i)))) items.now) }
{
    items
        .iter()
        .map(|item| spot_at(text, item_name(item)))
        .collect(alloc)
}

/// Judges that items have different names.
#[tactic(auto, using(crate::proofs::Mapped::items_mapped))]
fn judge_item_names(
    alloc: Global,
    text: u32,
    items: &[ModuleItem],
    least: &mut Option<Failure>,
) -> Result<(), AllocError>
    ensures { OnOk result (least.new ≡ lowest least.old (repeats 2 [] (item_spots text (map head_item (map module_item_of items.now))))) }
{
    let spots = item_spots(alloc, text, items)?;
    judge_repeats(alloc, 2, &spots, least)
}

/// Judges the rules on names in a module outside bodies and initializers; the module is the text of this number.
#[tactic(auto, using(th_type::proofs::Least::lowest_append))]
pub fn judge_module_names(
    alloc: Global,
    names: &mut NameTable,
    index: &Index,
    text: u32,
    program: &Module,
    least: &mut Option<Failure>,
) -> Result<(), AllocError>
    requires room { length names.old < 2 ^ 32 - 1 }
    requires named { HasOwnNames names.old (module_of program.now) }
    ensures least { OnOk result (least.new ≡ lowest least.old (module_names_fail names.old index.now text (module_of program.now))) }
    ensures names { names.new ≡ names.old }
{
    let (own, scope) = own_items(alloc, names, index, program)?;
    let home = home_of(alloc, program, scope)?;
    let found = Found::of(own, index);
    judge_item_names(alloc, text, &program.items, least)?;
    judge_kinds(&program.items, index, implemented(program), text, least);
    judge_heads(alloc, &program.items, &found, &home, text, least)?;
    judge_fields(alloc, &program.items, &found, &home, text, least)
}
