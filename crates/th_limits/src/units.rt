//! The counts of the checked units of a module. docs/LANGUAGE.md, "Counts and weights", states what is counted.
ghost use Rattle.std.specs.Prelude.{◌≡◌, ◌+◌, ◌-◌, ◌^◌, ◌∷◌, ◌++◌, [], map, min, sum_by, IfOk, OnOk};
ghost use Rattle.th_tree.specs.DeclView.{method_of, module_item_of, module_of as tree_of};
ghost use Rattle.th_type.specs.Failures.{place};
ghost use Rattle.th_meaning.specs.View.{class_of, module_of, unit_of};
ghost use Rattle.th_meaning.specs.Counts.{class_nodes, module_nodes, unit_nodes};
ghost use Rattle.th_module_rules.specs.Limits.{method_places, module_counts, unit_places, units_counts};
ghost use Rattle.th_limits.specs.Earliest.{earliest};

use crate::excess::{Excess, measure};
use crate::heads::measure_module_heads;
use std::alloc::{AllocError, Global};
use th_meaning::{CoreClass, CoreModule, CoreUnit, depth, locals, nodes};
use th_tree::{MethodTree, Module, ModuleItem};
use th_type::{Place, What};

/// Puts the places where methods begin last.
fn push_methods(
    places: &mut Vec<Place>,
    text: u32,
    methods: &[MethodTree],
) -> Result<(), AllocError>
    ensures { OnOk result (places.new.items ≡ places.old.items ++ method_places text (map method_of methods.now)) }
{
    for method in methods {
        places.push(Place {
            text,
            at: method.at,
        })?;
    }
    Ok(())
}

/// Puts the places where the units of an item begin last.
fn push_item(places: &mut Vec<Place>, text: u32, item: &ModuleItem) -> Result<(), AllocError>
    ensures { OnOk result (places.new.items ≡ places.old.items ++ unit_places text (module_item_of item.now ∷ [])) }
{
    match item {
        ModuleItem::Class(class) => {
            places.push(Place {
                text,
                at: class.init.head.at,
            })?;
            push_methods(places, text, &class.methods)
        }
        ModuleItem::Routine(routine) => {
            places.push(Place {
                text,
                at: routine.head.at,
            })?;
            Ok(())
        }
    }
}

/// Where the units of items begin.
fn unit_places(alloc: Global, text: u32, items: &[ModuleItem]) -> Result<Vec<Place>, AllocError>
    ensures { IfOk result (λ r. r.items ≡ unit_places text (map module_item_of items.now)) }
{
    let mut places = Vec::new(alloc);
    for item in items {
        push_item(&mut places, text, item)?;
    }
    Ok(places)
}

/// Measures a unit that begins there.
#[tactic(auto, using(crate::proofs::Counting::capped, crate::proofs::Counting::capped_sum))]
fn measure_unit(first: &mut Option<Excess>, place: Place, unit: &CoreUnit)
    ensures { first.new ≡ earliest first.old (units_counts (place ∷ []) (unit_of unit.now ∷ [])) }
{
    measure(first, What::Nodes, nodes(unit), place);
    let words = locals(unit).saturating_add(depth(unit));
    measure(first, What::Locals, words, place);
}

/// Measures units that begin at these places.
fn measure_units(first: &mut Option<Excess>, places: &[Place], units: &[CoreUnit])
    ensures { first.new ≡ earliest first.old (units_counts places.now (map unit_of units.now)) }
{
    let mut k = 0;
    while k < places.len() && k < units.len() {
        measure_unit(first, places[k], &units[k]);
        k += 1;
    }
}

/// The nodes of units; the number stays at the greatest of 64 bits.
fn units_nodes(units: &[CoreUnit]) -> u64
    ensures { result ≡ min (sum_by unit_nodes (map unit_of units.now)) (2 ^ 64 - 1) }
{
    let mut sum: u64 = 0;
    for unit in units {
        sum = sum.saturating_add(nodes(unit));
    }
    sum
}

/// The nodes of a class, but for its units; the number stays at the greatest of 64 bits.
fn class_nodes(class: &CoreClass) -> u64
    ensures { result ≡ min (class_nodes (class_of class.now)) (2 ^ 64 - 1) }
{
    let clauses = class.head.clauses.len() as u64;
    clauses.saturating_add(17)
}

/// The nodes of classes, but for their units; the number stays at the greatest of 64 bits.
fn classes_nodes(classes: &[CoreClass]) -> u64
    ensures { result ≡ min (sum_by class_nodes (map class_of classes.now)) (2 ^ 64 - 1) }
{
    let mut sum: u64 = 0;
    for class in classes {
        sum = sum.saturating_add(class_nodes(class));
    }
    sum
}

/// The nodes of a module; the number stays at the greatest of 64 bits.
fn module_nodes(program: &CoreModule) -> u64
    ensures { result ≡ min (module_nodes (module_of program.now)) (2 ^ 64 - 1) }
{
    units_nodes(&program.units).saturating_add(classes_nodes(&program.classes))
}

/// Measures a module that was checked, which is the text of this number.
#[tactic(auto, using(crate::proofs::Counting::earliest_append, crate::proofs::Counting::capped))]
pub fn measure_module(
    alloc: Global,
    first: &mut Option<Excess>,
    text: u32,
    tree: &Module,
    checked: &CoreModule,
) -> Result<(), AllocError>
    ensures { OnOk result (first.new ≡ earliest first.old (module_counts text (tree_of tree.now) (module_of checked.now))) }
{
    let places = unit_places(alloc, text, &tree.items)?;
    measure_module_heads(first, text, tree);
    measure_units(first, &places, &checked.units);
    let place = Place { text, at: tree.at };
    measure(first, What::Module, module_nodes(checked), place);
    Ok(())
}
