//! The rules on names in all interfaces. docs/LANGUAGE.md, "Names and scopes", states the rules.
ghost use Rattle.std.specs.Prelude.{◌≡◌, ◌++◌, [], map, IfOk, OnOk};
ghost use Rattle.th_tree.specs.DeclView.{interface_item_of, interface_of};
ghost use Rattle.th_type.specs.Failures.{lowest};
ghost use Rattle.th_type.specs.Declarations.{decls_of};
ghost use Rattle.th_hier.specs.Spots.{interface_spots, repeats};
ghost use Rattle.th_hier.specs.Texts.{declarations, firsts, interface_fails, interfaces_declared, interfaces_fail, items_declared, items_fail, names_fail, visible};

use crate::index::{Home, Index};
use crate::judge::judge_item;
use crate::numbers::{Numbers, small};
use crate::spot::{Spot, judge_item_names, judge_repeats, spot_at};
use std::alloc::{AllocError, Global};
use th_tree::{Interface, InterfaceItem};
use th_type::{Failure, TypeDef};

/// Judges items, and puts the types that they declare last among the declared ones.
fn judge_items(
    alloc: Global,
    items: &[InterfaceItem],
    index: &Index,
    home: &Home,
    text: u32,
    types: &mut Vec<TypeDef>,
    least: &mut Option<Failure>,
) -> Result<(), AllocError>
    ensures types { OnOk result (decls_of types.new.items ≡ decls_of types.old.items ++ items_declared index.now home.now text (map interface_item_of items.now)) }
    ensures least { OnOk result (least.new ≡ lowest least.old (items_fail index.now home.now text (map interface_item_of items.now))) }
{
    for item in items {
        judge_item(alloc, item, index, home, text, types, least)?;
    }
    Ok(())
}

/// Judges an interface, and puts the types that it declares last among the declared ones.
#[tactic(auto, using(crate::proofs::Failing::lowest_append))]
fn judge_interface(
    alloc: Global,
    interface: &Interface,
    index: &Index,
    text: u32,
    types: &mut Vec<TypeDef>,
    least: &mut Option<Failure>,
) -> Result<(), AllocError>
    ensures types { OnOk result (decls_of types.new.items ≡ decls_of types.old.items ++ items_declared index.now (visible (interface_of interface.now)) text (interface_of interface.now).items) }
    ensures least { OnOk result (least.new ≡ lowest least.old (interface_fails index.now text (interface_of interface.now))) }
{
    judge_item_names(alloc, text, &interface.items, least)?;
    let home = Home::of(alloc, interface)?;
    judge_items(alloc, &interface.items, index, &home, text, types, least)
}

/// Judges the items of interfaces: the types that they declare.
fn judge_interfaces(
    alloc: Global,
    interfaces: &[Interface],
    index: &Index,
    least: &mut Option<Failure>,
) -> Result<Vec<TypeDef>, AllocError>
    ensures types { IfOk result (λ r. decls_of r.items ≡ interfaces_declared index.now 0 (map interface_of interfaces.now)) }
    ensures least { OnOk result (least.new ≡ lowest least.old (interfaces_fail index.now 0 (map interface_of interfaces.now))) }
{
    let mut types = Vec::new(alloc);
    for (k, interface) in interfaces.iter().enumerate() {
        let text = small(k)?;
        judge_interface(alloc, interface, index, text, &mut types, least)?;
    }
    Ok(types)
}

/// The names of interfaces where they stand.
fn interface_spots(alloc: Global, interfaces: &[Interface]) -> Result<Vec<Spot>, AllocError>
    ensures { IfOk result (λ r. r.items ≡ interface_spots 0 (map interface_of interfaces.now)) }
{
    let mut spots = Vec::new(alloc);
    for (k, interface) in interfaces.iter().enumerate() {
        spots.push(spot_at(small(k)?, interface.name))?;
    }
    Ok(spots)
}

/// The first type of each number.
fn firsts(alloc: Global, types: Vec<TypeDef>) -> Result<Vec<TypeDef>, AllocError>
    ensures { IfOk result (λ r. decls_of r.items ≡ firsts [] (decls_of types.items)) }
{
    let mut seen = Numbers::new(alloc);
    let mut kept = Vec::new(alloc);
    for def in types {
        if seen.add(def.name)? {
            kept.push(def)?;
        }
    }
    Ok(kept)
}

/// Judges the rules on names in interfaces: the types that they declare, each once.
#[tactic(auto, using(crate::proofs::Failing::lowest_append))]
pub fn judge_names(
    alloc: Global,
    interfaces: &[Interface],
    index: &Index,
    least: &mut Option<Failure>,
) -> Result<Vec<TypeDef>, AllocError>
    ensures types { IfOk result (λ r. decls_of r.items ≡ declarations index.now (map interface_of interfaces.now)) }
    ensures least { OnOk result (least.new ≡ lowest least.old (names_fail index.now (map interface_of interfaces.now))) }
{
    let spots = interface_spots(alloc, interfaces)?;
    judge_repeats(alloc, 1, &spots, least)?;
    let types = judge_interfaces(alloc, interfaces, index, least)?;
    firsts(alloc, types)
}
