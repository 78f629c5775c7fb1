//! Names that differ within their list. docs/LANGUAGE.md, "Names and scopes", states the rules.
ghost use Rattle.std.specs.Prelude.{◌≡◌, [], map, IfOk, OnOk};
ghost use Rattle.th_tree.specs.View.{formal_of};
ghost use Rattle.th_tree.specs.DeclView.{sig_of, interface_item_of};
ghost use Rattle.th_type.specs.Failures.{lowest};
ghost use Rattle.th_hier.specs.Spots.{formal_spots, item_name, item_spots, repeats, sig_spots, spot_at, spots};

use crate::numbers::Numbers;
use std::alloc::{AllocError, Global};
use th_tree::{Formal, Ident, InterfaceItem, SigTree};
use th_type::{Failure, Place, demand};

/// The number of a name, and where it stands.
#[derive(Clone, Copy, Debug, PartialEq, Eq)]
pub struct Spot {
    pub name: u32,
    pub place: Place,
}

/// The name where it stands in the text.
pub fn spot_at(text: u32, name: Ident) -> Spot
    ensures { result ≡ spot_at text name }
{
    Spot {
        name: name.name,
        place: Place { text, at: name.at },
    }
}

/// The name of an item of an interface.
pub fn item_name(item: &InterfaceItem) -> Ident
    ensures { result ≡ item_name (interface_item_of item.now) }
{
    match item {
        InterfaceItem::Exception(exception) => exception.name,
        InterfaceItem::Type(decl) => decl.name,
        InterfaceItem::Class(class) => class.head.name,
        InterfaceItem::Routine(head) => head.name,
    }
}

/// The names where they stand in the text.
fn ident_spots(alloc: Global, text: u32, names: &[Ident]) -> Result<Vec<Spot>, AllocError>
    ensures { IfOk result (λ r. r.items ≡ spots text names.now) }
{
    names.iter().map(|name| spot_at(text, *name)).collect(alloc)
}

/// The names of formals where they stand in the text.
fn formal_spots(alloc: Global, text: u32, formals: &[Formal]) -> Result<Vec<Spot>, AllocError>
    ensures { IfOk result (λ r. r.items ≡ map (λ f. spot_at text f.name) formals.now) }
{
    formals
        .iter()
        .map(|formal| spot_at(text, formal.name))
        .collect(alloc)
}

/// The names of methods where they stand in the text.
fn sig_spots(alloc: Global, text: u32, sigs: &[SigTree]) -> Result<Vec<Spot>, AllocError>
    ensures { IfOk result (λ r. r.items ≡ map (λ s. spot_at text s.name) sigs.now) }
{
    sigs.iter()
        .map(|sig| spot_at(text, sig.name))
        .collect(alloc)
}

/// The names of items where they stand in the text.
fn item_spots(alloc: Global, text: u32, items: &[InterfaceItem]) -> Result<Vec<Spot>, AllocError>
    ensures { IfOk result (λ r. r.items ≡ map (λ i. spot_at text (item_name (interface_item_of i))) items.now) }
{
    items
        .iter()
        .map(|item| spot_at(text, item_name(item)))
        .collect(alloc)
}

/// Judges that the names differ.
#[tactic(auto, using(crate::proofs::Failing::lowest_append))]
pub fn judge_repeats(
    alloc: Global,
    rule: u32,
    spots: &[Spot],
    least: &mut Option<Failure>,
) -> Result<(), AllocError>
    ensures { OnOk result (least.new ≡ lowest least.old (repeats rule [] spots.now)) }
{
    let mut seen = Numbers::new(alloc);
    for spot in spots {
        let new = seen.add(spot.name)?;
        demand(least, new, rule, spot.place);
    }
    Ok(())
}

/// Judges that type parameters have different names.
pub fn judge_params(
    alloc: Global,
    text: u32,
    params: &[Ident],
    least: &mut Option<Failure>,
) -> Result<(), AllocError>
    ensures { OnOk result (least.new ≡ lowest least.old (repeats 3 [] (spots text params.now))) }
{
    let spots = ident_spots(alloc, text, params)?;
    judge_repeats(alloc, 3, &spots, least)
}

/// Judges that formals have different names.
#[tactic(auto, using(crate::proofs::Mapped::formals_mapped))]
pub fn judge_formals(
    alloc: Global,
    text: u32,
    formals: &[Formal],
    least: &mut Option<Failure>,
) -> Result<(), AllocError>
    ensures { OnOk result (least.new ≡ lowest least.old (repeats 3 [] (formal_spots text (map formal_of formals.now)))) }
{
    let spots = formal_spots(alloc, text, formals)?;
    judge_repeats(alloc, 3, &spots, least)
}

/// Judges that methods have different names.
#[tactic(auto, using(crate::proofs::Mapped::sigs_mapped))]
pub fn judge_methods(
    alloc: Global,
    text: u32,
    sigs: &[SigTree],
    least: &mut Option<Failure>,
) -> Result<(), AllocError>
    ensures { OnOk result (least.new ≡ lowest least.old (repeats 3 [] (sig_spots text (map sig_of sigs.now)))) }
{
    let spots = sig_spots(alloc, text, sigs)?;
    judge_repeats(alloc, 3, &spots, least)
}

/// Judges that items have different names.
#[tactic(auto, using(crate::proofs::Mapped::items_mapped))]
pub fn judge_item_names(
    alloc: Global,
    text: u32,
    items: &[InterfaceItem],
    least: &mut Option<Failure>,
) -> Result<(), AllocError>
    ensures { OnOk result (least.new ≡ lowest least.old (repeats 2 [] (item_spots text (map interface_item_of items.now)))) }
{
    let spots = item_spots(alloc, text, items)?;
    judge_repeats(alloc, 2, &spots, least)
}
