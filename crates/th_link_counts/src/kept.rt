//! The interfaces of a program.
ghost use Rattle.std.specs.Prelude.{◌≡◌, ◌++◌, [], ◌∷◌, ℕ, List, IfOk, OnOk, map, is_some, true, bytes_eq};
ghost use Rattle.std.specs.HashMap.{get_by};
ghost use Rattle.th_meaning.specs.View.{interface_of, program_of};
ghost use Rattle.th_units.specs.Units.{Named};
ghost use Rattle.th_link_counts.specs.Kept.{firsts, interfaces_of, names_onto};
ghost use Rattle.th_link_counts.specs.Seen.{Seen};

use std::alloc::{AllocError, Global};
use std::collections::HashMap;
use th_meaning::{CoreInterface, CoreModule};

/// Whether a name is there.
fn is_seen(seen: &HashMap<&[u8], bool>, name: &[u8]) -> bool
    ensures { result ≡ is_some (get_by (λ k. bytes_eq name.now k.now) seen.now) }
{
    seen.get(name).is_some()
}

/// Adds a name, unless it is there.
#[tactic(auto, using(th_units::proofs::Adding::gets_name, th_units::proofs::Adding::keeps_name))]
fn see<'a>(seen: &mut HashMap<&'a [u8], bool>, name: &'a [u8]) -> Result<(), AllocError>
    ensures { OnOk result (Named name.now true seen.old seen.new) }
{
    match seen.get(name) {
        Some(_) => Ok(()),
        None => match seen.insert(name, true) {
            Ok(_) => Ok(()),
            Err(_) => Err(AllocError),
        },
    }
}

/// Keeps an interface, unless its name was seen.
#[tactic(auto, using(crate::proofs::Keeping::seen_more))]
fn keep<'a>(
    seen: &mut HashMap<&'a [u8], bool>,
    kept: &mut Vec<&'a CoreInterface>,
    interface: &'a CoreInterface,
) -> Result<(), AllocError>
    ensures seen { OnOk result ((names : List (List ℕ)) → Seen names seen.old → Seen (names_onto names (interface_of interface.now ∷ [])) seen.new) }
    ensures kept { OnOk result ((names : List (List ℕ)) → Seen names seen.old → map (λ i. interface_of i.now) kept.new.items ≡ map (λ i. interface_of i.now) kept.old.items ++ firsts names (interface_of interface.now ∷ [])) }
{
    let name = interface.name.as_bytes();
    let known = is_seen(seen, name);
    see(seen, name)?;
    if known {
        return Ok(());
    }
    kept.push(interface)?;
    Ok(())
}

/// Keeps interfaces, each the first of its name.
fn keep_all<'a>(
    seen: &mut HashMap<&'a [u8], bool>,
    kept: &mut Vec<&'a CoreInterface>,
    interfaces: &'a [CoreInterface],
) -> Result<(), AllocError>
    ensures seen { OnOk result ((names : List (List ℕ)) → Seen names seen.old → Seen (names_onto names (map interface_of interfaces.now)) seen.new) }
    ensures kept { OnOk result ((names : List (List ℕ)) → Seen names seen.old → map (λ i. interface_of i.now) kept.new.items ≡ map (λ i. interface_of i.now) kept.old.items ++ firsts names (map interface_of interfaces.now)) }
{
    for interface in interfaces {
        keep(seen, kept, interface)?;
    }
    Ok(())
}

/// The interfaces that modules keep, each name once.
pub fn interfaces_once(
    alloc: Global,
    modules: &[CoreModule],
) -> Result<Vec<&CoreInterface>, AllocError>
    ensures { IfOk result (λ v. map (λ i. interface_of i.now) v.items ≡ interfaces_of (program_of modules.now)) }
{
    let mut seen = HashMap::new(alloc);
    let mut kept = Vec::new(alloc);
    for module in modules {
        keep_all(&mut seen, &mut kept, &module.interfaces)?;
    }
    Ok(kept)
}
