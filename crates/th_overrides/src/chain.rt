//! The classes above a class.
ghost use Rattle.std.specs.Prelude.{◌≡◌, ◌≤◌, ◌&&◌, length, map, not, option_map, is_some, IfOk};
ghost use Rattle.std.specs.List.{list_all};
ghost use Rattle.th_type.specs.Types.{ty_of};
ghost use Rattle.th_type.specs.Methods.{method_at};
ghost use Rattle.th_scope.specs.ItemView.{class_of};
ghost use Rattle.th_scope.specs.View.{items_of};
ghost use Rattle.th_overrides.specs.Chain.{IsChain, inherited_as, next_above};
ghost use Rattle.th_overrides.specs.AncestorView.{ancestor_of};

use crate::ancestor::Ancestor;
use std::alloc::{AllocError, Global};
use th_contexts::has_method;
use th_hier::Hierarchy;
use th_scope::{ClassItem, Items, substituted_list};
use th_type::Ty;

/// The class that is inherited as this type.
fn inherited_as<'a>(
    alloc: Global,
    items: &'a Items,
    inherits: &Option<Ty>,
) -> Result<Option<Ancestor<'a>>, AllocError>
    ensures { IfOk result (λ r. option_map ancestor_of r ≡ inherited_as (items_of items.now) (option_map ty_of inherits.now)) }
{
    let Some(Ty::Named(full, args)) = inherits else {
        return Ok(None);
    };
    match items.class_at(*full) {
        None => Ok(None),
        Some(class) => {
            let args = args.try_clone(alloc)?;
            Ok(Some(Ancestor { class, args }))
        }
    }
}

/// The class that a class above inherits.
#[tactic(auto, using(th_type::proofs::Substitution::list_subst))]
fn next_above<'a>(
    alloc: Global,
    items: &'a Items,
    below: &Ancestor<'a>,
) -> Result<Option<Ancestor<'a>>, AllocError>
    ensures { IfOk result (λ r. option_map ancestor_of r ≡ next_above (items_of items.now) (ancestor_of below.now)) }
{
    let class = below.class;
    let Some(Ty::Named(full, args)) = &class.inherits else {
        return Ok(None);
    };
    match items.class_at(*full) {
        None => Ok(None),
        Some(class) => {
            let args = substituted_list(alloc, args, &below.args)?;
            Ok(Some(Ancestor { class, args }))
        }
    }
}

/// The classes above a class, the nearest first. More classes than there are items, as where a class reaches itself, are want of memory.
pub(crate) fn chain_of<'a>(
    alloc: Global,
    items: &'a Items,
    class: &ClassItem,
) -> Result<Vec<Ancestor<'a>>, AllocError>
    ensures chain { IfOk result (λ r. IsChain (items_of items.now) (class_of class.now) (map ancestor_of r.items)) }
    ensures short { IfOk result (λ r. length r.items ≤ length (items_of items.now)) }
{
    let mut done = Vec::new(alloc);
    let mut at = inherited_as(alloc, items, &class.inherits)?;
    let mut left = items.len();
    while let Some(below) = at {
        if left == 0 {
            return Err(AllocError);
        }
        left -= 1;
        at = next_above(alloc, items, &below)?;
        done.push(below)?;
    }
    Ok(done)
}

/// Whether no class of the chain has the method in its type.
pub(crate) fn is_hidden(hierarchy: &Hierarchy, chain: &[Ancestor<'_>], method: u32) -> bool
    ensures { result ≡ list_all (λ a. not (is_some (method_at hierarchy.now.types a.class.of method))) (map ancestor_of chain.now) }
{
    for ancestor in chain {
        if has_method(hierarchy, &ancestor.class.of, method) {
            return false;
        }
    }
    true
}
