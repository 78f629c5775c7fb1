//! Whether the definition of an exported item differs from its declaration. docs/LANGUAGE.md, "Rules of modules", states the rule.
ghost use Rattle.std.specs.Prelude.{◌≡◌, ◌↔◌, IsTrue};
ghost use Rattle.th_module_rules.specs.ClassRules.{SameHead};
ghost use Rattle.th_module_rules.specs.Modules.{Judged, Redefined};
ghost use Rattle.th_module_rules.specs.Own.{implemented};
ghost use Rattle.th_scope.specs.ItemView.{item_head_of};
ghost use Rattle.th_scope.specs.View.{items_of};

use crate::same::{same_class, same_routine};
use th_scope::{Head, Items};

/// Whether a definition is what the declaration says.
fn same_head(head: &Head, of: &Head) -> bool
    ensures { IsTrue result ↔ SameHead (item_head_of head.now) (item_head_of of.now) }
{
    match (head, of) {
        (Head::Class(class), Head::Class(declared)) => same_class(class, declared),
        (Head::Routine(routine), Head::Routine(declared)) => same_routine(routine, declared),
        _ => false,
    }
}

/// Whether the definition of an item of that name differs from its declaration in the implemented interface, where that has one.
pub fn is_redefined(items: &Items, implements: Option<u32>, name: u32, head: &Head) -> bool
    ensures { (J : Judged) → J.items ≡ items_of items.now → implemented J.tree ≡ implements → IsTrue result ↔ Redefined J name (item_head_of head.now) }
{
    let Some(interface) = implements else {
        return false;
    };
    match items.find(Some(interface), name) {
        None => false,
        Some(declared) => !same_head(head, &declared.head),
    }
}
