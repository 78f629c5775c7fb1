//! What an initializer has: an assignment of each own field, and a super call where its class inherits.
ghost use Rattle.std.specs.Prelude.{◌≡◌, map, is_some, nat_eq};
ghost use Rattle.std.specs.List.{list_all};
ghost use Rattle.th_tree.specs.DeclView.{field_assign_of, init_of};
ghost use Rattle.th_type.specs.Failures.{lowest};
ghost use Rattle.th_module_rules.specs.Initializers.{assigns_fields, both_or_none, shape_fails, times};
ghost use Rattle.th_rules.specs.Context.{find_binding};
ghost use Rattle.th_scope.specs.View.{class_of, locals_of};

use th_expr::place_at;
use th_scope::{ClassItem, Env, LocalList};
use th_tree::{FieldAssign, InitTree};
use th_type::{Failure, demand};

/// Whether what has this name is assigned once.
#[tactic(auto, using(crate::proofs::Shapes::once_none, crate::proofs::Shapes::once_first, crate::proofs::Shapes::once_again, crate::proofs::Shapes::once_other))]
fn is_once(name: u32, assigns: &[FieldAssign]) -> bool
    ensures { result ≡ nat_eq (times name (map field_assign_of assigns.now)) 1 }
{
    let mut found = false;
    for assign in assigns {
        if assign.field.name == name {
            if found {
                return false;
            }
            found = true;
        }
    }
    found
}

/// Whether each of the fields is assigned once.
fn are_once(fields: &LocalList, assigns: &[FieldAssign]) -> bool
    ensures { result ≡ list_all (λ b. nat_eq (times b.name (map field_assign_of assigns.now)) 1) (locals_of fields.now) }
{
    let mut rest = fields;
    while let LocalList::MoreLocal(field, next) = rest {
        if !is_once(field.name, assigns) {
            return false;
        }
        rest = next;
    }
    true
}

/// Whether only fields are assigned.
fn are_known(fields: &LocalList, assigns: &[FieldAssign]) -> bool
    ensures { result ≡ list_all (λ a. is_some (find_binding (locals_of fields.now) a.field.name)) (map field_assign_of assigns.now) }
{
    for assign in assigns {
        if fields.find(assign.field.name).is_none() {
            return false;
        }
    }
    true
}

/// Whether each of the fields is assigned once, and nothing else is.
fn assigns_fields(fields: &LocalList, assigns: &[FieldAssign]) -> bool
    ensures { result ≡ assigns_fields (locals_of fields.now) (map field_assign_of assigns.now) }
{
    are_once(fields, assigns) && are_known(fields, assigns)
}

/// Whether both are true or both are false.
fn both_or_none(a: bool, b: bool) -> bool
    ensures { result ≡ both_or_none a b }
{
    if a { b } else { !b }
}

/// Judges what an initializer of a class has.
#[tactic(auto, using(th_type::proofs::Least::lowest_append))]
pub fn judge_shape(env: &Env<'_>, tree: &InitTree, class: &ClassItem, least: &mut Option<Failure>)
    ensures { least.new ≡ lowest least.old (shape_fails env.now.text (class_of class.now) (init_of tree.now)) }
{
    let at = place_at(env, tree.head.at);
    demand(least, assigns_fields(&class.fields, &tree.assigns), 16, at);
    let called = both_or_none(class.inherits.is_some(), tree.super_call.is_some());
    demand(least, called, 16, at);
}
