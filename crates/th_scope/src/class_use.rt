//! Classes after `new`, where a local hides what has its name. docs/LANGUAGE.md, "Names and scopes", states the rules.
ghost use Rattle.std.specs.Prelude.{◌≡◌, IfOk, OnOk};
ghost use Rattle.th_tree.specs.View.{named_of, types_of};
ghost use Rattle.th_type.specs.Failures.{lowest};
ghost use Rattle.th_hier.specs.Resolve.{count};
ghost use Rattle.th_hier.specs.Views.{tys_opt};
ghost use Rattle.th_rules.specs.Resolving.{class_fails, class_item_fails, class_name_fails, item_use, meant_use, resolved_class, use_with};
ghost use Rattle.th_scope.specs.View.{class_of, context_of, item_head_of, locals_of, meant_of, use_opt};

use crate::env::Env;
use crate::item::{ClassItem, Head};
use crate::local::LocalList;
use crate::naming::{Meant, meaning};
use crate::resolve::{has_count, walk_types};
use std::alloc::{AllocError, Global};
use th_tree::{NamedTree, TypeList};
use th_type::{Failure, Place, TyList, demand};

/// A class with arguments: the number of its full name, what it is, and the arguments.
#[derive(Drop)]
pub struct ClassPart<'a> {
    pub full: u32,
    pub class: &'a ClassItem,
    pub args: TyList,
}

/// Judges an item where a class is needed, with these arguments.
fn judge_class_item(least: &mut Option<Failure>, head: &Head, args: &TypeList, at: Place)
    ensures { least.new ≡ lowest least.old (class_item_fails (item_head_of head.now) (count (types_of args.now)) at) }
{
    match head {
        Head::Class(class) => demand(least, has_count(args, class.params), 5, at),
        Head::Exception(_) => demand(least, false, 4, at),
        Head::Declared(_) => demand(least, false, 4, at),
        Head::Routine(_) => demand(least, false, 4, at),
    }
}

/// Judges a name where a class is needed, with these arguments.
fn judge_class_name(least: &mut Option<Failure>, meant: &Meant<'_>, args: &TypeList, at: Place)
    ensures { least.new ≡ lowest least.old (class_name_fails (meant_of meant.now) (count (types_of args.now)) at) }
{
    match meant {
        Meant::Item(item) => judge_class_item(least, &item.head, args, at),
        Meant::Nothing => demand(least, false, 4, at),
        Meant::Local(_) => demand(least, false, 4, at),
        Meant::Param(_) => demand(least, false, 4, at),
    }
}

/// The use of what a name means as a class with these arguments.
fn class_use<'a>(meant: Meant<'a>, args: &TypeList, types: Option<TyList>) -> Option<ClassPart<'a>>
    ensures { use_opt result ≡ meant_use (meant_of meant.entry) (count (types_of args.now)) (tys_opt types) }
{
    let types = types?;
    let Meant::Item(item) = meant else {
        return None;
    };
    let Head::Class(class) = &item.head else {
        return None;
    };
    if has_count(args, class.params) {
        Some(ClassPart {
            full: item.full,
            class,
            args: types,
        })
    } else {
        None
    }
}

/// Judges a class with its arguments: the class that it means, None exactly where it means none.
#[tactic(auto, using(th_type::proofs::Least::lowest_append))]
pub fn walk_class<'a>(
    alloc: Global,
    tree: &NamedTree,
    env: &Env<'a>,
    locals: &'a LocalList,
    least: &mut Option<Failure>,
) -> Result<Option<ClassPart<'a>>, AllocError>
    ensures means { IfOk result (λ r. use_opt r ≡ resolved_class (context_of env.now) (locals_of locals.now) (named_of tree.now)) }
    ensures least { OnOk result (least.new ≡ lowest least.old (class_fails (context_of env.now) (locals_of locals.now) (named_of tree.now))) }
{
    let at = Place {
        text: env.text,
        at: tree.item.first.at,
    };
    let meant = meaning(env, locals, &tree.item);
    judge_class_name(least, &meant, &tree.args, at);
    let types = walk_types(alloc, &tree.args, env, locals, least)?;
    Ok(class_use(meant, &tree.args, types))
}
