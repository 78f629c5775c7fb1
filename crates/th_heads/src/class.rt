//! The heads of classes: their failures and what they mean. docs/LANGUAGE.md, "Names and scopes", states the rules.
ghost use Rattle.std.specs.Prelude.{◌≡◌, ◌++◌, [], map, option_map, IfOk, OnOk};
ghost use Rattle.th_tree.specs.View.{named_of, option_of, types_of};
ghost use Rattle.th_tree.specs.DeclView.{class_head_of};
ghost use Rattle.th_type.specs.Failures.{lowest};
ghost use Rattle.th_type.specs.Declarations.{meant_of};
ghost use Rattle.th_type.specs.Signatures.{clause_of};
ghost use Rattle.th_hier.specs.Naming.{meaning};
ghost use Rattle.th_hier.specs.Resolve.{count};
ghost use Rattle.th_hier.specs.Texts.{class_name_fails, class_sort_fails, inherits_fails, named_fails, whole_meant};
ghost use Rattle.th_hier.specs.Views.{ty_opt, tys_opt};
ghost use Rattle.th_module_rules.specs.Inheriting.{class_meant, class_sort_meant, is_param};
ghost use Rattle.th_module_rules.specs.Contexts.{named_type_of};
ghost use Rattle.th_heads.specs.Clauses.{clauses_seen};
ghost use Rattle.th_heads.specs.Classes.{class_parts_fail, meant_after};

use crate::found::{Found, Sight};
use crate::named::{judge_type_name, referent_type};
use crate::signature::walk_clauses;
use crate::walk::walk_types;
use std::alloc::{AllocError, Global};
use th_hier::{Entry, Referent, Sort};
use th_scope::has_count;
use th_tree::{ClassHead, NamedTree, TypeList};
use th_type::{Clause, Failure, Meaning, Place, Ty, TyList, demand};

/// What the head of a class means: the type that it is for, where it resolves, and whether a type parameter stands there; the
/// class that it inherits, where one stands there; its clauses.
#[derive(Drop)]
pub struct ClassMeaning {
    pub of: Option<Ty>,
    pub for_param: bool,
    pub inherits: Option<Meaning>,
    pub clauses: Vec<Clause>,
}

/// A class with these arguments, by its name alone where they do not resolve or are not as many as its parameters.
fn entry_meaning(entry: Entry, args: &TypeList, types: Option<TyList>) -> Meaning
    ensures { meant_of result ≡ class_sort_meant entry.sort entry.full (count (types_of args.now)) (tys_opt types) }
{
    match entry.sort {
        Sort::Class(params) => {
            if !has_count(args, params) {
                return Meaning::Head(entry.full);
            }
            match types {
                None => Meaning::Head(entry.full),
                Some(types) => Meaning::Whole(entry.full, types),
            }
        }
        _ => Meaning::Unresolved,
    }
}

/// What is referred to after `inherits`, with these arguments.
fn class_meaning(referent: Referent, args: &TypeList, types: Option<TyList>) -> Meaning
    ensures { meant_of result ≡ class_meant referent (count (types_of args.now)) (tys_opt types) }
{
    match referent {
        Referent::Item(entry) => entry_meaning(entry, args, types),
        _ => Meaning::Unresolved,
    }
}

/// Judges an item after `inherits` with these arguments.
fn judge_class_sort(least: &mut Option<Failure>, sort: Sort, args: &TypeList, at: Place)
    ensures { least.new ≡ lowest least.old (class_sort_fails sort (count (types_of args.now)) at) }
{
    match sort {
        Sort::Class(params) => demand(least, has_count(args, params), 5, at),
        _ => demand(least, false, 4, at),
    }
}

/// Judges what is referred to after `inherits`, with these arguments.
fn judge_class_name(least: &mut Option<Failure>, referent: Referent, args: &TypeList, at: Place)
    ensures { least.new ≡ lowest least.old (class_name_fails referent (count (types_of args.now)) at) }
{
    match referent {
        Referent::Item(entry) => judge_class_sort(least, entry.sort, args, at),
        _ => demand(least, false, 4, at),
    }
}

/// Judges an inherited class: what it means, where one is inherited.
#[tactic(auto, using(th_type::proofs::Least::lowest_append))]
fn walk_inherits(
    alloc: Global,
    inherits: &Option<NamedTree>,
    found: &Found<'_>,
    sight: &Sight<'_>,
    text: u32,
    least: &mut Option<Failure>,
) -> Result<Option<Meaning>, AllocError>
    ensures means { IfOk result (λ r. option_map meant_of r ≡ meant_after found.now sight.now (option_of named_of inherits.now)) }
    ensures least { OnOk result (least.new ≡ lowest least.old (inherits_fails found.now sight.now text (option_of named_of inherits.now))) }
{
    let Some(named) = inherits else {
        return Ok(None);
    };
    let referent = found.meaning(sight, &named.item);
    let place = Place {
        text,
        at: named.item.first.at,
    };
    judge_class_name(least, referent, &named.args, place);
    let types = walk_types(alloc, &named.args, found, sight, text, least)?;
    Ok(Some(class_meaning(referent, &named.args, types)))
}

/// Whether a type parameter is referred to.
fn is_param(referent: Referent) -> bool
    ensures { result ≡ is_param referent }
{
    matches!(referent, Referent::Param(_))
}

/// Judges the type that a class is for: what it means, where it resolves, and whether it is a type parameter.
#[tactic(auto, using(th_type::proofs::Least::lowest_append))]
fn walk_of(
    alloc: Global,
    of: &NamedTree,
    found: &Found<'_>,
    sight: &Sight<'_>,
    text: u32,
    least: &mut Option<Failure>,
) -> Result<(Option<Ty>, bool), AllocError>
    ensures means { IfOk result (λ r. ty_opt r.0 ≡ named_type_of found.now sight.now (named_of of.now)) }
    ensures param { IfOk result (λ r. r.1 ≡ is_param (meaning found.now sight.now of.now.item)) }
    ensures least { OnOk result (least.new ≡ lowest least.old (named_fails found.now sight.now text (named_of of.now))) }
{
    let referent = found.meaning(sight, &of.item);
    let place = Place {
        text,
        at: of.item.first.at,
    };
    judge_type_name(least, referent, &of.args, place);
    let types = walk_types(alloc, &of.args, found, sight, text, least)?;
    Ok((referent_type(referent, &of.args, types), is_param(referent)))
}

/// Judges the head of a class, without its type parameters: what it means.
#[tactic(auto, using(th_type::proofs::Least::lowest_append))]
pub fn walk_class_head(
    alloc: Global,
    head: &ClassHead,
    found: &Found<'_>,
    sight: &Sight<'_>,
    text: u32,
    least: &mut Option<Failure>,
) -> Result<ClassMeaning, AllocError>
    ensures of { IfOk result (λ r. ty_opt r.of ≡ named_type_of found.now sight.now (class_head_of head.now).of) }
    ensures param { IfOk result (λ r. r.for_param ≡ is_param (meaning found.now sight.now (class_head_of head.now).of.item)) }
    ensures inherits { IfOk result (λ r. option_map meant_of r.inherits ≡ meant_after found.now sight.now (class_head_of head.now).inherits) }
    ensures clauses { IfOk result (λ r. map clause_of r.clauses.items ≡ clauses_seen found.now sight.now (class_head_of head.now).clauses) }
    ensures least { OnOk result (least.new ≡ lowest least.old (class_parts_fail found.now sight.now text (class_head_of head.now))) }
{
    let (of, for_param) = walk_of(alloc, &head.of, found, sight, text, least)?;
    let inherits = walk_inherits(alloc, &head.inherits, found, sight, text, least)?;
    let clauses = walk_clauses(alloc, &head.clauses, found, sight, text, least)?;
    Ok(ClassMeaning {
        of,
        for_param,
        inherits,
        clauses,
    })
}
