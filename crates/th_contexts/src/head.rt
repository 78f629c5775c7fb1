//! The heads of routines and classes. docs/LANGUAGE.md, "Names and scopes", states what their names mean.
ghost use Rattle.std.specs.Prelude.{◌≡◌, map, option_map, unwrap_or, IfOk};
ghost use Rattle.th_tree.specs.DeclView.{class_head_of, init_head_of, routine_head_of};
ghost use Rattle.th_type.specs.Types.{int_ty, ty_of};
ghost use Rattle.th_type.specs.Declarations.{meant_of};
ghost use Rattle.th_type.specs.Signatures.{sig_of};
ghost use Rattle.th_hier.specs.Texts.{within};
ghost use Rattle.th_hier.specs.Views.{ty_opt};
ghost use Rattle.th_module_rules.specs.Contexts.{class_info, routine_info};
ghost use Rattle.th_scope.specs.ItemView.{class_of, locals_of, routine_of};
ghost use Rattle.th_contexts.specs.Heads.{class_type_opt};

use crate::field::small;
use std::alloc::{AllocError, Global};
use th_heads::{
    Found, Sight, signature_or_bare, walk_class_head, walk_clauses, walk_head, walk_init,
};
use th_hier::Home;
use th_scope::{ClassItem, LocalList, RoutineItem};
use th_tree::{ClassHead, InitHead, RoutineHead};
use th_type::{Meaning, Sig, Ty};

/// A routine or an iterator by its head.
#[tactic(auto, using(th_heads::proofs::Seen::seen_are))]
pub fn routine_item(
    alloc: Global,
    head: &RoutineHead,
    found: &Found<'_>,
    home: &Home,
) -> Result<RoutineItem, AllocError>
    ensures { IfOk result (λ r. routine_of r ≡ routine_info found.now (within home.now head.now.params.items) (routine_head_of head.now)) }
{
    let mut ignored = None;
    let sight = Sight::of(alloc, home, &head.params)?;
    let parts = walk_head(
        alloc,
        &head.formals,
        &head.gives,
        &head.signals,
        found,
        &sight,
        0,
        &mut ignored,
    )?;
    Ok(RoutineItem {
        params: small(head.params.len())?,
        sig: signature_or_bare(alloc, head.name.name, head.iterator, parts),
        clauses: walk_clauses(alloc, &head.clauses, found, &sight, 0, &mut ignored)?,
    })
}

/// A class with its arguments as a type of its name, where it is meant with arguments.
fn class_type(meaning: Option<Meaning>) -> Option<Ty>
    ensures { option_map ty_of result ≡ class_type_opt (option_map meant_of meaning) }
{
    match meaning {
        Some(Meaning::Whole(full, args)) => Some(Ty::Named(full, args)),
        _ => None,
    }
}

/// The type that a class is for, or `int` where it does not resolve.
fn type_or_int(of: Option<Ty>) -> Ty
    ensures { ty_of result ≡ unwrap_or (ty_opt of) int_ty }
{
    match of {
        Some(of) => of,
        None => Ty::Int,
    }
}

/// A class by its head and that of its initializer, with the hidden methods that it introduces and its fields.
#[tactic(auto, using(th_heads::proofs::Seen::seen_are, crate::proofs::Heads::inherited_is))]
pub fn class_item(
    alloc: Global,
    head: &ClassHead,
    init: &InitHead,
    hidden: Vec<Sig>,
    fields: LocalList,
    found: &Found<'_>,
    home: &Home,
) -> Result<ClassItem, AllocError>
    ensures { IfOk result (λ c. class_of c ≡ class_info found.now (within home.now head.now.params.items) (class_head_of head.now) (init_head_of init.now) (map sig_of hidden.items) (locals_of fields)) }
{
    let mut ignored = None;
    let sight = Sight::of(alloc, home, &head.params)?;
    let meaning = walk_class_head(alloc, head, found, &sight, 0, &mut ignored)?;
    let init = walk_init(alloc, head.name.name, init, found, &sight, 0, &mut ignored)?;
    Ok(ClassItem {
        params: small(head.params.len())?,
        of: type_or_int(meaning.of),
        inherits: class_type(meaning.inherits),
        clauses: meaning.clauses,
        init,
        hidden,
        fields,
    })
}
