//! Expressions without others in them.
ghost use Rattle.std.specs.Prelude.{◌≡◌, ◌++◌, IfOk, OnOk, Some, is_some};
ghost use Rattle.th_tree.specs.View.{types_of};
ghost use Rattle.th_type.specs.Failures.{lowest, place, unless};
ghost use Rattle.th_type.specs.Types.{bool_ty, int_ty, text_ty};
ghost use Rattle.th_meaning.specs.Trees.{get_byte_expr, literal_expr, number_expr, truth_expr};
ghost use Rattle.th_rules.specs.Callees.{checked, named};
ghost use Rattle.th_rules.specs.Classes.{own_class};
ghost use Rattle.th_rules.specs.Context.{meaning};
ghost use Rattle.th_rules.specs.Cores.{name_at};
ghost use Rattle.th_rules.specs.Failing.{plain_fails};
ghost use Rattle.th_rules.specs.Resolving.{ref_place, types_fails};
ghost use Rattle.th_rules.specs.Typing.{plain_name, self_in};
ghost use Rattle.th_scope.specs.View.{context_of, locals_of, meant_of};
ghost use Rattle.th_typed.specs.View.{typed_of, typed_opt};

use crate::form::has_type;
use crate::place::place_at;
use std::alloc::{AllocError, Global};
use th_meaning::CoreExpr;
use th_scope::{Env, Head, LocalList, Meant, meaning, walk_types};
use th_tree::{ByteList, NameTable, RefTree, TypeList};
use th_type::{Failure, Place, Ty, demand};
use th_typed::{Typed, own_self, plain_name};

/// The bytes of a literal by its number.
fn literal(alloc: Global, names: &NameTable, number: u32) -> Result<ByteList, AllocError>
    ensures { IfOk result (λ b. b ≡ name_at names.now number) }
{
    match names.name(number) {
        Some(bytes) => Ok(ByteList::of(Vec::from_slice(alloc, bytes)?)),
        None => Ok(ByteList::of(Vec::new(alloc))),
    }
}

/// A number.
pub fn number(value: u32) -> Typed
    ensures { typed_of result ≡ checked (number_expr value) int_ty }
{
    Typed {
        core: CoreExpr::Number(value),
        ty: Ty::Int,
    }
}

/// A truth value.
pub fn truth(value: bool) -> Typed
    ensures { typed_of result ≡ checked (truth_expr value) bool_ty }
{
    Typed {
        core: CoreExpr::Truth(value),
        ty: Ty::Bool,
    }
}

/// `get_byte()`
pub fn get_byte() -> Typed
    ensures { typed_of result ≡ checked get_byte_expr int_ty }
{
    Typed {
        core: CoreExpr::GetByte,
        ty: Ty::Int,
    }
}

/// A string literal by the number of its value.
pub fn text(alloc: Global, names: &NameTable, number: u32) -> Result<Option<Typed>, AllocError>
    ensures { IfOk result (λ r. typed_opt r ≡ Some (checked (literal_expr (name_at names.now number)) text_ty)) }
{
    let bytes = literal(alloc, names, number)?;
    Ok(Some(Typed {
        core: CoreExpr::Literal(bytes),
        ty: Ty::Text,
    }))
}

/// Judges a name without arguments: it is a local without braces.
fn judge_plain(least: &mut Option<Failure>, meant: &Meant<'_>, types: &TypeList, at: Place)
    ensures { least.new ≡ lowest least.old (plain_fails (named (meant_of meant.now) (types_of types.now)) at) }
{
    match meant {
        Meant::Local(_) => match types {
            TypeList::NoType => {}
            TypeList::MoreType(_, _) => demand(least, false, 4, at),
        },
        Meant::Item(item) => match &item.head {
            Head::Exception(_) => demand(least, false, 4, at),
            Head::Declared(_) => demand(least, false, 4, at),
            Head::Class(_) => demand(least, false, 4, at),
            Head::Routine(_) => demand(least, false, 26, at),
        },
        Meant::Nothing => demand(least, false, 4, at),
        Meant::Param(_) => demand(least, false, 4, at),
    }
}

/// Judges a name without arguments, and the types in its braces.
#[tactic(auto, using(th_type::proofs::Least::lowest_append))]
pub fn walk_name(
    alloc: Global,
    item: &RefTree,
    types: &TypeList,
    env: &Env<'_>,
    locals: &LocalList,
    least: &mut Option<Failure>,
) -> Result<Option<Typed>, AllocError>
    ensures typed { IfOk result (λ r. typed_opt r ≡ plain_name (meaning (context_of env.now) (locals_of locals.now) item.now) (types_of types.now)) }
    ensures least { OnOk result (least.new ≡ lowest least.old (plain_fails (named (meaning (context_of env.now) (locals_of locals.now) item.now) (types_of types.now)) (ref_place (context_of env.now) item.now) ++ types_fails (context_of env.now) (locals_of locals.now) (types_of types.now))) }
{
    let at = place_at(env, item.first.at);
    let meant = meaning(&*env, &*locals, item);
    judge_plain(least, &meant, types, at);
    let _ = walk_types(alloc, types, env, locals, least)?;
    plain_name(alloc, &meant, types)
}

/// `self` at a byte.
pub fn walk_self(
    alloc: Global,
    env: &Env<'_>,
    at: u32,
    least: &mut Option<Failure>,
) -> Result<Option<Typed>, AllocError>
    ensures typed { IfOk result (λ r. typed_opt r ≡ self_in (own_class (context_of env.now))) }
    ensures least { OnOk result (least.new ≡ lowest least.old (unless (is_some (self_in (own_class (context_of env.now)))) 18 (place env.now.text at))) }
{
    let found = own_self(alloc, env)?;
    demand(least, has_type(&found), 18, place_at(env, at));
    Ok(found)
}
