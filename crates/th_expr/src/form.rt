//! Forms of expressions, of which the parts are judged: the rule of the form itself, and the checked tree.
ghost use Rattle.std.specs.Prelude.{◌≡◌, IfOk, OnOk, is_some};
ghost use Rattle.th_type.specs.Failures.{lowest, place, unless};
ghost use Rattle.th_type.specs.Types.{bool_ty, int_ty};
ghost use Rattle.th_hier.specs.Views.{ty_opt};
ghost use Rattle.th_meaning.specs.Trees.{negative_expr, not_expr};
ghost use Rattle.th_rules.specs.Callees.{fits, given_opt};
ghost use Rattle.th_rules.specs.Failing.{indexes, is_indexed, ok_one, ok_two};
ghost use Rattle.th_rules.specs.Typing.{binary, element, field_of, is_bool, is_int, length_of, new_array, one, takes};
ghost use Rattle.th_scope.specs.View.{context_of};
ghost use Rattle.th_typed.specs.View.{typed_opt};

use crate::place::place_at;
use std::alloc::{AllocError, Global};
use th_meaning::CoreExpr;
use th_scope::{Env, spelled};
use th_tree::BinaryOp;
use th_type::{Failure, Ty, demand};
use th_typed::{
    Typed, binary, element, give_opt, is_fit, length, negative, new_array, not, ok_binary, ok_bool,
    ok_index, ok_indexed, ok_int,
};

/// `self.f`: an own field of the class around, where the first is `self`.
fn own_field(
    alloc: Global,
    env: &Env<'_>,
    of_self: bool,
    name: u32,
) -> Result<Option<Typed>, AllocError>
    ensures { IfOk result (λ r. typed_opt r ≡ field_of (context_of env.now) of_self name) }
{
    if !of_self {
        return Ok(None);
    }
    let Some(full) = env.class else {
        return Ok(None);
    };
    let Some(class) = env.items.class_at(full) else {
        return Ok(None);
    };
    let Some(field) = class.fields.find(name) else {
        return Ok(None);
    };
    let Some(ty) = &field.ty else {
        return Ok(None);
    };
    let ty = ty.try_clone(alloc)?;
    let class = spelled(alloc, env.names, full)?;
    Ok(Some(Typed {
        core: CoreExpr::Field(class, field.index),
        ty,
    }))
}

/// Whether there is a type.
pub fn has_type(x: &Option<Typed>) -> bool
    ensures { result ≡ is_some (typed_opt x.now) }
{
    x.is_some()
}

/// `self.f` at a byte.
pub fn finish_field(
    alloc: Global,
    env: &Env<'_>,
    at: u32,
    of_self: bool,
    name: u32,
    least: &mut Option<Failure>,
) -> Result<Option<Typed>, AllocError>
    ensures typed { IfOk result (λ r. typed_opt r ≡ field_of (context_of env.now) of_self name) }
    ensures least { OnOk result (least.new ≡ lowest least.old (unless (is_some (field_of (context_of env.now) of_self name)) 18 (place env.now.text at))) }
{
    let found = own_field(alloc, env, of_self, name)?;
    demand(least, has_type(&found), 18, place_at(env, at));
    Ok(found)
}

/// `e.length` at a byte, of which the operand is judged.
pub fn finish_length(
    alloc: Global,
    env: &Env<'_>,
    at: u32,
    x: Option<Typed>,
    least: &mut Option<Failure>,
) -> Result<Option<Typed>, AllocError>
    ensures typed { IfOk result (λ r. typed_opt r ≡ length_of (typed_opt x)) }
    ensures least { OnOk result (least.new ≡ lowest least.old (unless (ok_one is_indexed (typed_opt x)) 24 (place env.now.text at))) }
{
    demand(least, ok_indexed(&x), 24, place_at(env, at));
    length(alloc, x)
}

/// `not e` at a byte, of which the operand is judged.
pub fn finish_not(
    alloc: Global,
    env: &Env<'_>,
    at: u32,
    x: Option<Typed>,
    least: &mut Option<Failure>,
) -> Result<Option<Typed>, AllocError>
    ensures typed { IfOk result (λ r. typed_opt r ≡ one is_bool not_expr bool_ty (typed_opt x)) }
    ensures least { OnOk result (least.new ≡ lowest least.old (unless (ok_one is_bool (typed_opt x)) 20 (place env.now.text at))) }
{
    demand(least, ok_bool(&x), 20, place_at(env, at));
    not(alloc, x)
}

/// `-e` at a byte, of which the operand is judged.
pub fn finish_negative(
    alloc: Global,
    env: &Env<'_>,
    at: u32,
    x: Option<Typed>,
    least: &mut Option<Failure>,
) -> Result<Option<Typed>, AllocError>
    ensures typed { IfOk result (λ r. typed_opt r ≡ one is_int negative_expr int_ty (typed_opt x)) }
    ensures least { OnOk result (least.new ≡ lowest least.old (unless (ok_one is_int (typed_opt x)) 20 (place env.now.text at))) }
{
    demand(least, ok_int(&x), 20, place_at(env, at));
    negative(alloc, x)
}

/// `e[i]` at a byte, of which both parts are judged.
pub fn finish_element(
    alloc: Global,
    env: &Env<'_>,
    at: u32,
    x: Option<Typed>,
    y: Option<Typed>,
    least: &mut Option<Failure>,
) -> Result<Option<Typed>, AllocError>
    ensures typed { IfOk result (λ r. typed_opt r ≡ element (typed_opt x) (typed_opt y)) }
    ensures least { OnOk result (least.new ≡ lowest least.old (unless (ok_two indexes (typed_opt x) (typed_opt y)) 24 (place env.now.text at))) }
{
    demand(least, ok_index(&x, &y), 24, place_at(env, at));
    element(alloc, x, y)
}

/// An operator at a byte, of which both operands are judged.
pub fn finish_binary(
    alloc: Global,
    env: &Env<'_>,
    at: u32,
    op: BinaryOp,
    x: Option<Typed>,
    y: Option<Typed>,
    least: &mut Option<Failure>,
) -> Result<Option<Typed>, AllocError>
    ensures typed { IfOk result (λ r. typed_opt r ≡ binary op (typed_opt x) (typed_opt y)) }
    ensures least { OnOk result (least.new ≡ lowest least.old (unless (ok_two (takes op) (typed_opt x) (typed_opt y)) 20 (place env.now.text at))) }
{
    demand(least, ok_binary(op, &x, &y), 20, place_at(env, at));
    binary(alloc, op, x, y)
}

/// `new array[T](n, e)`, of which all parts are judged; the value starts at a byte.
pub fn finish_array(
    alloc: Global,
    env: &Env<'_>,
    at: u32,
    of: Option<Ty>,
    count: Option<Typed>,
    fill: Option<Typed>,
    least: &mut Option<Failure>,
) -> Result<Option<Typed>, AllocError>
    ensures typed { IfOk result (λ r. typed_opt r ≡ new_array (context_of env.now) (ty_opt of) (typed_opt count) (given_opt (context_of env.now) (ty_opt of) (typed_opt fill))) }
    ensures least { OnOk result (least.new ≡ lowest least.old (unless (fits (given_opt (context_of env.now) (ty_opt of) (typed_opt fill))) 23 (place env.now.text at))) }
{
    let given = give_opt(alloc, env, &of, fill)?;
    demand(least, is_fit(&given), 23, place_at(env, at));
    new_array(alloc, env, of, count, given)
}
