//! The walk of an expression: its failures, its checked tree and its type, at once.
ghost use Rattle.std.specs.Prelude.{◌≡◌, IfOk, OnOk, true};
ghost use Rattle.th_tree.specs.Trees.{new_expr};
ghost use Rattle.th_tree.specs.View.{expr_of, exprs_of, named_of};
ghost use Rattle.th_type.specs.Failures.{lowest, place, unless};
ghost use Rattle.th_rules.specs.Callees.{args_ok, call_with};
ghost use Rattle.th_rules.specs.Failing.{args_fail, call_fails, fails, start};
ghost use Rattle.th_rules.specs.Raising.{args_raise, call_raises, raises};
ghost use Rattle.th_rules.specs.Typing.{typed, typed_all, typed_call};
ghost use Rattle.th_scope.specs.View.{context_of, handled_of, locals_of};
ghost use Rattle.th_typed.specs.View.{checks_of, typed_opt};
ghost use Rattle.th_calls.specs.View.{part_callee, part_sig, wish_of};
ghost use Rattle.th_expr.specs.View.{is_call};

use crate::form::{
    finish_array, finish_binary, finish_element, finish_field, finish_length, finish_negative,
    finish_not,
};
use crate::leaf::{get_byte, number, text, truth, walk_name, walk_self};
use crate::place::{place_at, start};
use std::alloc::{AllocError, Global};
use th_calls::{
    CallPlaces, CalleePart, Wish, finish_new, finish_value, walk_method, walk_new, walk_routine,
    walk_super,
};
use th_scope::{Env, Handled, LocalList, walk_type};
use th_tree::{Expr, ExprList, NamedTree};
use th_type::{Failure, Place, demand};
use th_typed::{Typed, TypedList, is_self, ok_int};

/// Judges an expression: its checked tree and its type, None where a rule fails in it or a local in it has no type.
#[cycle(walk)]
#[tactic(auto, using(th_type::proofs::Least::lowest_append))]
pub fn walk_expr(
    alloc: Global,
    tree: &Expr,
    env: &Env<'_>,
    locals: &LocalList,
    handled: &Handled<'_>,
    least: &mut Option<Failure>,
    raised: &mut Option<Failure>,
) -> Result<Option<Typed>, AllocError>
    ensures typed { IfOk result (λ r. typed_opt r ≡ typed (context_of env.now) (locals_of locals.now) (expr_of tree.now)) }
    ensures least { OnOk result (least.new ≡ lowest least.old (fails (context_of env.now) (locals_of locals.now) (expr_of tree.now))) }
    ensures raised { OnOk result (raised.new ≡ lowest raised.old (raises (context_of env.now) (locals_of locals.now) (handled_of handled.now) (expr_of tree.now))) }
{
    match tree {
        Expr::Number(_, value) => Ok(Some(number(*value))),
        Expr::Text(_, number) => text(alloc, env.names, *number),
        Expr::True(_) => Ok(Some(truth(true))),
        Expr::False(_) => Ok(Some(truth(false))),
        Expr::GetByte(_) => Ok(Some(get_byte())),
        Expr::PartSelf(at) => walk_self(alloc, env, *at, least),
        Expr::Item(_, item, types) => walk_name(alloc, item, types, env, locals, least),
        Expr::Field(at, of, name) => {
            let _ = walk_expr(alloc, of, env, locals, handled, least, raised)?;
            finish_field(alloc, env, *at, is_self(of), name.name, least)
        }
        Expr::Length(at, of) => {
            let x = walk_expr(alloc, of, env, locals, handled, least, raised)?;
            finish_length(alloc, env, *at, x, least)
        }
        Expr::Not(at, of) => {
            let x = walk_expr(alloc, of, env, locals, handled, least, raised)?;
            finish_not(alloc, env, *at, x, least)
        }
        Expr::Negative(at, of) => {
            let x = walk_expr(alloc, of, env, locals, handled, least, raised)?;
            finish_negative(alloc, env, *at, x, least)
        }
        Expr::Element(at, of, index) => {
            let x = walk_expr(alloc, of, env, locals, handled, least, raised)?;
            let y = walk_expr(alloc, index, env, locals, handled, least, raised)?;
            finish_element(alloc, env, *at, x, y, least)
        }
        Expr::Binary(at, op, left, right) => {
            let x = walk_expr(alloc, left, env, locals, handled, least, raised)?;
            let y = walk_expr(alloc, right, env, locals, handled, least, raised)?;
            finish_binary(alloc, env, *at, *op, x, y, least)
        }
        Expr::NewArray(at, of, count, fill) => {
            let of = walk_type(alloc, of, env, locals, least)?;
            let x = walk_expr(alloc, count, env, locals, handled, least, raised)?;
            demand(least, ok_int(&x), 24, place_at(env, *at));
            let y = walk_expr(alloc, fill, env, locals, handled, least, raised)?;
            finish_array(alloc, env, start(fill), of, x, y, least)
        }
        Expr::New(at, class, args) => walk_object(
            alloc, args, *at, class, env, locals, handled, least, raised,
        ),
        Expr::Super(_, _, _) => walk_value(alloc, tree, env, locals, handled, least, raised),
        Expr::Call(_, _, _, _) => walk_value(alloc, tree, env, locals, handled, least, raised),
        Expr::Method(_, _, _, _) => walk_value(alloc, tree, env, locals, handled, least, raised),
    }
}

/// `new C(..)` at a byte.
#[cycle(walk)]
#[tactic(auto, using(th_type::proofs::Least::lowest_append, th_calls::proofs::NewLaws::object_is))]
fn walk_object(
    alloc: Global,
    args: &ExprList,
    at: u32,
    class: &NamedTree,
    env: &Env<'_>,
    locals: &LocalList,
    handled: &Handled<'_>,
    least: &mut Option<Failure>,
    raised: &mut Option<Failure>,
) -> Result<Option<Typed>, AllocError>
    ensures typed { IfOk result (λ r. typed_opt r ≡ typed (context_of env.now) (locals_of locals.now) (new_expr at (named_of class.now) (exprs_of args.now))) }
    ensures least { OnOk result (least.new ≡ lowest least.old (fails (context_of env.now) (locals_of locals.now) (new_expr at (named_of class.now) (exprs_of args.now)))) }
    ensures raised { OnOk result (raised.new ≡ lowest raised.old (raises (context_of env.now) (locals_of locals.now) (handled_of handled.now) (new_expr at (named_of class.now) (exprs_of args.now)))) }
{
    let at = place_at(env, at);
    let part = walk_new(alloc, class, env, locals, handled, at, least, raised)?;
    let args = walk_args(alloc, args, env, locals, handled, least, raised)?;
    finish_new(alloc, env, part, args, at, least)
}

/// A call that is there for its value.
#[cycle(walk)]
#[tactic(auto, using(crate::proofs::Calls::value_typed, crate::proofs::Calls::value_fails, crate::proofs::Calls::value_raises))]
fn walk_value(
    alloc: Global,
    tree: &Expr,
    env: &Env<'_>,
    locals: &LocalList,
    handled: &Handled<'_>,
    least: &mut Option<Failure>,
    raised: &mut Option<Failure>,
) -> Result<Option<Typed>, AllocError>
    requires { is_call (expr_of tree.now) ≡ true }
    ensures typed { IfOk result (λ r. typed_opt r ≡ typed (context_of env.now) (locals_of locals.now) (expr_of tree.now)) }
    ensures least { OnOk result (least.new ≡ lowest least.old (fails (context_of env.now) (locals_of locals.now) (expr_of tree.now))) }
    ensures raised { OnOk result (raised.new ≡ lowest raised.old (raises (context_of env.now) (locals_of locals.now) (handled_of handled.now) (expr_of tree.now))) }
{
    let at = place_at(env, start(tree));
    let (part, args) = walk_callee(
        alloc,
        tree,
        env,
        locals,
        handled,
        Wish::Value,
        at,
        at,
        least,
        raised,
    )?;
    finish_value(alloc, env, part, args, at, least)
}

/// What a call calls, there for what is wished, and its arguments; whether these fit is left to judge. The failure of the rule
/// on what it is there for is at `wish_at`, and those of its own exceptions are at `signals_at`.
#[cycle(walk)]
#[tactic(auto, using(th_type::proofs::Least::lowest_append))]
pub fn walk_callee(
    alloc: Global,
    tree: &Expr,
    env: &Env<'_>,
    locals: &LocalList,
    handled: &Handled<'_>,
    wish: Wish,
    wish_at: Place,
    signals_at: Place,
    least: &mut Option<Failure>,
    raised: &mut Option<Failure>,
) -> Result<(Option<CalleePart>, TypedList), AllocError>
    requires { is_call (expr_of tree.now) ≡ true }
    ensures called { IfOk result (λ r. call_with (context_of env.now) (part_callee r.0) (checks_of r.1) ≡ typed_call (context_of env.now) (locals_of locals.now) (expr_of tree.now)) }
    ensures least { IfOk result (λ r. lowest least.new (unless (args_ok (context_of env.now) (part_sig r.0) (checks_of r.1)) 22 (place env.now.text (start (expr_of tree.now)))) ≡ lowest least.old (call_fails (context_of env.now) (locals_of locals.now) (wish_of wish) wish_at (expr_of tree.now))) }
    ensures raised { OnOk result (raised.new ≡ lowest raised.old (call_raises (context_of env.now) (locals_of locals.now) (handled_of handled.now) signals_at (expr_of tree.now))) }
{
    let at = CallPlaces {
        call: place_at(env, start(tree)),
        wish: wish_at,
        signals: signals_at,
    };
    match tree {
        Expr::Super(_, method, args) => {
            let part = walk_super(alloc, env, method.name, handled, wish, at, least, raised)?;
            let args = walk_args(alloc, args, env, locals, handled, least, raised)?;
            Ok((part, args))
        }
        Expr::Call(_, item, types, args) => {
            let part = walk_routine(
                alloc, item, types, env, locals, handled, wish, at, least, raised,
            )?;
            let args = walk_args(alloc, args, env, locals, handled, least, raised)?;
            Ok((part, args))
        }
        Expr::Method(_, of, method, args) => {
            let x = walk_expr(alloc, of, env, locals, handled, least, raised)?;
            let part = walk_method(
                alloc,
                env,
                is_self(of),
                x,
                method.name,
                handled,
                wish,
                at,
                least,
                raised,
            )?;
            let args = walk_args(alloc, args, env, locals, handled, least, raised)?;
            Ok((part, args))
        }
        Expr::Number(_, _)
        | Expr::Text(_, _)
        | Expr::True(_)
        | Expr::False(_)
        | Expr::PartSelf(_)
        | Expr::Item(_, _, _)
        | Expr::New(_, _, _)
        | Expr::NewArray(_, _, _, _)
        | Expr::GetByte(_)
        | Expr::Field(_, _, _)
        | Expr::Length(_, _)
        | Expr::Element(_, _, _)
        | Expr::Not(_, _)
        | Expr::Negative(_, _)
        | Expr::Binary(_, _, _, _) => unreachable!(),
    }
}

/// Judges expressions, in order: each with its type where it has one.
#[cycle(walk)]
pub fn walk_args(
    alloc: Global,
    list: &ExprList,
    env: &Env<'_>,
    locals: &LocalList,
    handled: &Handled<'_>,
    least: &mut Option<Failure>,
    raised: &mut Option<Failure>,
) -> Result<TypedList, AllocError>
    ensures typed { IfOk result (λ r. checks_of r ≡ typed_all (context_of env.now) (locals_of locals.now) (exprs_of list.now)) }
    ensures least { OnOk result (least.new ≡ lowest least.old (args_fail (context_of env.now) (locals_of locals.now) (exprs_of list.now))) }
    ensures raised { OnOk result (raised.new ≡ lowest raised.old (args_raise (context_of env.now) (locals_of locals.now) (handled_of handled.now) (exprs_of list.now))) }
{
    let mut done = TypedList::NoTyped;
    let mut rest = list;
    loop {
        match rest {
            ExprList::NoExpr => return Ok(done.turned(TypedList::NoTyped)),
            ExprList::MoreExpr(first, next) => {
                let typed = walk_expr(alloc, first, env, locals, handled, least, raised)?;
                done = TypedList::MoreTyped(typed, Box::new(alloc, done)?);
                rest = next;
            }
        }
    }
}
