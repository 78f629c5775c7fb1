//! Expressions that are to be calls: statements, and what stands after `in`.
ghost use Rattle.std.specs.Prelude.{◌≡◌, IfOk, OnOk};
ghost use Rattle.th_tree.specs.View.{expr_of};
ghost use Rattle.th_type.specs.Failures.{lowest};
ghost use Rattle.th_rules.specs.Failing.{call_fails};
ghost use Rattle.th_rules.specs.Raising.{call_raises};
ghost use Rattle.th_rules.specs.Typing.{typed_call};
ghost use Rattle.th_scope.specs.View.{context_of, handled_of, locals_of};
ghost use Rattle.th_calls.specs.View.{called_opt, wish_of};
ghost use Rattle.th_expr.specs.View.{is_call};

use crate::place::{place_at, start};
use crate::walk::{walk_callee, walk_expr};
use std::alloc::{AllocError, Global};
use th_calls::{CalledPart, Wish, finish_call};
use th_scope::{Env, Handled, LocalList};
use th_tree::Expr;
use th_type::{Failure, Place, demand};

/// Whether the expression is a call.
fn is_call(tree: &Expr) -> bool
    ensures { result ≡ is_call (expr_of tree.now) }
{
    match tree {
        Expr::Super(_, _, _) | Expr::Call(_, _, _, _) | Expr::Method(_, _, _, _) => true,
        Expr::Number(_, _)
        | Expr::Text(_, _)
        | Expr::True(_)
        | Expr::False(_)
        | Expr::PartSelf(_)
        | Expr::Item(_, _, _)
        | Expr::New(_, _, _)
        | Expr::NewArray(_, _, _, _)
        | Expr::GetByte(_)
        | Expr::Field(_, _, _)
        | Expr::Length(_, _)
        | Expr::Element(_, _, _)
        | Expr::Not(_, _)
        | Expr::Negative(_, _)
        | Expr::Binary(_, _, _, _) => false,
    }
}

/// Judges an expression that is to be a call, there for what is wished: the checked call, whatever is wished, None where a
/// rule fails in it but for the one on what it is there for. The failure of that rule is at `wish_at`, and those of the call's
/// own exceptions are at `signals_at`.
#[tactic(auto, using(th_type::proofs::Least::lowest_append, crate::proofs::Calls::none_typed, crate::proofs::Calls::none_fails, crate::proofs::Calls::none_raises))]
pub fn walk_call(
    alloc: Global,
    tree: &Expr,
    env: &Env<'_>,
    locals: &LocalList,
    handled: &Handled<'_>,
    wish: Wish,
    wish_at: Place,
    signals_at: Place,
    least: &mut Option<Failure>,
    raised: &mut Option<Failure>,
) -> Result<Option<CalledPart>, AllocError>
    ensures called { IfOk result (λ r. called_opt r ≡ typed_call (context_of env.now) (locals_of locals.now) (expr_of tree.now)) }
    ensures least { OnOk result (least.new ≡ lowest least.old (call_fails (context_of env.now) (locals_of locals.now) (wish_of wish) wish_at (expr_of tree.now))) }
    ensures raised { OnOk result (raised.new ≡ lowest raised.old (call_raises (context_of env.now) (locals_of locals.now) (handled_of handled.now) signals_at (expr_of tree.now))) }
{
    if is_call(tree) {
        let (part, args) = walk_callee(
            alloc, tree, env, locals, handled, wish, wish_at, signals_at, least, raised,
        )?;
        return finish_call(alloc, env, part, args, place_at(env, start(tree)), least);
    }
    demand(least, false, 26, wish_at);
    let _ = walk_expr(alloc, tree, env, locals, handled, least, raised)?;
    Ok(None)
}
