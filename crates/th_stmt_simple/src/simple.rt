//! Statements that assign, call, declare, leave and raise, and the heads of loops. docs/LANGUAGE.md, "Rules of statements", states their rules.
ghost use Rattle.std.specs.Prelude.{◌≡◌, ◌+◌, ◌∷◌, ◌++◌, IfOk, OnOk, is_some, option_map};
ghost use Rattle.th_tree.specs.View.{expr_of, formal_of};
ghost use Rattle.th_type.specs.Failures.{lowest, place, unless};
ghost use Rattle.th_type.specs.Types.{ty_of};
ghost use Rattle.th_meaning.specs.Trees as core;
ghost use Rattle.th_rules.specs.Callees.{as_iterator, as_procedure, fits, fitted, given_opt, wished};
ghost use Rattle.th_rules.specs.Failing.{call_fails, fails, start};
ghost use Rattle.th_rules.specs.Raising.{call_raises, raises, unhandled};
ghost use Rattle.th_rules.specs.Resolving.{resolved_type};
ghost use Rattle.th_rules.specs.Typing.{typed, typed_call};
ghost use Rattle.th_scope.specs.View.{context_of, handled_of, locals_of};
ghost use Rattle.th_expr.specs.View.{called_opt};
ghost use Rattle.th_stmt_rules.specs.Bodies.{assigned, both_parts, declared, done, exception_name, given_result, is_target, loop_cast, loop_head, result_of, type_of, where_true, with_given, yielded_of};
ghost use Rattle.th_stmt_rules.specs.Exceptions.{argument_of, exception_fails, exception_number, exception_of, has_argument};
ghost use Rattle.th_stmt_rules.specs.Failing.{formal_fails, value_fails};
ghost use Rattle.th_stmt_rules.specs.Scopes.{bound};
ghost use Rattle.th_stmt_forms.specs.View.{head_opt, stmt_opt};
ghost use Rattle.th_stmt_parts.specs.View.{given_cast};

use crate::give::{give_lent, give_result, give_target};
use crate::given::{
    assigned, done, iterator, loop_head, procedure, raise_value, return_value, var_stmt, yielded,
};
use crate::target::is_target;
use std::alloc::{AllocError, Global};
use th_expr::{CalledPart, Wish, give_opt, is_fit, place_at, start, walk_call, walk_expr};
use th_meaning::CoreStmt;
use th_scope::{Env, Handled, LocalList};
use th_stmt_forms::{LoopHead, only_if};
use th_stmt_parts::{
    GivenCast, argument_of, enter, exception_name, following, has_argument, is_cast_fit, is_there,
    judge_raised, result_of, variable, walk_exception, walk_formal, yield_cast, yielded_of,
};
use th_tree::{ExcTree, Expr, Formal};
use th_type::{Failure, Ty, demand};

/// `var n: T := e;`
#[tactic(auto, using(th_type::proofs::Least::lowest_append))]
pub fn walk_var(
    alloc: Global,
    formal: &Formal,
    tree: &Expr,
    env: &Env<'_>,
    handled: &Handled<'_>,
    locals: &mut LocalList,
    next: &mut u32,
    least: &mut Option<Failure>,
    raised: &mut Option<Failure>,
) -> Result<Option<Box<CoreStmt>>, AllocError>
    ensures core { IfOk result (λ r. stmt_opt r ≡ both_parts core.var_stmt (declared (context_of env.now) (locals_of locals.old) next.old (formal_of formal.now))
        (fitted (given_opt (context_of env.now) (resolved_type (context_of env.now) (locals_of locals.old) (formal_of formal.now).of) (typed (context_of env.now) (locals_of locals.old) (expr_of tree.now))))) }
    ensures scope { OnOk result (locals_of locals.new ≡ bound (context_of env.now) (locals_of locals.old) next.old (formal_of formal.now) ∷ locals_of locals.old) }
    ensures next { OnOk result (next.new ≡ next.old + 1) }
    ensures least { OnOk result (least.new ≡ lowest least.old (formal_fails (context_of env.now) (locals_of locals.old) (formal_of formal.now)
        ++ value_fails (context_of env.now) (locals_of locals.old) (resolved_type (context_of env.now) (locals_of locals.old) (formal_of formal.now).of) (expr_of tree.now))) }
    ensures raised { OnOk result (raised.new ≡ lowest raised.old (raises (context_of env.now) (locals_of locals.old) (handled_of handled.now) (expr_of tree.now))) }
{
    let declared = walk_formal(alloc, formal, *next, env, &*locals, least)?;
    let x = walk_expr(alloc, tree, env, &*locals, handled, least, raised)?;
    let value = give_opt(alloc, env, &declared.local.ty, x)?;
    demand(least, is_fit(&value), 23, place_at(env, start(tree)));
    let variable = variable(alloc, env, &declared)?;
    *next = following(*next)?;
    enter(alloc, locals, declared.local)?;
    var_stmt(alloc, variable, value)
}

/// `t := e;`
#[tactic(auto, using(th_type::proofs::Least::lowest_append))]
pub fn walk_assign(
    alloc: Global,
    target: &Expr,
    tree: &Expr,
    env: &Env<'_>,
    handled: &Handled<'_>,
    locals: &LocalList,
    least: &mut Option<Failure>,
    raised: &mut Option<Failure>,
) -> Result<Option<Box<CoreStmt>>, AllocError>
    ensures core { IfOk result (λ r. stmt_opt r ≡ where_true (is_target (context_of env.now) (locals_of locals.now) (expr_of target.now))
        (assigned (typed (context_of env.now) (locals_of locals.now) (expr_of target.now))
        (given_opt (context_of env.now) (type_of (typed (context_of env.now) (locals_of locals.now) (expr_of target.now))) (typed (context_of env.now) (locals_of locals.now) (expr_of tree.now))))) }
    ensures least { OnOk result (least.new ≡ lowest least.old (fails (context_of env.now) (locals_of locals.now) (expr_of target.now)
        ++ unless (is_target (context_of env.now) (locals_of locals.now) (expr_of target.now)) 23 (place (context_of env.now).text (start (expr_of target.now)))
        ++ value_fails (context_of env.now) (locals_of locals.now) (type_of (typed (context_of env.now) (locals_of locals.now) (expr_of target.now))) (expr_of tree.now))) }
    ensures raised { OnOk result (raised.new ≡ lowest raised.old (raises (context_of env.now) (locals_of locals.now) (handled_of handled.now) (expr_of target.now)
        ++ raises (context_of env.now) (locals_of locals.now) (handled_of handled.now) (expr_of tree.now))) }
{
    let to = walk_expr(alloc, target, env, locals, handled, least, raised)?;
    let lawful = is_target(target, &to, env, locals);
    demand(least, lawful, 23, place_at(env, start(target)));
    let x = walk_expr(alloc, tree, env, locals, handled, least, raised)?;
    let value = give_target(alloc, env, &to, x)?;
    demand(least, is_fit(&value), 23, place_at(env, start(tree)));
    let stmt = assigned(alloc, to, value)?;
    Ok(only_if(lawful, stmt))
}

/// An expression as a statement at a byte.
pub fn walk_plain(
    alloc: Global,
    tree: &Expr,
    at: u32,
    env: &Env<'_>,
    handled: &Handled<'_>,
    locals: &LocalList,
    least: &mut Option<Failure>,
    raised: &mut Option<Failure>,
) -> Result<Option<Box<CoreStmt>>, AllocError>
    ensures core { IfOk result (λ r. stmt_opt r ≡ done (wished as_procedure (typed_call (context_of env.now) (locals_of locals.now) (expr_of tree.now)))) }
    ensures least { OnOk result (least.new ≡ lowest least.old (call_fails (context_of env.now) (locals_of locals.now) as_procedure (place (context_of env.now).text at) (expr_of tree.now))) }
    ensures raised { OnOk result (raised.new ≡ lowest raised.old (call_raises (context_of env.now) (locals_of locals.now) (handled_of handled.now) (place (context_of env.now).text (start (expr_of tree.now))) (expr_of tree.now))) }
{
    let stmt_at = place_at(env, at);
    let call_at = place_at(env, start(tree));
    let call = walk_call(
        alloc,
        tree,
        env,
        locals,
        handled,
        Wish::Procedure,
        stmt_at,
        call_at,
        least,
        raised,
    )?;
    done(alloc, procedure(call))
}

/// `return e;` at a byte.
#[tactic(auto, using(th_type::proofs::Least::lowest_append))]
pub fn walk_return_value(
    alloc: Global,
    tree: &Expr,
    at: u32,
    env: &Env<'_>,
    handled: &Handled<'_>,
    locals: &LocalList,
    least: &mut Option<Failure>,
    raised: &mut Option<Failure>,
) -> Result<Option<Box<CoreStmt>>, AllocError>
    ensures core { IfOk result (λ r. stmt_opt r ≡ with_given core.return_value_stmt (given_result (context_of env.now) (result_of (context_of env.now).sig) (typed (context_of env.now) (locals_of locals.now) (expr_of tree.now)))) }
    ensures least { OnOk result (least.new ≡ lowest least.old (unless (is_some (result_of (context_of env.now).sig)) 27 (place (context_of env.now).text at)
        ++ fails (context_of env.now) (locals_of locals.now) (expr_of tree.now)
        ++ unless (fits (given_result (context_of env.now) (result_of (context_of env.now).sig) (typed (context_of env.now) (locals_of locals.now) (expr_of tree.now)))) 23 (place (context_of env.now).text (start (expr_of tree.now))))) }
    ensures raised { OnOk result (raised.new ≡ lowest raised.old (raises (context_of env.now) (locals_of locals.now) (handled_of handled.now) (expr_of tree.now))) }
{
    let ty = result_of(env.sig);
    demand(least, is_there(&ty), 27, place_at(env, at));
    let x = walk_expr(alloc, tree, env, locals, handled, least, raised)?;
    let value = give_result(alloc, env, ty, x)?;
    demand(least, is_fit(&value), 23, place_at(env, start(tree)));
    return_value(alloc, value)
}

/// `yield e;` at a byte.
#[tactic(auto, using(th_type::proofs::Least::lowest_append))]
pub fn walk_yield(
    alloc: Global,
    tree: &Expr,
    at: u32,
    env: &Env<'_>,
    handled: &Handled<'_>,
    locals: &LocalList,
    least: &mut Option<Failure>,
    raised: &mut Option<Failure>,
) -> Result<Option<Box<CoreStmt>>, AllocError>
    ensures core { IfOk result (λ r. stmt_opt r ≡ with_given core.yield_stmt (given_opt (context_of env.now) (yielded_of (context_of env.now).sig) (typed (context_of env.now) (locals_of locals.now) (expr_of tree.now)))) }
    ensures least { OnOk result (least.new ≡ lowest least.old (unless (is_some (yielded_of (context_of env.now).sig)) 27 (place (context_of env.now).text at)
        ++ value_fails (context_of env.now) (locals_of locals.now) (yielded_of (context_of env.now).sig) (expr_of tree.now))) }
    ensures raised { OnOk result (raised.new ≡ lowest raised.old (raises (context_of env.now) (locals_of locals.now) (handled_of handled.now) (expr_of tree.now))) }
{
    let ty = yielded_of(env.sig);
    demand(least, is_there(&ty), 27, place_at(env, at));
    let x = walk_expr(alloc, tree, env, locals, handled, least, raised)?;
    let value = give_lent(alloc, env, ty, x)?;
    demand(least, is_fit(&value), 23, place_at(env, start(tree)));
    yielded(alloc, value)
}

/// `raise x(e);` at a byte.
#[tactic(auto, using(th_type::proofs::Least::lowest_append))]
pub fn walk_raise_value(
    alloc: Global,
    exception: &ExcTree,
    tree: &Expr,
    at: u32,
    env: &Env<'_>,
    handled: &Handled<'_>,
    locals: &LocalList,
    least: &mut Option<Failure>,
    raised: &mut Option<Failure>,
) -> Result<Option<Box<CoreStmt>>, AllocError>
    ensures core { IfOk result (λ r. stmt_opt r ≡ with_given (core.raise_value_stmt (exception_name (context_of env.now) (exception_of (context_of env.now) (locals_of locals.now) exception.now)))
        (given_opt (context_of env.now) (argument_of (exception_of (context_of env.now) (locals_of locals.now) exception.now)) (typed (context_of env.now) (locals_of locals.now) (expr_of tree.now)))) }
    ensures least { OnOk result (least.new ≡ lowest least.old (exception_fails (context_of env.now) (locals_of locals.now) exception.now
        ++ unless (has_argument (exception_of (context_of env.now) (locals_of locals.now) exception.now)) 9 (place (context_of env.now).text at)
        ++ value_fails (context_of env.now) (locals_of locals.now) (argument_of (exception_of (context_of env.now) (locals_of locals.now) exception.now)) (expr_of tree.now))) }
    ensures raised { OnOk result (raised.new ≡ lowest raised.old (unhandled (handled_of handled.now) (place (context_of env.now).text at) (exception_number (exception_of (context_of env.now) (locals_of locals.now) exception.now))
        ++ raises (context_of env.now) (locals_of locals.now) (handled_of handled.now) (expr_of tree.now))) }
{
    let x = walk_exception(exception, &*env, &*locals, least);
    demand(least, has_argument(&x), 9, place_at(env, at));
    judge_raised(&x, place_at(env, at), handled, raised);
    let v = walk_expr(alloc, tree, env, locals, handled, least, raised)?;
    let value = give_lent(alloc, env, argument_of(&x), v)?;
    demand(least, is_fit(&value), 23, place_at(env, start(tree)));
    let name = exception_name(alloc, env, &x)?;
    raise_value(alloc, name, value)
}

/// The same, where the call and the variable have types.
fn loop_cast(
    alloc: Global,
    env: &Env<'_>,
    call: &Option<CalledPart>,
    ty: &Option<Ty>,
) -> Result<GivenCast, AllocError>
    ensures { IfOk result (λ r. given_cast r ≡ loop_cast (context_of env.now) (called_opt call.now) (option_map ty_of ty.now)) }
{
    let Some(call) = call else {
        return Ok(GivenCast::Untyped);
    };
    match ty {
        None => Ok(GivenCast::Untyped),
        Some(ty) => yield_cast(alloc, env, &call.sig.gives, ty),
    }
}

/// Judges what a `for` at a byte has before its statements, and lets its variable into scope.
#[tactic(auto, using(th_type::proofs::Least::lowest_append))]
pub fn walk_loop(
    alloc: Global,
    formal: &Formal,
    tree: &Expr,
    at: u32,
    env: &Env<'_>,
    handled: &Handled<'_>,
    locals: &mut LocalList,
    next: &mut u32,
    least: &mut Option<Failure>,
    raised: &mut Option<Failure>,
) -> Result<Option<Box<LoopHead>>, AllocError>
    ensures head { IfOk result (λ r. head_opt r ≡ loop_head (declared (context_of env.now) (locals_of locals.old) next.old (formal_of formal.now)) (wished as_iterator (typed_call (context_of env.now) (locals_of locals.old) (expr_of tree.now)))
        (loop_cast (context_of env.now) (wished as_iterator (typed_call (context_of env.now) (locals_of locals.old) (expr_of tree.now))) (resolved_type (context_of env.now) (locals_of locals.old) (formal_of formal.now).of))) }
    ensures scope { OnOk result (locals_of locals.new ≡ bound (context_of env.now) (locals_of locals.old) next.old (formal_of formal.now) ∷ locals_of locals.old) }
    ensures next { OnOk result (next.new ≡ next.old + 1) }
    ensures least { OnOk result (least.new ≡ lowest least.old (formal_fails (context_of env.now) (locals_of locals.old) (formal_of formal.now)
        ++ call_fails (context_of env.now) (locals_of locals.old) as_iterator (place (context_of env.now).text (start (expr_of tree.now))) (expr_of tree.now)
        ++ unless (fits (loop_cast (context_of env.now) (wished as_iterator (typed_call (context_of env.now) (locals_of locals.old) (expr_of tree.now)))
        (resolved_type (context_of env.now) (locals_of locals.old) (formal_of formal.now).of))) 26 (place (context_of env.now).text (start (expr_of tree.now))))) }
    ensures raised { OnOk result (raised.new ≡ lowest raised.old (call_raises (context_of env.now) (locals_of locals.old) (handled_of handled.now) (place (context_of env.now).text at) (expr_of tree.now))) }
{
    let declared = walk_formal(alloc, formal, *next, env, &*locals, least)?;
    let call_at = place_at(env, start(tree));
    let loop_at = place_at(env, at);
    let found = walk_call(
        alloc,
        tree,
        env,
        &*locals,
        handled,
        Wish::Iterator,
        call_at,
        loop_at,
        least,
        raised,
    )?;
    let call = iterator(found);
    let cast = loop_cast(alloc, env, &call, &declared.local.ty)?;
    demand(least, is_cast_fit(&cast), 26, call_at);
    let variable = variable(alloc, env, &declared)?;
    *next = following(*next)?;
    enter(alloc, locals, declared.local)?;
    loop_head(alloc, variable, call, cast)
}
