//! Conditions, and statements that put a value out. docs/LANGUAGE.md, "Rules of statements", states their rules.
ghost use Rattle.std.specs.Prelude.{◌≡◌, IfOk, OnOk, option_map};
ghost use Rattle.th_tree.specs.View.{expr_of};
ghost use Rattle.th_type.specs.Failures.{lowest};
ghost use Rattle.th_meaning.specs.Trees as core;
ghost use Rattle.th_rules.specs.Raising.{raises};
ghost use Rattle.th_rules.specs.Typing.{is_bool, is_int, is_text, typed};
ghost use Rattle.th_scope.specs.View.{context_of, handled_of, locals_of};
ghost use Rattle.th_stmt_rules.specs.Bodies.{tested};
ghost use Rattle.th_stmt_rules.specs.Failing.{tested_fails};
ghost use Rattle.th_stmt_forms.specs.View.{expr_opt, stmt_opt};

use crate::given::{number, text, truth};
use std::alloc::{AllocError, Global};
use th_expr::{ok_bool, ok_int, ok_text, place_at, start, walk_expr};
use th_meaning::{CoreExpr, CoreStmt};
use th_scope::{Env, Handled, LocalList};
use th_stmt_forms::{put_byte, put_int, put_text};
use th_tree::Expr;
use th_type::{Failure, demand};

/// A truth value.
#[tactic(auto, using(th_type::proofs::Least::lowest_append))]
pub fn walk_truth(
    alloc: Global,
    tree: &Expr,
    env: &Env<'_>,
    handled: &Handled<'_>,
    locals: &LocalList,
    least: &mut Option<Failure>,
    raised: &mut Option<Failure>,
) -> Result<Option<Box<CoreExpr>>, AllocError>
    ensures core { IfOk result (λ r. expr_opt r ≡ tested is_bool (typed (context_of env.now) (locals_of locals.now) (expr_of tree.now))) }
    ensures least { OnOk result (least.new ≡ lowest least.old (tested_fails (context_of env.now) (locals_of locals.now) is_bool (expr_of tree.now))) }
    ensures raised { OnOk result (raised.new ≡ lowest raised.old (raises (context_of env.now) (locals_of locals.now) (handled_of handled.now) (expr_of tree.now))) }
{
    let x = walk_expr(alloc, tree, env, locals, handled, least, raised)?;
    demand(least, ok_bool(&x), 21, place_at(env, start(tree)));
    truth(alloc, x)
}

/// A number.
#[tactic(auto, using(th_type::proofs::Least::lowest_append))]
fn walk_number(
    alloc: Global,
    tree: &Expr,
    env: &Env<'_>,
    handled: &Handled<'_>,
    locals: &LocalList,
    least: &mut Option<Failure>,
    raised: &mut Option<Failure>,
) -> Result<Option<Box<CoreExpr>>, AllocError>
    ensures core { IfOk result (λ r. expr_opt r ≡ tested is_int (typed (context_of env.now) (locals_of locals.now) (expr_of tree.now))) }
    ensures least { OnOk result (least.new ≡ lowest least.old (tested_fails (context_of env.now) (locals_of locals.now) is_int (expr_of tree.now))) }
    ensures raised { OnOk result (raised.new ≡ lowest raised.old (raises (context_of env.now) (locals_of locals.now) (handled_of handled.now) (expr_of tree.now))) }
{
    let x = walk_expr(alloc, tree, env, locals, handled, least, raised)?;
    demand(least, ok_int(&x), 21, place_at(env, start(tree)));
    number(alloc, x)
}

/// `put_byte(e);`
pub fn walk_put_byte(
    alloc: Global,
    tree: &Expr,
    env: &Env<'_>,
    handled: &Handled<'_>,
    locals: &LocalList,
    least: &mut Option<Failure>,
    raised: &mut Option<Failure>,
) -> Result<Option<Box<CoreStmt>>, AllocError>
    ensures core { IfOk result (λ r. stmt_opt r ≡ option_map core.put_byte_stmt (tested is_int (typed (context_of env.now) (locals_of locals.now) (expr_of tree.now)))) }
    ensures least { OnOk result (least.new ≡ lowest least.old (tested_fails (context_of env.now) (locals_of locals.now) is_int (expr_of tree.now))) }
    ensures raised { OnOk result (raised.new ≡ lowest raised.old (raises (context_of env.now) (locals_of locals.now) (handled_of handled.now) (expr_of tree.now))) }
{
    let value = walk_number(alloc, tree, env, handled, locals, least, raised)?;
    put_byte(alloc, value)
}

/// `put_int(e);`
pub fn walk_put_int(
    alloc: Global,
    tree: &Expr,
    env: &Env<'_>,
    handled: &Handled<'_>,
    locals: &LocalList,
    least: &mut Option<Failure>,
    raised: &mut Option<Failure>,
) -> Result<Option<Box<CoreStmt>>, AllocError>
    ensures core { IfOk result (λ r. stmt_opt r ≡ option_map core.put_int_stmt (tested is_int (typed (context_of env.now) (locals_of locals.now) (expr_of tree.now)))) }
    ensures least { OnOk result (least.new ≡ lowest least.old (tested_fails (context_of env.now) (locals_of locals.now) is_int (expr_of tree.now))) }
    ensures raised { OnOk result (raised.new ≡ lowest raised.old (raises (context_of env.now) (locals_of locals.now) (handled_of handled.now) (expr_of tree.now))) }
{
    let value = walk_number(alloc, tree, env, handled, locals, least, raised)?;
    put_int(alloc, value)
}

/// `put_string(e);`
#[tactic(auto, using(th_type::proofs::Least::lowest_append))]
pub fn walk_put_text(
    alloc: Global,
    tree: &Expr,
    env: &Env<'_>,
    handled: &Handled<'_>,
    locals: &LocalList,
    least: &mut Option<Failure>,
    raised: &mut Option<Failure>,
) -> Result<Option<Box<CoreStmt>>, AllocError>
    ensures core { IfOk result (λ r. stmt_opt r ≡ option_map core.put_text_stmt (tested is_text (typed (context_of env.now) (locals_of locals.now) (expr_of tree.now)))) }
    ensures least { OnOk result (least.new ≡ lowest least.old (tested_fails (context_of env.now) (locals_of locals.now) is_text (expr_of tree.now))) }
    ensures raised { OnOk result (raised.new ≡ lowest raised.old (raises (context_of env.now) (locals_of locals.now) (handled_of handled.now) (expr_of tree.now))) }
{
    let x = walk_expr(alloc, tree, env, locals, handled, least, raised)?;
    demand(least, ok_text(&x), 21, place_at(env, start(tree)));
    let value = text(alloc, x)?;
    put_text(alloc, value)
}
