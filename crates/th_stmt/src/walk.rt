//! Statements with others in them. docs/LANGUAGE.md, "Rules of statements", states their rules.
ghost use Rattle.std.specs.Prelude.{◌≡◌, ◌+◌, [], IfOk, OnOk, false, true};
ghost use Rattle.th_tree.specs.Trees.{for_stmt, while_stmt};
ghost use Rattle.th_tree.specs.View.{body_of, else_of, expr_of, formal_of, stmt_of, whens_of};
ghost use Rattle.th_type.specs.Failures.{lowest};
ghost use Rattle.th_scope.specs.View.{context_of, handled_of, locals_of};
ghost use Rattle.th_stmt_rules.specs.Bodies.{body_core, else_core, stmt_core, whens_core};
ghost use Rattle.th_stmt_rules.specs.Failing.{body_fails, else_fails, stmt_fails, whens_fail};
ghost use Rattle.th_stmt_rules.specs.Raising.{body_raises, else_raises, stmt_raises, whens_raise};
ghost use Rattle.th_stmt_rules.specs.Scopes.{after, body_locals, declares, else_locals, stmt_locals, whens_locals};
ghost use Rattle.th_stmt_forms.specs.View.{body_opt, else_opt, stmt_opt, whens_opt};
ghost use Rattle.th_stmt.specs.Branching.{is_branching};

use indexmap::IndexSet;
use std::alloc::{AllocError, Global};
use th_expr::place_at;
use th_meaning::{CoreBody, CoreElse, CoreStmt, CoreWhenList};
use th_scope::{Env, Handled, LocalList};
use th_stmt_forms::{
    begin_stmt, break_stmt, for_stmt, if_stmt, return_stmt, turned_body, turned_else, turned_onto,
    turned_whens, while_stmt, with_elseif, with_stmt, with_when,
};
use th_stmt_parts::{
    following, handled_by, is_there, leave, leave_all, leave_handler, result_of, walk_heading,
    walk_raise,
};
use th_stmt_simple::{
    walk_assign, walk_loop, walk_plain, walk_put_byte, walk_put_int, walk_put_text,
    walk_raise_value, walk_return_value, walk_truth, walk_var, walk_yield,
};
use th_tree::{Body, ElseTree, Expr, Formal, Stmt, WhenList};
use th_type::{Failure, demand};

/// The number of locals that were let into scope, with those that the statement declares.
fn entered_by(stmt: &Stmt, count: u32) -> Result<u32, AllocError>
    ensures { IfOk result (λ r. r ≡ count + declares (stmt_of stmt.now)) }
{
    if matches!(stmt, Stmt::Var(_, _, _)) {
        following(count)
    } else {
        Ok(count)
    }
}

/// Judges a statement, and lets the local that it declares into scope.
#[cycle(walk)]
#[tactic(auto, using(th_type::proofs::Least::lowest_append))]
pub fn walk_stmt(
    alloc: Global,
    tree: &Stmt,
    env: &Env<'_>,
    looping: bool,
    handled: &Handled<'_>,
    locals: &mut LocalList,
    next: &mut u32,
    least: &mut Option<Failure>,
    raised: &mut Option<Failure>,
) -> Result<Option<Box<CoreStmt>>, AllocError>
    ensures core { IfOk result (λ r. stmt_opt r ≡ stmt_core (context_of env.now) (locals_of locals.old) looping next.old (stmt_of tree.now)) }
    ensures scope { OnOk result (locals_of locals.new ≡ after (context_of env.now) (locals_of locals.old) next.old (stmt_of tree.now)) }
    ensures next { OnOk result (next.new ≡ next.old + stmt_locals (stmt_of tree.now)) }
    ensures least { OnOk result (least.new ≡ lowest least.old (stmt_fails (context_of env.now) (locals_of locals.old) looping next.old (stmt_of tree.now))) }
    ensures raised { OnOk result (raised.new ≡ lowest raised.old (stmt_raises (context_of env.now) (locals_of locals.old) (handled_of handled.now) next.old (stmt_of tree.now))) }
{
    match tree {
        Stmt::Var(_, formal, value) => walk_var(
            alloc, formal, value, env, handled, locals, next, least, raised,
        ),
        Stmt::Assign(_, target, value) => walk_assign(
            alloc, target, value, env, handled, &*locals, least, raised,
        ),
        Stmt::Plain(at, call) => walk_plain(
            alloc, call, *at, env, handled, &*locals, least, raised,
        ),
        Stmt::If(_, _, _, _) => walk_branching(
            alloc, tree, env, looping, handled, locals, next, least, raised,
        ),
        Stmt::While(_, test, body) => walk_while(
            alloc, body, test, env, handled, locals, next, least, raised,
        ),
        Stmt::For(at, formal, call, body) => walk_for(
            alloc, body, *at, formal, call, env, handled, locals, next, least, raised,
        ),
        Stmt::Break(at) => {
            demand(least, looping, 27, place_at(env, *at));
            break_stmt(alloc, looping)
        }
        Stmt::Return(at) => {
            let lawful = !is_there(&result_of(env.sig));
            demand(least, lawful, 27, place_at(env, *at));
            return_stmt(alloc, lawful)
        }
        Stmt::ReturnValue(at, value) => walk_return_value(
            alloc, value, *at, env, handled, &*locals, least, raised,
        ),
        Stmt::Yield(at, value) => walk_yield(
            alloc, value, *at, env, handled, &*locals, least, raised,
        ),
        Stmt::Raise(at, exception) => walk_raise(
            alloc, exception, *at, env, handled, &*locals, least, raised,
        ),
        Stmt::RaiseValue(at, exception, value) => walk_raise_value(
            alloc, exception, value, *at, env, handled, &*locals, least, raised,
        ),
        Stmt::Begin(_, _, _) => walk_branching(
            alloc, tree, env, looping, handled, locals, next, least, raised,
        ),
        Stmt::PutByte(_, value) => walk_put_byte(
            alloc, value, env, handled, &*locals, least, raised,
        ),
        Stmt::PutInt(_, value) => walk_put_int(alloc, value, env, handled, &*locals, least, raised),
        Stmt::PutString(_, value) => walk_put_text(
            alloc, value, env, handled, &*locals, least, raised,
        ),
    }
}

/// `if` or `begin`.
#[cycle(walk)]
#[tactic(auto, using(th_type::proofs::Least::lowest_append))]
fn walk_branching(
    alloc: Global,
    tree: &Stmt,
    env: &Env<'_>,
    looping: bool,
    handled: &Handled<'_>,
    locals: &mut LocalList,
    next: &mut u32,
    least: &mut Option<Failure>,
    raised: &mut Option<Failure>,
) -> Result<Option<Box<CoreStmt>>, AllocError>
    requires { is_branching (stmt_of tree.now) ≡ true }
    ensures core { IfOk result (λ r. stmt_opt r ≡ stmt_core (context_of env.now) (locals_of locals.old) looping next.old (stmt_of tree.now)) }
    ensures scope { OnOk result (locals_of locals.new ≡ locals_of locals.old) }
    ensures next { OnOk result (next.new ≡ next.old + stmt_locals (stmt_of tree.now)) }
    ensures least { OnOk result (least.new ≡ lowest least.old (stmt_fails (context_of env.now) (locals_of locals.old) looping next.old (stmt_of tree.now))) }
    ensures raised { OnOk result (raised.new ≡ lowest raised.old (stmt_raises (context_of env.now) (locals_of locals.old) (handled_of handled.now) next.old (stmt_of tree.now))) }
{
    match tree {
        Stmt::If(_, test, body, rest) => {
            let test = walk_truth(alloc, test, env, handled, &*locals, least, raised)?;
            let body = walk_body(
                alloc, body, env, looping, handled, locals, next, least, raised,
            )?;
            let rest = walk_else(
                alloc, rest, env, looping, handled, locals, next, least, raised,
            )?;
            if_stmt(alloc, test, body, rest)
        }
        Stmt::Begin(_, body, whens) => {
            let numbers = handled_by(alloc, whens, env, &*locals)?;
            let inner = Handled::Block(&numbers, &*handled);
            let body = walk_body(
                alloc, body, env, looping, &inner, locals, next, least, raised,
            )?;
            let whens = walk_whens(
                alloc, whens, env, looping, handled, locals, next, least, raised,
            )?;
            begin_stmt(alloc, body, whens)
        }
        Stmt::Var(_, _, _)
        | Stmt::Assign(_, _, _)
        | Stmt::Plain(_, _)
        | Stmt::While(_, _, _)
        | Stmt::For(_, _, _, _)
        | Stmt::Break(_)
        | Stmt::Return(_)
        | Stmt::ReturnValue(_, _)
        | Stmt::Yield(_, _)
        | Stmt::Raise(_, _)
        | Stmt::RaiseValue(_, _, _)
        | Stmt::PutByte(_, _)
        | Stmt::PutInt(_, _)
        | Stmt::PutString(_, _) => unreachable!(),
    }
}

/// `while`
#[cycle(walk)]
#[tactic(auto, using(th_type::proofs::Least::lowest_append))]
fn walk_while(
    alloc: Global,
    body: &Body,
    test: &Expr,
    env: &Env<'_>,
    handled: &Handled<'_>,
    locals: &mut LocalList,
    next: &mut u32,
    least: &mut Option<Failure>,
    raised: &mut Option<Failure>,
) -> Result<Option<Box<CoreStmt>>, AllocError>
    ensures core { IfOk result (λ r. stmt_opt r ≡ stmt_core (context_of env.now) (locals_of locals.old) false next.old (while_stmt 0 (expr_of test.now) (body_of body.now))) }
    ensures scope { OnOk result (locals_of locals.new ≡ locals_of locals.old) }
    ensures next { OnOk result (next.new ≡ next.old + stmt_locals (while_stmt 0 (expr_of test.now) (body_of body.now))) }
    ensures least { OnOk result (least.new ≡ lowest least.old (stmt_fails (context_of env.now) (locals_of locals.old) false next.old (while_stmt 0 (expr_of test.now) (body_of body.now)))) }
    ensures raised { OnOk result (raised.new ≡ lowest raised.old (stmt_raises (context_of env.now) (locals_of locals.old) (handled_of handled.now) next.old (while_stmt 0 (expr_of test.now) (body_of body.now)))) }
{
    let test = walk_truth(alloc, test, env, handled, &*locals, least, raised)?;
    let body = walk_body(alloc, body, env, true, handled, locals, next, least, raised)?;
    while_stmt(alloc, test, body)
}

/// `for` at a byte.
#[cycle(walk)]
#[tactic(auto, using(th_type::proofs::Least::lowest_append))]
fn walk_for(
    alloc: Global,
    body: &Body,
    at: u32,
    formal: &Formal,
    call: &Expr,
    env: &Env<'_>,
    handled: &Handled<'_>,
    locals: &mut LocalList,
    next: &mut u32,
    least: &mut Option<Failure>,
    raised: &mut Option<Failure>,
) -> Result<Option<Box<CoreStmt>>, AllocError>
    ensures core { IfOk result (λ r. stmt_opt r ≡ stmt_core (context_of env.now) (locals_of locals.old) false next.old (for_stmt at (formal_of formal.now) (expr_of call.now) (body_of body.now))) }
    ensures scope { OnOk result (locals_of locals.new ≡ locals_of locals.old) }
    ensures next { OnOk result (next.new ≡ next.old + stmt_locals (for_stmt at (formal_of formal.now) (expr_of call.now) (body_of body.now))) }
    ensures least { OnOk result (least.new ≡ lowest least.old (stmt_fails (context_of env.now) (locals_of locals.old) false next.old (for_stmt at (formal_of formal.now) (expr_of call.now) (body_of body.now)))) }
    ensures raised { OnOk result (raised.new ≡ lowest raised.old (stmt_raises (context_of env.now) (locals_of locals.old) (handled_of handled.now) next.old (for_stmt at (formal_of formal.now) (expr_of call.now) (body_of body.now)))) }
{
    let head = walk_loop(
        alloc, formal, call, at, env, handled, locals, next, least, raised,
    )?;
    let body = walk_body(alloc, body, env, true, handled, locals, next, least, raised)?;
    leave(locals);
    for_stmt(alloc, head, body)
}

/// Judges statements. The locals in scope are afterwards those of before.
#[cycle(walk)]
#[tactic(auto, using(crate::proofs::Onto::drop_after, crate::proofs::Walking::body_is, crate::proofs::Walking::fails_are, crate::proofs::Walking::raises_are))]
pub fn walk_body(
    alloc: Global,
    tree: &Body,
    env: &Env<'_>,
    looping: bool,
    handled: &Handled<'_>,
    locals: &mut LocalList,
    next: &mut u32,
    least: &mut Option<Failure>,
    raised: &mut Option<Failure>,
) -> Result<Option<CoreBody>, AllocError>
    ensures core { IfOk result (λ r. body_opt r ≡ body_core (context_of env.now) (locals_of locals.old) looping next.old (body_of tree.now)) }
    ensures scope { OnOk result (locals_of locals.new ≡ locals_of locals.old) }
    ensures next { OnOk result (next.new ≡ next.old + body_locals (body_of tree.now)) }
    ensures least { OnOk result (least.new ≡ lowest least.old (body_fails (context_of env.now) (locals_of locals.old) looping next.old (body_of tree.now))) }
    ensures raised { OnOk result (raised.new ≡ lowest raised.old (body_raises (context_of env.now) (locals_of locals.old) (handled_of handled.now) next.old (body_of tree.now))) }
{
    let mut done = Some(CoreBody::NoStmt);
    let mut entered: u32 = 0;
    let mut rest = tree;
    loop {
        match rest {
            Body::NoStmt => {
                leave_all(locals, entered);
                return Ok(turned_body(done));
            }
            Body::MoreStmt(first, others) => {
                let stmt = walk_stmt(
                    alloc, first, env, looping, handled, locals, next, least, raised,
                )?;
                entered = entered_by(first, entered)?;
                done = with_stmt(alloc, stmt, done)?;
                rest = others;
            }
        }
    }
}

/// Judges what follows the statements after a `then`.
#[cycle(walk)]
#[tactic(auto, using(crate::proofs::Walking::else_is, crate::proofs::Walking::else_fails_are, crate::proofs::Walking::else_raises_are))]
fn walk_else(
    alloc: Global,
    tree: &ElseTree,
    env: &Env<'_>,
    looping: bool,
    handled: &Handled<'_>,
    locals: &mut LocalList,
    next: &mut u32,
    least: &mut Option<Failure>,
    raised: &mut Option<Failure>,
) -> Result<Option<CoreElse>, AllocError>
    ensures core { IfOk result (λ r. else_opt r ≡ else_core (context_of env.now) (locals_of locals.old) looping next.old (else_of tree.now)) }
    ensures scope { OnOk result (locals_of locals.new ≡ locals_of locals.old) }
    ensures next { OnOk result (next.new ≡ next.old + else_locals (else_of tree.now)) }
    ensures least { OnOk result (least.new ≡ lowest least.old (else_fails (context_of env.now) (locals_of locals.old) looping next.old (else_of tree.now))) }
    ensures raised { OnOk result (raised.new ≡ lowest raised.old (else_raises (context_of env.now) (locals_of locals.old) (handled_of handled.now) next.old (else_of tree.now))) }
{
    let mut done = Some(CoreElse::NoElse);
    let mut rest = tree;
    loop {
        match rest {
            ElseTree::NoElse => return Ok(turned_else(done)),
            ElseTree::Else(body) => {
                let body = walk_body(
                    alloc, body, env, looping, handled, locals, next, least, raised,
                )?;
                return turned_onto(alloc, done, body);
            }
            ElseTree::Elseif(_, test, body, others) => {
                let test = walk_truth(alloc, test, env, handled, &*locals, least, raised)?;
                let body = walk_body(
                    alloc, body, env, looping, handled, locals, next, least, raised,
                )?;
                done = with_elseif(alloc, test, body, done)?;
                rest = others;
            }
        }
    }
}

/// Judges the handlers of a block.
#[cycle(walk)]
#[tactic(auto, using(crate::proofs::Onto::drop_handler, crate::proofs::Walking::whens_are, crate::proofs::Walking::whens_fails_are, crate::proofs::Walking::whens_raises_are))]
fn walk_whens(
    alloc: Global,
    tree: &WhenList,
    env: &Env<'_>,
    looping: bool,
    handled: &Handled<'_>,
    locals: &mut LocalList,
    next: &mut u32,
    least: &mut Option<Failure>,
    raised: &mut Option<Failure>,
) -> Result<Option<CoreWhenList>, AllocError>
    ensures core { IfOk result (λ r. whens_opt r ≡ whens_core (context_of env.now) (locals_of locals.old) looping [] next.old (whens_of tree.now)) }
    ensures scope { OnOk result (locals_of locals.new ≡ locals_of locals.old) }
    ensures next { OnOk result (next.new ≡ next.old + whens_locals (whens_of tree.now)) }
    ensures least { OnOk result (least.new ≡ lowest least.old (whens_fail (context_of env.now) (locals_of locals.old) looping [] next.old (whens_of tree.now))) }
    ensures raised { OnOk result (raised.new ≡ lowest raised.old (whens_raise (context_of env.now) (locals_of locals.old) (handled_of handled.now) next.old (whens_of tree.now))) }
{
    let mut done = Some(CoreWhenList::NoWhen);
    let mut seen = IndexSet::new(alloc);
    let mut rest = tree;
    loop {
        match rest {
            WhenList::NoWhen => return Ok(turned_whens(done)),
            WhenList::MoreWhen(at, exception, formal, body, others) => {
                let heading = walk_heading(
                    alloc, exception, *at, formal, env, &mut seen, locals, next, least,
                )?;
                let body = walk_body(
                    alloc, body, env, looping, handled, locals, next, least, raised,
                )?;
                leave_handler(formal, locals);
                done = with_when(alloc, heading, body, done)?;
                rest = others;
            }
        }
    }
}
