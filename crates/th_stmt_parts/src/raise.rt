//! `raise` without an argument. docs/LANGUAGE.md, "Rules of statements", states its rules.
ghost use Rattle.std.specs.Prelude.{◌≡◌, ◌++◌, IfOk, OnOk};
ghost use Rattle.th_type.specs.Failures.{lowest, place, unless};
ghost use Rattle.th_rules.specs.Raising.{unhandled};
ghost use Rattle.th_scope.specs.View.{context_of, handled_of, locals_of};
ghost use Rattle.th_stmt_rules.specs.Bodies.{exception_name, raised as bare_raise};
ghost use Rattle.th_stmt_rules.specs.Exceptions.{exception_fails, exception_number, exception_of, is_bare};
ghost use Rattle.th_stmt_forms.specs.View.{stmt_opt};
ghost use Rattle.th_stmt_parts.specs.View.{exception_opt};

use crate::exception::{Exception, is_bare, is_there, key_name, walk_exception};
use crate::handled::judge_raised;
use crate::place::place_at;
use std::alloc::{AllocError, Global};
use th_meaning::CoreStmt;
use th_scope::{Env, Handled, LocalList};
use th_tree::{ExcTree, Name};
use th_type::{Failure, demand};

/// `raise x;`, where there is an exception without an argument.
fn raise_bare(
    alloc: Global,
    env: &Env<'_>,
    x: &Option<Exception<'_>>,
) -> Result<Option<Box<CoreStmt>>, AllocError>
    ensures { IfOk result (λ r. stmt_opt r ≡ bare_raise (context_of env.now) (exception_opt x.now)) }
{
    let Some(x) = x else {
        return Ok(None);
    };
    if !is_there(&x.argument) {
        let name = key_name(alloc, env, x.key)?;
        Ok(Some(Box::new(alloc, CoreStmt::Raise(name))?))
    } else {
        Ok(None)
    }
}

/// The full name of an exception that there may be.
pub fn exception_name(
    alloc: Global,
    env: &Env<'_>,
    x: &Option<Exception<'_>>,
) -> Result<Name, AllocError>
    ensures { IfOk result (λ n. n ≡ exception_name (context_of env.now) (exception_opt x.now)) }
{
    match x {
        None => Ok(Name::of(Vec::new(alloc))),
        Some(x) => key_name(alloc, env, x.key),
    }
}

/// `raise x;` at a byte.
#[tactic(auto, using(th_type::proofs::Least::lowest_append))]
pub fn walk_raise(
    alloc: Global,
    exception: &ExcTree,
    at: u32,
    env: &Env<'_>,
    handled: &Handled<'_>,
    locals: &LocalList,
    least: &mut Option<Failure>,
    raised: &mut Option<Failure>,
) -> Result<Option<Box<CoreStmt>>, AllocError>
    ensures core { IfOk result (λ r. stmt_opt r ≡ bare_raise (context_of env.now) (exception_of (context_of env.now) (locals_of locals.now) exception.now)) }
    ensures least { OnOk result (least.new ≡ lowest least.old (exception_fails (context_of env.now) (locals_of locals.now) exception.now
        ++ unless (is_bare (exception_of (context_of env.now) (locals_of locals.now) exception.now)) 9 (place (context_of env.now).text at))) }
    ensures raised { OnOk result (raised.new ≡ lowest raised.old (unhandled (handled_of handled.now) (place (context_of env.now).text at) (exception_number (exception_of (context_of env.now) (locals_of locals.now) exception.now)))) }
{
    let x = walk_exception(exception, &*env, &*locals, least);
    demand(least, is_bare(&x), 9, place_at(env, at));
    judge_raised(&x, place_at(env, at), handled, raised);
    raise_bare(alloc, env, &x)
}
