//! What handlers have before their statements. docs/LANGUAGE.md, "Rules of statements", states their rules.
ghost use Rattle.std.specs.Prelude.{◌≡◌, ◌+◌, IfOk, OnOk, drop, option_map};
ghost use Rattle.th_tree.specs.View.{formal_of, option_of};
ghost use Rattle.th_type.specs.Failures.{lowest};
ghost use Rattle.th_type.specs.Types.{ty_of};
ghost use Rattle.th_hier.specs.Views.{ty_opt};
ghost use Rattle.th_scope.specs.View.{binding_of, context_of, locals_of};
ghost use Rattle.th_stmt_rules.specs.Bodies.{agree, bare_heading, bound_heading, heading, variable_with, where_true};
ghost use Rattle.th_stmt_rules.specs.Exceptions.{exception_of, seen_with};
ghost use Rattle.th_stmt_rules.specs.Failing.{handler_fails, handler_fits};
ghost use Rattle.th_stmt_rules.specs.Scopes.{in_handler, variable_count};
ghost use Rattle.th_stmt_forms.specs.View.{heading_opt};
ghost use Rattle.th_stmt_parts.specs.View.{exception_opt};

use crate::exception::{
    Exception, argument_of, has_argument, is_bare, is_there, key_name, walk_exception,
};
use crate::handled::is_new;
use crate::local::{Declared, enter, following, leave, variable, walk_formal};
use crate::place::place_at;
use indexmap::IndexSet;
use std::alloc::{AllocError, Global};
use th_scope::{Env, LocalList};
use th_stmt_forms::Heading;
use th_stmt_rules::Key;
use th_tree::{ExcTree, Formal};
use th_type::{Failure, Ty, demand};

/// Whether the types are equal, where both are there.
fn agree(a: Option<&Ty>, b: &Option<Ty>) -> bool
    ensures { result ≡ agree (option_map (λ t. ty_of t.now) a.entry) (option_map ty_of b.now) }
{
    match a {
        None => true,
        Some(a) => match b {
            None => true,
            Some(b) => a.is_same(b),
        },
    }
}

/// The heading of a handler without a variable, where it is lawful; `new` says whether no earlier handler of the block is for
/// its exception.
fn bare_heading(
    alloc: Global,
    env: &Env<'_>,
    new: bool,
    x: &Option<Exception<'_>>,
) -> Result<Option<Heading>, AllocError>
    ensures { IfOk result (λ r. heading_opt r ≡ bare_heading (context_of env.now) new (exception_opt x.now)) }
{
    let Some(x) = x else {
        return Ok(None);
    };
    if new && !is_there(&x.argument) {
        let name = key_name(alloc, env, x.key)?;
        Ok(Some(Heading {
            name,
            variable: None,
        }))
    } else {
        Ok(None)
    }
}

/// The heading of a handler with a variable, where it is lawful.
fn bound_heading(
    alloc: Global,
    env: &Env<'_>,
    new: bool,
    x: &Option<Exception<'_>>,
    declared: &Declared,
) -> Result<Option<Heading>, AllocError>
    ensures { IfOk result (λ r. heading_opt r ≡ bound_heading (context_of env.now) new (exception_opt x.now) (binding_of declared.now.local).of
        (where_true declared.now.fresh (variable_with (context_of env.now) (binding_of declared.now.local).index (binding_of declared.now.local).of))) }
{
    let Some(x) = x else {
        return Ok(None);
    };
    let Some(variable) = variable(alloc, env, declared)? else {
        return Ok(None);
    };
    if new && is_there(&x.argument) && agree(x.argument, &declared.local.ty) {
        let name = key_name(alloc, env, x.key)?;
        Ok(Some(Heading {
            name,
            variable: Some(variable),
        }))
    } else {
        Ok(None)
    }
}

/// Whether a handler has a variable exactly where its exception has an argument.
fn handler_fits(x: &Option<Exception<'_>>, variable: &Option<Formal>) -> bool
    ensures { result ≡ handler_fits (exception_opt x.now) (option_of formal_of variable.now) }
{
    match variable {
        None => is_bare(x),
        Some(_) => has_argument(x),
    }
}

/// Judges what a handler at a byte has before its statements, and lets its variable into scope.
#[tactic(auto, using(th_type::proofs::Least::lowest_append))]
pub fn walk_heading(
    alloc: Global,
    tree: &ExcTree,
    at: u32,
    formal: &Option<Formal>,
    env: &Env<'_>,
    seen: &mut IndexSet<Key>,
    locals: &mut LocalList,
    next: &mut u32,
    least: &mut Option<Failure>,
) -> Result<Option<Heading>, AllocError>
    ensures heading { IfOk result (λ r. heading_opt r ≡ heading (context_of env.now) (locals_of locals.old) next.old seen.old.keys (exception_of (context_of env.now) (locals_of locals.old) tree.now) (option_of formal_of formal.now)) }
    ensures seen { OnOk result (seen.new.keys ≡ seen_with (exception_of (context_of env.now) (locals_of locals.old) tree.now) seen.old.keys) }
    ensures scope { OnOk result (locals_of locals.new ≡ in_handler (context_of env.now) (locals_of locals.old) next.old (option_of formal_of formal.now)) }
    ensures next { OnOk result (next.new ≡ next.old + variable_count (option_of formal_of formal.now)) }
    ensures least { OnOk result (least.new ≡ lowest least.old (handler_fails (context_of env.now) (locals_of locals.old) seen.old.keys at tree.now (option_of formal_of formal.now))) }
{
    let x = walk_exception(tree, &*env, &*locals, least);
    let new = is_new(&x, seen)?;
    demand(least, new, 9, place_at(env, at));
    demand(least, handler_fits(&x, formal), 9, place_at(env, at));
    match formal {
        None => bare_heading(alloc, env, new, &x),
        Some(formal) => {
            let declared = walk_formal(alloc, formal, *next, env, &*locals, least)?;
            demand(
                least,
                agree(argument_of(&x), &declared.local.ty),
                9,
                place_at(env, at),
            );
            let heading = bound_heading(alloc, env, new, &x, &declared)?;
            *next = following(*next)?;
            enter(alloc, locals, declared.local)?;
            Ok(heading)
        }
    }
}

/// Takes the variable of a handler out of scope, where it has one.
pub fn leave_handler(formal: &Option<Formal>, locals: &mut LocalList)
    ensures { locals_of locals.new ≡ drop (variable_count (option_of formal_of formal.now)) (locals_of locals.old) }
{
    if formal.is_some() {
        leave(locals);
    }
}
