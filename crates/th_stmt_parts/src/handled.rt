//! Which exceptions are handled where. docs/LANGUAGE.md, "Rules of statements", states the rule.
ghost use Rattle.std.specs.Prelude.{◌≡◌, IfOk, OnOk, not};
ghost use Rattle.th_tree.specs.View.{whens_of};
ghost use Rattle.th_type.specs.Failures.{lowest};
ghost use Rattle.th_hier.specs.Naming.{with_numbers};
ghost use Rattle.th_rules.specs.Raising.{unhandled};
ghost use Rattle.th_scope.specs.View.{context_of, handled_of, locals_of};
ghost use Rattle.th_stmt_rules.specs.Exceptions.{exception_number, exception_of, handled_by, has_key, is_new, key_number, seen_with, with_key};
ghost use Rattle.th_stmt_parts.specs.View.{exception_opt};

use crate::exception::{Exception, exception_of};
use indexmap::IndexSet;
use std::alloc::{AllocError, Global};
use th_hier::Numbers;
use th_scope::{Env, Handled, LocalList};
use th_stmt_rules::Key;
use th_tree::{ExcTree, WhenList};
use th_type::{Failure, Place, demand};

/// Judges that a raised exception is handled or listed, where there is one that is declared.
#[tactic(auto, using(th_type::proofs::Least::lowest_append))]
pub fn judge_raised(
    x: &Option<Exception<'_>>,
    at: Place,
    handled: &Handled<'_>,
    raised: &mut Option<Failure>,
)
    ensures { raised.new ≡ lowest raised.old (unhandled (handled_of handled.now) at (exception_number (exception_opt x.now))) }
{
    let Some(x) = x else {
        return;
    };
    match x.key {
        Key::Declared(number) => demand(raised, handled.has(number), 30, at),
        Key::Overflow => {}
        Key::ZeroDivide => {}
        Key::Bounds => {}
        Key::EndOfInput => {}
    }
}

/// Adds the exception that a handler handles, where it is declared.
fn add_handled(
    tree: &ExcTree,
    env: &Env<'_>,
    locals: &LocalList,
    found: &mut Numbers,
) -> Result<(), AllocError>
    ensures { OnOk result (found.new ≡ with_numbers found.old (exception_number (exception_of (context_of env.now) (locals_of locals.now) tree.now))) }
{
    let Some(x) = exception_of(tree, &*env, &*locals) else {
        return Ok(());
    };
    match x.key {
        Key::Declared(number) => {
            found.add(number)?;
        }
        Key::Overflow => {}
        Key::ZeroDivide => {}
        Key::Bounds => {}
        Key::EndOfInput => {}
    }
    Ok(())
}

/// The declared exceptions that the handlers handle.
#[tactic(auto, using(crate::proofs::Onto::with_numbers_append))]
pub fn handled_by(
    alloc: Global,
    whens: &WhenList,
    env: &Env<'_>,
    locals: &LocalList,
) -> Result<Numbers, AllocError>
    ensures { IfOk result (λ r. r ≡ handled_by (context_of env.now) (locals_of locals.now) (whens_of whens.now)) }
{
    let mut found = Numbers::new(alloc);
    let mut rest = whens;
    while let WhenList::MoreWhen(_, tree, _, _, next) = rest {
        add_handled(tree, env, locals, &mut found)?;
        rest = next;
    }
    Ok(found)
}

/// Adds the exception, and says whether it is new.
fn add_seen(seen: &mut IndexSet<Key>, key: Key) -> Result<bool, AllocError>
    ensures new { IfOk result (λ new. new ≡ not (has_key seen.old.keys key)) }
    ensures seen { OnOk result (seen.new.keys ≡ with_key seen.old.keys key) }
{
    match seen.insert(key) {
        Ok(new) => Ok(new),
        Err(_) => Err(AllocError),
    }
}

/// Whether the exception is none of those that earlier handlers of the block name, and adds it to these.
pub fn is_new(x: &Option<Exception<'_>>, seen: &mut IndexSet<Key>) -> Result<bool, AllocError>
    ensures new { IfOk result (λ new. new ≡ is_new seen.old.keys (exception_opt x.now)) }
    ensures seen { OnOk result (seen.new.keys ≡ seen_with (exception_opt x.now) seen.old.keys) }
{
    let Some(x) = x else {
        return Ok(true);
    };
    add_seen(seen, x.key)
}
