//! The checker of bodies. docs/LANGUAGE.md, "Rules of statements", states their rules.
ghost use Rattle.std.specs.Prelude.{◌≡◌, IfOk, MatchResult, OnOk, Some, false, length};
ghost use Rattle.th_tree.specs.View.{body_of as tree_of};
ghost use Rattle.th_type.specs.Failures.{lowest};
ghost use Rattle.th_rules.specs.AllTyped.{AllTyped};
ghost use Rattle.th_meaning.specs.View.{body_of};
ghost use Rattle.th_scope.specs.View.{context_of, locals_of};
ghost use Rattle.th_stmt_rules.specs.Bodies.{body_core};
ghost use Rattle.th_stmt_rules.specs.Units.{unit_core, unit_fails};
ghost use Rattle.th_stmt.specs.Refusals.{BodyRefused, lower_opt};
ghost use Rattle.th_stmt_forms.specs.View.{body_opt};

use crate::walk::walk_body;
use std::alloc::{AllocError, Global};
use th_expr::RuleError;
use th_meaning::CoreBody;
use th_scope::{Env, Handled, Signals};
use th_stmt_parts::copied;
use th_tree::Body;
use th_type::{Failure, demand};

/// The failure that is kept of the one so far and a further one that there may be.
fn merge(least: &mut Option<Failure>, other: Option<Failure>)
    ensures { least.new ≡ lower_opt least.old other }
{
    match other {
        None => {}
        Some(failure) => demand(least, false, failure.rule, failure.place),
    }
}

/// Judges the body of a unit whose formals are the locals of `env`, but for the rule on its end.
pub fn walk_unit(
    alloc: Global,
    tree: &Body,
    env: &Env<'_>,
    least: &mut Option<Failure>,
) -> Result<Option<CoreBody>, AllocError>
    ensures core { IfOk result (λ r. body_opt r ≡ body_core (context_of env.now) (locals_of env.now.locals) false (length (locals_of env.now.locals)) (tree_of tree.now)) }
    ensures least { OnOk result (least.new ≡ lowest least.old (unit_fails (context_of env.now) (locals_of env.now.locals) (tree_of tree.now))) }
{
    let (mut locals, mut next) = copied(alloc, &env.locals)?;
    let signals = Signals::of(alloc, env.sig.signals.as_slice())?;
    let handled = Handled::Listed(&signals);
    let mut raised = None;
    let body = walk_body(
        alloc,
        tree,
        env,
        false,
        &handled,
        &mut locals,
        &mut next,
        least,
        &mut raised,
    )?;
    merge(least, raised);
    Ok(body)
}

/// The checked tree of the body of a unit whose formals are the locals of `env`, each with a type; or the least failure of a
/// rule in it, but for the rule on the end of a body, which the unit's name has the place of.
#[tactic(auto, using(crate::proofs::Refused::accepted))]
pub fn check_body(alloc: Global, env: &Env<'_>, tree: &Body) -> Result<CoreBody, RuleError>
    requires { AllTyped (locals_of env.now.locals) }
    ensures { MatchResult result (λ b. unit_core (context_of env.now) (locals_of env.now.locals) (tree_of tree.now) ≡ Some (body_of b)) (λ e. BodyRefused (context_of env.now) (locals_of env.now.locals) (tree_of tree.now) e) }
{
    let mut least = None;
    let found = match walk_unit(alloc, tree, env, &mut least) {
        Ok(found) => found,
        Err(_) => return Err(RuleError::Memory),
    };
    match least {
        Some(failure) => Err(RuleError::Rule {
            number: failure.rule,
            at: failure.place.at,
        }),
        None => match found {
            Some(body) => Ok(body),
            None => unreachable!(),
        },
    }
}
