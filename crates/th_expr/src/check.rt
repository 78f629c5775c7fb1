//! Expressions and calls with their rules judged. docs/LANGUAGE.md, "Rules of expressions", states the rules, and "Which failure is named" the order.
ghost use Rattle.std.specs.Prelude.{◌≡◌, MatchResult, Some};
ghost use Rattle.th_tree.specs.View.{expr_of as tree_of};
ghost use Rattle.th_type.specs.Failures.{place};
ghost use Rattle.th_type.specs.Signatures.{sig_of};
ghost use Rattle.th_type.specs.Types.{ty_of};
ghost use Rattle.th_meaning.specs.View.{call_of, expr_of};
ghost use Rattle.th_rules.specs.AllTyped.{AllTyped};
ghost use Rattle.th_rules.specs.Callees.{as_call, called, checked};
ghost use Rattle.th_rules.specs.Failing.{call_fails, fails, start};
ghost use Rattle.th_rules.specs.Typing.{typed, typed_call};
ghost use Rattle.th_scope.specs.View.{context_of, locals_of};
ghost use Rattle.th_expr.specs.Refusals.{RefusedBy};

use crate::call::walk_call;
use crate::place::{place_at, start};
use crate::walk::walk_expr;
use std::alloc::Global;
use th_calls::{CalledPart, Wish};
use th_meaning::{CoreCall, CoreExpr};
use th_scope::{Env, Handled, Signals};
use th_tree::Expr;
use th_type::{Sig, Ty};
use th_typed::Typed;
use thiserror::Error;

/// Why an expression or a call has no checked tree: a rule that fails, by its number, and the byte where; or there is no memory.
#[derive(Debug, Drop, Error)]
pub enum RuleError {
    #[error("rule {number} at {at}")]
    Rule { number: u32, at: u32 },
    #[error("out of memory")]
    Memory,
}

/// The checked tree and the type of an expression where the unit's locals are in scope; every cast and supply is written in
/// it. `Rule` names the least failure in the expression, but for those of the rule on exceptions that nothing handles.
#[tactic(auto, using(crate::proofs::Refusing::expr_not_refused))]
pub fn check_expr(alloc: Global, env: &Env<'_>, tree: &Expr) -> Result<(CoreExpr, Ty), RuleError>
    requires { AllTyped (locals_of env.now.locals) }
    ensures { MatchResult result (λ r. typed (context_of env.now) (locals_of env.now.locals) (tree_of tree.now) ≡ Some (checked (expr_of r.0) (ty_of r.1))) (λ e. RefusedBy (fails (context_of env.now) (locals_of env.now.locals) (tree_of tree.now)) e) }
{
    let mut least = None;
    let mut raised = None;
    let signals = Signals::new(alloc);
    let handled = Handled::Listed(&signals);
    let found = match walk_expr(
        alloc,
        tree,
        env,
        &env.locals,
        &handled,
        &mut least,
        &mut raised,
    ) {
        Ok(found) => found,
        Err(_) => return Err(RuleError::Memory),
    };
    match least {
        Some(failure) => Err(RuleError::Rule {
            number: failure.rule,
            at: failure.place.at,
        }),
        None => match found {
            Some(Typed { core, ty }) => Ok((core, ty)),
            None => unreachable!(),
        },
    }
}

/// The checked tree of a call that is a statement or stands after `in`, and the signature of what it calls, with arguments
/// substituted. `Rule` names the least failure in the call, but for those of the rule on exceptions that nothing handles; an
/// expression that is no call fails the rule on what has a value, at its first byte.
#[tactic(auto, using(crate::proofs::Refusing::call_not_refused))]
pub fn check_call(alloc: Global, env: &Env<'_>, tree: &Expr) -> Result<(CoreCall, Sig), RuleError>
    requires { AllTyped (locals_of env.now.locals) }
    ensures { MatchResult result (λ r. typed_call (context_of env.now) (locals_of env.now.locals) (tree_of tree.now) ≡ Some (called (call_of r.0) (sig_of r.1))) (λ e. RefusedBy (call_fails (context_of env.now) (locals_of env.now.locals) as_call (place env.now.text (start (tree_of tree.now))) (tree_of tree.now)) e) }
{
    let mut least = None;
    let mut raised = None;
    let signals = Signals::new(alloc);
    let handled = Handled::Listed(&signals);
    let at = place_at(env, start(tree));
    let found = match walk_call(
        alloc,
        tree,
        env,
        &env.locals,
        &handled,
        Wish::Call,
        at,
        at,
        &mut least,
        &mut raised,
    ) {
        Ok(found) => found,
        Err(_) => return Err(RuleError::Memory),
    };
    match least {
        Some(failure) => Err(RuleError::Rule {
            number: failure.rule,
            at: failure.place.at,
        }),
        None => match found {
            Some(CalledPart { core, sig }) => Ok((core, sig)),
            None => unreachable!(),
        },
    }
}
