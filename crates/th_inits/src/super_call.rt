//! The super call of an initializer.
ghost use Rattle.std.specs.Prelude.{◌≡◌, ◌++◌, map, Some, IfOk, OnOk};
ghost use Rattle.th_tree.specs.DeclView.{super_call_of};
ghost use Rattle.th_tree.specs.View.{exprs_of, option_of};
ghost use Rattle.th_type.specs.Failures.{lowest, place, unless};
ghost use Rattle.th_type.specs.Types.{tys_of};
ghost use Rattle.th_meaning.specs.Trees.{no_stmt};
ghost use Rattle.th_hier.specs.Views.{sig_opt};
ghost use Rattle.th_rules.specs.Callees.{args_ok, signals_of};
ghost use Rattle.th_rules.specs.Raising.{args_raise, unhandled};
ghost use Rattle.th_module_rules.specs.Initializers.{inherited_init, super_call_fails, super_call_raises, super_stmt, super_stmt_of};
ghost use Rattle.th_scope.specs.View.{context_of, handled_of, locals_of};
ghost use Rattle.th_supply.specs.View.{supplies_opt};
ghost use Rattle.th_expr.specs.View.{checks_of, givens_of};
ghost use Rattle.th_stmt_forms.specs.View.{body_opt, stmt_opt};
ghost use Rattle.th_inits.specs.View.{above_of as above_is, above_opt};
ghost use Rattle.th_inits.specs.Supers.{arguments_given, begun, super_given};

use crate::above::{Above, init_above};
use std::alloc::{AllocError, Global};
use th_expr::{GivenAll, TypedList, place_at, walk_args};
use th_meaning::{CoreBody, CoreCall, CoreStmt, CoreSupply};
use th_scope::{Env, Handled, Signals, core_types, spelled};
use th_stmt_forms::{boxed, with_stmt};
use th_supply::supplies_of;
use th_tree::SuperCall;
use th_type::{Failure, Place, Sig, demand};
use th_typed::are_fit;

/// Judges exceptions that are signalled: each is handled or listed.
#[tactic(auto, using(th_type::proofs::Least::lowest_append))]
fn judge_signals(raised: &mut Option<Failure>, handled: &Handled<'_>, signals: &[u32], at: Place)
    ensures { raised.new ≡ lowest raised.old (unhandled (handled_of handled.now) at signals.now) }
{
    for number in signals {
        demand(raised, handled.has(*number), 30, at);
    }
}

/// Judges the exceptions of an initializer that there may be.
fn judge_init(raised: &mut Option<Failure>, handled: &Handled<'_>, init: &Option<Sig>, at: Place)
    ensures { raised.new ≡ lowest raised.old (unhandled (handled_of handled.now) at (signals_of (sig_opt init.now))) }
{
    if let Some(init) = init {
        judge_signals(raised, handled, init.signals.as_slice(), at);
    }
}

/// The arguments, given to the initializer of the class above where there is one, and whether they fit.
fn give_args(
    alloc: Global,
    env: &Env<'_>,
    init: Option<Sig>,
    args: TypedList,
    at: Place,
    least: &mut Option<Failure>,
) -> Result<GivenAll, AllocError>
    ensures given { IfOk result (λ r. givens_of r ≡ arguments_given (context_of env.now) (sig_opt init) (checks_of args)) }
    ensures least { OnOk result (least.new ≡ lowest least.old (unless (args_ok (context_of env.now) (sig_opt init) (checks_of args)) 22 at)) }
{
    let Some(init) = init else {
        return Ok(GivenAll::Untyped);
    };
    let given = args.give_to(alloc, env, &init.formals)?;
    demand(least, are_fit(&given), 22, at);
    Ok(given)
}

/// The super call, where the where-clauses of the class above are satisfied and the arguments fit.
fn super_stmt(
    alloc: Global,
    env: &Env<'_>,
    above: &Above<'_>,
    supplies: Option<Vec<CoreSupply>>,
    args: GivenAll,
) -> Result<Option<Box<CoreStmt>>, AllocError>
    ensures { IfOk result (λ r. stmt_opt r ≡ super_stmt (context_of env.now) (above_is above.now) (supplies_opt supplies) (givens_of args)) }
{
    let Some(supplies) = supplies else {
        return Ok(None);
    };
    match args {
        GivenAll::Untyped => Ok(None),
        GivenAll::Misfit => Ok(None),
        GivenAll::Fits(args) => {
            let name = spelled(alloc, env.names, above.full)?;
            let types = core_types(alloc, above.args, env.names)?;
            let args = Box::new(alloc, args)?;
            boxed(
                alloc,
                CoreStmt::Call(CoreCall::SuperInit(name, types, supplies, args)),
            )
        }
    }
}

/// The super call of the class above, where there is one, with these arguments.
fn super_given(
    alloc: Global,
    env: &Env<'_>,
    above: &Option<Above<'_>>,
    args: GivenAll,
) -> Result<Option<Box<CoreStmt>>, AllocError>
    ensures { IfOk result (λ r. stmt_opt r ≡ super_given (context_of env.now) (above_opt above.now) (givens_of args)) }
{
    let Some(above) = above else {
        return Ok(None);
    };
    let supplies = supplies_of(alloc, env, above.args, &above.class.clauses)?;
    super_stmt(alloc, env, above, supplies, args)
}

/// Judges a super call of an initializer that lists these exceptions.
#[tactic(auto, using(th_type::proofs::Least::lowest_append, crate::proofs::Supers::given_is))]
fn walk_call(
    alloc: Global,
    tree: &SuperCall,
    env: &Env<'_>,
    above: &Option<Above<'_>>,
    signals: &Signals,
    least: &mut Option<Failure>,
    raised: &mut Option<Failure>,
) -> Result<Option<Box<CoreStmt>>, AllocError>
    requires { signals.now ≡ (context_of env.now).sig.signals }
    ensures core { IfOk result (λ r. stmt_opt r ≡ super_stmt_of (context_of env.now) (locals_of env.now.locals) (above_opt above.now) (super_call_of tree.now)) }
    ensures least { OnOk result (least.new ≡ lowest least.old (super_call_fails (context_of env.now) (locals_of env.now.locals) (above_opt above.now) (Some (super_call_of tree.now)))) }
    ensures raised { OnOk result (raised.new ≡ lowest raised.old (super_call_raises (context_of env.now) (locals_of env.now.locals) (above_opt above.now) (Some (super_call_of tree.now)))) }
{
    let at = place_at(env, tree.at);
    let handled = Handled::Listed(signals);
    let init = init_above(alloc, above)?;
    judge_init(raised, &handled, &init, at);
    let args = walk_args(alloc, &tree.args, env, &env.locals, &handled, least, raised)?;
    let given = give_args(alloc, env, init, args, at, least)?;
    super_given(alloc, env, above, given)
}

/// Judges the super call of an initializer that lists these exceptions, where it has one: the statements that it begins with.
pub fn walk_super(
    alloc: Global,
    tree: &Option<SuperCall>,
    env: &Env<'_>,
    above: &Option<Above<'_>>,
    signals: &Signals,
    least: &mut Option<Failure>,
    raised: &mut Option<Failure>,
) -> Result<Option<CoreBody>, AllocError>
    requires { signals.now ≡ (context_of env.now).sig.signals }
    ensures core { IfOk result (λ r. body_opt r ≡ begun (context_of env.now) (locals_of env.now.locals) (above_opt above.now) (option_of super_call_of tree.now)) }
    ensures least { OnOk result (least.new ≡ lowest least.old (super_call_fails (context_of env.now) (locals_of env.now.locals) (above_opt above.now) (option_of super_call_of tree.now))) }
    ensures raised { OnOk result (raised.new ≡ lowest raised.old (super_call_raises (context_of env.now) (locals_of env.now.locals) (above_opt above.now) (option_of super_call_of tree.now))) }
{
    match tree {
        None => Ok(Some(CoreBody::NoStmt)),
        Some(call) => {
            let stmt = walk_call(alloc, call, env, above, signals, least, raised)?;
            with_stmt(alloc, stmt, Some(CoreBody::NoStmt))
        }
    }
}
