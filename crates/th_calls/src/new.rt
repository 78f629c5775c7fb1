//! `new C(..)`: the class that it names, and the object. docs/LANGUAGE.md, "Rules of expressions", states the rules.
ghost use Rattle.std.specs.Prelude.{◌≡◌, ◌++◌, map, IfOk, OnOk};
ghost use Rattle.th_tree.specs.View.{named_of};
ghost use Rattle.th_type.specs.Failures.{lowest, unless};
ghost use Rattle.th_type.specs.Types.{ty_of, tys_of};
ghost use Rattle.th_meaning.specs.Trees.{cast_expr, new_expr};
ghost use Rattle.th_meaning.specs.View.{cast_of, expr_of, exprs_of, supply_of};
ghost use Rattle.th_rules.specs.Callees.{args_ok, class_supplied, init_sig, signals_of};
ghost use Rattle.th_rules.specs.Cores.{core_types, name_at};
ghost use Rattle.th_rules.specs.Raising.{unhandled};
ghost use Rattle.th_rules.specs.Resolving.{class_fails, ref_place, resolved_class};
ghost use Rattle.th_scope.specs.View.{context_of, handled_of, locals_of, use_opt};
ghost use Rattle.th_calls.specs.New.{class_cast, is_made, made_new, made_with, new_of, new_opt, new_sig, new_use};
ghost use Rattle.th_typed.specs.View.{checks_of, givens_of, typed_opt};

use crate::callee::judge_signals;
use std::alloc::{AllocError, Global};
use th_meaning::{CoreCast, CoreExpr, CoreExprList, CoreSupply};
use th_scope::{
    ClassPart, Env, Handled, LocalList, core_type, core_types, sig_with, spelled, substituted,
    walk_class,
};
use th_supply::supplies_of;
use th_tree::{NameTable, NamedTree};
use th_type::{Failure, Place, Sig, Ty, TyList, demand};
use th_typed::{GivenAll, Typed, TypedList, are_fit};

/// The class of a new object: the number of its full name, its arguments, the type that it is for and the signature of its
/// initializer, both with the arguments substituted, and what stands for its where-clauses, None where they are not
/// satisfied.
#[derive(Drop)]
pub struct NewPart {
    pub full: u32,
    pub args: TyList,
    pub of: Ty,
    pub init: Sig,
    pub supplies: Option<Vec<CoreSupply>>,
}

/// The class of a new object, where there is a class.
fn new_part(
    alloc: Global,
    env: &Env<'_>,
    used: Option<ClassPart<'_>>,
) -> Result<Option<NewPart>, AllocError>
    ensures { IfOk result (λ r. new_opt r ≡ new_use (context_of env.now) (use_opt used.entry)) }
{
    let Some(ClassPart { full, class, args }) = used else {
        return Ok(None);
    };
    let of = substituted(alloc, &class.of, &args)?;
    let init = sig_with(alloc, &class.init, &args)?;
    let supplies = supplies_of(alloc, env, &args, &class.clauses)?;
    Ok(Some(NewPart {
        full,
        args,
        of,
        init,
        supplies,
    }))
}

/// Whether the where-clauses of the class are satisfied, or there is no class.
fn is_met(part: &Option<NewPart>) -> bool
    ensures { result ≡ is_made (new_opt part.now) }
{
    match part {
        None => true,
        Some(part) => match &part.supplies {
            None => false,
            Some(_) => true,
        },
    }
}

/// Judges the exceptions that the initializer may raise.
fn judge_init_signals(
    raised: &mut Option<Failure>,
    handled: &Handled<'_>,
    part: &Option<NewPart>,
    at: Place,
)
    ensures { raised.new ≡ lowest raised.old (unhandled (handled_of handled.now) at (signals_of (new_sig (new_opt part.now)))) }
{
    if let Some(part) = part {
        judge_signals(raised, handled, part.init.signals.as_slice(), at);
    }
}

/// Judges the class of a new object.
#[tactic(auto, using(th_type::proofs::Least::lowest_append, crate::proofs::NewLaws::sig_is, crate::proofs::NewLaws::made_is))]
pub fn walk_new(
    alloc: Global,
    tree: &NamedTree,
    env: &Env<'_>,
    locals: &LocalList,
    handled: &Handled<'_>,
    at: Place,
    least: &mut Option<Failure>,
    raised: &mut Option<Failure>,
) -> Result<Option<NewPart>, AllocError>
    ensures part { IfOk result (λ r. new_opt r ≡ new_use (context_of env.now) (resolved_class (context_of env.now) (locals_of locals.now) (named_of tree.now))) }
    ensures sig { IfOk result (λ r. new_sig (new_opt r) ≡ init_sig (resolved_class (context_of env.now) (locals_of locals.now) (named_of tree.now))) }
    ensures least { OnOk result (least.new ≡ lowest least.old (class_fails (context_of env.now) (locals_of locals.now) (named_of tree.now) ++ unless (class_supplied (context_of env.now) (resolved_class (context_of env.now) (locals_of locals.now) (named_of tree.now))) 17 (ref_place (context_of env.now) tree.now.item))) }
    ensures raised { OnOk result (raised.new ≡ lowest raised.old (unhandled (handled_of handled.now) at (signals_of (init_sig (resolved_class (context_of env.now) (locals_of locals.now) (named_of tree.now)))))) }
{
    let item_at = Place {
        text: env.text,
        at: tree.item.first.at,
    };
    let used = walk_class(alloc, tree, &*env, &*locals, least)?;
    let part = new_part(alloc, env, used)?;
    demand(least, is_met(&part), 17, item_at);
    judge_init_signals(raised, handled, &part, at);
    Ok(part)
}

/// The new object of a class, as one of the class.
fn new_core(
    alloc: Global,
    names: &NameTable,
    full: u32,
    args: &TyList,
    supplies: Vec<CoreSupply>,
    given: CoreExprList,
) -> Result<CoreExpr, AllocError>
    ensures { IfOk result (λ e. expr_of e ≡ new_expr (name_at names.now full) (core_types names.now (tys_of args.now)) (map supply_of supplies.items) (exprs_of given)) }
{
    let class = spelled(alloc, names, full)?;
    let types = core_types(alloc, args, names)?;
    Ok(CoreExpr::New(class, types, supplies, Box::new(alloc, given)?))
}

/// The cast of a new object of a class to the type that the class is for.
fn class_cast(
    alloc: Global,
    names: &NameTable,
    full: u32,
    args: TyList,
    of: &Ty,
) -> Result<CoreCast, AllocError>
    ensures { IfOk result (λ c. cast_of c ≡ class_cast names.now full (tys_of args) (ty_of of.now)) }
{
    let to = core_type(alloc, of, names)?;
    let class = Ty::Named(full, args);
    let from = core_type(alloc, &class, names)?;
    Ok(CoreCast { from, to })
}

/// The new object of a class, as one of the type that the class is for.
fn cast_core(
    alloc: Global,
    names: &NameTable,
    full: u32,
    args: TyList,
    of: &Ty,
    supplies: Vec<CoreSupply>,
    given: CoreExprList,
) -> Result<CoreExpr, AllocError>
    ensures { IfOk result (λ e. expr_of e ≡ cast_expr (class_cast names.now full (tys_of args) (ty_of of.now)) (new_expr (name_at names.now full) (core_types names.now (tys_of args)) (map supply_of supplies.items) (exprs_of given))) }
{
    let object = new_core(alloc, names, full, &args, supplies, given)?;
    let cast = class_cast(alloc, names, full, args, of)?;
    Ok(CoreExpr::Cast(cast, Box::new(alloc, object)?))
}

/// The new object with given arguments, as one of the type that its class is for.
fn made(
    alloc: Global,
    names: &NameTable,
    part: NewPart,
    given: GivenAll,
) -> Result<Option<Typed>, AllocError>
    ensures { IfOk result (λ r. typed_opt r ≡ made_with names.now (new_of part) (givens_of given)) }
{
    let NewPart {
        full,
        args,
        of,
        init: _,
        supplies,
    } = part;
    let Some(supplies) = supplies else {
        return Ok(None);
    };
    match given {
        GivenAll::Untyped => Ok(None),
        GivenAll::Misfit => Ok(None),
        GivenAll::Fits(given) => {
            let core = cast_core(alloc, names, full, args, &of, supplies, given)?;
            Ok(Some(Typed { core, ty: of }))
        }
    }
}

/// The new object of a class with arguments, each with its type where it has one. It judges whether they fit.
pub fn finish_new(
    alloc: Global,
    env: &Env<'_>,
    part: Option<NewPart>,
    args: TypedList,
    at: Place,
    least: &mut Option<Failure>,
) -> Result<Option<Typed>, AllocError>
    ensures typed { IfOk result (λ r. typed_opt r ≡ made_new (context_of env.now) (new_opt part) (checks_of args)) }
    ensures least { OnOk result (least.new ≡ lowest least.old (unless (args_ok (context_of env.now) (new_sig (new_opt part)) (checks_of args)) 22 at)) }
{
    let Some(part) = part else {
        return Ok(None);
    };
    let given = args.give_to(alloc, env, &part.init.formals)?;
    demand(least, are_fit(&given), 22, at);
    made(alloc, env.names, part, given)
}
