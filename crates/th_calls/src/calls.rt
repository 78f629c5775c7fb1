//! What calls of methods, of `super` and of routines call. docs/LANGUAGE.md, "Rules of expressions", states the rules.
ghost use Rattle.std.specs.Prelude.{◌≡◌, ◌++◌, true, Some, IfOk, OnOk, is_some};
ghost use Rattle.th_tree.specs.View.{types_of};
ghost use Rattle.th_type.specs.Failures.{lowest, unless};
ghost use Rattle.th_type.specs.Signatures.{sig_of, subst_sig};
ghost use Rattle.th_type.specs.Types.{list_of, tys_of};
ghost use Rattle.th_hier.specs.Resolve.{count};
ghost use Rattle.th_hier.specs.Views.{tys_opt};
ghost use Rattle.th_rules.specs.Callees.{callee_sig, instance, instance_callee, instance_of, instance_sig, is_supplied, item_callee, meets_opt, has_method, named, named_sig, receiver_callee, self_callee, signals_of, super_callee, typed_callee};
ghost use Rattle.th_rules.specs.Context.{meaning};
ghost use Rattle.th_rules.specs.Failing.{name_fails};
ghost use Rattle.th_rules.specs.Raising.{unhandled};
ghost use Rattle.th_rules.specs.Resolving.{ref_place, types_fails};
ghost use Rattle.th_scope.specs.View.{context_of, handled_of, item_head_of, locals_of, meant_of, routine_of};
ghost use Rattle.th_typed.specs.View.{typed_of, typed_opt};
ghost use Rattle.th_calls.specs.View.{callee_with, is_met, method_opt, part_callee, part_sig, routine_with, wish_of};

use crate::callee::{CalleePart, Target, Wish, judge_signals, judge_wish};
use std::alloc::{AllocError, Global};
use th_scope::{
    Env, Handled, Head, Item, LocalList, Meant, RoutineItem, class_sig, has_count, meaning,
    own_class, sig_with, super_sig, type_method, walk_types,
};
use th_supply::{own_clause, supplies_of};
use th_tree::{RefTree, TypeList};
use th_type::{Failure, Place, Sig, Ty, TyList, demand};
use th_typed::Typed;

/// A method that is called: its signature with arguments substituted, and what is entered.
#[derive(Drop)]
pub struct MethodPart {
    pub sig: Sig,
    pub target: Target,
}

/// The method of a receiver of a type: of a declared type, or of a type parameter with a clause for it.
fn typed_callee(
    alloc: Global,
    env: &Env<'_>,
    receiver: Typed,
    method: u32,
) -> Result<Option<MethodPart>, AllocError>
    ensures { IfOk result (λ r. method_opt r ≡ typed_callee (context_of env.now) method (typed_of receiver).tree (typed_of receiver).of) }
{
    let Typed { core, ty } = receiver;
    match &ty {
        Ty::Named(number, _) => match type_method(alloc, env.hierarchy, &ty, method)? {
            None => Ok(None),
            Some(sig) => Ok(Some(MethodPart {
                sig,
                target: Target::Method(*number, method, core),
            })),
        },
        Ty::Param(param) => match own_clause(env.clauses, *param, method)? {
            None => Ok(None),
            Some(clause) => {
                let sig = clause.sig.try_clone(alloc)?;
                Ok(Some(MethodPart {
                    sig,
                    target: Target::Where(clause.place, method, core),
                }))
            }
        },
        Ty::Int => Ok(None),
        Ty::Bool => Ok(None),
        Ty::Text => Ok(None),
        Ty::Array(_) => Ok(None),
    }
}

/// The method of `self` that is not one of the class's type.
fn self_callee(alloc: Global, env: &Env<'_>, method: u32) -> Result<Option<MethodPart>, AllocError>
    ensures { IfOk result (λ r. method_opt r ≡ self_callee (context_of env.now) true method) }
{
    let Some(full) = env.class else {
        return Ok(None);
    };
    let Some(class) = env.items.class_at(full) else {
        return Ok(None);
    };
    match class_sig(alloc, env, class, method)? {
        None => Ok(None),
        Some(sig) => Ok(Some(MethodPart {
            sig,
            target: Target::Hidden(full, method),
        })),
    }
}

/// What is called as a method of a receiver, which may be `self`.
fn receiver_callee(
    alloc: Global,
    env: &Env<'_>,
    of_self: bool,
    receiver: Typed,
    method: u32,
) -> Result<Option<MethodPart>, AllocError>
    ensures { IfOk result (λ r. method_opt r ≡ receiver_callee (context_of env.now) of_self (Some (typed_of receiver)) method) }
{
    match typed_callee(alloc, env, receiver, method)? {
        Some(found) => Ok(Some(found)),
        None => {
            if of_self {
                self_callee(alloc, env, method)
            } else {
                Ok(None)
            }
        }
    }
}

/// Whether there is a method.
fn is_there(found: &Option<MethodPart>) -> bool
    ensures { result ≡ is_some (method_opt found.now) }
{
    match found {
        None => false,
        Some(_) => true,
    }
}

/// Judges whether a receiver that has a type, which may be `self`, has the method: what is called.
fn judge_receiver(
    alloc: Global,
    env: &Env<'_>,
    of_self: bool,
    receiver: Option<Typed>,
    method: u32,
    at: Place,
    least: &mut Option<Failure>,
) -> Result<Option<MethodPart>, AllocError>
    ensures callee { IfOk result (λ r. method_opt r ≡ receiver_callee (context_of env.now) of_self (typed_opt receiver) method) }
    ensures least { OnOk result (least.new ≡ lowest least.old (unless (has_method (typed_opt receiver) (receiver_callee (context_of env.now) of_self (typed_opt receiver) method)) 25 at)) }
{
    let Some(receiver) = receiver else {
        return Ok(None);
    };
    let found = receiver_callee(alloc, env, of_self, receiver, method)?;
    demand(least, is_there(&found), 25, at);
    Ok(found)
}

/// A method as what is called.
fn part_of(found: Option<MethodPart>) -> Option<CalleePart>
    ensures callee { part_callee result ≡ method_opt found }
    ensures sig { part_sig result ≡ callee_sig (method_opt found) }
{
    match found {
        None => None,
        Some(MethodPart { sig, target }) => Some(CalleePart {
            sig,
            target: Some(target),
        }),
    }
}

/// Judges the exceptions that what is called may raise.
fn judge_part_signals(
    raised: &mut Option<Failure>,
    handled: &Handled<'_>,
    part: &Option<CalleePart>,
    at: Place,
)
    ensures { raised.new ≡ lowest raised.old (unhandled (handled_of handled.now) at (signals_of (part_sig part.now))) }
{
    if let Some(part) = part {
        judge_signals(raised, handled, part.sig.signals.as_slice(), at);
    }
}

/// Where the failures of a call are: of the call itself, of the rule on what it is there for, and of its exceptions.
#[derive(Clone, Copy, Debug, PartialEq, Eq)]
pub struct CallPlaces {
    pub call: Place,
    pub wish: Place,
    pub signals: Place,
}

/// Judges the method of a receiver, which may be `self`: what is called.
#[tactic(auto, using(th_type::proofs::Least::lowest_append))]
pub fn walk_method(
    alloc: Global,
    env: &Env<'_>,
    of_self: bool,
    receiver: Option<Typed>,
    method: u32,
    handled: &Handled<'_>,
    wish: Wish,
    at: CallPlaces,
    least: &mut Option<Failure>,
    raised: &mut Option<Failure>,
) -> Result<Option<CalleePart>, AllocError>
    ensures callee { IfOk result (λ r. part_callee r ≡ receiver_callee (context_of env.now) of_self (typed_opt receiver) method) }
    ensures sig { IfOk result (λ r. part_sig r ≡ callee_sig (receiver_callee (context_of env.now) of_self (typed_opt receiver) method)) }
    ensures least { OnOk result (least.new ≡ lowest least.old (unless (has_method (typed_opt receiver) (receiver_callee (context_of env.now) of_self (typed_opt receiver) method)) 25 at.call ++ unless (meets_opt (wish_of wish) (callee_sig (receiver_callee (context_of env.now) of_self (typed_opt receiver) method))) 26 at.wish)) }
    ensures raised { OnOk result (raised.new ≡ lowest raised.old (unhandled (handled_of handled.now) at.signals (signals_of (callee_sig (receiver_callee (context_of env.now) of_self (typed_opt receiver) method))))) }
{
    let found = judge_receiver(alloc, env, of_self, receiver, method, at.call, least)?;
    let part = part_of(found);
    judge_wish(least, wish, &part, at.wish);
    judge_part_signals(raised, handled, &part, at.signals);
    Ok(part)
}

/// The method of the inherited class.
fn super_callee(alloc: Global, env: &Env<'_>, method: u32) -> Result<Option<MethodPart>, AllocError>
    ensures { IfOk result (λ r. method_opt r ≡ super_callee (context_of env.now) method) }
{
    let Some(class) = own_class(env) else {
        return Ok(None);
    };
    let Some(Ty::Named(number, _)) = &class.inherits else {
        return Ok(None);
    };
    match super_sig(alloc, env, class, method)? {
        None => Ok(None),
        Some(sig) => Ok(Some(MethodPart {
            sig,
            target: Target::Super(*number, method),
        })),
    }
}

/// Judges a method of the inherited class: what is called.
#[tactic(auto, using(th_type::proofs::Least::lowest_append))]
pub fn walk_super(
    alloc: Global,
    env: &Env<'_>,
    method: u32,
    handled: &Handled<'_>,
    wish: Wish,
    at: CallPlaces,
    least: &mut Option<Failure>,
    raised: &mut Option<Failure>,
) -> Result<Option<CalleePart>, AllocError>
    ensures callee { IfOk result (λ r. part_callee r ≡ super_callee (context_of env.now) method) }
    ensures sig { IfOk result (λ r. part_sig r ≡ callee_sig (super_callee (context_of env.now) method)) }
    ensures least { OnOk result (least.new ≡ lowest least.old (unless (is_some (super_callee (context_of env.now) method)) 18 at.call ++ unless (meets_opt (wish_of wish) (callee_sig (super_callee (context_of env.now) method))) 26 at.wish)) }
    ensures raised { OnOk result (raised.new ≡ lowest raised.old (unhandled (handled_of handled.now) at.signals (signals_of (callee_sig (super_callee (context_of env.now) method))))) }
{
    let found = super_callee(alloc, env, method)?;
    demand(least, is_there(&found), 18, at.call);
    let part = part_of(found);
    judge_wish(least, wish, &part, at.wish);
    judge_part_signals(raised, handled, &part, at.signals);
    Ok(part)
}

/// Judges a name with arguments, and with types in braces.
#[tactic(auto, using(th_type::proofs::Least::lowest_append))]
fn judge_name(
    least: &mut Option<Failure>,
    meant: &Meant<'_>,
    types: &TypeList,
    wish: Wish,
    wish_at: Place,
    at: Place,
)
    ensures { least.new ≡ lowest least.old (name_fails (wish_of wish) wish_at (named (meant_of meant.now) (types_of types.now)) (count (types_of types.now)) at) }
{
    match meant {
        Meant::Item(item) => match &item.head {
            Head::Routine(routine) => {
                demand(least, wish.meets(&routine.sig), 26, wish_at);
                demand(least, has_count(types, routine.params), 5, at);
            }
            Head::Exception(_) => demand(least, false, 4, at),
            Head::Declared(_) => demand(least, false, 4, at),
            Head::Class(_) => demand(least, false, 4, at),
        },
        Meant::Local(_) => match types {
            TypeList::NoType => demand(least, false, 26, wish_at),
            TypeList::MoreType(_, _) => demand(least, false, 4, at),
        },
        Meant::Nothing => demand(least, false, 4, at),
        Meant::Param(_) => demand(least, false, 4, at),
    }
}

/// Judges the exceptions that a routine by its name may raise.
fn judge_name_signals(
    raised: &mut Option<Failure>,
    handled: &Handled<'_>,
    meant: &Meant<'_>,
    types: &TypeList,
    at: Place,
)
    ensures { raised.new ≡ lowest raised.old (unhandled (handled_of handled.now) at (signals_of (named_sig (named (meant_of meant.now) (types_of types.now))))) }
{
    match meant {
        Meant::Item(item) => match &item.head {
            Head::Routine(routine) => {
                judge_signals(raised, handled, routine.sig.signals.as_slice(), at);
            }
            Head::Exception(_) => {}
            Head::Declared(_) => {}
            Head::Class(_) => {}
        },
        Meant::Local(_) => match types {
            TypeList::NoType => {}
            TypeList::MoreType(_, _) => {}
        },
        Meant::Nothing => {}
        Meant::Param(_) => {}
    }
}

/// A routine with type arguments, and what stands for its where-clauses.
fn routine_part(
    alloc: Global,
    env: &Env<'_>,
    full: u32,
    routine: &RoutineItem,
    args: TyList,
) -> Result<CalleePart, AllocError>
    ensures sig { IfOk result (λ r. sig_of r.sig ≡ subst_sig (list_of (tys_of args)) (sig_of routine.now.sig)) }
    ensures callee { IfOk result (λ r. callee_with (sig_of r.sig) r.target ≡ instance_callee (context_of env.now) (Some (routine_with full (routine_of routine.now) (tys_of args)))) }
{
    let sig = sig_with(alloc, &routine.sig, &args)?;
    match supplies_of(alloc, env, &args, &routine.clauses)? {
        None => Ok(CalleePart { sig, target: None }),
        Some(supplies) => Ok(CalleePart {
            sig,
            target: Some(Target::Routine(full, args, supplies)),
        }),
    }
}

/// The routine that an item is with type arguments, where they are as many as its parameters.
fn item_part(
    alloc: Global,
    env: &Env<'_>,
    item: &Item,
    types: &TypeList,
    args: TyList,
) -> Result<Option<CalleePart>, AllocError>
    ensures callee { IfOk result (λ r. part_callee r ≡ instance_callee (context_of env.now) (instance_of (item_callee item.now.full (item_head_of item.now.head)) (count (types_of types.now)) (Some (tys_of args)))) }
    ensures sig { IfOk result (λ r. part_sig r ≡ instance_sig (instance_of (item_callee item.now.full (item_head_of item.now.head)) (count (types_of types.now)) (Some (tys_of args)))) }
{
    match &item.head {
        Head::Routine(routine) => {
            if has_count(types, routine.params) {
                Ok(Some(routine_part(alloc, env, item.full, routine, args)?))
            } else {
                Ok(None)
            }
        }
        Head::Exception(_) => Ok(None),
        Head::Declared(_) => Ok(None),
        Head::Class(_) => Ok(None),
    }
}

/// The routine that a name is with type arguments, where each of them is a type and they are as many as its parameters.
#[tactic(auto, using(crate::proofs::Callees::local_instance))]
fn instance_part(
    alloc: Global,
    env: &Env<'_>,
    meant: &Meant<'_>,
    types: &TypeList,
    args: Option<TyList>,
) -> Result<Option<CalleePart>, AllocError>
    ensures callee { IfOk result (λ r. part_callee r ≡ instance_callee (context_of env.now) (instance_of (named (meant_of meant.now) (types_of types.now)) (count (types_of types.now)) (tys_opt args))) }
    ensures sig { IfOk result (λ r. part_sig r ≡ instance_sig (instance_of (named (meant_of meant.now) (types_of types.now)) (count (types_of types.now)) (tys_opt args))) }
{
    let Some(args) = args else {
        return Ok(None);
    };
    match meant {
        Meant::Item(item) => item_part(alloc, env, item, types, args),
        Meant::Nothing => Ok(None),
        Meant::Local(_) => Ok(None),
        Meant::Param(_) => Ok(None),
    }
}

/// Whether the where-clauses of what is called are satisfied, or nothing is called.
fn is_met(part: &Option<CalleePart>) -> bool
    ensures { result ≡ is_met (part_sig part.now) (part_callee part.now) }
{
    match part {
        None => true,
        Some(part) => match &part.target {
            None => false,
            Some(_) => true,
        },
    }
}

/// Judges a routine by its name, with types in braces: what is called.
#[tactic(auto, using(th_type::proofs::Least::lowest_append, crate::proofs::Callees::met_is))]
pub fn walk_routine(
    alloc: Global,
    item: &RefTree,
    types: &TypeList,
    env: &Env<'_>,
    locals: &LocalList,
    handled: &Handled<'_>,
    wish: Wish,
    at: CallPlaces,
    least: &mut Option<Failure>,
    raised: &mut Option<Failure>,
) -> Result<Option<CalleePart>, AllocError>
    ensures callee { IfOk result (λ r. part_callee r ≡ instance_callee (context_of env.now) (instance (context_of env.now) (locals_of locals.now) item.now (types_of types.now))) }
    ensures sig { IfOk result (λ r. part_sig r ≡ instance_sig (instance (context_of env.now) (locals_of locals.now) item.now (types_of types.now))) }
    ensures least { OnOk result (least.new ≡ lowest least.old (name_fails (wish_of wish) at.wish (named (meaning (context_of env.now) (locals_of locals.now) item.now) (types_of types.now)) (count (types_of types.now)) (ref_place (context_of env.now) item.now) ++ types_fails (context_of env.now) (locals_of locals.now) (types_of types.now) ++ unless (is_supplied (context_of env.now) (instance (context_of env.now) (locals_of locals.now) item.now (types_of types.now))) 17 (ref_place (context_of env.now) item.now))) }
    ensures raised { OnOk result (raised.new ≡ lowest raised.old (unhandled (handled_of handled.now) at.signals (signals_of (named_sig (named (meaning (context_of env.now) (locals_of locals.now) item.now) (types_of types.now)))))) }
{
    let item_at = Place {
        text: env.text,
        at: item.first.at,
    };
    let meant = meaning(&*env, &*locals, item);
    judge_name(least, &meant, types, wish, at.wish, item_at);
    judge_name_signals(raised, handled, &meant, types, at.signals);
    let args = walk_types(alloc, types, env, locals, least)?;
    let part = instance_part(alloc, env, &meant, types, args)?;
    demand(least, is_met(&part), 17, item_at);
    Ok(part)
}
