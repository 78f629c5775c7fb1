//! What is called, and what a call is there for.
ghost use Rattle.std.specs.Prelude.{◌≡◌, map, IfOk, OnOk};
ghost use Rattle.th_type.specs.Failures.{lowest, unless};
ghost use Rattle.th_type.specs.Signatures.{sig_of};
ghost use Rattle.th_type.specs.Types.{tys_of};
ghost use Rattle.th_rules.specs.Callees.{args_ok, as_value, call_given, call_tree, call_with, callee, meets, meets_opt, value_of};
ghost use Rattle.th_meaning.specs.Trees.{method_call, routine_call, where_call};
ghost use Rattle.th_meaning.specs.View.{call_of, expr_of, exprs_of, supply_of};
ghost use Rattle.th_rules.specs.Cores.{core_types, name_at};
ghost use Rattle.th_rules.specs.Raising.{unhandled};
ghost use Rattle.th_scope.specs.View.{context_of, handled_of};
ghost use Rattle.th_typed.specs.View.{checks_of, givens_of, typed_opt};
ghost use Rattle.th_calls.specs.View.{called_opt, part_callee, part_sig, target_of, wish_of};

use std::alloc::{AllocError, Global};
use th_meaning::{CoreCall, CoreExpr, CoreExprList, CoreSupply};
use th_scope::{Env, Handled, core_types, spelled};
use th_tree::NameTable;
use th_type::{Failure, Place, Sig, TyList, demand};
use th_typed::{GivenAll, Typed, TypedList, are_fit};

/// What a call enters, but for the arguments.
#[derive(Drop)]
pub enum Target {
    /// A routine or an iterator: the number of its full name, the type arguments and what stands for its where-clauses.
    Routine(u32, TyList, Vec<CoreSupply>),
    /// A method of a declared type: the number of the type, the method and the receiver.
    Method(u32, u32, CoreExpr),
    /// A method of the class around that is not one of its type: the number of the class, and the method.
    Hidden(u32, u32),
    /// A method of the inherited class: the number of the class, and the method.
    Super(u32, u32),
    /// A where-method: the place of its clause, the method and the receiver.
    Where(u32, u32, CoreExpr),
}

/// What is called: its signature with arguments substituted, and what is entered, None where its where-clauses are not
/// satisfied.
#[derive(Drop)]
pub struct CalleePart {
    pub sig: Sig,
    pub target: Option<Target>,
}

/// A checked call, and the signature of what it calls, with arguments substituted.
#[derive(Drop)]
pub struct CalledPart {
    pub core: CoreCall,
    pub sig: Sig,
}

/// What a call is there for: its value, what it does, the loop of a `for`, or any of them.
#[derive(Clone, Copy, Debug, PartialEq, Eq)]
pub enum Wish {
    Value,
    Procedure,
    Iterator,
    Call,
}

/// Whether a call of the signature has a value.
fn has_value(sig: &Sig) -> bool
    ensures { result ≡ meets as_value (sig_of sig.now) }
{
    if sig.iterator {
        return false;
    }
    match &sig.gives {
        None => false,
        Some(_) => true,
    }
}

impl Wish {
    /// Whether a call of the signature is what is wished.
    pub fn meets(self, sig: &Sig) -> bool
        ensures { result ≡ meets (wish_of self) (sig_of sig.now) }
    {
        match self {
            Wish::Value => has_value(sig),
            Wish::Procedure => !sig.iterator,
            Wish::Iterator => sig.iterator,
            Wish::Call => true,
        }
    }
}

/// Judges whether what is called is what is wished.
pub fn judge_wish(least: &mut Option<Failure>, wish: Wish, part: &Option<CalleePart>, at: Place)
    ensures { least.new ≡ lowest least.old (unless (meets_opt (wish_of wish) (part_sig part.now)) 26 at) }
{
    if let Some(part) = part {
        demand(least, wish.meets(&part.sig), 26, at);
    }
}

/// Judges exceptions that are signalled: each is handled or listed.
#[tactic(auto, using(th_type::proofs::Least::lowest_append))]
pub fn judge_signals(
    raised: &mut Option<Failure>,
    handled: &Handled<'_>,
    signals: &[u32],
    at: Place,
)
    ensures { raised.new ≡ lowest raised.old (unhandled (handled_of handled.now) at signals.now) }
{
    for number in signals {
        demand(raised, handled.has(*number), 30, at);
    }
}

/// The call of a routine or an iterator.
fn routine_call(
    alloc: Global,
    names: &NameTable,
    number: u32,
    types: &TyList,
    supplies: Vec<CoreSupply>,
    args: CoreExprList,
) -> Result<CoreCall, AllocError>
    ensures { IfOk result (λ r. call_of r ≡ routine_call (name_at names.now number) (core_types names.now (tys_of types.now)) (map supply_of supplies.items) (exprs_of args)) }
{
    let name = spelled(alloc, names, number)?;
    let types = core_types(alloc, types, names)?;
    Ok(CoreCall::Routine(name, types, supplies, Box::new(alloc, args)?))
}

/// The call of a method of a receiver.
fn method_call(
    alloc: Global,
    names: &NameTable,
    of: u32,
    method: u32,
    receiver: CoreExpr,
    args: CoreExprList,
) -> Result<CoreCall, AllocError>
    ensures { IfOk result (λ r. call_of r ≡ method_call (name_at names.now of) (name_at names.now method) (expr_of receiver) (exprs_of args)) }
{
    let of = spelled(alloc, names, of)?;
    let method = spelled(alloc, names, method)?;
    let receiver = Box::new(alloc, receiver)?;
    Ok(CoreCall::Method(of, method, receiver, Box::new(alloc, args)?))
}

/// The call of a where-method of a receiver.
fn where_call(
    alloc: Global,
    names: &NameTable,
    clause: u32,
    method: u32,
    receiver: CoreExpr,
    args: CoreExprList,
) -> Result<CoreCall, AllocError>
    ensures { IfOk result (λ r. call_of r ≡ where_call clause (name_at names.now method) (expr_of receiver) (exprs_of args)) }
{
    let method = spelled(alloc, names, method)?;
    let receiver = Box::new(alloc, receiver)?;
    Ok(CoreCall::Where(clause, method, receiver, Box::new(alloc, args)?))
}

/// The call of a target with arguments.
fn target_call(
    alloc: Global,
    names: &NameTable,
    target: Target,
    args: CoreExprList,
) -> Result<CoreCall, AllocError>
    ensures { IfOk result (λ r. call_of r ≡ call_tree names.now (target_of target) (exprs_of args)) }
{
    match target {
        Target::Routine(number, types, supplies) => routine_call(
            alloc, names, number, &types, supplies, args,
        ),
        Target::Method(of, method, receiver) => method_call(
            alloc, names, of, method, receiver, args,
        ),
        Target::Hidden(class, method) => {
            let class = spelled(alloc, names, class)?;
            let method = spelled(alloc, names, method)?;
            Ok(CoreCall::Hidden(class, method, Box::new(alloc, args)?))
        }
        Target::Super(class, method) => {
            let class = spelled(alloc, names, class)?;
            let method = spelled(alloc, names, method)?;
            Ok(CoreCall::Super(class, method, Box::new(alloc, args)?))
        }
        Target::Where(clause, method, receiver) => where_call(
            alloc, names, clause, method, receiver, args,
        ),
    }
}

/// The call of what is called, where the arguments fit.
fn call_of_part(
    alloc: Global,
    env: &Env<'_>,
    sig: Sig,
    target: Target,
    args: GivenAll,
) -> Result<Option<CalledPart>, AllocError>
    ensures { IfOk result (λ r. called_opt r ≡ call_given (context_of env.now) (callee (sig_of sig) (target_of target)) (givens_of args)) }
{
    match args {
        GivenAll::Fits(args) => {
            let core = target_call(alloc, env.names, target, args)?;
            Ok(Some(CalledPart { core, sig }))
        }
        GivenAll::Untyped => Ok(None),
        GivenAll::Misfit => Ok(None),
    }
}

/// The call of what is called with arguments, each with its type where it has one: None where one has none, where they do
/// not fit, or where the where-clauses are not satisfied. It judges whether they fit.
pub fn finish_call(
    alloc: Global,
    env: &Env<'_>,
    part: Option<CalleePart>,
    args: TypedList,
    at: Place,
    least: &mut Option<Failure>,
) -> Result<Option<CalledPart>, AllocError>
    ensures called { IfOk result (λ r. called_opt r ≡ call_with (context_of env.now) (part_callee part) (checks_of args)) }
    ensures least { OnOk result (least.new ≡ lowest least.old (unless (args_ok (context_of env.now) (part_sig part) (checks_of args)) 22 at)) }
{
    let Some(CalleePart { sig, target }) = part else {
        return Ok(None);
    };
    let given = args.give_to(alloc, env, &sig.formals)?;
    demand(least, are_fit(&given), 22, at);
    match target {
        None => Ok(None),
        Some(target) => call_of_part(alloc, env, sig, target, given),
    }
}

/// The value of a call: only of a procedure that has a result.
fn value_of_call(alloc: Global, called: Option<CalledPart>) -> Result<Option<Typed>, AllocError>
    ensures { IfOk result (λ r. typed_opt r ≡ value_of (called_opt called)) }
{
    let Some(CalledPart { core, sig }) = called else {
        return Ok(None);
    };
    let Sig {
        method: _,
        iterator,
        formals: _,
        gives,
        signals: _,
    } = sig;
    if iterator {
        return Ok(None);
    }
    match gives {
        None => Ok(None),
        Some(ty) => Ok(Some(Typed {
            core: CoreExpr::Call(Box::new(alloc, core)?),
            ty,
        })),
    }
}

/// The value of the call of what is called with arguments. It judges whether they fit.
pub fn finish_value(
    alloc: Global,
    env: &Env<'_>,
    part: Option<CalleePart>,
    args: TypedList,
    at: Place,
    least: &mut Option<Failure>,
) -> Result<Option<Typed>, AllocError>
    ensures typed { IfOk result (λ r. typed_opt r ≡ value_of (call_with (context_of env.now) (part_callee part) (checks_of args))) }
    ensures least { OnOk result (least.new ≡ lowest least.old (unless (args_ok (context_of env.now) (part_sig part) (checks_of args)) 22 at)) }
{
    let called = finish_call(alloc, env, part, args, at, least)?;
    value_of_call(alloc, called)
}
