//! Subtypes, the methods of types and those that a class knows. docs/LANGUAGE.md, "Subtypes" and "Rules of modules", states them.
ghost use Rattle.std.specs.Prelude.{◌≡◌, IfOk, suc, map, option_map};
ghost use Rattle.th_type.specs.Types.{ty_of};
ghost use Rattle.th_type.specs.Signatures.{find_sig, sig_of};
ghost use Rattle.th_type.specs.Methods.{method_at};
ghost use Rattle.th_hier.specs.Views.{sig_opt};
ghost use Rattle.th_rules.specs.Classes.{class_sig, class_sig_up, inherited_sig, is_subtype, own_class, super_sig};
ghost use Rattle.th_scope.specs.View.{class_of, context_of, items_of};

use crate::env::Env;
use crate::item::ClassItem;
use crate::subst::sig_with;
use std::alloc::{AllocError, Global};
use th_hier::Hierarchy;
use th_type::{Sig, Ty};

/// Whether the first type is a subtype of the second.
pub fn is_subtype(env: &Env<'_>, ty: &Ty, of: &Ty) -> bool
    ensures { result ≡ is_subtype env.now.hierarchy.now.types (ty_of ty.now) (ty_of of.now) }
{
    env.hierarchy.is_subtype(ty, of)
}

/// The method of a type with arguments.
pub fn type_method(
    alloc: Global,
    hierarchy: &Hierarchy,
    ty: &Ty,
    method: u32,
) -> Result<Option<Sig>, AllocError>
    ensures { IfOk result (λ r. sig_opt r ≡ method_at hierarchy.now.types (ty_of ty.now) method) }
{
    let Ty::Named(name, args) = ty else {
        return Ok(None);
    };
    match hierarchy.method_of(*name, method) {
        None => Ok(None),
        Some(sig) => Ok(Some(sig_with(alloc, sig, args)?)),
    }
}

/// The first of the signatures that has the method.
fn hidden_sig(alloc: Global, hidden: &[Sig], method: u32) -> Result<Option<Sig>, AllocError>
    ensures { IfOk result (λ r. sig_opt r ≡ find_sig (map sig_of hidden.now) method) }
{
    for sig in hidden {
        if sig.method == method {
            return Ok(Some(sig.try_clone(alloc)?));
        }
    }
    Ok(None)
}

/// The class around a method's body.
pub fn own_class<'a>(env: &Env<'a>) -> Option<&'a ClassItem>
    ensures { option_map (λ c. class_of c.now) result ≡ own_class (context_of env.now) }
{
    match env.class {
        None => None,
        Some(full) => env.items.class_at(full),
    }
}

/// The method of a class, looked for through `steps` classes above it.
#[cycle(climb)]
#[tactic(auto, using(crate::proofs::Climb::up_none))]
fn class_sig_up(
    alloc: Global,
    steps: usize,
    env: &Env<'_>,
    class: &ClassItem,
    method: u32,
) -> Result<Option<Sig>, AllocError>
    ensures { IfOk result (λ r. sig_opt r ≡ class_sig_up (suc steps) (context_of env.now) (class_of class.now) method) }
{
    if let Some(sig) = type_method(alloc, env.hierarchy, &class.of, method)? {
        return Ok(Some(sig));
    }
    if steps > 0 {
        match inherited(alloc, steps - 1, env, &class.inherits, method)? {
            Some(sig) => Ok(Some(sig)),
            None => hidden_sig(alloc, &class.hidden, method),
        }
    } else {
        hidden_sig(alloc, &class.hidden, method)
    }
}

/// The method of the class that is inherited, where there is one, looked for through `steps` classes above it.
#[cycle(climb)]
fn inherited(
    alloc: Global,
    steps: usize,
    env: &Env<'_>,
    inherits: &Option<Ty>,
    method: u32,
) -> Result<Option<Sig>, AllocError>
    ensures { IfOk result (λ r. sig_opt r ≡ inherited_sig (class_sig_up (suc steps) (context_of env.now)) (items_of env.now.items.now) (option_map ty_of inherits.now) method) }
{
    let Some(Ty::Named(name, args)) = inherits else {
        return Ok(None);
    };
    let Some(class) = env.items.class_at(*name) else {
        return Ok(None);
    };
    match class_sig_up(alloc, steps, env, class, method)? {
        None => Ok(None),
        Some(sig) => Ok(Some(sig_with(alloc, &sig, args)?)),
    }
}

/// The method of a class, its own or an inherited one.
pub fn class_sig(
    alloc: Global,
    env: &Env<'_>,
    class: &ClassItem,
    method: u32,
) -> Result<Option<Sig>, AllocError>
    ensures { IfOk result (λ r. sig_opt r ≡ class_sig (context_of env.now) (class_of class.now) method) }
{
    class_sig_up(alloc, env.items.len(), env, class, method)
}

/// The method of the class that a class inherits, with arguments substituted.
pub fn super_sig(
    alloc: Global,
    env: &Env<'_>,
    class: &ClassItem,
    method: u32,
) -> Result<Option<Sig>, AllocError>
    ensures { IfOk result (λ r. sig_opt r ≡ super_sig (context_of env.now) (class_of class.now) method) }
{
    inherited(alloc, env.items.len(), env, &class.inherits, method)
}
