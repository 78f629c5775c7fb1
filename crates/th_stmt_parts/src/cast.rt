//! The cast of what an iterator yields to the variable of a loop.
ghost use Rattle.std.specs.Prelude.{◌≡◌, IfOk, option_map};
ghost use Rattle.th_type.specs.Types.{ty_of};
ghost use Rattle.th_rules.specs.Callees.{fits};
ghost use Rattle.th_scope.specs.View.{context_of};
ghost use Rattle.th_stmt_rules.specs.Bodies.{yield_cast};
ghost use Rattle.th_stmt_parts.specs.View.{given_cast};

use std::alloc::{AllocError, Global};
use th_meaning::CoreCast;
use th_scope::{Env, core_type, is_subtype};
use th_type::Ty;

/// The cast of what is yielded to a loop's variable: the call or the variable has no type, it does not fit, or it fits, with
/// a cast where the types differ.
#[derive(Drop)]
pub enum GivenCast {
    Untyped,
    Misfit,
    Fits(Option<CoreCast>),
}

/// The cast of what is yielded to the variable, where it fits.
pub fn yield_cast(
    alloc: Global,
    env: &Env<'_>,
    yielded: &Option<Ty>,
    ty: &Ty,
) -> Result<GivenCast, AllocError>
    ensures { IfOk result (λ r. given_cast r ≡ yield_cast (context_of env.now) (option_map ty_of yielded.now) (ty_of ty.now)) }
{
    let Some(yielded) = yielded else {
        return Ok(GivenCast::Misfit);
    };
    if !is_subtype(env, yielded, ty) {
        return Ok(GivenCast::Misfit);
    }
    if yielded.is_same(ty) {
        return Ok(GivenCast::Fits(None));
    }
    let from = core_type(alloc, yielded, env.names)?;
    let to = core_type(alloc, ty, env.names)?;
    Ok(GivenCast::Fits(Some(CoreCast { from, to })))
}

/// Whether the cast fits, or something has no type.
pub fn is_cast_fit(cast: &GivenCast) -> bool
    ensures { result ≡ fits (given_cast cast.now) }
{
    match cast {
        GivenCast::Untyped => true,
        GivenCast::Misfit => false,
        GivenCast::Fits(_) => true,
    }
}
