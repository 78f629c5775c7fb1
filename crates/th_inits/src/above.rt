//! The class that a class inherits.
ghost use Rattle.std.specs.Prelude.{◌≡◌, option_map, IfOk, OnOk};
ghost use Rattle.th_tree.specs.View.{named_of, option_of};
ghost use Rattle.th_type.specs.Failures.{lowest};
ghost use Rattle.th_type.specs.Types.{ty_of};
ghost use Rattle.th_hier.specs.Views.{sig_opt};
ghost use Rattle.th_module_rules.specs.Initializers.{inherited_init};
ghost use Rattle.th_module_rules.specs.Modules.{inherited_at, inherits_fails, is_inherited_supplied};
ghost use Rattle.th_scope.specs.View.{context_of};
ghost use Rattle.th_inits.specs.View.{above_opt};

use std::alloc::{AllocError, Global};
use th_expr::place_at;
use th_scope::{ClassItem, Env, sig_with};
use th_supply::supplies_of;
use th_tree::NamedTree;
use th_type::{Failure, Sig, Ty, TyList, demand};

/// The class that a class inherits: the number of its full name, what it is, and the arguments at which it is inherited.
#[derive(Clone, Copy)]
pub struct Above<'a> {
    pub full: u32,
    pub class: &'a ClassItem,
    pub args: &'a TyList,
}

/// The class that a class inherits, where it inherits one that there is.
pub fn above_of<'a>(env: &Env<'a>, inherits: &'a Option<Ty>) -> Option<Above<'a>>
    ensures { above_opt result ≡ inherited_at (context_of env.now) (option_map ty_of inherits.now) }
{
    let Some(Ty::Named(full, args)) = inherits else {
        return None;
    };
    let Some(class) = env.items.class_at(*full) else {
        return None;
    };
    Some(Above {
        full: *full,
        class,
        args,
    })
}

/// The signature of the initializer of the class above, with the arguments substituted.
pub fn init_above(alloc: Global, above: &Option<Above<'_>>) -> Result<Option<Sig>, AllocError>
    ensures { IfOk result (λ r. sig_opt r ≡ inherited_init (above_opt above.now)) }
{
    match above {
        None => Ok(None),
        Some(above) => Ok(Some(sig_with(alloc, &above.class.init, above.args)?)),
    }
}

/// Whether the where-clauses of the class above are satisfied, or there is none.
fn is_supplied(alloc: Global, env: &Env<'_>, above: &Option<Above<'_>>) -> Result<bool, AllocError>
    ensures { IfOk result (λ r. r ≡ is_inherited_supplied (context_of env.now) (above_opt above.now)) }
{
    match above {
        None => Ok(true),
        Some(above) => {
            let supplies = supplies_of(alloc, env, above.args, &above.class.clauses)?;
            Ok(supplies.is_some())
        }
    }
}

/// Judges the where-clauses of an inherited class, which `tree` names and `inherits` is.
pub fn judge_inherits(
    alloc: Global,
    env: &Env<'_>,
    tree: &Option<NamedTree>,
    inherits: &Option<Ty>,
    least: &mut Option<Failure>,
) -> Result<(), AllocError>
    ensures { OnOk result (least.new ≡ lowest least.old (inherits_fails (context_of env.now) (option_of named_of tree.now) (option_map ty_of inherits.now))) }
{
    let Some(tree) = tree else {
        return Ok(());
    };
    let above = above_of(env, inherits);
    let supplied = is_supplied(alloc, env, &above)?;
    demand(least, supplied, 17, place_at(env, tree.item.first.at));
    Ok(())
}
