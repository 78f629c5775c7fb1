//! Initializers of classes.
ghost use Rattle.std.specs.Prelude.{◌≡◌, ◌++◌, IfOk, OnOk};
ghost use Rattle.th_tree.specs.DeclView.{init_of};
ghost use Rattle.th_type.specs.Failures.{lowest};
ghost use Rattle.th_rules.specs.Cores.{name_at};
ghost use Rattle.th_module_rules.specs.Initializers.{init_core};
ghost use Rattle.th_module_rules.specs.Modules.{inherited_at};
ghost use Rattle.th_scope.specs.View.{class_of, context_of, locals_of};
ghost use Rattle.th_stmt_forms.specs.View.{body_opt};
ghost use Rattle.th_inits.specs.Parts.{own_fails, own_raises};

use crate::above::above_of;
use crate::assign::walk_assigns;
use crate::shape::judge_shape;
use crate::super_call::walk_super;
use std::alloc::{AllocError, Global};
use th_meaning::CoreBody;
use th_scope::{ClassItem, Env, Signals};
use th_tree::InitTree;
use th_type::Failure;

/// Judges the initializer of a class whose full name has the number `full`, where the initializer's formals are the locals of
/// `env`: its checked tree, None where a rule fails in it. `raised` keeps the failures on exceptions that it does not list, and
/// `least` all others.
#[tactic(auto, using(th_type::proofs::Least::lowest_append, crate::proofs::Onto::begun_is))]
pub fn walk_init(
    alloc: Global,
    tree: &InitTree,
    env: &Env<'_>,
    full: u32,
    class: &ClassItem,
    least: &mut Option<Failure>,
    raised: &mut Option<Failure>,
) -> Result<Option<CoreBody>, AllocError>
    ensures core { IfOk result (λ r. body_opt r ≡ init_core (context_of env.now) (locals_of env.now.locals) (name_at env.now.names.now full) (class_of class.now) (inherited_at (context_of env.now) (class_of class.now).inherits) (init_of tree.now)) }
    ensures least { OnOk result (least.new ≡ lowest least.old (own_fails (context_of env.now) (locals_of env.now.locals) (class_of class.now) (inherited_at (context_of env.now) (class_of class.now).inherits) (init_of tree.now))) }
    ensures raised { OnOk result (raised.new ≡ lowest raised.old (own_raises (context_of env.now) (locals_of env.now.locals) (inherited_at (context_of env.now) (class_of class.now).inherits) (init_of tree.now))) }
{
    judge_shape(env, tree, class, least);
    let above = above_of(env, &class.inherits);
    let signals = Signals::of(alloc, env.sig.signals.as_slice())?;
    let begun = walk_super(
        alloc,
        &tree.super_call,
        env,
        &above,
        &signals,
        least,
        raised,
    )?;
    walk_assigns(
        alloc,
        &tree.assigns,
        env,
        full,
        &class.fields,
        &signals,
        begun,
        least,
        raised,
    )
}
