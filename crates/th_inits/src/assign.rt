//! Assignments of an initializer.
ghost use Rattle.std.specs.Prelude.{◌≡◌, map, option_map, IfOk, OnOk};
ghost use Rattle.th_tree.specs.DeclView.{field_assign_of};
ghost use Rattle.th_type.specs.Failures.{lowest};
ghost use Rattle.th_meaning.specs.Onto.{stmts_onto};
ghost use Rattle.th_rules.specs.Callees.{given_opt};
ghost use Rattle.th_rules.specs.Cores.{name_at};
ghost use Rattle.th_rules.specs.Raising.{raises};
ghost use Rattle.th_stmt_rules.specs.Bodies.{both_parts};
ghost use Rattle.th_module_rules.specs.Initializers.{assign_fails, assign_stmt, assign_to, assigns_core, assigns_fail, assigns_raise, field_type};
ghost use Rattle.th_scope.specs.View.{binding_of, context_of, locals_of};
ghost use Rattle.th_stmt_forms.specs.View.{body_opt, stmt_opt};
ghost use Rattle.th_expr.specs.View.{given_of, typed_opt};

use std::alloc::{AllocError, Global};
use th_expr::{GivenOne, Typed, give_opt, is_fit, place_at, start, walk_expr};
use th_meaning::{CoreBody, CoreStmt};
use th_scope::{Env, Handled, Local, LocalList, Signals, spelled};
use th_stmt_forms::{boxed, turned_body, with_stmt};
use th_tree::FieldAssign;
use th_type::{Failure, demand};

/// A value that is given to a field that there may be.
fn give_field(
    alloc: Global,
    env: &Env<'_>,
    field: Option<&Local>,
    value: Option<Typed>,
) -> Result<GivenOne, AllocError>
    ensures { IfOk result (λ r. given_of r ≡ given_opt (context_of env.now) (field_type (option_map (λ l. binding_of l.now) field.entry)) (typed_opt value)) }
{
    match field {
        None => Ok(GivenOne::Untyped),
        Some(field) => give_opt(alloc, env, &field.ty, value),
    }
}

/// The assignment of a field of the class, where there is the field and the value fits.
fn assign_to(
    alloc: Global,
    env: &Env<'_>,
    class: u32,
    field: Option<&Local>,
    value: GivenOne,
) -> Result<Option<Box<CoreStmt>>, AllocError>
    ensures { IfOk result (λ r. stmt_opt r ≡ assign_to (context_of env.now) (name_at env.now.names.now class) (option_map (λ l. binding_of l.now) field.entry) (given_of value)) }
{
    let Some(field) = field else {
        return Ok(None);
    };
    match value {
        GivenOne::Untyped => Ok(None),
        GivenOne::Misfit => Ok(None),
        GivenOne::Fits(value) => {
            let class = spelled(alloc, env.names, class)?;
            boxed(alloc, CoreStmt::SetField(class, field.index, value))
        }
    }
}

/// Judges an assignment of an initializer of the class with these fields, which lists these exceptions.
#[tactic(auto, using(th_type::proofs::Least::lowest_append))]
fn walk_assign(
    alloc: Global,
    tree: &FieldAssign,
    env: &Env<'_>,
    class: u32,
    fields: &LocalList,
    signals: &Signals,
    least: &mut Option<Failure>,
    raised: &mut Option<Failure>,
) -> Result<Option<Box<CoreStmt>>, AllocError>
    requires { signals.now ≡ (context_of env.now).sig.signals }
    ensures core { IfOk result (λ r. stmt_opt r ≡ assign_stmt (context_of env.now) (locals_of env.now.locals) (name_at env.now.names.now class) (locals_of fields.now) (field_assign_of tree.now)) }
    ensures least { OnOk result (least.new ≡ lowest least.old (assign_fails (context_of env.now) (locals_of env.now.locals) (locals_of fields.now) (field_assign_of tree.now))) }
    ensures raised { OnOk result (raised.new ≡ lowest raised.old (raises (context_of env.now) (locals_of env.now.locals) (context_of env.now).sig.signals (field_assign_of tree.now).value)) }
{
    let handled = Handled::Listed(signals);
    let value = walk_expr(
        alloc,
        &tree.value,
        env,
        &env.locals,
        &handled,
        least,
        raised,
    )?;
    let field = fields.find(tree.field.name);
    let given = give_field(alloc, env, field, value)?;
    demand(least, is_fit(&given), 23, place_at(env, start(&tree.value)));
    assign_to(alloc, env, class, field, given)
}

/// Judges the assignments of an initializer of the class with these fields, which lists these exceptions: its statements, after
/// those that are done, which are the other way round.
#[tactic(auto, using(th_type::proofs::Least::lowest_append, crate::proofs::Onto::stmts_step))]
pub fn walk_assigns(
    alloc: Global,
    tree: &[FieldAssign],
    env: &Env<'_>,
    class: u32,
    fields: &LocalList,
    signals: &Signals,
    before: Option<CoreBody>,
    least: &mut Option<Failure>,
    raised: &mut Option<Failure>,
) -> Result<Option<CoreBody>, AllocError>
    requires { signals.now ≡ (context_of env.now).sig.signals }
    ensures core { IfOk result (λ r. body_opt r ≡ both_parts stmts_onto (body_opt before) (assigns_core (context_of env.now) (locals_of env.now.locals) (name_at env.now.names.now class) (locals_of fields.now) (map field_assign_of tree.now))) }
    ensures least { OnOk result (least.new ≡ lowest least.old (assigns_fail (context_of env.now) (locals_of env.now.locals) (locals_of fields.now) (map field_assign_of tree.now))) }
    ensures raised { OnOk result (raised.new ≡ lowest raised.old (assigns_raise (context_of env.now) (locals_of env.now.locals) (map field_assign_of tree.now))) }
{
    let mut done = before;
    for assign in tree {
        let stmt = walk_assign(alloc, assign, env, class, fields, signals, least, raised)?;
        done = with_stmt(alloc, stmt, done)?;
    }
    Ok(turned_body(done))
}
