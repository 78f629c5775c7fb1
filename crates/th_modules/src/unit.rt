//! Units of a module.
ghost use Rattle.std.specs.Prelude.{◌≡◌, ◌∷◌, [], map, option_map, None, Some, IfOk, OnOk};
ghost use Rattle.th_tree.specs.View.{body_of as tree_of};
ghost use Rattle.th_type.specs.Failures.{lowest};
ghost use Rattle.th_type.specs.Signatures.{clause_of, sig_of};
ghost use Rattle.th_meaning.specs.View.{body_of, sort_of, unit_of};
ghost use Rattle.th_stmt_rules.specs.Units.{unit_core};
ghost use Rattle.th_module_rules.specs.Modules.{unit_body_fails};
ghost use Rattle.th_module_rules.specs.Units.{unit_with};
ghost use Rattle.th_scope.specs.View.{class_of, context_of, locals_of};
ghost use Rattle.th_modules.specs.View.{unit_opt, units_opt};
ghost use Rattle.th_stmt_forms.specs.View.{body_opt};

use std::alloc::{AllocError, Global};
use th_cores::{core_clauses, core_sig};
use th_expr::place_at;
use th_meaning::{CoreBody, CoreUnit, UnitKind};
use th_scope::{ClassItem, Env};
use th_stmt::walk_unit;
use th_stmt_parts::ends_lawfully;
use th_tree::{Body, Ident, Name, NameTable};
use th_type::{Clause, Failure, Sig, demand};

/// A unit with its statements.
pub fn unit_with(
    alloc: Global,
    names: &NameTable,
    name: Name,
    kind: UnitKind,
    params: u32,
    clauses: &[Clause],
    sig: &Sig,
    body: CoreBody,
) -> Result<CoreUnit, AllocError>
    ensures { IfOk result (λ r. unit_of r ≡ unit_with names.now name (sort_of kind) params (map clause_of clauses.now) (sig_of sig.now) (body_of body)) }
{
    Ok(CoreUnit {
        name,
        kind,
        params,
        clauses: core_clauses(alloc, clauses, names)?,
        sig: core_sig(alloc, sig, names)?,
        body,
    })
}

/// A unit of a class with its statements, which has the class's type parameters and where-clauses.
pub fn class_unit(
    alloc: Global,
    names: &NameTable,
    name: Name,
    kind: UnitKind,
    class: &ClassItem,
    sig: &Sig,
    body: CoreBody,
) -> Result<Option<CoreUnit>, AllocError>
    ensures { IfOk result (λ r. unit_opt r ≡ Some (unit_with names.now name (sort_of kind) (class_of class.now).params (class_of class.now).clauses (sig_of sig.now) (body_of body))) }
{
    let unit = unit_with(
        alloc,
        names,
        name,
        kind,
        class.params,
        &class.clauses,
        sig,
        body,
    )?;
    Ok(Some(unit))
}

/// The units of one unit that there may be.
pub fn one_unit(alloc: Global, unit: Option<CoreUnit>) -> Result<Option<Vec<CoreUnit>>, AllocError>
    ensures { IfOk result (λ r. units_opt r ≡ option_map (λ u. u ∷ []) (unit_opt unit)) }
{
    let Some(unit) = unit else {
        return Ok(None);
    };
    let mut units = Vec::new(alloc);
    units.push(unit)?;
    Ok(Some(units))
}

/// Judges the body of a unit whose formals are the locals of `env`, and its end, of which the rule has the place of the unit's name.
#[tactic(auto, using(th_type::proofs::Least::lowest_append))]
pub fn walk_unit_body(
    alloc: Global,
    tree: &Body,
    name: Ident,
    env: &Env<'_>,
    least: &mut Option<Failure>,
) -> Result<Option<CoreBody>, AllocError>
    ensures core { IfOk result (λ r. least.new ≡ None → body_opt r ≡ unit_core (context_of env.now) (locals_of env.now.locals) (tree_of tree.now)) }
    ensures least { OnOk result (least.new ≡ lowest least.old (unit_body_fails (context_of env.now) (locals_of env.now.locals) name (tree_of tree.now))) }
{
    let body = walk_unit(alloc, tree, env, least)?;
    let ends = ends_lawfully(env.sig, tree);
    demand(least, ends, 28, place_at(env, name.at));
    Ok(body)
}
