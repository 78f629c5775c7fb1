//! The hierarchy of interfaces, with failures at their texts.
ghost use Rattle.std.specs.Prelude.{◌≡◌, ◌-◌, ◌^◌, ◌<◌, ℕ, List, length, map, IfOk};
ghost use Rattle.th_tree.specs.Trees.{ModuleSyn};
ghost use Rattle.th_tree.specs.DeclView.{interface_of};
ghost use Rattle.th_type.specs.Ways.{WaysEnd};
ghost use Rattle.th_hier.specs.Answers.{IsHierarchyAnswer};
ghost use Rattle.th_program.specs.Programs.{Ascending, program};
ghost use Rattle.th_outlines.specs.Stages.{hierarchy_stages, placed_error, IsAnswer};

use crate::least::placed_in;
use std::alloc::Global;
use th_hier::{HierError, Hierarchy, has_room};
use th_program::RuleError;
use th_tree::{Interface, NameTable};
use th_type::Failure;

/// The hierarchy of interfaces, the full names of whose items the table has. That no name is new is tested.
fn hierarchy_of(
    alloc: Global,
    names: &mut NameTable,
    interfaces: &[Interface],
) -> Result<Hierarchy, HierError>
    ensures answer { IsHierarchyAnswer names.old (map interface_of interfaces.now) result }
    ensures names { IfOk result (λ _. names.new ≡ names.old) }
    ensures room { IfOk result (λ _. length names.old < 2 ^ 32 - 1) }
    ensures ends { IfOk result (λ h. WaysEnd h.types) }
{
    if !has_room(names, interfaces) {
        return Err(HierError::Memory);
    }
    let count = names.len();
    let hierarchy = Hierarchy::of(alloc, names, interfaces)?;
    if names.len() != count {
        return Err(HierError::Memory);
    }
    Ok(hierarchy)
}

/// The failure of the hierarchy of interfaces, at the text of its interface.
fn placed_error(texts: &[u32], error: HierError) -> RuleError
    ensures { result ≡ placed_error texts.now error }
{
    match error {
        HierError::Rule { number, place } => RuleError::Rule(placed_in(
            texts,
            Failure {
                place,
                rule: number,
            },
        )),
        HierError::Memory => RuleError::Memory,
    }
}

/// The hierarchy of interfaces, or the failure that is named of the rules on names, supertypes and inherited methods in them.
pub fn judge_hierarchy(
    alloc: Global,
    names: &mut NameTable,
    texts: &[u32],
    interfaces: &[Interface],
) -> Result<Hierarchy, RuleError>
    requires paired { length texts.now ≡ length interfaces.now }
    requires ascending { Ascending texts.now }
    ensures answer { (ns : List ℕ) (ms : List ModuleSyn) → IsAnswer (program names.old texts.now (map interface_of interfaces.now) ns ms) (hierarchy_stages (program names.old texts.now (map interface_of interfaces.now) ns ms)) result }
    ensures names { IfOk result (λ _. names.new ≡ names.old) }
    ensures room { IfOk result (λ _. length names.old < 2 ^ 32 - 1) }
    ensures ends { IfOk result (λ h. WaysEnd h.types) }
{
    match hierarchy_of(alloc, names, interfaces) {
        Ok(hierarchy) => Ok(hierarchy),
        Err(error) => Err(placed_error(texts, error)),
    }
}
