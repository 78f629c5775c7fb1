//! The nodes of a program.
ghost use Rattle.std.specs.Prelude.{◌≡◌, ◌-◌, ◌^◌, map, min, sum_by};
ghost use Rattle.th_meaning.specs.View.{class_of, module_of, program_of, unit_of};
ghost use Rattle.th_meaning.specs.Counts.{class_nodes, module_nodes, program_nodes, unit_nodes};

use th_meaning::{CoreClass, CoreModule, CoreUnit, nodes};

/// The nodes of units; the number stays at the greatest of 64 bits.
fn units_nodes(units: &[CoreUnit]) -> u64
    ensures { result ≡ min (sum_by unit_nodes (map unit_of units.now)) (2 ^ 64 - 1) }
{
    let mut sum: u64 = 0;
    for unit in units {
        sum = sum.saturating_add(nodes(unit));
    }
    sum
}

/// The nodes of a class, but for its units; the number stays at the greatest of 64 bits.
fn class_nodes(class: &CoreClass) -> u64
    ensures { result ≡ min (class_nodes (class_of class.now)) (2 ^ 64 - 1) }
{
    let clauses = class.head.clauses.len() as u64;
    clauses.saturating_add(17)
}

/// The nodes of classes, but for their units; the number stays at the greatest of 64 bits.
fn classes_nodes(classes: &[CoreClass]) -> u64
    ensures { result ≡ min (sum_by class_nodes (map class_of classes.now)) (2 ^ 64 - 1) }
{
    let mut sum: u64 = 0;
    for class in classes {
        sum = sum.saturating_add(class_nodes(class));
    }
    sum
}

/// The nodes of a module; the number stays at the greatest of 64 bits.
#[tactic(auto, using(crate::proofs::Sums::capped_sum))]
fn module_nodes(program: &CoreModule) -> u64
    ensures { result ≡ min (module_nodes (module_of program.now)) (2 ^ 64 - 1) }
{
    units_nodes(&program.units).saturating_add(classes_nodes(&program.classes))
}

/// The nodes of modules; the number stays at the greatest of 64 bits.
pub fn program_nodes(modules: &[CoreModule]) -> u64
    ensures { result ≡ min (program_nodes (program_of modules.now)) (2 ^ 64 - 1) }
{
    let mut sum: u64 = 0;
    for module in modules {
        sum = sum.saturating_add(module_nodes(module));
    }
    sum
}
