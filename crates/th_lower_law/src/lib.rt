//! Laws of the modules that the lowering gives. They hold of whatever checked modules.
#![tactic(auto)]

ghost use Rattle.th_lower_law.specs.Laws.{UnitsHaveTheirSize, ModulesAreOfLevel1, ModulesGoOnward};

/// A law: a unit has as many operations as its size says, by which labels are computed.
#[tactic(auto, using(crate::proofs::Laws::have_their_size))]
pub fn size_law()
    ensures { UnitsHaveTheirSize }
{}

/// A law: the units of a lowered module, stubs too, are of level 1, with blocks and loops in place.
pub fn level_law()
    ensures { ModulesAreOfLevel1 }
{}

/// A law: what an operation of such a unit leads to besides the next one is ahead of it, or a turn. So between two turns a unit is
/// gone through at most once from front to end.
pub fn onward_law()
    ensures { ModulesGoOnward }
{}
