//! Well-formed units.
ghost use Rattle.std.specs.Prelude.{◌≡◌, IfOk, IsTrue, ◌↔◌};
ghost use Rattle.std.specs.List.{list_all};
ghost use Rattle.th_flat.specs.WellFormed.{is_lawful, KeepsLimits, WellFormed};

use crate::flow::has_heights;
use crate::limits::is_lawful;
use crate::module::FlatUnit;
use crate::op::FlatOp;
use std::alloc::{AllocError, Global};

/// Whether each operation is lawful, in a unit of so many local words and so many operations.
fn are_lawful(ops: &[FlatOp], words: u64, count: usize) -> bool
    ensures { result ≡ list_all (is_lawful words count) ops.now }
{
    ops.iter().all(|op| is_lawful(op, words, count))
}

/// Whether a unit keeps the limits on words and operands, and each of its operations is lawful.
fn keeps_limits(unit: &FlatUnit) -> bool
    ensures { IsTrue result ↔ KeepsLimits unit.now }
{
    let words = u64::from(unit.args) + u64::from(unit.locals);
    let ops = unit.ops.as_slice();
    unit.args <= 17
        && u64::from(unit.locals) + u64::from(unit.depth) <= 400
        && are_lawful(ops, words, ops.len())
}

/// Whether a unit is of level 3 and well formed, as docs/FLAT.md states it.
pub fn well_formed(alloc: Global, unit: &FlatUnit) -> Result<bool, AllocError>
    ensures { IfOk result (λ good. IsTrue good ↔ WellFormed unit.now) }
{
    if !keeps_limits(unit) {
        return Ok(false);
    }
    has_heights(alloc, unit)
}
