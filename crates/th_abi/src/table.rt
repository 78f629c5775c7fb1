//! The table of code patterns.
ghost use Rattle.std.specs.Prelude.{◌≡◌, []};
ghost use Rattle.th_abi.specs.Table.{HasPattern, row};

use crate::calls::{body_row, call_row, supply_row, unit_row, yield_row};
use crate::control::{
    caught_row, go_row, is_row, leave_row, nothing, raise_row, return_row, stop_row, stopped_row,
    unless_row,
};
use crate::numbers::{arith_row, compare_row, local_row, set_row, word_row};
use crate::outside::{get_row, put_byte_row, put_int_row};
use crate::word::Words;
use th_flat::FlatOp;

/// The row of an operation of level 3 at which the stack has `height` words: the words that do it, with what is still open
/// in them. docs/CODE.md states the rows; those of operations on objects, arrays and texts are still empty. A call has at most
/// 17 operands, a local word's number is below 417, and the height is at most 400. It takes no memory.
pub fn pattern(op: &FlatOp, height: u32, into: &mut Words)
    requires empty { into.old.items ≡ [] }
    requires has { HasPattern op.now height }
    ensures { into.new.items ≡ row op.now height }
{
    match op {
        FlatOp::OpWord { w } => word_row(into, *w, height),
        FlatOp::OpLocal { k } => local_row(into, *k, height),
        FlatOp::OpSet { k } => set_row(into, *k, height),
        FlatOp::OpDrop | FlatOp::OpTurn => nothing(into),
        FlatOp::OpArith { g, .. } => arith_row(into, *g, height),
        FlatOp::OpCompare { g } => compare_row(into, *g, height),
        FlatOp::OpGo { .. } => go_row(into),
        FlatOp::OpUnless { .. } => unless_row(into, height),
        FlatOp::OpCall { n, f, .. } => call_row(into, *n, *f, height),
        FlatOp::OpSupply { n, f, .. } => supply_row(into, *n, *f, height),
        FlatOp::OpPutbyte { .. } => put_byte_row(into, height),
        FlatOp::OpPutint => put_int_row(into, height),
        FlatOp::OpGet { .. } => get_row(into, height),
        FlatOp::OpUnitword { .. } => unit_row(into, height),
        FlatOp::OpRaise { f, .. } => raise_row(into, *f, height),
        FlatOp::OpIs { .. } => is_row(into),
        FlatOp::OpCaught { f } => caught_row(into, *f, height),
        FlatOp::OpReturn { f } => return_row(into, *f, height),
        FlatOp::OpLeave => leave_row(into),
        FlatOp::OpBody { .. } => body_row(into),
        FlatOp::OpYield { .. } => yield_row(into, height),
        FlatOp::OpStop => stop_row(into),
        FlatOp::OpStopped { .. } => stopped_row(into),
        FlatOp::OpSame
        | FlatOp::OpCast { .. }
        | FlatOp::OpOwn { .. }
        | FlatOp::OpField { .. }
        | FlatOp::OpSetfield { .. }
        | FlatOp::OpDispatch { .. }
        | FlatOp::OpHidden { .. }
        | FlatOp::OpNew { .. }
        | FlatOp::OpArray { .. }
        | FlatOp::OpAt { .. }
        | FlatOp::OpSetat { .. }
        | FlatOp::OpLength
        | FlatOp::OpText { .. }
        | FlatOp::OpAppend { .. }
        | FlatOp::OpLetter { .. }
        | FlatOp::OpExtent
        | FlatOp::OpPuttext
        | FlatOp::OpBlock { .. }
        | FlatOp::OpHandle { .. }
        | FlatOp::OpOver { .. }
        | FlatOp::OpNext
        | FlatOp::OpResume => {}
    }
}
