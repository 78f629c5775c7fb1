//! Conditions on single operations.
ghost use Rattle.std.specs.Prelude.{◌≡◌};
ghost use Rattle.th_flat.specs.Effects.{is_numbered};
ghost use Rattle.th_flat.specs.WellFormed.{in_range, has_few_operands, is_lawful};

use crate::op::FlatOp;

/// Whether an operation stands on level 3.
fn is_numbered(op: &FlatOp) -> bool
    ensures { result ≡ is_numbered op.now }
{
    match op {
        FlatOp::OpBlock { .. }
        | FlatOp::OpHandle { .. }
        | FlatOp::OpOver { .. }
        | FlatOp::OpNext
        | FlatOp::OpResume => false,
        _ => true,
    }
}

/// Whether an operation's numbers are in range, in a unit of so many local words and so many operations.
fn in_range(op: &FlatOp, words: u64, count: usize) -> bool
    ensures { result ≡ in_range words count op.now }
{
    match op {
        FlatOp::OpLocal { k } | FlatOp::OpSet { k } => u64::from(*k) < words,
        FlatOp::OpArith { g, l } => *g <= 5 && *l as usize <= count,
        FlatOp::OpCompare { g } => *g <= 5,
        FlatOp::OpCall { f, l, .. }
        | FlatOp::OpDispatch { f, l, .. }
        | FlatOp::OpHidden { f, l, .. }
        | FlatOp::OpSupply { f, l, .. }
        | FlatOp::OpRaise { f, l, .. }
        | FlatOp::OpHandle { f, l, .. } => *f <= 1 && *l as usize <= count,
        FlatOp::OpGo { l }
        | FlatOp::OpUnless { l }
        | FlatOp::OpArray { l }
        | FlatOp::OpAt { l }
        | FlatOp::OpSetat { l }
        | FlatOp::OpPutbyte { l }
        | FlatOp::OpGet { l }
        | FlatOp::OpIs { l, .. }
        | FlatOp::OpYield { l }
        | FlatOp::OpStopped { l }
        | FlatOp::OpAppend { l }
        | FlatOp::OpLetter { l }
        | FlatOp::OpOver { e: l } => *l as usize <= count,
        FlatOp::OpCaught { f } | FlatOp::OpReturn { f } => *f <= 1,
        FlatOp::OpBlock { h, e } => *h as usize <= count && *e as usize <= count,
        _ => true,
    }
}

/// Whether a call has at most 17 operands.
fn has_few_operands(op: &FlatOp) -> bool
    ensures { result ≡ has_few_operands op.now }
{
    match op {
        FlatOp::OpCall { n, .. }
        | FlatOp::OpDispatch { n, .. }
        | FlatOp::OpHidden { n, .. }
        | FlatOp::OpSupply { n, .. } => *n <= 17,
        _ => true,
    }
}

/// Whether an operation is of level 3, with its numbers in range and at most 17 operands.
pub fn is_lawful(op: &FlatOp, words: u64, count: usize) -> bool
    ensures { result ≡ is_lawful words count op.now }
{
    is_numbered(op) && in_range(op, words, count) && has_few_operands(op)
}
