//! Operations.
use th_tree::{ByteList, Name};

/// An operation of Flat code. docs/FLAT.md states what each does, and on which of the three levels it stands.
///
/// A field `l` is a label: the number of an operation of the unit, from 0, or how many there are. A field `n` says how many
/// words a call takes as operands, a field `f` whether there is a value: 1, or 0. Names of units, classes and methods
/// of classes are full names.
#[derive(Drop)]
pub enum FlatOp {
    /// 0: pushes the number.
    OpWord {
        w: u32,
    },
    /// 1: pushes local word `k`.
    OpLocal {
        k: u32,
    },
    /// 2: pops into local word `k`.
    OpSet {
        k: u32,
    },
    /// 3: pops.
    OpDrop,
    /// 4: arithmetic: 0 `+`, 1 `-`, 2 `*`, 3 `/`, 4 `%`, 5 the opposite; fails to `l`.
    OpArith {
        g: u32,
        l: u32,
    },
    /// 5: comparison: 0 equal, 1 unequal, 2 less, 3 at most, 4 greater, 5 at least.
    OpCompare {
        g: u32,
    },
    /// 6: whether two references are one object.
    OpSame,
    /// 7: goes to `l`.
    OpGo {
        l: u32,
    },
    /// 8: pops; goes to `l` at 0.
    OpUnless {
        l: u32,
    },
    /// 9: pops a reference seen at `from` and pushes it seen at `to`.
    OpCast {
        from: Name,
        to: Name,
    },
    /// 10: pushes `self` as the class sees it.
    OpOwn {
        class: Name,
    },
    /// 11: pushes where-word or field `k` of `self` in the class.
    OpField {
        class: Name,
        k: u32,
    },
    /// 12: pops into where-word or field `k` of `self` in the class.
    OpSetfield {
        class: Name,
        k: u32,
    },
    /// 13: calls the unit; an exception goes to `l`.
    OpCall {
        unit: Name,
        n: u32,
        f: u32,
        l: u32,
    },
    /// 14: calls the method of the receiver, which is seen at the type `head`.
    OpDispatch {
        head: Name,
        method: Name,
        n: u32,
        f: u32,
        l: u32,
    },
    /// 15: calls the hidden method of `self`.
    OpHidden {
        class: Name,
        method: Name,
        n: u32,
        f: u32,
        l: u32,
    },
    /// 16: calls by a supply word below the `n` words.
    OpSupply {
        n: u32,
        f: u32,
        l: u32,
    },
    /// 17: makes an object of the class and pushes it.
    OpNew {
        class: Name,
    },
    /// 18: pops an element and a length, and pushes an array; fails to `l`.
    OpArray {
        l: u32,
    },
    /// 19: pops an index and an array, and pushes the element; fails to `l`.
    OpAt {
        l: u32,
    },
    /// 20: pops a value, an index and an array, and stores the element; fails to `l`.
    OpSetat {
        l: u32,
    },
    /// 21: pops an array and pushes its length.
    OpLength,
    /// 22: pops a number and puts it as a byte; fails to `l`.
    OpPutbyte {
        l: u32,
    },
    /// 23: pops a number and puts its decimal digits.
    OpPutint,
    /// 24: takes a byte and pushes it; fails to `l`.
    OpGet {
        l: u32,
    },
    /// 25: pushes a word that stands for the unit.
    OpUnitword {
        unit: Name,
    },
    /// 26: raises the exception, with a value that it pops where `f` is 1; fails to `l`.
    OpRaise {
        name: Name,
        f: u32,
        l: u32,
    },
    /// 27: goes to `l` unless this exception is on its way.
    OpIs {
        name: Name,
        l: u32,
    },
    /// 28: ends the exception on its way, and pushes its value where `f` is 1.
    OpCaught {
        f: u32,
    },
    /// 29: returns, with a value that it pops where `f` is 1.
    OpReturn {
        f: u32,
    },
    /// 30: returns with the status as it is.
    OpLeave,
    /// 31: the loop body of the next call is this unit, with this frame.
    OpBody {
        unit: Name,
    },
    /// 32: pops and enters the loop body; a status that it returns goes to `l`.
    OpYield {
        l: u32,
    },
    /// 33: in a loop body: returns the status "stopped".
    OpStop,
    /// 34: goes to `l` unless the status is "stopped", which ends.
    OpStopped {
        l: u32,
    },
    /// 35: one turn.
    OpTurn,
    /// 36: pushes a literal text.
    OpText {
        bytes: ByteList,
    },
    /// 37: pops two texts and pushes the joined one; fails to `l`.
    OpAppend {
        l: u32,
    },
    /// 38: pops an index and a text, and pushes the byte; fails to `l`.
    OpLetter {
        l: u32,
    },
    /// 39: pops a text and pushes its length.
    OpExtent,
    /// 40: pops a text and puts it.
    OpPuttext,
    /// Level 1: the operations after this one and before `e` are covered by handlers, which begin at `h`.
    OpBlock {
        h: u32,
        e: u32,
    },
    /// Level 1: ends this exception and pushes its value where `f` is 1; another one goes to `l`.
    OpHandle {
        name: Name,
        f: u32,
        l: u32,
    },
    /// Levels 1 and 2: the loop body of the next call is the operations after it and before the `next` at `e`.
    OpOver {
        e: u32,
    },
    /// Levels 1 and 2: goes on after the `yield` that runs this loop body.
    OpNext,
    /// Levels 1 and 2: pops and runs the loop body of the activation.
    OpResume,
}
