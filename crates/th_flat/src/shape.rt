//! What each operation does to the height of the stack, and where it leads.
ghost use Rattle.std.specs.Prelude.{◌≡◌, ◌+◌, ◌^◌, ◌<◌, if◌then◌else◌, Some, None};
ghost use Rattle.th_flat.specs.Effects.{straight, failing, branching, ending, going, raising, shape_of};

use crate::op::FlatOp;

/// What an operation does to the height of the stack, and where it leads.
#[derive(Clone, Copy)]
pub struct Shape {
    /// How many words it takes off the stack.
    pub takes: usize,
    /// How many words it then puts there before it goes on.
    pub gives: usize,
    /// Whether it goes on to the next operation.
    pub next: bool,
    /// The label where it goes with what it left on the stack.
    pub way: Option<usize>,
    /// The label where it goes with an empty stack.
    pub failure: Option<usize>,
}

impl Shape {
    /// It goes on.
    fn straight(takes: usize, gives: usize) -> Shape
        ensures { result ≡ straight takes gives }
    {
        Shape {
            takes,
            gives,
            next: true,
            way: None,
            failure: None,
        }
    }

    /// It goes on, or to a label with an empty stack.
    fn failing(takes: usize, gives: usize, l: usize) -> Shape
        ensures { result ≡ failing takes gives l }
    {
        Shape {
            takes,
            gives,
            next: true,
            way: None,
            failure: Some(l),
        }
    }

    /// It goes on, or to a label.
    fn branching(takes: usize, l: usize) -> Shape
        ensures { result ≡ branching takes l }
    {
        Shape {
            takes,
            gives: 0,
            next: true,
            way: Some(l),
            failure: None,
        }
    }

    /// It goes nowhere within the unit.
    fn ending(takes: usize) -> Shape
        ensures { result ≡ ending takes }
    {
        Shape {
            takes,
            gives: 0,
            next: false,
            way: None,
            failure: None,
        }
    }

    /// It goes to a label.
    fn going(l: usize) -> Shape
        ensures { result ≡ going l }
    {
        Shape {
            takes: 0,
            gives: 0,
            next: false,
            way: Some(l),
            failure: None,
        }
    }

    /// It goes to a label with an empty stack.
    fn raising(takes: usize, l: usize) -> Shape
        ensures { result ≡ raising takes l }
    {
        Shape {
            takes,
            gives: 0,
            next: false,
            way: None,
            failure: Some(l),
        }
    }
}

/// The place after this one, where an operation goes on to it.
pub fn next_of(shape: &Shape, place: usize) -> Option<usize>
    requires { place < usize.MAX }
    ensures { result ≡ (if shape.now.next then Some (place + 1) else None) }
{
    if shape.next { Some(place + 1) } else { None }
}

/// The shape of an operation.
pub fn shape_of(op: &FlatOp) -> Shape
    ensures shape { result ≡ shape_of op.now }
    ensures small { result.gives < 2 ^ 32 }
{
    match op {
        FlatOp::OpWord { .. }
        | FlatOp::OpLocal { .. }
        | FlatOp::OpOwn { .. }
        | FlatOp::OpField { .. }
        | FlatOp::OpNew { .. }
        | FlatOp::OpUnitword { .. }
        | FlatOp::OpText { .. } => Shape::straight(0, 1),
        FlatOp::OpSet { .. }
        | FlatOp::OpDrop
        | FlatOp::OpSetfield { .. }
        | FlatOp::OpPutint
        | FlatOp::OpPuttext
        | FlatOp::OpResume => Shape::straight(1, 0),
        FlatOp::OpCast { .. } | FlatOp::OpLength | FlatOp::OpExtent => Shape::straight(1, 1),
        FlatOp::OpCompare { .. } | FlatOp::OpSame => Shape::straight(2, 1),
        FlatOp::OpBody { .. } | FlatOp::OpTurn | FlatOp::OpBlock { .. } | FlatOp::OpOver { .. } =>
            Shape::straight(0, 0),
        FlatOp::OpCaught { f } => Shape::straight(0, *f as usize),
        FlatOp::OpArith { g, l } => Shape::failing(if *g == 5 { 1 } else { 2 }, 1, *l as usize),
        FlatOp::OpCall { n, f, l, .. }
        | FlatOp::OpDispatch { n, f, l, .. }
        | FlatOp::OpHidden { n, f, l, .. } => {
            Shape::failing(*n as usize, *f as usize, *l as usize)
        }
        FlatOp::OpSupply { n, f, l } => Shape::failing(*n as usize + 1, *f as usize, *l as usize),
        FlatOp::OpArray { l }
        | FlatOp::OpAt { l }
        | FlatOp::OpAppend { l }
        | FlatOp::OpLetter { l } => Shape::failing(2, 1, *l as usize),
        FlatOp::OpSetat { l } => Shape::failing(3, 0, *l as usize),
        FlatOp::OpPutbyte { l } | FlatOp::OpYield { l } => Shape::failing(1, 0, *l as usize),
        FlatOp::OpGet { l } => Shape::failing(0, 1, *l as usize),
        FlatOp::OpHandle { f, l, .. } => Shape::failing(0, *f as usize, *l as usize),
        FlatOp::OpUnless { l } => Shape::branching(1, *l as usize),
        FlatOp::OpIs { l, .. } | FlatOp::OpStopped { l } => Shape::branching(0, *l as usize),
        FlatOp::OpGo { l } => Shape::going(*l as usize),
        FlatOp::OpRaise { f, l, .. } => Shape::raising(*f as usize, *l as usize),
        FlatOp::OpReturn { f } => Shape::ending(*f as usize),
        FlatOp::OpLeave | FlatOp::OpStop | FlatOp::OpNext => Shape::ending(0),
    }
}
