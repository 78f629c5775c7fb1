//! A run: what it does next, what it has left, and the objects.
use bumpalo::Bump;
use std::alloc::Global;
use th_classes::ClassTable;
use th_control::{Control, Now};
use th_store::Store;
use th_units::UnitTable;
use th_weights::Weights;

/// How a run is over. `Stuck` counts as an end.
#[derive(Drop)]
pub enum Over<'a> {
    Ended,
    Raised(&'a [u8]),
    NoTurns,
    NoRoom,
    Stuck,
}

/// What a step leads to: the next one, or the end of the run.
#[derive(Drop)]
pub enum Next<'a> {
    Go(Now<'a>),
    Over(Over<'a>),
}

/// The units and classes of the program, and the weights of objects.
#[derive(Drop)]
pub struct Tables<'a> {
    pub units: UnitTable<'a>,
    pub classes: ClassTable<'a>,
    pub weights: Weights,
}

/// What is still to do, what is left of turns and room with the objects, and the numbers of the units entered.
#[derive(Drop)]
pub struct Runner<'a> {
    pub alloc: Global,
    pub arena: &'a Bump,
    pub tables: &'a Tables<'a>,
    pub control: Control<'a>,
    pub store: Store<'a>,
    pub entered: Vec<u32>,
}
