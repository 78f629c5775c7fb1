//! Classes by the numbers of their full names.
ghost use Rattle.std.specs.Prelude.{map};
ghost use Rattle.std.proofs.Props.{props};
ghost use Rattle.th_contexts.specs.BaseView.{base_of};
ghost use Rattle.th_contexts.specs.Placing.{Placed};

use crate::base_row::Base;
use indexmap::IndexMap;

/// What is asked of classes, by the numbers of their full names; of two with one number the first counts.
#[derive(Drop)]
pub struct Bases {
    pub(crate) list: Vec<Base>,
    pub(crate) places: IndexMap<u32, usize>,
    pub(crate) ghost placed: { Placed (map base_of list.items) places.entries } by { Prim.hlevel props },
}
