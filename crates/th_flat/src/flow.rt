//! The heights of the stack, found by following all ways through a unit.
ghost use Rattle.std.specs.Prelude.{◌≡◌, ◌<◌, ◌≤◌, ◌+◌, ◌++◌, [], ◌∷◌, length, slice_get, slice_set, Some, true, false, IfOk, OnOk, IfSome, IsTrue, ◌↔◌, option_map, replicate, None};
ghost use Rattle.th_flat.specs.Effects.{shape_of};
ghost use Rattle.th_flat.specs.WellFormed.{Reached, HasHeights, first_height};
ghost use Rattle.th_flat.specs.Flow.{Knows, IsSound, Grows, IsSettled, IsOnWay};

use crate::module::FlatUnit;
use crate::shape::{Shape, next_of, shape_of};
use std::alloc::{AllocError, Global};

/// A way comes to a place with so many words on the stack.
#[derive(Clone, Copy, Drop)]
struct Arrival {
    place: usize,
    height: usize,
}

/// The height that the stack is known to have at each operation, and the arrivals whose ways are still to be followed.
#[derive(Drop)]
struct Flow {
    heights: Vec<Option<usize>>,
    pending: Vec<Arrival>,
}

impl Flow {
    /// Nothing is known yet of so many places.
    fn of(alloc: Global, count: usize) -> Result<Flow, AllocError>
        ensures heights { IfOk result (λ flow. flow.heights.items ≡ replicate count None) }
        ensures pending { IfOk result (λ flow. flow.pending.items ≡ []) }
    {
        Ok(Flow {
            heights: vec![in alloc; None; count]?,
            pending: Vec::new(alloc),
        })
    }

    /// The height at a place, which may not be known yet; None where there is no such place.
    fn height_at(&self, place: usize) -> Option<Option<usize>>
        ensures { result ≡ slice_get self.now.heights.items place }
    {
        self.heights.get(place).copied()
    }

    /// The height at a place is known from now on, and is to be followed.
    fn learn(&mut self, place: usize, height: usize) -> Result<(), AllocError>
        requires { place < length self.old.heights.items }
        ensures heights { OnOk result (self.new.heights.items ≡ slice_set self.old.heights.items place (Some height)) }
        ensures pending { OnOk result (self.new.pending.items ≡ self.old.pending.items ++ record { place = place; height = height } ∷ []) }
    {
        self.heights[place] = Some(height);
        self.pending.push(Arrival { place, height })?;
        Ok(())
    }

    /// A way comes to a place: false where the place or the height is wrong.
    fn arrive(&mut self, unit: &FlatUnit, place: usize, height: usize) -> Result<bool, AllocError>
        requires sound { IsSound unit.now self.old.heights.items }
        requires reached { Reached unit.now place height }
        ensures sound { OnOk result (IsSound unit.now self.new.heights.items) }
        ensures grows { OnOk result (Grows self.old.heights.items self.old.pending.items self.new.heights.items self.new.pending.items) }
        ensures right { IfOk result (λ good. good ≡ true → Knows self.new.heights.items place height) }
        ensures wrong { IfOk result (λ good. good ≡ false → HasHeights unit.now → ⊥) }
    {
        match self.height_at(place) {
            None => Ok(false),
            Some(Some(known)) => Ok(known == height),
            Some(None) => {
                if height > unit.depth as usize {
                    return Ok(false);
                }
                self.learn(place, height)?;
                Ok(true)
            }
        }
    }

    /// A way comes to a place, if there is one: false where the place or the height is wrong.
    fn arrive_if(
        &mut self,
        unit: &FlatUnit,
        place: Option<usize>,
        height: usize,
    ) -> Result<bool, AllocError>
        requires sound { IsSound unit.now self.old.heights.items }
        requires reached { IfSome place (λ p. Reached unit.now p height) }
        ensures sound { OnOk result (IsSound unit.now self.new.heights.items) }
        ensures grows { OnOk result (Grows self.old.heights.items self.old.pending.items self.new.heights.items self.new.pending.items) }
        ensures right { IfOk result (λ good. good ≡ true → IfSome place (λ p. Knows self.new.heights.items p height)) }
        ensures wrong { IfOk result (λ good. good ≡ false → HasHeights unit.now → ⊥) }
    {
        match place {
            None => Ok(true),
            Some(place) => self.arrive(unit, place, height),
        }
    }

    /// Follows the ways of an operation of this shape at a place: false where an arrival is wrong.
    fn follow_ways(
        &mut self,
        unit: &FlatUnit,
        at: Arrival,
        shape: Shape,
    ) -> Result<bool, AllocError>
        requires sound { IsSound unit.now self.old.heights.items }
        requires reached { Reached unit.now at.place at.height }
        requires shape { option_map shape_of (slice_get unit.now.ops at.place) ≡ Some shape }
        requires enough { shape.takes ≤ at.height }
        requires place { at.place < usize.MAX }
        requires next { at.height + shape.gives ≤ usize.MAX }
        ensures sound { OnOk result (IsSound unit.now self.new.heights.items) }
        ensures grows { OnOk result (Grows self.old.heights.items self.old.pending.items self.new.heights.items self.new.pending.items) }
        ensures right { IfOk result (λ good. good ≡ true → IsSettled unit.now self.new.heights.items at.place at.height) }
        ensures wrong { IfOk result (λ good. good ≡ false → HasHeights unit.now → ⊥) }
    {
        let left = at.height - shape.takes;
        let next = next_of(&shape, at.place);
        let next_height = left + shape.gives;
        if !self.arrive_if(unit, next, next_height)? {
            return Ok(false);
        }
        if !self.arrive_if(unit, shape.way, left)? {
            return Ok(false);
        }
        if !self.arrive_if(unit, shape.failure, 0)? {
            return Ok(false);
        }
        Ok(true)
    }

    /// Follows the ways of the operation at a place: false where it takes more words than there are, or where an arrival is wrong.
    fn follow(&mut self, unit: &FlatUnit, at: Arrival) -> Result<bool, AllocError>
        requires sound { IsSound unit.now self.old.heights.items }
        requires known { Knows self.old.heights.items at.place at.height }
        ensures sound { OnOk result (IsSound unit.now self.new.heights.items) }
        ensures grows { OnOk result (Grows self.old.heights.items self.old.pending.items self.new.heights.items self.new.pending.items) }
        ensures right { IfOk result (λ good. good ≡ true → IsSettled unit.now self.new.heights.items at.place at.height) }
        ensures wrong { IfOk result (λ good. good ≡ false → HasHeights unit.now → ⊥) }
    {
        let ops = unit.ops.as_slice();
        if at.place >= ops.len() {
            return Ok(true);
        }
        let shape = shape_of(&ops[at.place]);
        if at.height < shape.takes {
            return Ok(false);
        }
        self.follow_ways(unit, at, shape)
    }
}

/// The height of the stack at a unit's start.
fn first_height(kind: u8) -> usize
    ensures { result ≡ first_height kind }
{
    if kind == 5 { 1 } else { 0 }
}

/// Whether no way leads past the last operation, and each operation has one height of the stack over all ways, which is at
/// most the unit's depth and not below what the operation takes.
pub fn has_heights(alloc: Global, unit: &FlatUnit) -> Result<bool, AllocError>
    ensures { IfOk result (λ good. IsTrue good ↔ HasHeights unit.now) }
{
    let mut flow = Flow::of(alloc, unit.ops.len())?;
    if !flow.arrive(unit, 0, first_height(unit.kind))? {
        return Ok(false);
    }
    'ways: while let Some(at) = flow.pending.pop() {
        if !flow.follow(unit, at)? {
            return Ok(false);
        }
    }
    Ok(true)
}
