//! Acts that make objects, and yields.
ghost use Rattle.std.specs.Prelude.{◌≡◌, ℕ, pos, List, replicate, Option, IfOk};
ghost use Rattle.th_meaning.specs.World.{World, new_array};
ghost use Rattle.th_meaning.specs.Meaning.{Value, Ref, act_as};
ghost use Rattle.th_steps.specs.Machine.{on_value};
ghost use Rattle.th_control.specs.declared.control.Act.TheVariants.{NewObject, NewArray, Yield};
ghost use Rattle.th_control.specs.Config.{state_of};
ghost use Rattle.th_control.specs.Acts.{doing, the_loop, the_rest};
ghost use Rattle.th_acts.specs.Stands.{Told, Stands, Leads};

use crate::errors::InterpretError;
use crate::runner::{Next, Over, Runner};
use crate::values::{lacks, natural, raises};
use std::alloc::{AllocError, Global};
use th_control::{Goal, Now, RunValue};
use th_frames::visit;
use th_meaning::CoreExprList;
use th_store::RunObject;

impl<'a> Runner<'a> {
    /// Makes an object of a class, whose arguments come next.
    pub(crate) fn new_object(
        &mut self,
        class: &'a [u8],
        args: &'a CoreExprList,
    ) -> Result<Next<'a>, InterpretError>
        ensures { IfOk result (λ next. (e : Told) (left now : Option (List ℕ)) (w : World Value) → Stands e self.old left now w → Leads e self.new left now next (doing e.program (NewObject class.entry args.entry) self.old.control w)) }
    {
        let weight = self.tables.weights.get(self.tables.classes.number(class));
        match self.store.charge(1, weight) {
            Some(short) => Ok(lacks(short)),
            None => {
                let number = self.store.add(RunObject::instance(self.alloc, class))?;
                let goal = Goal::NewObject(class, number);
                Ok(Next::Go(Now::Args(Vec::new(self.alloc), args, goal)))
            }
        }
    }

    /// Makes an array of a length that may be negative.
    pub(crate) fn new_array(
        &mut self,
        count: i64,
        fill: RunValue<'a>,
    ) -> Result<Next<'a>, InterpretError>
        ensures { IfOk result (λ next. (e : Told) (left now : Option (List ℕ)) (w : World Value) → Stands e self.old left now w → Leads e self.new left now next (doing e.program (NewArray count fill.entry) self.old.control w)) }
    {
        match natural(count) {
            None => Ok(raises(b"bounds")),
            Some(size) => self.add_array(size, fill),
        }
    }

    /// Makes an array. There is no memory for 2^60 elements.
    fn add_array(&mut self, size: u64, fill: RunValue<'a>) -> Result<Next<'a>, InterpretError>
        ensures { IfOk result (λ next. (e : Told) (left now : Option (List ℕ)) (w : World Value) → Stands e self.old left now w
            → Leads e self.new left now next (on_value (act_as Ref (new_array (pos size) fill.entry w) (state_of self.old.control w)) (the_loop self.old.control) (the_rest self.old.control))) }
    {
        if size >= 1 << 60 {
            return Err(InterpretError::Memory);
        }
        match self.store.charge(size + 1, 8 + 4 * size) {
            Some(short) => Ok(lacks(short)),
            None => {
                let elements = filled(self.alloc, size, &fill)?;
                let number = self.store.add(RunObject::array(elements))?;
                Ok(Next::Go(Now::Value(RunValue::object(number))))
            }
        }
    }

    /// Yields a value: one turn and its room, then the loop's body in the frame of its home.
    pub(crate) fn yields(&mut self, value: RunValue<'a>) -> Result<Next<'a>, InterpretError>
        ensures { IfOk result (λ next. (e : Told) (left now : Option (List ℕ)) (w : World Value) → Stands e self.old left now w → Leads e self.new left now next (doing e.program (Yield value.entry) self.old.control w)) }
    {
        match self.store.charge(1, 64) {
            Some(short) => Ok(lacks(short)),
            None => match visit(&mut self.control, value)? {
                None => Ok(Next::Over(Over::Stuck)),
                Some(body) => Ok(Next::Go(Now::Body(body))),
            },
        }
    }
}

/// So many times this value.
fn filled<'a>(
    alloc: Global,
    size: u64,
    fill: &RunValue<'a>,
) -> Result<Vec<RunValue<'a>>, AllocError>
    ensures { IfOk result (λ elements. elements.items ≡ replicate size fill.now) }
{
    let mut elements = Vec::new(alloc);
    for k in 0..size {
        elements.push(fill.copied())?;
    }
    Ok(elements)
}
