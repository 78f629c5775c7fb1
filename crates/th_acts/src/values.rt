//! Acts that give a value or set one.
ghost use Rattle.std.specs.Prelude.{◌≡◌, ℕ, pos, negsuc, List, Option, None, IfOk, IfSome, IfNone};
ghost use Rattle.th_meaning.specs.World.{World};
ghost use Rattle.th_meaning.specs.Meaning.{Value};
ghost use Rattle.th_control.specs.declared.control.Act.TheVariants.{Element, SetElement, Length, Field, SetField, Again, GiveBack};
ghost use Rattle.th_steps.specs.Machine.{At, now_raise};
ghost use Rattle.th_control.specs.Config.{state_of};
ghost use Rattle.th_control.specs.Acts.{doing, the_loop, the_rest};
ghost use Rattle.th_acts.specs.Stands.{Told, Stands, Leads, missed_at, short_at};
ghost use Rattle.th_acts.specs.declared.runner.Runner.{Runner as TheRunner};

use crate::errors::InterpretError;
use crate::runner::{Next, Over, Runner};
use th_control::{How, Now, Raised, RunValue};
use th_frames::wait_again;
use th_meaning::{CoreBody, CoreExpr};
use th_store::{Miss, Short};

/// A predeclared exception is raised.
pub(crate) fn raises<'a>(name: &'static [u8]) -> Next<'a>
    ensures { (e : Told) (r : TheRunner) (left now : Option (List ℕ)) (w : World Value) → Stands e r left now w → Leads e r left now result (At (now_raise name.now None) (the_loop r.control) (the_rest r.control) (state_of r.control w)) }
{
    Next::Go(Now::Raise(Raised {
        name,
        argument: None,
    }))
}

/// A number that isn't negative; None where it is.
pub(crate) fn natural(number: i64) -> Option<u64>
    ensures some { IfSome result (λ n. number ≡ pos n) }
    ensures none { IfNone result ((n : ℕ) × (number ≡ negsuc n)) }
{
    if number < 0 {
        None
    } else {
        Some(number as u64)
    }
}

/// What was looked up isn't there.
fn missed<'a>(miss: Miss) -> Next<'a>
    ensures { (e : Told) (r : TheRunner) (left now : Option (List ℕ)) (w : World Value) → Stands e r left now w → Leads e r left now result (missed_at miss r.control w) }
{
    match miss {
        Miss::Stuck => Next::Over(Over::Stuck),
        Miss::Unset => Next::Over(Over::Stuck),
        Miss::Bounds => raises(b"bounds"),
    }
}

/// A charge that there is too little for.
pub(crate) fn lacks<'a>(short: Short) -> Next<'a>
    ensures { (e : Told) (r : TheRunner) (left now : Option (List ℕ)) (w : World Value) → Stands e r left now w → Leads e r left now result (short_at short w) }
{
    match short {
        Short::Turns => Next::Over(Over::NoTurns),
        Short::Room => Next::Over(Over::NoRoom),
    }
}

impl<'a> Runner<'a> {
    /// How many elements an array has.
    pub(crate) fn length(&self, number: usize) -> Next<'a>
        ensures { (e : Told) (left now : Option (List ℕ)) (w : World Value) → Stands e self.now left now w → Leads e self.now left now result (doing e.program (Length number) self.now.control w) }
    {
        match self.store.length(number) {
            Err(miss) => missed(miss),
            Ok(length) => Next::Go(Now::Value(RunValue::size(length))),
        }
    }

    /// An element of an array.
    pub(crate) fn element(&self, number: usize, index: i64) -> Next<'a>
        ensures { (e : Told) (left now : Option (List ℕ)) (w : World Value) → Stands e self.now left now w → Leads e self.now left now result (doing e.program (Element number index) self.now.control w) }
    {
        match self.store.element(number, index) {
            Err(miss) => missed(miss),
            Ok(value) => Next::Go(Now::Value(value)),
        }
    }

    /// A field of an object.
    pub(crate) fn field(&self, number: usize, class: &'a [u8], field: u32) -> Next<'a>
        ensures { (e : Told) (left now : Option (List ℕ)) (w : World Value) → Stands e self.now left now w → Leads e self.now left now result (doing e.program (Field number class.entry field) self.now.control w) }
    {
        match self.store.field(number, class, field) {
            Err(miss) => missed(miss),
            Ok(value) => Next::Go(Now::Value(value)),
        }
    }

    /// Sets an element of an array.
    pub(crate) fn set_element(&mut self, number: usize, index: i64, value: RunValue<'a>) -> Next<'a>
        ensures { (e : Told) (left now : Option (List ℕ)) (w : World Value) → Stands e self.old left now w → Leads e self.new left now result (doing e.program (SetElement number index value.entry) self.old.control w) }
    {
        match self.store.set_element(number, index, value) {
            Err(miss) => missed(miss),
            Ok(()) => Next::Go(Now::How(How::Done)),
        }
    }

    /// Sets a field of an object.
    pub(crate) fn set_field(
        &mut self,
        number: usize,
        class: &'a [u8],
        field: u32,
        value: RunValue<'a>,
    ) -> Result<Next<'a>, InterpretError>
        ensures { IfOk result (λ next. (e : Told) (left now : Option (List ℕ)) (w : World Value) → Stands e self.old left now w → Leads e self.new left now next (doing e.program (SetField number class.entry field value.entry) self.old.control w)) }
    {
        if self.store.set_field(number, class, field, value)? {
            Ok(Next::Go(Now::How(How::Done)))
        } else {
            Ok(Next::Over(Over::Stuck))
        }
    }

    /// Gives back room, and goes on.
    pub(crate) fn give_back(&mut self, bytes: u64, now: Now<'a>) -> Result<Next<'a>, InterpretError>
        ensures { IfOk result (λ next. (e : Told) (left put : Option (List ℕ)) (w : World Value) → Stands e self.old left put w → Leads e self.new left put next (doing e.program (GiveBack bytes now.entry) self.old.control w)) }
    {
        self.store.give_back(bytes)?;
        Ok(Next::Go(now))
    }

    /// Takes the turn of a `while` whose test holds.
    pub(crate) fn again(
        &mut self,
        test: &'a CoreExpr,
        body: &'a CoreBody,
    ) -> Result<Next<'a>, InterpretError>
        ensures { IfOk result (λ next. (e : Told) (left now : Option (List ℕ)) (w : World Value) → Stands e self.old left now w → Leads e self.new left now next (doing e.program (Again test.entry body.entry) self.old.control w)) }
    {
        if !self.store.spend(1) {
            return Ok(Next::Over(Over::NoTurns));
        }
        wait_again(&mut self.control, test, body)?;
        Ok(Next::Go(Now::Body(body)))
    }
}
