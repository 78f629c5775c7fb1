//! A step of a run: what it does next, and then its effect on the world.
ghost use Rattle.std.specs.Prelude.{ℕ, List, Option, IfOk, OnErr};
ghost use Rattle.th_meaning.specs.World.{World};
ghost use Rattle.th_meaning.specs.Meaning.{Value};
ghost use Rattle.th_steps.specs.Machine.{Machine, step};
ghost use Rattle.th_control.specs.Acts.{doing};
ghost use Rattle.th_acts.specs.Stands.{Told, Stands, Leads, LeadsOn};
ghost use Rattle.th_acts.specs.Parts.{Kept, Partly};

use crate::errors::InterpretError;
use crate::runner::{Next, Over, Runner};
use th_control::{Act, Now};
use th_world::{Sink, Source};

impl<'a> Runner<'a> {
    /// Does what a step has still to do with the world.
    fn perform<S: Source, K: Sink>(
        &mut self,
        act: Act<'a>,
        input: &mut S,
        output: &mut K,
    ) -> Result<Next<'a>, InterpretError>
        ensures done { IfOk result (λ next. (e : Told) (w : World Value) → Stands e self.old (S.left input.old) (K.put_bytes output.old) w → Leads e self.new (S.left input.new) (K.put_bytes output.new) next (doing e.program act.entry self.old.control w)) }
        ensures part { OnErr result ((e : Told) (w : World Value) → Stands e self.old (S.left input.old) (K.put_bytes output.old) w → Kept e (S.left input.old) (K.put_bytes output.old) (S.left input.new) (K.put_bytes output.new) (doing e.program act.entry self.old.control w)) }
    {
        match act {
            Act::Go(now) => Ok(Next::Go(now)),
            Act::Stuck => Ok(Next::Over(Over::Stuck)),
            Act::Unset => Ok(Next::Over(Over::Stuck)),
            Act::Ended(_) => Ok(Next::Over(Over::Ended)),
            Act::Escaped(raised) => Ok(Next::Over(Over::Raised(raised.name))),
            Act::GetByte => self.get_byte(input),
            Act::Field(number, class, field) => Ok(self.field(number, class, field)),
            Act::SetField(number, class, field, value) => {
                self.set_field(number, class, field, value)
            }
            Act::NewObject(class, args) => self.new_object(class, args),
            Act::Length(number) => Ok(self.length(number)),
            Act::Element(number, index) => Ok(self.element(number, index)),
            Act::SetElement(number, index, value) => Ok(self.set_element(number, index, value)),
            Act::NewArray(count, fill) => self.new_array(count, fill),
            Act::Join(a, b) => self.join(a, b),
            Act::PutByte(number) => self.put_byte(number, output),
            Act::PutInt(number) => self.put_int(number, output),
            Act::PutText(bytes) => self.put_text(bytes, output),
            Act::Again(test, body) => self.again(test, body),
            Act::Yield(value) => self.yields(value),
            Act::GiveBack(bytes, now) => self.give_back(bytes, now),
            Act::Call(callee, args, purpose) => self.call(callee, args, purpose),
            Act::Init(class, number, args) => self.init(class, number, args),
        }
    }

    /// One step. After an error the streams show a beginning of what the step leads to.
    pub fn step<S: Source, K: Sink>(
        &mut self,
        now: Now<'a>,
        input: &mut S,
        output: &mut K,
    ) -> Result<Next<'a>, InterpretError>
        ensures next { IfOk result (λ next. (e : Told) (m : Machine) → LeadsOn e self.old (S.left input.old) (K.put_bytes output.old) now.entry m → Leads e self.new (S.left input.new) (K.put_bytes output.new) next (step e.program m)) }
        ensures part { OnErr result ((e : Told) (m : Machine) → LeadsOn e self.old (S.left input.old) (K.put_bytes output.old) now.entry m → Partly e (S.left input.new) (K.put_bytes output.new) (step e.program m)) }
    {
        let act = self.control.plan(self.alloc, now)?;
        self.perform(act, input, output)
    }
}
