//! Calls: the turn of a call, and the unit that is entered.
ghost use Rattle.std.specs.Prelude.{◌≡◌, ◌++◌, ℕ, List, [], map, replicate, Option, Some, None, IfOk, OnOk};
ghost use Rattle.th_meaning.specs.View.{unit_of};
ghost use Rattle.th_meaning.specs.World.{World, spend};
ghost use Rattle.th_meaning.specs.Meaning.{Value, Known, Enters, act};
ghost use Rattle.th_steps.specs.Machine.{begin, enter_at, finish, no_loop, at_end, on_some, first_at};
ghost use Rattle.th_meaning.specs.Program.{ProgramUnit, unit_named};
ghost use Rattle.th_units.specs.Units.{FindsUnit, IsNamed};
ghost use Rattle.th_control.specs.declared.control.Act.TheVariants.{Call, Init};
ghost use Rattle.th_control.specs.Config.{purpose_of, use_of, state_of};
ghost use Rattle.th_control.specs.Acts.{doing, the_loop, the_rest};
ghost use Rattle.th_acts.specs.Stands.{Told, Stands, Leads};
ghost use Rattle.th_acts.specs.Admits.{Admits};
ghost use Rattle.th_acts.specs.First.{FindsFirst};
ghost use Rattle.th_acts.specs.declared.runner.Runner.{Runner as TheRunner};

use crate::errors::InterpretError;
use crate::runner::{Next, Over, Runner};
use crate::target::Target;
use std::alloc::{AllocError, Global};
use th_classes::init_unit;
use th_control::{Callee, Frame, How, Now, Purpose, RunValue, Usage};
use th_frames::{enter_alone, enter_frame};
use th_units::UnitRow;

impl<'a> Runner<'a> {
    /// A call whose arguments are there.
    pub(crate) fn call(
        &mut self,
        callee: Callee<'a>,
        args: Vec<RunValue<'a>>,
        purpose: Purpose<'a>,
    ) -> Result<Next<'a>, InterpretError>
        ensures { IfOk result (λ next. (e : Told) (left now : Option (List ℕ)) (w : World Value) → Stands e self.old left now w → Leads e self.new left now next (doing e.program (Call callee.entry args.entry purpose.entry) self.old.control w)) }
    {
        match self.aim(callee, &args)? {
            Target::Nothing => Ok(Next::Over(Over::Stuck)),
            Target::Enters(unit, receiver) => self.enter_in_turn(unit, receiver, args, purpose),
            Target::Known(value) => Ok(self.known_in_turn(value, purpose)),
        }
    }

    /// The turn of a call is taken, and then a unit is entered.
    fn enter_in_turn(
        &mut self,
        unit: Option<UnitRow<'a>>,
        receiver: Option<usize>,
        args: Vec<RunValue<'a>>,
        purpose: Purpose<'a>,
    ) -> Result<Next<'a>, InterpretError>
        ensures { IfOk result (λ next. (e : Told) (left now : Option (List ℕ)) (w : World Value) (name : List ℕ) → Stands e self.old left now w → FindsUnit e.program name unit.entry
            → Leads e self.new left now next (on_some (act (spend 1 w) (state_of self.old.control w)) (the_loop self.old.control) (the_rest self.old.control)
            (λ _ st. begin e.program (Enters name receiver args.entry.items) (purpose_of purpose.entry) (the_loop self.old.control) (the_rest self.old.control) st))) }
    {
        if !self.store.spend(1) {
            return Ok(Next::Over(Over::NoTurns));
        }
        self.enter(unit, receiver, args, purpose)
    }

    /// The turn of a call is taken, whose value is then known.
    fn known_in_turn(&mut self, value: RunValue<'a>, purpose: Purpose<'a>) -> Next<'a>
        ensures { (e : Told) (left now : Option (List ℕ)) (w : World Value) → Stands e self.old left now w
            → Leads e self.new left now result (on_some (act (spend 1 w) (state_of self.old.control w)) (the_loop self.old.control) (the_rest self.old.control)
            (λ _ st. begin e.program (Known value.entry) (purpose_of purpose.entry) (the_loop self.old.control) (the_rest self.old.control) st)) }
    {
        if !self.store.spend(1) {
            return Next::Over(Over::NoTurns);
        }
        known(value, purpose)
    }

    /// A new object's initializer is entered, whose turn was taken before.
    pub(crate) fn init(
        &mut self,
        class: &'a [u8],
        number: usize,
        args: Vec<RunValue<'a>>,
    ) -> Result<Next<'a>, InterpretError>
        ensures { IfOk result (λ next. (e : Told) (left now : Option (List ℕ)) (w : World Value) → Stands e self.old left now w → Leads e self.new left now next (doing e.program (Init class.entry number args.entry) self.old.control w)) }
    {
        let unit = init_unit(self.alloc, &self.tables.units, class)?;
        let purpose = Purpose::Plain(Usage::Object(number));
        self.enter(unit, Some(number), args, purpose)
    }

    /// Enters a unit, where it is there.
    fn enter(
        &mut self,
        unit: Option<UnitRow<'a>>,
        receiver: Option<usize>,
        args: Vec<RunValue<'a>>,
        purpose: Purpose<'a>,
    ) -> Result<Next<'a>, InterpretError>
        ensures { IfOk result (λ next. (e : Told) (left now : Option (List ℕ)) (w : World Value) (name : List ℕ) → Stands e self.old left now w → FindsUnit e.program name unit.entry
            → Leads e self.new left now next (begin e.program (Enters name receiver args.entry.items) (purpose_of purpose.entry) (the_loop self.old.control) (the_rest self.old.control) (state_of self.old.control w))) }
    {
        match unit {
            None => Ok(Next::Over(Over::Stuck)),
            Some(row) => self.enter_row(row, receiver, args, purpose),
        }
    }

    /// Enters a unit: its room, and then its statements.
    fn enter_row(
        &mut self,
        row: UnitRow<'a>,
        receiver: Option<usize>,
        args: Vec<RunValue<'a>>,
        purpose: Purpose<'a>,
    ) -> Result<Next<'a>, InterpretError>
        ensures { IfOk result (λ next. (e : Told) (left now : Option (List ℕ)) (w : World Value) (name : List ℕ) → Stands e self.old left now w → IsNamed e.program name row.entry
            → Leads e self.new left now next (begin e.program (Enters name receiver args.entry.items) (purpose_of purpose.entry) (the_loop self.old.control) (the_rest self.old.control) (state_of self.old.control w))) }
    {
        match self.admit(row, receiver, args)? {
            None => Ok(Next::Over(Over::NoRoom)),
            Some(frame) => {
                enter_frame(&mut self.control, self.alloc, frame, purpose, row.weight)?;
                Ok(Next::Go(Now::Body(&row.unit.body)))
            }
        }
    }

    /// Takes the room of a unit that is entered, notes its number, and gives its frame; None where there is too little room.
    fn admit(
        &mut self,
        row: UnitRow<'a>,
        receiver: Option<usize>,
        args: Vec<RunValue<'a>>,
    ) -> Result<Option<Frame<'a>>, InterpretError>
        ensures admits { IfOk result (λ frame. (e : Told) (left now : Option (List ℕ)) (w : World Value) (name : List ℕ) → Stands e self.old left now w → IsNamed e.program name row.entry
            → Admits e (unit_of row.entry.unit.now) receiver args.entry.items frame self.new left now w) }
        ensures control { OnOk result (self.new.control ≡ self.old.control) }
    {
        if !self.store.reserve(row.weight) {
            return Ok(None);
        }
        self.entered.push(row.number)?;
        let locals = locals_of(self.alloc, args, row.locals)?;
        Ok(Some(Frame::new(receiver, locals)))
    }

    /// Enters the run's first unit, where it is there.
    pub fn enter_first(&mut self, unit: Option<UnitRow<'a>>) -> Result<Next<'a>, InterpretError>
        ensures { IfOk result (λ next. (e : Told) (left now : Option (List ℕ)) (w : World Value) (main : Option ProgramUnit) → Stands e self.old left now w → self.old.control.rest ≡ [] → self.old.control.homes ≡ [] → FindsFirst e.program main unit.entry
            → Leads e self.new left now next (first_at e.program main w)) }
    {
        match unit {
            None => Ok(Next::Over(Over::Stuck)),
            Some(row) => self.enter_first_row(row),
        }
    }

    /// Enters the run's first unit.
    fn enter_first_row(&mut self, row: UnitRow<'a>) -> Result<Next<'a>, InterpretError>
        ensures { IfOk result (λ next. (e : Told) (left now : Option (List ℕ)) (w : World Value) (name : List ℕ) → Stands e self.old left now w → self.old.control.rest ≡ [] → self.old.control.homes ≡ [] → IsNamed e.program name row.entry
            → Leads e self.new left now next (enter_at (unit_named e.program name) None [] no_loop at_end [] w)) }
    {
        match self.admit(row, None, Vec::new(self.alloc))? {
            None => Ok(Next::Over(Over::NoRoom)),
            Some(frame) => {
                enter_alone(&mut self.control, frame, row.weight)?;
                Ok(Next::Go(Now::Body(&row.unit.body)))
            }
        }
    }
}

/// The value of a primitive, for the use of its call.
fn known<'a>(value: RunValue<'a>, purpose: Purpose<'a>) -> Next<'a>
    ensures { (e : Told) (r : TheRunner) (left now : Option (List ℕ)) (w : World Value) → Stands e r left now w
        → Leads e r left now result (begin e.program (Known value.entry) (purpose_of purpose.entry) (the_loop r.control) (the_rest r.control) (state_of r.control w)) }
{
    match purpose {
        Purpose::Plain(usage) => known_for(value, usage),
        Purpose::For(_, _) => Next::Over(Over::Stuck),
    }
}

/// The same for a use.
fn known_for<'a>(value: RunValue<'a>, usage: Usage) -> Next<'a>
    ensures { (e : Told) (r : TheRunner) (left now : Option (List ℕ)) (w : World Value) → Stands e r left now w
        → Leads e r left now result (finish (use_of usage) (Some value.entry) (the_loop r.control) (the_rest r.control) (state_of r.control w)) }
{
    match usage {
        Usage::Value => Next::Go(Now::Value(value)),
        Usage::Stmt => Next::Go(Now::How(How::Done)),
        Usage::Object(number) => Next::Go(Now::Value(RunValue::object(number))),
    }
}

/// The locals of a unit that is entered: its arguments, and then so many that aren't bound.
fn locals_of<'a>(
    alloc: Global,
    args: Vec<RunValue<'a>>,
    more: u64,
) -> Result<Vec<Option<RunValue<'a>>>, AllocError>
    ensures { IfOk result (λ locals. locals.items ≡ map Some args.entry.items ++ replicate more None) }
{
    let mut locals = bound_locals(alloc, &args)?;
    for k in 0..more {
        locals.push(None)?;
    }
    Ok(locals)
}

/// Locals that are bound to values.
fn bound_locals<'a>(
    alloc: Global,
    values: &[RunValue<'a>],
) -> Result<Vec<Option<RunValue<'a>>>, AllocError>
    ensures { IfOk result (λ locals. locals.items ≡ map Some values.now) }
{
    let mut locals = Vec::new(alloc);
    for value in values {
        locals.push(Some(value.copied()))?;
    }
    Ok(locals)
}
