//! Runs of whole programs.
ghost use Rattle.std.specs.Prelude.{◌≡◌, ℕ, List, Option, IfOk, OnErr, OnOk, IfSome, IfNone};
ghost use Rattle.th_meaning.specs.View.{program_of};
ghost use Rattle.th_meaning.specs.Program.{Program, main_of};
ghost use Rattle.th_meaning.specs.Run.{source_run, start as starts};
ghost use Rattle.th_steps.specs.Machine.{Machine, step, steps, first_at};
ghost use Rattle.th_acts.specs.Stands.{Told, AreTables, Leads, LeadsOn, IsOver, over_end};
ghost use Rattle.th_units.specs.Units.{IsTable};
ghost use Rattle.th_acts.specs.First.{FindsFirst};
ghost use Rattle.th_acts.specs.Parts.{Partly};
ghost use Rattle.th_interpret.specs.Begins.{Starts, Begins};
ghost use Rattle.th_interpret.specs.Answers.{Answers, Shown, ShownPart, end_of as the_end_of};

use crate::main_unit::main_unit;
use bumpalo::Bump;
use std::alloc::{AllocError, Global};
use th_acts::{InterpretError, Next, Over, Runner, Tables};
use th_classes::ClassTable;
use th_control::{Control, Frame, Now, Stack};
use th_meaning::CoreModule;
use th_quick::{quick, quick_stmt};
use th_store::Store;
use th_tree::{Name, NumberList};
use th_units::{UnitRow, UnitTable};
use th_weights::Weights;
use th_world::{Sink, Source};

/// How a run ended. `Raised` has the name of an exception that was not handled.
#[derive(Drop)]
pub enum End {
    Ended,
    Raised(Name),
    NoTurns,
    NoRoom,
}

/// How a run ended, and the numbers of the units that it entered, in order.
#[derive(Drop)]
pub struct Run {
    pub end: End,
    pub entered: NumberList,
}

/// Goes on at once where what is next is a short expression, or a statement that binds a local to one; None where it is
/// another one, which is left undone.
fn quick_next<'a>(run: &mut Runner<'a>, now: &Now<'a>) -> Option<Now<'a>>
    ensures some { IfSome result (λ next. (e : Told) (left put : Option (List ℕ)) (m : Machine) → LeadsOn e run.old left put now.now m → (n : ℕ) × LeadsOn e run.new left put next (steps e.program n m)) }
    ensures none { IfNone result (run.new ≡ run.old) }
{
    match now {
        Now::Eval(expr) => match quick(&run.control.frame, expr) {
            None => None,
            Some(value) => Some(Now::Value(value)),
        },
        Now::Body(body) => match quick_stmt(&mut run.control, body) {
            None => None,
            Some(others) => Some(Now::Body(others)),
        },
        _ => None,
    }
}

/// A step, or as many as are done at once.
fn advance<'a, S: Source, K: Sink>(
    run: &mut Runner<'a>,
    now: Now<'a>,
    input: &mut S,
    output: &mut K,
) -> Result<Next<'a>, InterpretError>
    ensures next { IfOk result (λ next. (e : Told) (m : Machine) → LeadsOn e run.old (S.left input.old) (K.put_bytes output.old) now.entry m → (n : ℕ) × Leads e run.new (S.left input.new) (K.put_bytes output.new) next (steps e.program n m)) }
    ensures part { OnErr result ((e : Told) (m : Machine) → LeadsOn e run.old (S.left input.old) (K.put_bytes output.old) now.entry m → Partly e (S.left input.new) (K.put_bytes output.new) (step e.program m)) }
{
    match quick_next(run, &now) {
        Some(next) => Ok(Next::Go(next)),
        None => run.step(now, input, output),
    }
}

/// Steps until the run is over. No run has 2^64 steps.
fn go<'a, S: Source, K: Sink>(
    run: &mut Runner<'a>,
    first: Next<'a>,
    input: &mut S,
    output: &mut K,
) -> Result<Over<'a>, InterpretError>
    ensures over { IfOk result (λ over. (e : Told) (m : Machine) → Leads e run.old (S.left input.old) (K.put_bytes output.old) first.entry m → (n : ℕ) × IsOver e run.new (S.left input.new) (K.put_bytes output.new) over (steps e.program n m)) }
    ensures part { OnErr result ((e : Told) (m : Machine) → Leads e run.old (S.left input.old) (K.put_bytes output.old) first.entry m → (n : ℕ) × Partly e (S.left input.new) (K.put_bytes output.new) (steps e.program n m)) }
{
    let mut next = first;
    for count in 0..u64::MAX {
        match next {
            Next::Over(over) => return Ok(over),
            Next::Go(now) => next = advance(run, now, input, output)?,
        }
    }
    Err(InterpretError::Memory)
}

/// The tables of a program.
fn tables_of<'a>(alloc: Global, modules: &'a [CoreModule]) -> Result<Tables<'a>, AllocError>
    ensures { IfOk result (λ tables. AreTables (program_of modules.now) tables) }
{
    let units = UnitTable::of(alloc, modules)?;
    let classes = ClassTable::of(alloc, modules, &units)?;
    let weights = Weights::of(alloc, modules, &classes)?;
    Ok(Tables {
        units,
        classes,
        weights,
    })
}

/// The row of the program's `main`, where there is one.
fn main_row<'a>(
    alloc: Global,
    modules: &'a [CoreModule],
    units: &UnitTable<'a>,
) -> Result<Option<UnitRow<'a>>, AllocError>
    ensures { IfOk result (λ row. IsTable units.now (program_of modules.now) → FindsFirst (program_of modules.now) (main_of (program_of modules.now)) row) }
{
    match main_unit(alloc, modules)? {
        None => Ok(None),
        Some(unit) => Ok(units.named(unit.name.as_bytes())),
    }
}

/// A run before its first step, with so many turns and so much room.
fn start<'a>(
    alloc: Global,
    arena: &'a Bump,
    tables: &'a Tables<'a>,
    turns: u64,
    room: Option<u64>,
) -> Runner<'a>
    ensures { (p : Program) → AreTables p tables.now → Starts p turns room result }
{
    Runner {
        alloc,
        arena,
        tables,
        control: Control {
            rest: Stack::new(alloc),
            frame: Frame::new(None, Vec::new(alloc)),
            homes: Stack::new(alloc),
        },
        store: Store::new(alloc, turns, room),
        entered: Vec::new(alloc),
    }
}

/// Runs a program from its first unit on.
fn run_from<'a, S: Source, K: Sink>(
    run: &mut Runner<'a>,
    main: Option<UnitRow<'a>>,
    input: &mut S,
    output: &mut K,
) -> Result<Over<'a>, InterpretError>
    ensures over { IfOk result (λ over. (e : Told) (turns : ℕ) (room : Option ℕ) → Begins e turns room run.old (S.left input.old) (K.put_bytes output.old) → FindsFirst e.program (main_of e.program) main.entry
        → (n : ℕ) × IsOver e run.new (S.left input.new) (K.put_bytes output.new) over (steps e.program n (first_at e.program (main_of e.program) (starts e.had room turns)))) }
    ensures part { OnErr result ((e : Told) (turns : ℕ) (room : Option ℕ) → Begins e turns room run.old (S.left input.old) (K.put_bytes output.old) → FindsFirst e.program (main_of e.program) main.entry
        → (n : ℕ) × Partly e (S.left input.new) (K.put_bytes output.new) (steps e.program n (first_at e.program (main_of e.program) (starts e.had room turns)))) }
{
    let first = run.enter_first(main)?;
    go(run, first, input, output)
}

/// Runs a program whose run did nothing yet.
fn run_whole<'a, S: Source, K: Sink>(
    mut run: Runner<'a>,
    modules: &'a [CoreModule],
    input: &mut S,
    output: &mut K,
) -> Result<Run, InterpretError>
    ensures answers { IfOk result (λ done. (turns : ℕ) (room : Option ℕ) → Starts (program_of modules.now) turns room run.entry → IfSome (S.left input.old) (λ bytes.
        Answers (program_of modules.now) done (source_run (program_of modules.now) bytes room turns))) }
    ensures shown { OnOk result ((turns : ℕ) (room : Option ℕ) → Starts (program_of modules.now) turns room run.entry → IfSome (S.left input.old) (λ bytes.
        Shown (source_run (program_of modules.now) bytes room turns).trace bytes (S.left input.new) (K.put_bytes output.old) (K.put_bytes output.new))) }
    ensures part { OnErr result ((turns : ℕ) (room : Option ℕ) → Starts (program_of modules.now) turns room run.entry → IfSome (S.left input.old) (λ bytes.
        ShownPart (source_run (program_of modules.now) bytes room turns).trace bytes (S.left input.new) (K.put_bytes output.old) (K.put_bytes output.new))) }
{
    let main = main_row(run.alloc, modules, &run.tables.units)?;
    let over = run_from(&mut run, main, input, output)?;
    let end = end_of(run.alloc, over)?;
    Ok(Run {
        end,
        entered: NumberList::of(run.entered),
    })
}

/// Runs a program over its tables.
fn run_over<'t, 'm, S: Source, K: Sink>(
    alloc: Global,
    modules: &'m [CoreModule],
    tables: &'t Tables<'m>,
    input: &mut S,
    output: &mut K,
    turns: u64,
    room: Option<u64>,
) -> Result<Run, InterpretError>
    ensures answers { IfOk result (λ done. AreTables (program_of modules.now) tables.now → IfSome (S.left input.old) (λ bytes.
        Answers (program_of modules.now) done (source_run (program_of modules.now) bytes room turns))) }
    ensures shown { OnOk result (AreTables (program_of modules.now) tables.now → IfSome (S.left input.old) (λ bytes.
        Shown (source_run (program_of modules.now) bytes room turns).trace bytes (S.left input.new) (K.put_bytes output.old) (K.put_bytes output.new))) }
    ensures part { OnErr result (AreTables (program_of modules.now) tables.now → IfSome (S.left input.old) (λ bytes.
        ShownPart (source_run (program_of modules.now) bytes room turns).trace bytes (S.left input.new) (K.put_bytes output.old) (K.put_bytes output.new))) }
{
    let arena = Bump::new(alloc);
    let run = start(alloc, &arena, tables, turns, room);
    run_whole(run, modules, input, output)
}

/// Runs a program with so many turns, and with so much room in bytes (None: unlimited). Ok gives the end of the run that
/// the program means, and the units that it entered; the bytes taken and put are those of that run. After any error the
/// bytes taken and put are those of a beginning of the run.
pub fn interpret<S: Source, K: Sink>(
    alloc: Global,
    modules: &[CoreModule],
    input: &mut S,
    output: &mut K,
    turns: u64,
    room: Option<u64>,
) -> Result<Run, InterpretError>
    ensures answers { IfOk result (λ run. IfSome (S.left input.old) (λ bytes.
        Answers (program_of modules.now) run (source_run (program_of modules.now) bytes room turns))) }
    ensures shown { OnOk result (IfSome (S.left input.old) (λ bytes.
        Shown (source_run (program_of modules.now) bytes room turns).trace bytes (S.left input.new) (K.put_bytes output.old) (K.put_bytes output.new))) }
    ensures part { OnErr result (IfSome (S.left input.old) (λ bytes.
        ShownPart (source_run (program_of modules.now) bytes room turns).trace bytes (S.left input.new) (K.put_bytes output.old) (K.put_bytes output.new))) }
{
    let tables = tables_of(alloc, modules)?;
    run_over(alloc, modules, &tables, input, output, turns, room)
}

/// The end of a run that is over so.
fn end_of<'a>(alloc: Global, over: Over<'a>) -> Result<End, AllocError>
    ensures { IfOk result (λ end. the_end_of end ≡ over_end over.entry) }
{
    match over {
        Over::Ended => Ok(End::Ended),
        Over::Stuck => Ok(End::Ended),
        Over::NoTurns => Ok(End::NoTurns),
        Over::NoRoom => Ok(End::NoRoom),
        Over::Raised(name) => Ok(End::Raised(Name::of(Vec::from_slice(alloc, name)?))),
    }
}
