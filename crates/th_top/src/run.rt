//! The command `run`.

ghost use Rattle.std.specs.Prelude.{◌≡◌, None, IfOk, IfErr, IfSome, Some};
ghost use Rattle.th_elf.specs.Lawful.{IsRegion};
ghost use Rattle.th_elf.specs.Loadable.{Refuses, first_failing, segments_of};
ghost use Rattle.th_elf.specs.Run.{Running, loaded};
ghost use Rattle.th_mach.specs.Counted.{fresh};
ghost use Rattle.th_top.specs.Answers.{Runs, TellsOf};
ghost use Rattle.th_top.specs.Built.{IsNamed, Executes};
ghost use Rattle.th_top.specs.Outside.{outside};
ghost use Rattle.th_top.specs.Verdict.{verdict_of};

use crate::verdict::Verdict;
use std::alloc::Global;
use th_elf::{ElfError, read_elf};
use th_mach::{Machine, Outcome};
use th_world::{FileError, Files, Sink, Source};

/// The most bytes of an executable.
const FILE_LIMIT: u32 = 1_073_741_824;

/// Loads a machine from the bytes of an executable.
fn load(alloc: Global, bytes: &[u8], region: u32) -> Result<Machine, ElfError>
    requires { IsRegion region }
    ensures loadable { IfOk result (λ machine. first_failing bytes.now ≡ None) }
    ensures loaded { IfOk result (λ machine. machine ≡ fresh (loaded (segments_of bytes.now) region)) }
    ensures refused { IfErr result (λ error. Refuses bytes.now error) }
{
    let segments = read_elf(alloc, bytes)?;
    match Machine::load(alloc, &segments, region) {
        Ok(machine) => Ok(machine),
        Err(_) => Err(ElfError::Memory),
    }
}

/// The verdict of a run of the machine that came to this outcome.
fn verdict_of_run<'a>(machine: &Machine, outcome: Outcome) -> Verdict<'a>
    requires { IsNamed machine.now outcome }
    ensures { TellsOf outcome machine.now (verdict_of result) }
{
    match outcome {
        Outcome::Ended => Verdict::Done,
        Outcome::Raised { at, length } => match machine.name(at, length) {
            Some(name) => Verdict::RunRaised(name),
            None => unreachable!(),
        },
        Outcome::RoomUsed => Verdict::NoRoom,
        Outcome::StepsUsed => Verdict::NoSteps,
        Outcome::Trap { cause, pc } => Verdict::Trapped(cause, pc),
        Outcome::ReadFault | Outcome::WriteFault => Verdict::StreamFailed,
    }
}

/// Runs a machine from its start.
fn execute<'a, S: Source, K: Sink>(
    alloc: Global,
    mut machine: Machine,
    steps: u64,
    input: &mut S,
    output: &mut K,
) -> Verdict<'a>
    requires { machine.machine.status ≡ Running }
    ensures { Executes machine steps
        (K.put_bytes output.old) (S.left input.old) (S.Source.faults input.old) (K.Sink.faults output.old)
        (K.put_bytes output.new) (S.left input.new) (S.Source.faults input.new) (K.Sink.faults output.new) (verdict_of result) }
{
    let mut watchers = Vec::new(alloc);
    let outcome = machine.run(steps, input, output, &mut watchers);
    verdict_of_run(&machine, outcome)
}

/// Reads an executable and runs it, with a region of `region` bytes and at most `steps` instructions.
pub fn run<'a, F: Files, S: Source, K: Sink>(
    alloc: Global,
    file: &'a str,
    region: u32,
    steps: u64,
    files: &mut F,
    input: &mut S,
    output: &mut K,
) -> Verdict<'a>
    requires { IsRegion region }
    ensures { Runs file.now region steps
        (outside (F.map files.old) (F.written files.old) (F.Files.faults files.old) (S.left input.old) (S.Source.faults input.old) (K.put_bytes output.old) (K.Sink.faults output.old))
        (outside (F.map files.new) (F.written files.new) (F.Files.faults files.new) (S.left input.new) (S.Source.faults input.new) (K.put_bytes output.new) (K.Sink.faults output.new))
        (verdict_of result) }
{
    let bytes = match files.read(alloc, file, FILE_LIMIT) {
        Ok(bytes) => bytes,
        Err(FileError::Memory) => return Verdict::NoMemory,
        Err(_) => return Verdict::BadFile(file),
    };
    match load(alloc, &bytes, region) {
        Ok(machine) => execute(alloc, machine, steps, input, output),
        Err(ElfError::BadElf(field)) => Verdict::BadElf(file, field),
        Err(ElfError::Memory) => Verdict::NoMemory,
    }
}
