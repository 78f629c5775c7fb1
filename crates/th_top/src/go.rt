//! The command `go`.

ghost use Rattle.std.specs.Prelude.{◌≡◌, [], map, string_bytes};
ghost use Rattle.th_meaning.specs.Program.{Program};
ghost use Rattle.th_mach.specs.Counted.{Counted};
ghost use Rattle.th_mach.specs.Ran.{seen, Ran};
ghost use Rattle.th_words.specs.Words.{AreFiles};
ghost use Rattle.th_top.specs.Answers.{Goes, Wrote, Tells, step_limit};
ghost use Rattle.th_top.specs.Built.{IsProductOf, Ends, IsExpected};
ghost use Rattle.th_top.specs.Outside.{outside};
ghost use Rattle.th_top.specs.Verdict.{verdict_of};

use crate::build::{Product, build};
use crate::verdict::Verdict;
use std::alloc::Global;
use th_mach::{Machine, Outcome};
use th_world::{Files, Sink, Source};

/// The most instructions that a program runs.
const STEP_LIMIT: u64 = 50_000_000;

/// The verdict of a run that ended or whose stream failed.
fn verdict_of_run<'a>(outcome: Outcome) -> Verdict<'a>
    requires { IsExpected outcome }
    ensures { Tells outcome (verdict_of result) }
{
    match outcome {
        Outcome::Ended => Verdict::Done,
        Outcome::ReadFault | Outcome::WriteFault => Verdict::StreamFailed,
        _ => unreachable!(),
    }
}

/// Runs a machine whose run ends by itself.
fn execute<S: Source, K: Sink>(
    alloc: Global,
    mut machine: Machine,
    input: &mut S,
    output: &mut K,
) -> Outcome
    requires { Ends machine }
    ensures ran { (last : Counted) × Ran step_limit
        (seen machine (K.put_bytes output.old) (S.left input.old) (S.Source.faults input.old) (K.Sink.faults output.old) [])
        result
        (seen last (K.put_bytes output.new) (S.left input.new) (S.Source.faults input.new) (K.Sink.faults output.new) []) }
    ensures expected { IsExpected result }
{
    let mut watchers = Vec::new(alloc);
    machine.run(STEP_LIMIT, input, output, &mut watchers)
}

/// Writes an executable at `out` and runs the machine that was loaded from it.
fn write_and_run<'a, F: Files, S: Source, K: Sink>(
    alloc: Global,
    name: String,
    out: &'a str,
    product: Product,
    files: &mut F,
    input: &mut S,
    output: &mut K,
) -> Verdict<'a>
    requires name { string_bytes name ≡ out.now }
    requires product { (modules : Program) × IsProductOf modules product }
    ensures { (modules : Program) → IsProductOf modules product → Wrote out.now modules
        (outside (F.map files.old) (F.written files.old) (F.Files.faults files.old) (S.left input.old) (S.Source.faults input.old) (K.put_bytes output.old) (K.Sink.faults output.old))
        (outside (F.map files.new) (F.written files.new) (F.Files.faults files.new) (S.left input.new) (S.Source.faults input.new) (K.put_bytes output.new) (K.Sink.faults output.new))
        (verdict_of result) }
{
    let Product { bytes, machine } = product;
    if files.write(name, bytes).is_err() {
        return Verdict::BadFile(out);
    }
    verdict_of_run(execute(alloc, machine, input, output))
}

/// Reads the texts of a program, judges them, builds the executable, writes that and runs it.
pub fn go<'a, F: Files, S: Source, K: Sink>(
    alloc: Global,
    out: &'a str,
    names: &'a [String],
    files: &mut F,
    input: &mut S,
    output: &mut K,
) -> Verdict<'a>
    requires { AreFiles (map string_bytes names.now) }
    ensures { Goes out.now (map string_bytes names.now)
        (outside (F.map files.old) (F.written files.old) (F.Files.faults files.old) (S.left input.old) (S.Source.faults input.old) (K.put_bytes output.old) (K.Sink.faults output.old))
        (outside (F.map files.new) (F.written files.new) (F.Files.faults files.new) (S.left input.new) (S.Source.faults input.new) (K.put_bytes output.new) (K.Sink.faults output.new))
        (verdict_of result) }
{
    let product = match build(alloc, names, files) {
        Ok(product) => product,
        Err(verdict) => return verdict,
    };
    let Ok(name) = String::from_str(alloc, out) else {
        return Verdict::NoMemory;
    };
    write_and_run(alloc, name, out, product, files, input, output)
}
