//! The top call: it does all that the program does, over files and streams that it is lent.
#![tactic(auto)]

ghost use Rattle.std.specs.Prelude.{◌≡◌, ◌↔◌, ℕ, map, string_bytes};
ghost use Rattle.th_top.specs.Answers.{Answers, Does};
ghost use Rattle.th_top.specs.Complete.{CompleteFor, RefusedFor, JudgedFor, HeadlineFor, RunCompleteFor, RunRefusedFor};
ghost use Rattle.th_top.specs.Outside.{outside};
ghost use Rattle.th_top.specs.Report.{reported};
ghost use Rattle.th_words.specs.Decoded.{command_of};
ghost use Rattle.th_words.specs.Words.{IsNoCommand, IsAtMostOne};
ghost use Rattle.th_top.specs.Built.{IsKept};
ghost use Rattle.th_top.specs.Verdict.{verdict_of};

mod build;
mod go;
mod refusal;
mod report;
mod run;
mod texts;
mod verdict;

use go::go;
use report::{say, say_verdict};
use run::run;
use std::alloc::Global;
use th_words::{Command, command};
use th_world::{Files, Sink, Source};
use verdict::Verdict;

/// The status where the words are no command.
const NO_COMMAND: u8 = 1;

/// Carries a command out.
fn carry_out<'a, F: Files, S: Source, K: Sink>(
    alloc: Global,
    command: Command<'a>,
    files: &mut F,
    input: &mut S,
    output: &mut K,
) -> Verdict<'a>
    requires { IsKept (command_of command) }
    ensures { Does (command_of command.entry)
        (outside (F.map files.old) (F.written files.old) (F.Files.faults files.old) (S.left input.old) (S.Source.faults input.old) (K.put_bytes output.old) (K.Sink.faults output.old))
        (outside (F.map files.new) (F.written files.new) (F.Files.faults files.new) (S.left input.new) (S.Source.faults input.new) (K.put_bytes output.new) (K.Sink.faults output.new))
        (verdict_of result) }
{
    match command {
        Command::Go { out, files: names } => go(alloc, out, names, files, input, output),
        Command::Run {
            file,
            region,
            steps,
        } => run(alloc, file, region, steps, files, input, output),
    }
}

/// Does what the words say and answers the status.
fn obey<F: Files, S: Source, K: Sink, E: Sink>(
    alloc: Global,
    words: &[String],
    files: &mut F,
    input: &mut S,
    output: &mut K,
    report: &mut E,
) -> u8
    ensures answers { Answers (map string_bytes words.now)
        (outside (F.map files.old) (F.written files.old) (F.Files.faults files.old) (S.left input.old) (S.Source.faults input.old) (K.put_bytes output.old) (K.Sink.faults output.old))
        (outside (F.map files.new) (F.written files.new) (F.Files.faults files.new) (S.left input.new) (S.Source.faults input.new) (K.put_bytes output.new) (K.Sink.faults output.new))
        (reported (E.put_bytes report.old) (E.Sink.faults report.old)) (reported (E.put_bytes report.new) (E.Sink.faults report.new)) result }

    // Words are never two commands.
    ensures only { IsAtMostOne (map string_bytes words.now) }
{
    let Some(command) = command(words) else {
        let _ = say(report, b"words\n");
        return NO_COMMAND;
    };
    let verdict = carry_out(alloc, command, files, input, output);
    let _ = say_verdict(report, &verdict);
    verdict.status()
}

/// Does what the words say and answers the status (docs/LANGUAGE.md has the commands, the statuses
/// and the lines that are put at the report).
pub fn theta<F: Files, S: Source, K: Sink, E: Sink>(
    alloc: Global,
    words: &[String],
    files: &mut F,
    input: &mut S,
    output: &mut K,
    report: &mut E,
) -> u8
    // What it answers, reports, writes, puts and takes, with the cause of each status.
    ensures answers { Answers (map string_bytes words.now)
        (outside (F.map files.old) (F.written files.old) (F.Files.faults files.old) (S.left input.old) (S.Source.faults input.old) (K.put_bytes output.old) (K.Sink.faults output.old))
        (outside (F.map files.new) (F.written files.new) (F.Files.faults files.new) (S.left input.new) (S.Source.faults input.new) (K.put_bytes output.new) (K.Sink.faults output.new))
        (reported (E.put_bytes report.old) (E.Sink.faults report.old)) (reported (E.put_bytes report.new) (E.Sink.faults report.new)) result }

    // Status 1 comes exactly where the words are no command.
    ensures command { (result ≡ 1) ↔ IsNoCommand (map string_bytes words.now) }

    // Texts that are accepted and built give 0, or 9 for want of memory, where no count of faults rises.
    ensures complete { CompleteFor (map string_bytes words.now)
        (outside (F.map files.old) (F.written files.old) (F.Files.faults files.old) (S.left input.old) (S.Source.faults input.old) (K.put_bytes output.old) (K.Sink.faults output.old))
        (outside (F.map files.new) (F.written files.new) (F.Files.faults files.new) (S.left input.new) (S.Source.faults input.new) (K.put_bytes output.new) (K.Sink.faults output.new)) result }

    // Texts that are not accepted or not built give 3, or 9 for want of memory, where no count of faults rises.
    ensures refused { RefusedFor (map string_bytes words.now)
        (outside (F.map files.old) (F.written files.old) (F.Files.faults files.old) (S.left input.old) (S.Source.faults input.old) (K.put_bytes output.old) (K.Sink.faults output.old))
        (outside (F.map files.new) (F.written files.new) (F.Files.faults files.new) (S.left input.new) (S.Source.faults input.new) (K.put_bytes output.new) (K.Sink.faults output.new)) result }

    // Status 3 says that the texts are refused and not accepted, with the line of the refusal, or that they are accepted and not
    // built, with the line that says so.
    ensures judged { JudgedFor (map string_bytes words.now)
        (outside (F.map files.old) (F.written files.old) (F.Files.faults files.old) (S.left input.old) (S.Source.faults input.old) (K.put_bytes output.old) (K.Sink.faults output.old))
        (reported (E.put_bytes report.old) (E.Sink.faults report.old)) (reported (E.put_bytes report.new) (E.Sink.faults report.new)) result }

    // Status 0 says that the executable at OUT did what the source does.
    ensures headline { HeadlineFor (map string_bytes words.now)
        (outside (F.map files.old) (F.written files.old) (F.Files.faults files.old) (S.left input.old) (S.Source.faults input.old) (K.put_bytes output.old) (K.Sink.faults output.old))
        (outside (F.map files.new) (F.written files.new) (F.Files.faults files.new) (S.left input.new) (S.Source.faults input.new) (K.put_bytes output.new) (K.Sink.faults output.new)) result }

    // A loadable file is run as the definition of the machine has it, or there is no memory.
    ensures run_complete { RunCompleteFor (map string_bytes words.now)
        (outside (F.map files.old) (F.written files.old) (F.Files.faults files.old) (S.left input.old) (S.Source.faults input.old) (K.put_bytes output.old) (K.Sink.faults output.old))
        (outside (F.map files.new) (F.written files.new) (F.Files.faults files.new) (S.left input.new) (S.Source.faults input.new) (K.put_bytes output.new) (K.Sink.faults output.new)) result }

    // A file that isn't loadable gives 5, or 9 for want of memory.
    ensures run_refused { RunRefusedFor (map string_bytes words.now)
        (outside (F.map files.old) (F.written files.old) (F.Files.faults files.old) (S.left input.old) (S.Source.faults input.old) (K.put_bytes output.old) (K.Sink.faults output.old))
        (outside (F.map files.new) (F.written files.new) (F.Files.faults files.new) (S.left input.new) (S.Source.faults input.new) (K.put_bytes output.new) (K.Sink.faults output.new)) result }
{
    obey(alloc, words, files, input, output, report)
}
