//! The lines of the report.

ghost use Rattle.std.specs.Prelude.{◌≡◌, ◌<◌, ◌++◌, ℕ, MatchResult};
ghost use Rattle.th_top.specs.Answers.{report_of};
ghost use Rattle.th_top.specs.Lines.{line, hex_digit, hexadecimal, cause_word};
ghost use Rattle.th_top.specs.Report.{ReportsAll, ReportsPart, reported};
ghost use Rattle.th_top.specs.Verdict.{verdict_of};

use crate::refusal::say_refused;
use crate::verdict::Verdict;
use th_rv::Cause;
use th_world::{Failed, Sink};

/// Puts a text at the report, byte by byte, up to the first fault.
pub fn say<E: Sink>(report: &mut E, text: &[u8]) -> Result<(), Failed>
    ensures { MatchResult result
        (λ _. ReportsAll text.now (reported (E.put_bytes report.old) (E.faults report.old)) (reported (E.put_bytes report.new) (E.faults report.new)))
        (λ _. ReportsPart text.now (reported (E.put_bytes report.old) (E.faults report.old)) (reported (E.put_bytes report.new) (E.faults report.new))) }
{
    for byte in text {
        if report.put(*byte).is_err() {
            return Err(Failed);
        }
    }
    Ok(())
}

/// Puts two texts at the report, up to the first fault.
pub fn say_both<E: Sink>(report: &mut E, first: &[u8], second: &[u8]) -> Result<(), Failed>
    ensures { MatchResult result
        (λ _. ReportsAll (first.now ++ second.now) (reported (E.put_bytes report.old) (E.faults report.old)) (reported (E.put_bytes report.new) (E.faults report.new)))
        (λ _. ReportsPart (first.now ++ second.now) (reported (E.put_bytes report.old) (E.faults report.old)) (reported (E.put_bytes report.new) (E.faults report.new))) }
{
    match say(report, first) {
        Ok(()) => say(report, second),
        Err(failed) => Err(failed),
    }
}

/// Puts three texts at the report, up to the first fault.
pub fn say_three<E: Sink>(
    report: &mut E,
    first: &[u8],
    second: &[u8],
    third: &[u8],
) -> Result<(), Failed>
    ensures { MatchResult result
        (λ _. ReportsAll (first.now ++ second.now ++ third.now) (reported (E.put_bytes report.old) (E.faults report.old)) (reported (E.put_bytes report.new) (E.faults report.new)))
        (λ _. ReportsPart (first.now ++ second.now ++ third.now) (reported (E.put_bytes report.old) (E.faults report.old)) (reported (E.put_bytes report.new) (E.faults report.new))) }
{
    match say_both(report, first, second) {
        Ok(()) => say(report, third),
        Err(failed) => Err(failed),
    }
}

/// Puts four texts at the report, up to the first fault.
pub fn say_four<E: Sink>(
    report: &mut E,
    first: &[u8],
    second: &[u8],
    third: &[u8],
    fourth: &[u8],
) -> Result<(), Failed>
    ensures { MatchResult result
        (λ _. ReportsAll (first.now ++ second.now ++ third.now ++ fourth.now) (reported (E.put_bytes report.old) (E.faults report.old)) (reported (E.put_bytes report.new) (E.faults report.new)))
        (λ _. ReportsPart (first.now ++ second.now ++ third.now ++ fourth.now) (reported (E.put_bytes report.old) (E.faults report.old)) (reported (E.put_bytes report.new) (E.faults report.new))) }
{
    match say_three(report, first, second, third) {
        Ok(()) => say(report, fourth),
        Err(failed) => Err(failed),
    }
}

/// The digit of a number below 16, in small letters.
fn hex_digit(digit: u32) -> u8
    requires { digit < 16 }
    ensures { result ≡ hex_digit digit }
{
    if digit < 10 {
        48 + digit as u8
    } else {
        87 + digit as u8
    }
}

/// The eight hexadecimal digits of a word, and a line feed.
fn hex_line(word: u32) -> [u8; 9]
    ensures { result ≡ line (hexadecimal 8 word) }
{
    let second = word / 16;
    let third = second / 16;
    let fourth = third / 16;
    let fifth = fourth / 16;
    let sixth = fifth / 16;
    let seventh = sixth / 16;
    let eighth = seventh / 16;
    [
        hex_digit(eighth % 16),
        hex_digit(seventh % 16),
        hex_digit(sixth % 16),
        hex_digit(fifth % 16),
        hex_digit(fourth % 16),
        hex_digit(third % 16),
        hex_digit(second % 16),
        hex_digit(word % 16),
        b'\n',
    ]
}

/// The word for the cause of a trap.
fn cause_word(cause: Cause) -> &'static [u8]
    ensures { result.now ≡ cause_word cause }
{
    match cause {
        Cause::Fetch => b"fetch",
        Cause::Illegal => b"illegal",
        Cause::Jump => b"jump",
        Cause::Misaligned => b"misaligned",
        Cause::Load => b"load",
        Cause::Store => b"store",
        Cause::Ecall => b"ecall",
        Cause::Ebreak => b"ebreak",
    }
}

/// Puts the line of a verdict at the report, up to the first fault.
pub fn say_verdict<E: Sink>(report: &mut E, verdict: &Verdict<'_>) -> Result<(), Failed>
    ensures { MatchResult result
        (λ _. ReportsAll (report_of (verdict_of verdict.now)) (reported (E.put_bytes report.old) (E.faults report.old)) (reported (E.put_bytes report.new) (E.faults report.new)))
        (λ _. ReportsPart (report_of (verdict_of verdict.now)) (reported (E.put_bytes report.old) (E.faults report.old)) (reported (E.put_bytes report.new) (E.faults report.new))) }
{
    match verdict {
        Verdict::Done => Ok(()),
        Verdict::BadFile(name) => say_three(report, b"file ", name.as_bytes(), b"\n"),
        Verdict::Refused(name, refusal) => say_refused(report, name, refusal),
        Verdict::NotBuilt(name) => say_both(report, name.as_bytes(), b": not built\n"),
        Verdict::BadElf(name, field) => say_four(
            report,
            name.as_bytes(),
            b": bad elf ",
            field.name().as_bytes(),
            b"\n",
        ),
        Verdict::RunRaised(name) => say_three(report, b"exception ", name.as_slice(), b"\n"),
        Verdict::NoRoom => say(report, b"room\n"),
        Verdict::NoSteps => say(report, b"steps\n"),
        Verdict::Trapped(cause, pc) => say_four(
            report,
            b"trap ",
            cause_word(*cause),
            b" at ",
            &hex_line(*pc),
        ),
        Verdict::NoMemory => say(report, b"memory\n"),
        Verdict::StreamFailed => say(report, b"stream\n"),
    }
}
