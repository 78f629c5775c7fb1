//! The lines of refused texts.

ghost use Rattle.std.specs.Prelude.{◌≡◌, ◌++◌, ◌∷◌, [], codes, MatchResult};
ghost use Rattle.std.specs.Fmt.{decimal};
ghost use Rattle.th_top.specs.Lines.{line, refusal_text, what_word};
ghost use Rattle.th_top.specs.Report.{ReportsAll, ReportsPart, reported};

use crate::report::{say, say_both, say_three};
use itoa::Buffer;
use th_accept::Refusal;
use th_type::What;
use th_world::{Failed, Sink};

/// The word for what is limited.
fn what_word(what: What) -> &'static [u8]
    ensures { result.now ≡ what_word what }
{
    match what {
        What::Name => b"name",
        What::Params => b"params",
        What::Formals => b"formals",
        What::Where => b"where",
        What::Nodes => b"nodes",
        What::Locals => b"locals",
        What::Module => b"module",
        What::Literal => b"literal",
        What::ProgramNodes => b"nodes",
        What::Tables => b"tables",
        What::Exceptions => b"exceptions",
        What::Code => b"code",
        What::Bridges => b"bridges",
        What::Text => b"text",
    }
}

/// Puts a text and a number in decimal at the report, up to the first fault.
fn say_number<E: Sink>(report: &mut E, text: &[u8], number: u64) -> Result<(), Failed>
    ensures { MatchResult result
        (λ _. ReportsAll (text.now ++ decimal number) (reported (E.put_bytes report.old) (E.faults report.old)) (reported (E.put_bytes report.new) (E.faults report.new)))
        (λ _. ReportsPart (text.now ++ decimal number) (reported (E.put_bytes report.old) (E.faults report.old)) (reported (E.put_bytes report.new) (E.faults report.new))) }
{
    let mut buffer = Buffer::new();
    let digits = buffer.format(number);
    say_both(report, text, digits.as_bytes())
}

/// Puts two texts, each with a number behind it, at the report, up to the first fault.
fn say_numbers<E: Sink>(
    report: &mut E,
    first: &[u8],
    one: u64,
    second: &[u8],
    other: u64,
) -> Result<(), Failed>
    ensures { MatchResult result
        (λ _. ReportsAll (first.now ++ decimal one ++ second.now ++ decimal other) (reported (E.put_bytes report.old) (E.faults report.old)) (reported (E.put_bytes report.new) (E.faults report.new)))
        (λ _. ReportsPart (first.now ++ decimal one ++ second.now ++ decimal other) (reported (E.put_bytes report.old) (E.faults report.old)) (reported (E.put_bytes report.new) (E.faults report.new))) }
{
    match say_number(report, first, one) {
        Ok(()) => say_number(report, second, other),
        Err(failed) => Err(failed),
    }
}

/// Puts that something of this word is too large at the report, up to the first fault.
fn say_too_large<E: Sink>(report: &mut E, word: &[u8], count: u64, at: u64) -> Result<(), Failed>
    ensures { MatchResult result
        (λ _. ReportsAll (codes "too large " ++ word.now ++ codes " " ++ decimal count ++ codes " at " ++ decimal at) (reported (E.put_bytes report.old) (E.faults report.old)) (reported (E.put_bytes report.new) (E.faults report.new)))
        (λ _. ReportsPart (codes "too large " ++ word.now ++ codes " " ++ decimal count ++ codes " at " ++ decimal at) (reported (E.put_bytes report.old) (E.faults report.old)) (reported (E.put_bytes report.new) (E.faults report.new))) }
{
    match say_both(report, b"too large ", word) {
        Ok(()) => say_numbers(report, b" ", count, b" at ", at),
        Err(failed) => Err(failed),
    }
}

/// Puts why a text is refused at the report, up to the first fault.
fn say_refusal<E: Sink>(report: &mut E, refusal: &Refusal) -> Result<(), Failed>
    ensures { MatchResult result
        (λ _. ReportsAll (refusal_text refusal.now) (reported (E.put_bytes report.old) (E.faults report.old)) (reported (E.put_bytes report.new) (E.faults report.new)))
        (λ _. ReportsPart (refusal_text refusal.now) (reported (E.put_bytes report.old) (E.faults report.old)) (reported (E.put_bytes report.new) (E.faults report.new))) }
{
    match refusal {
        Refusal::BadByte(place) => say_number(report, b"bad byte at ", place.at as u64),
        Refusal::WideNumber(place) => say_number(report, b"wide number at ", place.at as u64),
        Refusal::Syntax(place) => say_number(report, b"syntax at ", place.at as u64),
        Refusal::MissingInterface(_, name) => {
            say_both(report, b"missing interface ", name.as_bytes())
        }
        Refusal::Rule { number, place } => say_numbers(
            report,
            b"rule ",
            *number as u64,
            b" at ",
            place.at as u64,
        ),
        Refusal::TooLarge { what, count, place } => {
            say_too_large(report, what_word(*what), *count, place.at as u64)
        }
        Refusal::Memory => say(report, b"memory"),
    }
}

/// Puts the same with a line feed at the report, up to the first fault.
fn say_refusal_line<E: Sink>(report: &mut E, refusal: &Refusal) -> Result<(), Failed>
    ensures { MatchResult result
        (λ _. ReportsAll (line (refusal_text refusal.now)) (reported (E.put_bytes report.old) (E.faults report.old)) (reported (E.put_bytes report.new) (E.faults report.new)))
        (λ _. ReportsPart (line (refusal_text refusal.now)) (reported (E.put_bytes report.old) (E.faults report.old)) (reported (E.put_bytes report.new) (E.faults report.new))) }
{
    match say_refusal(report, refusal) {
        Ok(()) => say(report, b"\n"),
        Err(failed) => Err(failed),
    }
}

/// Puts the line of a file whose text is refused at the report, up to the first fault.
pub fn say_refused<E: Sink>(report: &mut E, name: &str, refusal: &Refusal) -> Result<(), Failed>
    ensures { MatchResult result
        (λ _. ReportsAll (name.now ++ codes ": " ++ line (refusal_text refusal.now)) (reported (E.put_bytes report.old) (E.faults report.old)) (reported (E.put_bytes report.new) (E.faults report.new)))
        (λ _. ReportsPart (name.now ++ codes ": " ++ line (refusal_text refusal.now)) (reported (E.put_bytes report.old) (E.faults report.old)) (reported (E.put_bytes report.new) (E.faults report.new))) }
{
    match say_both(report, name.as_bytes(), b": ") {
        Ok(()) => say_refusal_line(report, refusal),
        Err(failed) => Err(failed),
    }
}
