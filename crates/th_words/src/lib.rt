//! The words of the command line: the command that they are.
#![tactic(auto)]

ghost use Rattle.std.specs.Prelude.{◌≡◌, map, string_bytes, IfSome, IfNone};
ghost use Rattle.std.specs.Option.{option_map};
ghost use Rattle.th_words.specs.Words.{IsCommand, IsNoCommand, IsAtMostOne};
ghost use Rattle.th_words.specs.Decoded.{command_of};
ghost use Rattle.th_words.specs.Reading.{command_words, go_words, run_words};

mod commands;
mod file_names;
mod numbers;
mod options;

pub use commands::Command;
use file_names::are_files;
use options::{Place, is_dashed, read};

/// The size of the region where the words don't set it, in bytes.
const DEFAULT_REGION: u32 = 1_048_576;

/// The number of steps where the words don't set it.
const DEFAULT_STEPS: u64 = 50_000_000;

/// The command that the words behind `go` are.
fn go(words: &[String]) -> Option<Command<'_>>
    ensures { option_map command_of result ≡ go_words (map string_bytes words.now) }
{
    let (out, files) = words.split_first()?;
    let out = out.as_str();
    if is_dashed(out) || !are_files(files) {
        return None;
    }
    Some(Command::Go { out, files })
}

/// The command that the words behind `run` are.
fn run(words: &[String]) -> Option<Command<'_>>
    ensures { option_map command_of result ≡ run_words (map string_bytes words.now) }
{
    let reading = read(words)?;
    if let Place::Value(_) = reading.place {
        return None;
    }
    let file = words.get(reading.file?)?.as_str();
    let region = reading.region.unwrap_or(DEFAULT_REGION);
    let steps = reading.steps.unwrap_or(DEFAULT_STEPS);
    Some(Command::Run {
        file,
        region,
        steps,
    })
}

/// The command that the words are, read from the left.
fn read_command(words: &[String]) -> Option<Command<'_>>
    ensures { option_map command_of result ≡ command_words (map string_bytes words.now) }
{
    let (name, rest) = words.split_first()?;
    match name.as_str() {
        "go" => go(rest),
        "run" => run(rest),
        _ => None,
    }
}

/// The command that the words are; None exactly where they are none (docs/LANGUAGE.md). It takes
/// no memory.
pub fn command(words: &[String]) -> Option<Command<'_>>
    ensures some { IfSome result (λ c. IsCommand (map string_bytes words.now) (command_of c)) }
    ensures none { IfNone result (IsNoCommand (map string_bytes words.now)) }

    // Words are never two commands.
    ensures only { IsAtMostOne (map string_bytes words.now) }
{
    read_command(words)
}
