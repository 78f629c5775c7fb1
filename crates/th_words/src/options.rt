//! Options and plain words, read from the left.

ghost use Rattle.std.specs.Prelude.{◌≡◌, map, string_bytes};
ghost use Rattle.th_words.specs.Words.{begins_with_dash, is_dashed};
ghost use Rattle.th_words.specs.declared.options.OptionName.TheVariants.{Region, Steps};
ghost use Rattle.th_words.specs.Reading.{option_of, before_sign, behind_sign, nothing_read, with_plain, with_value, with_option, with_free, with_word, read};

use crate::numbers::{region, steps};

/// An option of a command.
#[derive(Clone, Copy)]
pub enum OptionName {
    /// `--region`: the size of the region.
    Region,
    /// `--steps`: the number of steps.
    Steps,
}

/// What the next word is.
#[derive(Clone, Copy)]
pub enum Place {
    /// A plain word or an option.
    Free,
    /// The value of the option before it.
    Value(OptionName),
    /// A plain word: a `--` stands before it.
    Plain,
}

/// What the words said that were read.
#[derive(Clone, Copy)]
pub struct Reading {
    /// Where the next word stands.
    pub place: Place,
    /// The size of the region, if it was set.
    pub region: Option<u32>,
    /// The number of steps, if it was set.
    pub steps: Option<u64>,
    /// The index of the one plain word, if it came.
    pub file: Option<usize>,
}

/// Whether a word begins with `-`.
fn begins_with_dash(word: &str) -> bool
    ensures { result ≡ begins_with_dash word.now }
{
    !word.is_empty() && word.as_bytes()[0] == b'-'
}

/// Whether a word begins with `-` and isn't `-` alone.
pub fn is_dashed(word: &str) -> bool
    ensures { result ≡ is_dashed word.now }
{
    word.len() > 1 && word.as_bytes()[0] == b'-'
}

impl OptionName {
    /// The option that a word names.
    fn named(word: &str) -> Option<OptionName>
        ensures { result ≡ option_of word.now }
    {
        match word {
            "--region" => Some(OptionName::Region),
            "--steps" => Some(OptionName::Steps),
            _ => None,
        }
    }
}

impl Reading {
    /// Before the first word.
    fn new() -> Reading
        ensures { result ≡ nothing_read }
    {
        Reading {
            place: Place::Free,
            region: None,
            steps: None,
            file: None,
        }
    }

    /// After a plain word, the one at an index; None where it is the second.
    fn with_plain(self, at: usize) -> Option<Reading>
        ensures { result ≡ with_plain self at }
    {
        if self.file.is_some() {
            return None;
        }
        Some(Reading {
            file: Some(at),
            ..self
        })
    }

    /// After a size for the region; None where there was one, or it isn't lawful.
    fn with_region(self, value: &str) -> Option<Reading>
        ensures { result ≡ with_value Region self value.now }
    {
        if self.region.is_some() {
            return None;
        }
        let size = region(value)?;
        Some(Reading {
            place: Place::Free,
            region: Some(size),
            ..self
        })
    }

    /// After a number of steps; None where there was one, or it isn't lawful.
    fn with_steps(self, value: &str) -> Option<Reading>
        ensures { result ≡ with_value Steps self value.now }
    {
        if self.steps.is_some() {
            return None;
        }
        let count = steps(value)?;
        Some(Reading {
            place: Place::Free,
            steps: Some(count),
            ..self
        })
    }

    /// After a value for an option; None where it is the second, or isn't lawful.
    fn with_value(self, name: OptionName, value: &str) -> Option<Reading>
        ensures { result ≡ with_value name self value.now }
    {
        match name {
            OptionName::Region => self.with_region(value),
            OptionName::Steps => self.with_steps(value),
        }
    }

    /// After a word that begins with `-` and must be an option.
    fn with_option(self, word: &str) -> Option<Reading>
        ensures { result ≡ with_option (option_of (before_sign word.now)) (behind_sign word.now) self }
    {
        if let Some((name, value)) = word.split_once('=') {
            let name = OptionName::named(name)?;
            return self.with_value(name, value);
        }
        let name = OptionName::named(word)?;
        Some(Reading {
            place: Place::Value(name),
            ..self
        })
    }

    /// After the word at an index, which isn't a value and has no `--` before it.
    fn with_free(self, at: usize, word: &str) -> Option<Reading>
        ensures { result ≡ with_free self at word.now }
    {
        if !is_dashed(word) {
            return self.with_plain(at);
        }
        if word == "--" {
            return Some(Reading {
                place: Place::Plain,
                ..self
            });
        }
        self.with_option(word)
    }

    /// After a further word, the one at an index; None where the words are no command, whatever follows.
    fn with_word(self, at: usize, word: &str) -> Option<Reading>
        ensures { result ≡ with_word self.place self at word.now }
    {
        match self.place {
            Place::Free => self.with_free(at, word),
            Place::Value(name) => {
                if begins_with_dash(word) {
                    return None;
                }
                self.with_value(name, word)
            }
            Place::Plain => self.with_plain(at),
        }
    }
}

/// What the words say; None where a word makes them no command.
pub fn read(words: &[String]) -> Option<Reading>
    ensures { result ≡ read (map string_bytes words.now) 0 nothing_read }
{
    let mut reading = Reading::new();
    for (at, word) in words.iter().enumerate() {
        reading = reading.with_word(at, word.as_str())?;
    }
    Some(reading)
}
