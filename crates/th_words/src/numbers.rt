//! Numbers as words.

ghost use Rattle.std.specs.Prelude.{◌≡◌};
ghost use Rattle.std.specs.Char.{is_ascii_digit};
ghost use Rattle.std.specs.List.{list_all};
ghost use Rattle.th_words.specs.Reading.{number_of, region_of, steps_of};

/// The most digits that a number has.
const MOST_DIGITS: usize = 13;

/// The least size of a region, in bytes.
const LEAST_REGION: u64 = 4_096;

/// The greatest size of a region, in bytes.
const MOST_REGION: u64 = 67_108_864;

/// The greatest number of steps.
const MOST_STEPS: u64 = 1_099_511_627_776;

/// Whether all bytes are decimal digits.
fn is_digits(bytes: &[u8]) -> bool
    ensures { result ≡ list_all is_ascii_digit bytes.now }
{
    bytes.iter().all(|byte| byte.is_ascii_digit())
}

/// The number that a word of 1 to 13 decimal digits writes; None of any other word.
fn number(word: &str) -> Option<u64>
    ensures { result ≡ number_of word.now }
{
    let len = word.len();
    if len == 0 || len > MOST_DIGITS || !is_digits(word.as_bytes()) {
        return None;
    }
    word.parse::<u64>().ok()
}

/// The size of a region that a word says, in bytes: 4 KiB to 64 MiB, a multiple of 16.
pub fn region(word: &str) -> Option<u32>
    ensures { result ≡ region_of word.now }
{
    let size = number(word)?;
    if size < LEAST_REGION || size > MOST_REGION || size % 16 != 0 {
        return None;
    }
    Some(size as u32)
}

/// The number of steps that a word says: at most 2^40.
pub fn steps(word: &str) -> Option<u64>
    ensures { result ≡ steps_of word.now }
{
    let count = number(word)?;
    if count > MOST_STEPS {
        return None;
    }
    Some(count)
}
