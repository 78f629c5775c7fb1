//! Names of files as words.

ghost use Rattle.std.specs.Prelude.{◌≡◌, map, string_bytes};
ghost use Rattle.th_words.specs.Reading.{are_files, are_plain};

use crate::options::is_dashed;

/// The most files of a command.
const MOST_FILES: usize = 64;

/// Whether no word begins with `-`, but for `-` alone.
fn are_plain(words: &[String]) -> bool
    ensures { result ≡ are_plain (map string_bytes words.now) }
{
    for at in 0..words.len() {
        if is_dashed(words[at].as_str()) {
            return false;
        }
    }
    true
}

/// Whether the words name files: 1 to 64 plain words.
pub fn are_files(words: &[String]) -> bool
    ensures { result ≡ are_files (map string_bytes words.now) }
{
    if words.is_empty() || words.len() > MOST_FILES {
        return false;
    }
    are_plain(words)
}
