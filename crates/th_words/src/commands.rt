//! Commands.

/// A command, with what its words say (docs/LANGUAGE.md).
#[derive(Clone, Copy)]
pub enum Command<'a> {
    /// Build the program in the texts `files`, write the executable at `out` and run it.
    Go {
        out: &'a str,
        files: &'a [String],
    },
    /// Run the executable `file` with a region of so many bytes, for so many steps at most.
    Run {
        file: &'a str,
        region: u32,
        steps: u64,
    },
}
