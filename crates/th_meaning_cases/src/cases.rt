//! The lines of a file of cases.

use crate::programs::Program;
use anyhow::Result;
use std::alloc::{AllocError, Global};

/// The cases as far as they are read.
#[derive(Drop)]
pub struct Cases {
    /// The texts before the last one.
    texts: Vec<Vec<u8>>,
    /// The last text, as far as it is read.
    text: String,
    /// Whether there is a last text.
    is_open: bool,
    /// Whether the next text takes the place of those before.
    is_new: bool,
    /// The program of the texts, as far as a run asked for it.
    program: Program,
}

impl Cases {
    /// No text.
    pub fn new(alloc: Global) -> Self {
        Cases {
            texts: Vec::new(alloc),
            text: String::new(alloc),
            is_open: false,
            is_new: true,
            program: Program::Unjudged,
        }
    }

    /// Ends the last text.
    fn close(&mut self, alloc: Global) -> Result<(), AllocError> {
        if self.is_open {
            self.texts
                .push(Vec::from_slice(alloc, self.text.as_bytes())?)?;
        }
        self.text = String::new(alloc);
        self.is_open = false;
        Ok(())
    }

    /// Begins a text.
    fn open(&mut self, alloc: Global) -> Result<(), AllocError> {
        self.close(alloc)?;
        if self.is_new {
            self.texts = Vec::new(alloc);
        }
        self.is_open = true;
        self.is_new = false;
        self.program = Program::Unjudged;
        Ok(())
    }

    /// Takes a line of a text, or a remark.
    fn add(&mut self, line: &str) -> Result<(), AllocError> {
        if self.is_open {
            self.text.push_str(line)?;
            self.text.push('\n')?;
        }
        Ok(())
    }

    /// The answer to a run of the program of the texts.
    fn ran(&mut self, alloc: Global, words: &str) -> Result<String> {
        self.close(alloc)?;
        self.program.judge(alloc, &self.texts)?;
        let answer = self.program.answer(alloc, words)?;
        Ok(format!(in alloc; "  run{words}: {answer}")?)
    }

    /// Takes a line, and gives the line that answers it, where there is one: a title is its own answer.
    pub fn take(&mut self, alloc: Global, line: &str) -> Result<Option<String>> {
        if let Some(title) = line.strip_prefix("case ") {
            self.close(alloc)?;
            self.is_new = true;
            return Ok(Some(title.to_string(alloc)?));
        }
        if let Some(words) = line.strip_prefix("run") {
            return Ok(Some(self.ran(alloc, words)?));
        }
        if line == "text" {
            self.open(alloc)?;
        } else {
            self.add(line)?;
        }
        Ok(None)
    }
}
