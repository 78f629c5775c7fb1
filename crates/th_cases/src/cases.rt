//! The lines of a file of cases.

use crate::answers::answer;
use std::alloc::{AllocError, Global};

/// The cases that are read: the texts of interfaces, and the lines of classes, that the questions below them ask about.
#[derive(Drop)]
pub struct Cases {
    text: String,
    classes: String,
    /// Whether the last line was one of the texts, so that the next one goes on with them.
    is_open: bool,
}

/// The answer to a question, or why there is none.
fn answered(
    alloc: Global,
    text: &str,
    classes: &str,
    question: &str,
) -> Result<String, AllocError> {
    match answer(alloc, text, classes, question) {
        Ok(answer) => Ok(answer),
        Err(error) => format!(in alloc; "refused: {error}"),
    }
}

impl Cases {
    /// No text.
    pub fn new(alloc: Global) -> Self {
        Cases {
            text: String::new(alloc),
            classes: String::new(alloc),
            is_open: false,
        }
    }

    /// Takes a line of the texts, the first of which takes the place of those before.
    fn add(&mut self, alloc: Global, line: &str) -> Result<(), AllocError> {
        if !self.is_open {
            self.text = String::new(alloc);
            self.classes = String::new(alloc);
        }
        self.is_open = true;
        self.text.push_str(line)?;
        self.text.push('\n')
    }

    /// Takes a line of a class.
    fn add_class(&mut self, line: &str) -> Result<(), AllocError> {
        self.classes.push_str(line)?;
        self.classes.push('\n')
    }

    /// Takes a line: a question begins with `? ` and has an answer; a class begins with `+ `; an empty line, and a remark, which
    /// begins with `#`, end the texts, as these do; every other line is one of the texts.
    pub fn take(&mut self, alloc: Global, line: &str) -> Result<Option<String>, AllocError> {
        if let Some(question) = line.strip_prefix("? ") {
            self.is_open = false;
            return Ok(Some(answered(alloc, &self.text, &self.classes, question)?));
        }
        if let Some(class) = line.strip_prefix("+ ") {
            self.is_open = false;
            self.add_class(class)?;
            return Ok(None);
        }
        if line.is_empty() || line.starts_with('#') {
            self.is_open = false;
        } else {
            self.add(alloc, line)?;
        }
        Ok(None)
    }
}
