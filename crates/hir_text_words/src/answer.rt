//! The answer to a question, while it is written: words that are parted by a space, in lines.

ghost use Rattle.std.specs.Prelude.{◌≡◌, string_bytes};

use crate::quotes;
use crate::words::is_bare;
use itoa::Buffer;
use std::alloc::{AllocError, Global};
use std::fmt::Display;

/// The answer to a question, while it is written.
#[derive(Drop)]
pub struct Answer {
    alloc: Global,
    text: String,
    /// Whether a word comes before what comes next, in its line.
    is_behind: bool,
    is_refusal: bool,
}

impl Answer {
    /// Returns an empty answer. What is computed for it is allocated where it is.
    pub fn new(alloc: Global) -> Answer {
        Answer {
            alloc,
            text: String::new(alloc),
            is_behind: false,
            is_refusal: false,
        }
    }

    /// Returns where the answer is allocated.
    pub fn alloc(&self) -> Global {
        self.alloc
    }

    /// Returns what was written.
    pub fn as_str(&self) -> &str
        ensures { result.now ≡ string_bytes self.now.text }
    {
        self.text.as_str()
    }

    /// Returns whether the answer is a refusal.
    pub fn is_refusal(&self) -> bool
        ensures { result ≡ self.now.is_refusal }
    {
        self.is_refusal
    }

    /// Says that the answer is a refusal: nothing of it is left but what comes next.
    pub fn refuse(&mut self) {
        self.text.clear();
        self.is_behind = false;
        self.is_refusal = true;
    }

    /// Writes the space before a word, where one comes before it in its line.
    pub fn space(&mut self) -> Result<(), AllocError> {
        if self.is_behind {
            self.text.push(' ')?;
        }
        self.is_behind = true;
        Ok(())
    }

    /// Writes a word.
    pub fn word(&mut self, word: &str) -> Result<(), AllocError> {
        self.space()?;
        self.text.push_str(word)
    }

    /// Writes a word, where this says so.
    pub fn flag(&mut self, is_set: bool, word: &str) -> Result<(), AllocError> {
        if is_set {
            self.word(word)?;
        }
        Ok(())
    }

    /// Writes what comes after the last word without a space; so do the calls that follow.
    pub fn join(&mut self, part: &str) -> Result<(), AllocError> {
        self.is_behind = true;
        self.text.push_str(part)
    }

    /// Writes a number.
    pub fn join_number(&mut self, number: u32) -> Result<(), AllocError> {
        self.join(Buffer::new().format(number))
    }

    /// Writes a name: bare, or in quotes.
    pub fn join_name(&mut self, name: &str) -> Result<(), AllocError> {
        if is_bare(name.as_bytes()) {
            self.join(name)
        } else {
            self.join_quoted(name)
        }
    }

    /// Writes a text in quotes.
    pub fn join_quoted(&mut self, text: &str) -> Result<(), AllocError> {
        self.is_behind = true;
        quotes::write_quoted(text, &mut self.text)
    }

    /// Writes bytes in quotes.
    pub fn join_bytes(&mut self, bytes: &[u8]) -> Result<(), AllocError> {
        self.is_behind = true;
        quotes::write_bytes(bytes, &mut self.text)
    }

    /// Writes what is shown of a value.
    pub fn join_shown<T: Display>(&mut self, value: &T) -> Result<(), AllocError> {
        self.is_behind = true;
        write!(self.text, "{value}")
    }

    /// Ends a line.
    pub fn line(&mut self) -> Result<(), AllocError> {
        self.is_behind = false;
        self.text.push('\n')
    }

    /// Ends the line before what comes next, where something was written.
    pub fn next_line(&mut self) -> Result<(), AllocError> {
        if self.text.is_empty() {
            return Ok(());
        }
        self.line()
    }
}
