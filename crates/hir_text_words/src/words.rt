//! What is left of a line: words and their parts, taken one after the other.

use crate::text_error::TextError;
use std::alloc::Global;

/// What a part of a line is of.
#[derive(Clone, Copy)]
pub enum Part {
    /// Letters, digits, `-` and `_`.
    Keyword,
    /// Letters, digits and `_`.
    Name,
    /// Digits.
    Digits,
    /// Digits and `.`.
    Decimal,
    /// All but a space.
    Word,
}

impl Part {
    fn has(self, byte: u8) -> bool {
        match self {
            Part::Keyword => byte.is_ascii_alphanumeric() || byte == b'-' || byte == b'_',
            Part::Name => byte.is_ascii_alphanumeric() || byte == b'_',
            Part::Digits => byte.is_ascii_digit(),
            Part::Decimal => byte.is_ascii_digit() || byte == b'.',
            Part::Word => byte != b' ',
        }
    }

    /// Returns how many bytes at the front are of this.
    pub(crate) fn len_in(self, bytes: &[u8]) -> usize {
        for (at, byte) in bytes.iter().enumerate() {
            if !self.has(*byte) {
                return at;
            }
        }
        bytes.len()
    }

    /// Returns whether a text is of this, and not empty.
    pub fn is_all(self, bytes: &[u8]) -> bool {
        !bytes.is_empty() && self.len_in(bytes) == bytes.len()
    }
}

/// Returns how many bytes the bare name at the front has.
fn bare_len(bytes: &[u8]) -> usize {
    match bytes {
        [first, behind @ ..] if first.is_ascii_alphabetic() || matches!(*first, b'_' | b'\'') => {
            Part::Name.len_in(behind).saturating_add(1)
        }
        _ => 0,
    }
}

/// Returns whether a text is a name that is written without quotes.
pub(crate) fn is_bare(text: &[u8]) -> bool {
    !text.is_empty() && bare_len(text) == text.len()
}

/// What is left of a line.
#[derive(Clone, Copy)]
pub struct Words<'a> {
    alloc: Global,
    rest: &'a [u8],
    /// What is left from where the word begins that is being read.
    stop: &'a [u8],
}

impl<'a> Words<'a> {
    /// Returns the words of a line. What is read of it is allocated here.
    pub fn new(alloc: Global, line: &'a [u8]) -> Words<'a> {
        Words {
            alloc,
            rest: line,
            stop: line,
        }
    }

    /// Returns where what is read is allocated.
    pub fn alloc(&self) -> Global {
        self.alloc
    }

    /// Returns what is left.
    pub fn rest(&self) -> &'a [u8] {
        self.rest
    }

    /// Returns how many items what is left has at most: each takes a byte, or is the one that isn't there.
    pub fn most_items(&self) -> usize {
        self.rest.len().saturating_add(1)
    }

    /// Returns what is left from where reading stopped, after a call that couldn't read: from the beginning
    /// of the word that isn't what is wanted, or from the first byte of it that isn't.
    pub fn stop(&self) -> &'a [u8] {
        self.stop
    }

    /// A word begins here, or a part of one.
    fn begin_word(&mut self) {
        self.stop = self.rest;
    }

    /// Says that what comes next isn't what is wanted.
    pub(crate) fn stop_here(&mut self) -> TextError {
        self.begin_word();
        TextError::Syntax
    }

    /// Takes as many bytes as this, or all.
    pub fn take(&mut self, count: usize) -> &'a [u8] {
        let (taken, left) = self.rest.split_at(count.min(self.rest.len()));
        self.rest = left;
        taken
    }

    /// Takes the bytes that are of this at the front.
    pub(crate) fn take_bytes_of(&mut self, part: Part) -> &'a [u8] {
        let taken = self.take(part.len_in(self.rest));
        if taken.is_empty() {
            self.begin_word();
        }
        taken
    }

    /// Takes what is of this at the front. Where its bytes aren't UTF-8, as those of a `Word` may be, they
    /// are taken too, and the text is empty.
    pub fn take_of(&mut self, part: Part) -> &'a str {
        std::str::from_utf8(self.take_bytes_of(part)).unwrap_or("")
    }

    /// Returns whether the line goes on with this text.
    pub fn is_at(&self, text: &str) -> bool {
        self.rest.starts_with(text.as_bytes())
    }

    /// Returns whether the line goes on with this text, which is then taken.
    pub fn eat(&mut self, text: &str) -> bool {
        let is_there = self.is_at(text);
        if is_there {
            let _ = self.take(text.len());
        }
        is_there
    }

    /// Takes this text. A word begins after a space.
    pub fn expect(&mut self, text: &str) -> Result<(), TextError> {
        if !self.eat(text) {
            return Err(self.stop_here());
        }
        if text == " " {
            self.begin_word();
        }
        Ok(())
    }

    /// Returns whether nothing is left.
    pub fn is_end(&self) -> bool {
        self.rest.is_empty()
    }

    /// Returns whether a word ends here.
    pub fn is_word_end(&self) -> bool {
        self.is_end() || self.is_at(" ")
    }

    /// Takes the end of the line.
    pub fn end(&mut self) -> Result<(), TextError> {
        if self.is_end() {
            Ok(())
        } else {
            Err(self.stop_here())
        }
    }

    /// Takes the letters, digits, `-` and `_` that come next.
    pub fn keyword(&mut self) -> &'a str {
        self.take_of(Part::Keyword)
    }

    /// Takes the keyword after a space.
    pub fn next_keyword(&mut self) -> Result<&'a str, TextError> {
        self.expect(" ")?;
        Ok(self.keyword())
    }

    /// Returns whether the next word is this one, which is then taken.
    pub fn flag(&mut self, word: &str) -> bool {
        let mut ahead = *self;
        let is_there = ahead.prefix(word) && ahead.is_word_end();
        if is_there {
            *self = ahead;
        }
        is_there
    }

    /// Returns whether the next word begins with this, which is then taken.
    pub fn prefix(&mut self, start: &str) -> bool {
        let mut ahead = *self;
        let is_there = ahead.expect(" ").is_ok() && ahead.eat(start);
        if is_there {
            *self = ahead;
        }
        is_there
    }

    /// Returns whether a name, bare or in quotes, comes next.
    pub fn is_at_name(&self) -> bool {
        self.is_at("\"") || bare_len(self.rest) > 0
    }

    /// Takes a bare name, which is ASCII; an empty text where no such name comes next.
    pub fn bare_name(&mut self) -> &'a str {
        let name = self.take(bare_len(self.rest));
        if name.is_empty() {
            self.begin_word();
        }
        std::str::from_utf8(name).unwrap_or("")
    }
}
