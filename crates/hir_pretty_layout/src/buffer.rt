//! The one buffer of a printing: a text that is written at its end alone, and looks back over its last
//! characters.
#![tactic(auto, using(crate::proofs::BufferLemmas::grown))]

ghost use Rattle.std.specs.Prelude.{◌≡◌, ◌∷◌, [], ◌++◌, ◌-◌, OnOk, OnErr, IsTrue, ◌↔◌, string_bytes};
ghost use Rattle.hir_pretty_layout.specs.internal.Buffer.{HasNoEnd};
ghost use Rattle.hir_pretty_layout.specs.Buffer.{IsTrimmedLen, IsGrown};
ghost use Rattle.hir_pretty_layout.specs.Page.{begin, put_all, ends_in_space, line_ended, is_blank, empty_page, page_text};

use crate::{LineFormat, PieceWriter};
use std::alloc::{AllocError, Global};
use std::fmt;
use std::marker::Model;

/// A page of text, written layout by layout. Contracts see it as its lines, its level and its format.
///
/// No step goes over the text again: the length without trailing spaces is kept, and the indentation is a
/// text of spaces that grows and shrinks with the level. A step fails only if an allocation for the text or
/// the indentation failed, and then it leaves the page as it was.
#[derive(Drop)]
pub struct PageBuffer {
    text: String,
    kept: usize,
    indentation: String,
    format: LineFormat,
}

impl Model for PageBuffer {
    ghost use Rattle.hir_pretty_layout.specs.Page.{Page};

    ghost Value = { Page };

    ghost use Rattle.hir_pretty_layout.specs.Buffer.{page_of, IsPageBuffer};

    ghost view = { page_of };

    ghost invariant = { IsPageBuffer };
}

impl PageBuffer {
    /// An empty page, in this format. It takes no memory.
    #[tactic(auto, unfolding(crate::specs::Buffer::lines_of))]
    pub fn new(alloc: Global, format: LineFormat) -> PageBuffer
        ensures { result ≡ empty_page format }
    {
        PageBuffer {
            text: String::new(alloc),
            kept: 0,
            indentation: String::new(alloc),
            format,
        }
    }

    /// The text of the page: its lines, joined by line ends. It takes no memory.
    #[tactic(auto, using(crate::proofs::PageLemmas::text_of_lines))]
    pub fn into_text(self) -> String
        ensures { string_bytes result ≡ page_text self }
    {
        let PageBuffer {
            text,
            kept: _,
            indentation: _,
            format: _,
        } = self;
        text
    }

    /// Whether the last line holds only spaces.
    fn ends_in_blank_line(&self) -> bool
        ensures { result ≡ is_blank self.now.last }
    {
        let text = self.text.as_bytes();
        self.kept == 0 || text[self.kept - 1] == b'\n'
    }

    /// Adds a line end, whatever the format.
    fn end_line(&mut self) -> Result<(), AllocError>
        ensures ok { OnOk result (self.new ≡ record self.old {
          above = self.old.last ∷ self.old.above;
          last = [];
        }) }
        ensures grown { IsGrown self.old self.new }
    {
        self.text.push('\n')?;
        self.kept = self.text.len();
        Ok(())
    }

    /// Adds characters to the last line, whatever the format.
    fn add(&mut self, part: &str) -> Result<(), AllocError>
        requires { HasNoEnd part.now }
        ensures ok { OnOk result (self.new ≡ record self.old { last = self.old.last ++ part.now }) }
        ensures grown { IsGrown self.old self.new }
        ensures err { OnErr result (self.new ≡ self.old) }
    {
        let before = self.text.len();
        self.text.push_str(part)?;
        let of_part = trimmed_len(part.as_bytes());
        if of_part > 0 {
            self.kept = before + of_part;
        }
        Ok(())
    }

    /// Begins a line, unless the last is blank, and indents it, if the next text has to begin one.
    fn begin(&mut self) -> Result<(), AllocError>
        ensures ok { OnOk result (self.new ≡ begin self.old) }
        ensures grown { IsGrown self.old self.new }
    {
        if self.format != LineFormat::Indentation {
            return Ok(());
        }
        if !self.ends_in_blank_line() {
            self.end_line()?;
        }
        self.text.push_str(self.indentation.as_str())?;
        Ok(())
    }

    /// Writes text without a line end.
    fn line(&mut self, line: &str) -> Result<(), AllocError>
        requires { HasNoEnd line.now }
        ensures ok { OnOk result (self.new ≡ put_all line.now self.old) }
        ensures grown { IsGrown self.old self.new }
    {
        if !line.is_empty() {
            self.begin()?;
            self.add(line)?;
            self.format = self.format.in_line();
        }
        Ok(())
    }

    /// Writes text: all of it, or nothing where an allocation fails.
    fn all_or_none(&mut self, text: &str) -> Result<(), AllocError>
        ensures ok { OnOk result (self.new ≡ put_all text.now self.old) }
        ensures err { OnErr result (self.new ≡ self.old) }
    {
        let len = self.text.len();
        let kept = self.kept;
        let format = self.format;
        let written = self.lines(text);
        if written.is_err() {
            self.text.truncate(len);
            self.kept = kept;
            self.format = format;
        }
        written
    }

    /// Writes text line by line.
    fn lines(&mut self, text: &str) -> Result<(), AllocError>
        ensures ok { OnOk result (self.new ≡ put_all text.now self.old) }
        ensures grown { IsGrown self.old self.new }
    {
        let mut rest = text;
        while let Some((line, after)) = rest.split_once('\n') {
            self.line(line)?;
            self.begin()?;
            self.end_line()?;
            self.format = self.format.after_end();
            rest = after;
        }
        self.line(rest)
    }

    /// Writes a break in lines: ends the last line without its trailing spaces, and a line of indentation
    /// where the next text begins a line.
    fn break_line(&mut self) -> Result<(), AllocError>
        ensures ok { OnOk result (self.new ≡ line_ended self.old) }
        ensures err { OnErr result (self.new ≡ self.old) }
    {
        if self.ends_in_blank_line() {
            return Ok(());
        }
        if self.format == LineFormat::Indentation {
            let indentation = self.indentation.as_str();
            // room for all is asked for first: spaces that were removed could not be written again
            self.text.reserve(indentation.len() + 2)?;
            self.text.truncate(self.kept);
            self.text.push('\n')?;
            self.text.push_str(indentation)?;
            self.text.push('\n')?;
            self.kept = self.text.len();
            return Ok(());
        }
        let after = self.format.after_end();
        // refused only where there were no trailing spaces: their room is enough for a line end
        self.text.truncate(self.kept);
        self.text.push('\n')?;
        self.kept = self.text.len();
        self.format = after;
        Ok(())
    }

    /// Whether the last line ends in a space.
    #[tactic(auto, using(crate::proofs::BufferLemmas::space_by_len))]
    fn ends_in_space(&self) -> bool
        ensures { result ≡ ends_in_space self.now.last }
    {
        self.kept < self.text.len()
    }

    /// Lowers the level by one, unless it is 0.
    fn lower_level(&mut self)
        ensures { self.new ≡ record self.old { level = self.old.level - 1 } }
    {
        let spaces = self.indentation.as_bytes().len();
        if spaces >= 4 {
            self.indentation.truncate(spaces - 4);
        }
    }
}

impl PieceWriter for PageBuffer {
    ghost use Rattle.std.specs.Prelude.{◌≡◌};
    ghost use Rattle.hir_pretty_layout.specs.Page.{render};

    ghost step = { render };

    // a page for which an allocation fails stays as it was
    ghost refuses = { λ piece old new. new ≡ old };

    #[tactic(auto, using(crate::proofs::PageLemmas::put_all_in_line))]
    fn text(&mut self, text: &str) -> Result<(), AllocError> {
        if self.format != LineFormat::Indentation && has_no_end(text.as_bytes()) {
            return self.add(text);
        }
        self.all_or_none(text)
    }

    #[tactic(auto, using(crate::proofs::EndLemmas::unspaced_blank, crate::proofs::EndLemmas::no_end_in_spaces))]
    fn soft_space(&mut self) -> Result<(), AllocError> {
        if self.ends_in_space() || self.ends_in_blank_line() {
            return Ok(());
        }
        self.add(" ")
    }

    #[tactic(auto, using(crate::proofs::BufferLemmas::empty_by_len))]
    fn line_break(&mut self) -> Result<(), AllocError> {
        if self.format != LineFormat::Oneline {
            return self.break_line();
        }
        if self.text.is_empty() || self.ends_in_space() {
            return Ok(());
        }
        self.add(" ")
    }

    fn indent(&mut self) -> Result<(), AllocError> {
        self.indentation.push_str("    ")?;
        let broken = self.line_break();
        if broken.is_err() {
            self.lower_level();
        }
        broken
    }

    /// Lowers the level and removes empty last lines. It takes no memory, and looks back over what it
    /// removes and over the spaces before it.
    fn outdent(&mut self) -> Result<(), AllocError> {
        self.lower_level();
        while self.text.ends_with('\n') {
            self.text.truncate(self.text.len() - 1);
            self.kept = trimmed_len(self.text.as_bytes());
        }
        Ok(())
    }
}

impl fmt::Write for PageBuffer {
    ghost use Rattle.std.specs.Prelude.{◌≡◌};
    ghost use Rattle.hir_pretty_layout.specs.Page.{put_all};

    ghost write_str_gives = { λ old text new. new ≡ put_all text old };

    /// Writes text. It fails where an allocation fails, and then leaves the page as it was.
    fn write_str(&mut self, text: &str) -> fmt::Result {
        match self.text(text) {
            Ok(()) => Ok(()),
            Err(_) => Err(fmt::Error),
        }
    }
}

/// How long the text is without its trailing spaces.
fn trimmed_len(text: &[u8]) -> usize
    ensures { IsTrimmedLen text.now result }
{
    let mut len = text.len();
    while len > 0 && text[len - 1] == b' ' {
        len -= 1;
    }
    len
}

/// Whether a text is without a line end.
fn has_no_end(text: &[u8]) -> bool
    ensures { IsTrue result ↔ HasNoEnd text.now }
{
    let mut left = text.len();
    while left > 0 {
        left -= 1;
        if text[left] == b'\n' {
            return false;
        }
    }
    true
}
