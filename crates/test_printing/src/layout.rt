//! Lays out pieces, by a list of lines: each rule of the layout is one small function, and none looks at a
//! text that was joined.
use crate::Piece;
use std::alloc::{AllocError, Global};
use std::mem;

/// The lines of a text: those that have ended, the last, the level of those to come, and whether the next
/// text begins one.
#[derive(Drop)]
struct Lines {
    alloc: Global,
    ended: Vec<Vec<u8>>,
    last: Vec<u8>,
    level: u32,
    begins_line: bool,
    is_one_line: bool,
}

impl Lines {
    /// One empty line.
    fn new(alloc: Global, is_one_line: bool) -> Lines {
        Lines {
            alloc,
            ended: Vec::new(alloc),
            last: Vec::new(alloc),
            level: 0,
            begins_line: false,
            is_one_line,
        }
    }

    /// Whether the last line holds only spaces.
    fn is_blank(&self) -> bool {
        for byte in &self.last {
            if *byte != b' ' {
                return false;
            }
        }
        true
    }

    /// Whether the last line ends in a space.
    fn ends_in_space(&self) -> bool {
        matches!(self.last.as_slice(), [.., b' '])
    }

    /// Ends the last line as it is.
    fn end_line(&mut self) -> Result<(), AllocError> {
        let line = mem::replace(&mut self.last, Vec::new(self.alloc));
        self.ended.push(line)?;
        Ok(())
    }

    /// Begins a line if the next text has to begin one, and indents it.
    fn begin(&mut self) -> Result<(), AllocError> {
        if !self.begins_line {
            return Ok(());
        }
        if !self.is_blank() {
            self.end_line()?;
        }
        for _ in 0..self.level {
            self.last.extend_from_slice(b"    ")?;
        }
        Ok(())
    }

    /// Adds a byte of text.
    fn put(&mut self, byte: u8) -> Result<(), AllocError> {
        self.begin()?;
        if byte == b'\n' {
            self.end_line()?;
        } else {
            self.last.push(byte)?;
        }
        self.begins_line = byte == b'\n' && !self.is_one_line;
        Ok(())
    }

    /// Adds text.
    fn text(&mut self, text: &str) -> Result<(), AllocError> {
        for byte in text.as_bytes() {
            self.put(*byte)?;
        }
        Ok(())
    }

    /// A soft space: a space, unless there is one or a line begins.
    fn soft_space(&mut self) -> Result<(), AllocError> {
        if !self.last.is_empty() && !self.ends_in_space() {
            self.last.push(b' ')?;
        }
        Ok(())
    }

    /// A break in one line: a space, unless there is one or no text.
    fn join(&mut self) -> Result<(), AllocError> {
        let is_empty = self.ended.is_empty() && self.last.is_empty();
        if !is_empty && !self.ends_in_space() {
            self.last.push(b' ')?;
        }
        Ok(())
    }

    /// Removes the trailing spaces of the last line.
    fn trim(&mut self) {
        for _ in 0..self.last.len() {
            if self.ends_in_space() {
                self.last.pop();
            }
        }
    }

    /// Ends the line, unless it is blank; in one line, a space, unless there is one.
    fn line_break(&mut self) -> Result<(), AllocError> {
        if self.is_one_line {
            return self.join();
        }
        if self.is_blank() {
            return Ok(());
        }
        self.trim();
        self.put(b'\n')
    }

    /// Lowers the level and removes empty last lines.
    fn outdent(&mut self) {
        self.level = self.level.saturating_sub(1);
        for _ in 0..self.ended.len() {
            if self.last.is_empty()
                && let Some(line) = self.ended.pop()
            {
                self.last = line;
            }
        }
    }

    /// Adds what a piece stands for.
    fn write(&mut self, piece: &Piece) -> Result<(), AllocError> {
        match piece {
            Piece::Text(text) => self.text(text.as_str()),
            Piece::SoftSpace => self.soft_space(),
            Piece::Break => self.line_break(),
            Piece::Indent => {
                self.level = self.level.saturating_add(1);
                self.line_break()
            }
            Piece::Outdent => {
                self.outdent();
                Ok(())
            }
        }
    }

    /// The lines, joined by line ends.
    fn joined(self) -> Result<Vec<u8>, AllocError> {
        let mut text = Vec::new(self.alloc);
        for line in &self.ended {
            text.extend_from_slice(line.as_slice())?;
            text.push(b'\n')?;
        }
        text.extend_from_slice(self.last.as_slice())?;
        Ok(text)
    }
}

/// The text of pieces, in one line or in lines.
pub fn laid_out(alloc: Global, pieces: &[Piece], is_one_line: bool) -> Result<Vec<u8>, AllocError> {
    let mut lines = Lines::new(alloc, is_one_line);
    for piece in pieces {
        lines.write(piece)?;
    }
    lines.joined()
}
