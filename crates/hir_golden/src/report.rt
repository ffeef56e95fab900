//! What is written of the rows: each difference with its place, and how many rows there were.

use std::alloc::{AllocError, Global};

/// A line of a file of rows.
#[derive(Clone, Copy)]
pub(crate) struct Place<'a> {
    pub(crate) file: &'a str,
    /// Counted from 1.
    pub(crate) number: usize,
    pub(crate) line: &'a str,
}

/// What is written of the rows.
#[derive(Drop)]
pub(crate) struct Report {
    text: String,
    rows: usize,
    differences: usize,
}

impl Report {
    pub(crate) fn new(alloc: Global) -> Report {
        Report {
            text: String::new(alloc),
            rows: 0,
            differences: 0,
        }
    }

    /// What is to be written.
    pub(crate) fn as_str(&self) -> &str {
        self.text.as_str()
    }

    /// Forgets the text, which was written.
    pub(crate) fn clear(&mut self) {
        self.text.clear();
    }

    pub(crate) fn rows(&self) -> usize {
        self.rows
    }

    pub(crate) fn differences(&self) -> usize {
        self.differences
    }

    pub(crate) fn count_row(&mut self) {
        self.rows = self.rows.saturating_add(1);
    }

    /// A place, what stands there, and a line end.
    fn begin(&mut self, place: Place<'_>, what: &str) -> Result<(), AllocError> {
        self.differences = self.differences.saturating_add(1);
        let Place { file, number, line } = place;
        writeln!(self.text, "{file}:{number}: {what}{line}")
    }

    /// Lines, each of which has its end, with this word before each.
    fn lines(&mut self, word: &str, lines: &str) -> Result<(), AllocError> {
        if lines.is_empty() {
            return writeln!(self.text, "  {word} nothing");
        }
        for line in lines.split_terminator('\n') {
            writeln!(self.text, "  {word} {line}")?;
        }
        Ok(())
    }

    /// A line whose answer isn't the one that comes after it.
    pub(crate) fn differs(
        &mut self,
        place: Place<'_>,
        wanted: &str,
        came: &str,
    ) -> Result<(), AllocError> {
        self.begin(place, "")?;
        self.lines("wanted", wanted)?;
        self.lines("came  ", came)
    }

    /// A line that isn't one of the grammar.
    pub(crate) fn bad_line(&mut self, place: Place<'_>) -> Result<(), AllocError> {
        self.begin(place, "bad line: ")
    }

    /// A line before the first title.
    pub(crate) fn stray_line(&mut self, place: Place<'_>) -> Result<(), AllocError> {
        self.begin(place, "in no row: ")
    }

    /// A row without a question, by its title.
    pub(crate) fn asks_nothing(&mut self, place: Place<'_>) -> Result<(), AllocError> {
        self.begin(place, "asks nothing: ")
    }

    /// A file that has no rows to compare.
    pub(crate) fn no_rows(&mut self, file: &str, why: &str) -> Result<(), AllocError> {
        self.differences = self.differences.saturating_add(1);
        writeln!(self.text, "{file}: {why}")
    }

    /// How many rows a file had, or all files.
    pub(crate) fn count(
        &mut self,
        of: &str,
        rows: usize,
        differences: usize,
    ) -> Result<(), AllocError> {
        writeln!(self.text, "{of}: {rows} rows, {differences} differ")
    }
}
