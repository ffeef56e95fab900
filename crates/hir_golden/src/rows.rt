//! The rows of a text: each begins at its title, and is answered and compared by itself.

use crate::answers::compare_answers;
use crate::halt::Halt;
use crate::repeats::push_line;
use crate::report::{Place, Report};
use std::alloc::{AllocError, Global};

/// A golden case: its file, the number of its first line, and its lines.
#[derive(Drop)]
pub(crate) struct Row<'a> {
    file: &'a str,
    first: usize,
    text: String,
}

impl<'a> Row<'a> {
    fn new(alloc: Global, file: &'a str, first: usize) -> Row<'a> {
        Row {
            file,
            first,
            text: String::new(alloc),
        }
    }

    /// Adds a line, or those that it stands for.
    fn push(&mut self, line: &str) -> Result<(), AllocError> {
        push_line(&mut self.text, line)
    }

    /// The lines of the row.
    pub(crate) fn text(&self) -> &str {
        self.text.as_str()
    }

    /// The first line of the row.
    pub(crate) fn title(&self) -> &str {
        self.text().split('\n').next().unwrap_or("")
    }

    /// The place of the line that has this index in the row.
    pub(crate) fn place<'b>(&'b self, index: usize, line: &'b str) -> Place<'b> {
        Place {
            file: self.file,
            number: self.first.saturating_add(index),
            line,
        }
    }
}

/// Whether something is made or asked, or an answer stands, in a line.
fn is_filled(line: &str) -> bool {
    !line.is_empty() && !line.starts_with('#')
}

/// Asks the questions of a row, and compares. A title without lines is a remark and no row.
fn compare_row(alloc: Global, row: &Row<'_>, report: &mut Report) -> Result<(), Halt> {
    let text = row.text();
    let stray = text
        .split('\n')
        .enumerate()
        .find(|(_, line)| is_filled(line));
    match stray {
        None => Ok(()),
        Some(_) if text.starts_with('#') => {
            report.count_row();
            compare_answers(alloc, row, report)
        }
        Some((index, line)) => Ok(report.stray_line(row.place(index, line))?),
    }
}

/// Compares the rows of a file with this text. A row begins at a line that begins with `#` after one that
/// doesn't.
pub(crate) fn compare_rows(
    alloc: Global,
    file: &str,
    text: &str,
    report: &mut Report,
) -> Result<(), Halt> {
    let mut row = Row::new(alloc, file, 1);
    let mut was_title = false;
    for (index, line) in text.split('\n').enumerate() {
        let is_title = line.starts_with('#');
        if is_title && !was_title {
            compare_row(alloc, &row, report)?;
            row = Row::new(alloc, file, index.saturating_add(1));
        }
        was_title = is_title;
        row.push(line)?;
    }
    compare_row(alloc, &row, report)
}
