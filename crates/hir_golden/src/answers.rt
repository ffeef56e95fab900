//! Compares the answers to the questions of a row with those that come after them.

use crate::halt::Halt;
use crate::report::Report;
use crate::rows::Row;
use crate::session::answer;
use hir_text_words::{Answers, Entry, TextFault};
use std::alloc::{AllocError, Global};

/// A line that makes or asks something, and the answer lines that come after it. The title is asked
/// nothing.
#[derive(Drop)]
struct Question<'a> {
    index: usize,
    line: &'a str,
    wanted: String,
}

/// Whether a line is of an answer.
fn is_of_answer(line: &str) -> bool {
    line.starts_with('=') || line.starts_with('!') || line.starts_with('|')
}

/// Whether a line is one that the text reads.
fn is_read(line: &str) -> bool {
    !line.is_empty() && !line.starts_with('#') && !is_of_answer(line)
}

/// How many lines of a row are compared: those before a bad line, and where memory ran out, those that were
/// answered.
fn compared_lines(outcome: Result<(), TextFault>, entries: &[Entry]) -> usize {
    match outcome {
        Ok(()) => usize::MAX,
        Err(TextFault::BadLine(number)) => number.saturating_sub(1),
        Err(TextFault::Memory) => entries.last().map_or(0, |entry| entry.number()),
    }
}

/// Compares what comes after a line with its answer, which is the first of those left, if it has one.
fn compare<'a>(
    alloc: Global,
    row: &Row<'_>,
    asked: &Question<'_>,
    left: &'a [Entry],
    report: &mut Report,
) -> Result<&'a [Entry], AllocError> {
    let mut came = Vec::new(alloc);
    let left = match left {
        [first, rest @ ..] if first.number() == asked.index.saturating_add(1) => {
            first.write_lines(&mut came)?;
            rest
        }
        _ => left,
    };
    if came.as_slice() != asked.wanted.as_bytes() {
        let place = row.place(asked.index, asked.line);
        let came = String::from_utf8_lossy(alloc, came.as_slice())?;
        report.differs(place, asked.wanted.as_str(), came.as_str())?;
    }
    Ok(left)
}

/// Compares the lines of a row, as many as this, with the answers that came.
fn compare_lines(
    alloc: Global,
    row: &Row<'_>,
    count: usize,
    entries: &[Entry],
    report: &mut Report,
) -> Result<(), AllocError> {
    let mut left = entries;
    let mut asked = Question {
        index: 0,
        line: row.title(),
        wanted: String::new(alloc),
    };
    for (index, line) in row.text().split('\n').enumerate() {
        if is_of_answer(line) {
            asked.wanted.push_str(line)?;
            asked.wanted.push('\n')?;
        } else if is_read(line) {
            left = compare(alloc, row, &asked, left, report)?;
            if index >= count {
                return Ok(());
            }
            let wanted = String::new(alloc);
            asked = Question {
                index,
                line,
                wanted,
            };
        }
    }
    let _ = compare(alloc, row, &asked, left, report)?;
    Ok(())
}

/// Writes the answers to the questions of a row, and compares.
pub(crate) fn compare_answers(
    alloc: Global,
    row: &Row<'_>,
    report: &mut Report,
) -> Result<(), Halt> {
    let mut answers = Answers::new(alloc);
    let outcome = answer(alloc, row.text(), &mut answers);
    let entries = answers.as_slice();
    compare_lines(
        alloc,
        row,
        compared_lines(outcome, entries),
        entries,
        report,
    )?;
    match outcome {
        Ok(()) if entries.is_empty() => Ok(report.asks_nothing(row.place(0, row.title()))?),
        Ok(()) => Ok(()),
        Err(TextFault::BadLine(number)) => {
            let index = number.saturating_sub(1);
            let line = row.text().split('\n').nth(index).unwrap_or("");
            Ok(report.bad_line(row.place(index, line))?)
        }
        Err(TextFault::Memory) => Err(Halt::Memory),
    }
}
