//! The answers to the questions of a text, and why a text isn't read to its end.

ghost use Rattle.std.specs.Prelude.{◌≡◌, ◌++◌, cond, IfOk};
ghost use Rattle.hir_text_words.specs.AnswerLines.{space_of, with_line, answer_lines};

use crate::answer::Answer;
use crate::lines::cut_line;
use std::alloc::{AllocError, AllocFailed, Global};

/// Why a text isn't read to its end.
#[derive(Clone, Copy, PartialEq, Eq, Debug, Drop)]
pub enum TextFault {
    /// The line of this number, counted from 1, isn't one of the grammar.
    BadLine(usize),
    /// Out of memory.
    Memory,
}

impl From<AllocError> for TextFault {
    fn from(_: AllocError) -> TextFault {
        TextFault::Memory
    }
}

/// What comes between the mark of a line and the line: a space, where there is something.
fn space_before(line: &[u8]) -> &'static [u8]
    ensures { result.now ≡ space_of line.now }
{
    match line {
        [] => b"",
        [_, ..] => b" ",
    }
}

/// Writes a line of an answer with its mark and its end.
fn write_line(mark: u8, line: &[u8], out: &mut Vec<u8>) -> Result<(), AllocError>
    ensures { IfOk result (λ _. out.new.items ≡ with_line out.old.items mark line.now) }
{
    out.extend_from_slice(&[mark])?;
    out.extend_from_slice(space_before(line))?;
    out.extend_from_slice(line)?;
    out.extend_from_slice(b"\n")
}

fn mark_of(is_refusal: bool) -> u8
    ensures { result ≡ cond is_refusal 33 61 }
{
    if is_refusal { b'!' } else { b'=' }
}

/// Writes an answer as lines, each with its end.
pub(crate) fn write_lines(answer: &Answer, out: &mut Vec<u8>) -> Result<(), AllocError>
    ensures { IfOk result (λ _. out.new.items ≡ out.old.items ++ answer_lines answer.now) }
{
    let mut mark = mark_of(answer.is_refusal());
    let mut left = Some(answer.as_str().as_bytes());
    'lines: while let Some(text) = left {
        let (line, behind) = cut_line(text);
        write_line(mark, line, out)?;
        mark = b'|';
        left = behind;
    }
    Ok(())
}

/// The answer to a question, with the number of the question's line, counted from 1.
#[derive(Drop)]
pub struct Entry {
    number: usize,
    answer: Answer,
}

impl Entry {
    /// The number of the question's line, counted from 1.
    pub fn number(&self) -> usize {
        self.number
    }

    /// The answer.
    pub fn answer(&self) -> &Answer {
        &self.answer
    }

    /// Writes the answer as lines, each with its end: the first after `= `, or `! ` where it is a refusal,
    /// each further one after `| `; of an empty line the mark alone.
    pub fn write_lines(&self, out: &mut Vec<u8>) -> Result<(), AllocError> {
        write_lines(&self.answer, out)
    }
}

/// The answers to the questions of a text, in the order of their lines.
#[derive(Drop)]
pub struct Answers {
    entries: Vec<Entry>,
}

impl Answers {
    /// No answers.
    pub fn new(alloc: Global) -> Answers {
        Answers {
            entries: Vec::new(alloc),
        }
    }

    /// The answers.
    pub fn as_slice(&self) -> &[Entry] {
        self.entries.as_slice()
    }

    /// Writes all answers as lines.
    pub fn write_lines(&self, out: &mut Vec<u8>) -> Result<(), AllocError> {
        for entry in self.entries.as_slice() {
            entry.write_lines(out)?;
        }
        Ok(())
    }

    /// Puts the answer to the question in this line after the others.
    pub fn push(&mut self, number: usize, answer: Answer) -> Result<(), AllocFailed<Entry>> {
        self.entries.push(Entry { number, answer })
    }
}
