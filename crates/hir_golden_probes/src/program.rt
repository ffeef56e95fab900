//! The program over ends in memory: lines that are its input, and a run of it, with what it writes to each
//! end.

ghost use Rattle.std.specs.Prelude.{◌≡◌, ◌++◌, IsFalse, IsTrue, false};

use hir_show_io::{EndFailed, Sink, Source};
use hir_show_run::{report, run as run_program};
use hir_text_nodes::{Answer, Read, TextError, Words, put};
use std::alloc::{AllocError, Global};

/// Input that is read a line at a time, until the call that fails.
#[derive(Drop)]
struct FailingReader<'a> {
    left: &'a [u8],
    /// How many calls come before the one that fails.
    good_calls: u64,
    has_failed: bool,
}

impl<'a> FailingReader<'a> {
    fn new(bytes: &'a [u8], good_calls: u64) -> FailingReader<'a>
        ensures { result.has_failed ≡ false }
    {
        FailingReader {
            left: bytes,
            good_calls,
            has_failed: false,
        }
    }

    /// The length of the line that comes next, with its end.
    fn line_len(&self) -> usize {
        match self.left.iter().position(|byte| *byte == b'\n') {
            Some(end) => end.saturating_add(1),
            None => self.left.len(),
        }
    }
}

impl Source for FailingReader<'_> {
    ghost use Rattle.std.specs.Prelude.{Some, length, min, ◌-◌, ◌^◌};
    ghost use Rattle.std.proofs.Common.{arith};

    ghost remaining = { λ s. Some s.left.now };

    ghost is_failed = { λ s. s.has_failed };

    ghost allowance = { λ s. min (length s.left.now) (2 ^ 64 - 1) };

    ghost allowance_fits = { λ s. omega arith };

    fn read(&mut self, buffer: &mut [u8]) -> Result<usize, EndFailed> {
        match self.good_calls.checked_sub(1) {
            Some(good_calls) => self.good_calls = good_calls,
            None => {
                self.has_failed = true;
                return Err(EndFailed);
            }
        }
        let count = self
            .line_len()
            .max(1)
            .min(buffer.len())
            .min(self.left.len());
        buffer[..count].copy_from_slice(&self.left[..count]);
        self.left = &self.left[count..];
        Ok(count)
    }

    fn has_failed(&self) -> bool {
        self.has_failed
    }
}

/// Output that is kept, until the call that fails.
#[derive(Drop)]
struct FailingWriter {
    bytes: Vec<u8>,
    /// How many calls come before the one that fails.
    good_calls: u64,
    has_failed: bool,
    /// Whether a call failed since there was no memory to keep its bytes.
    is_out_of_memory: bool,
}

impl FailingWriter {
    fn new(alloc: Global, good_calls: u64) -> FailingWriter
        ensures { result.has_failed ≡ false }
    {
        FailingWriter {
            bytes: Vec::new(alloc),
            good_calls,
            has_failed: false,
            is_out_of_memory: false,
        }
    }

    /// Keeps the bytes, and says whether there was memory for them.
    fn keep(&mut self, bytes: &[u8]) -> bool
        ensures kept { IsTrue result → self.new.bytes.items ≡ self.old.bytes.items ++ bytes.now }
        ensures refused { IsFalse result → self.new.bytes.items ≡ self.old.bytes.items }
        ensures failure { self.new.has_failed ≡ self.old.has_failed }
    {
        let is_kept = self.bytes.extend_from_slice(bytes).is_ok();
        self.is_out_of_memory = !is_kept;
        is_kept
    }
}

impl Sink for FailingWriter {
    ghost use Rattle.std.specs.Prelude.{Some};

    ghost contents = { λ s. Some s.bytes.items };

    ghost is_failed = { λ s. s.has_failed };

    fn write(&mut self, buffer: &[u8]) -> Result<usize, EndFailed> {
        match self.good_calls.checked_sub(1) {
            Some(good_calls) => self.good_calls = good_calls,
            None => {
                self.has_failed = true;
                return Err(EndFailed);
            }
        }
        if !self.keep(buffer) {
            self.has_failed = true;
            return Err(EndFailed);
        }
        Ok(buffer.len())
    }

    fn has_failed(&self) -> bool {
        self.has_failed
    }
}

/// Adds to the input of the program what a line has after its `>`.
pub fn add_input(input: &mut Vec<u8>, words: Words<'_>) -> Result<(), TextError> {
    let mut words = words;
    if words.is_at("\"") {
        let bytes = words.bytes()?;
        words.end()?;
        return Ok(input.extend_from_slice(bytes.as_slice())?);
    }
    if !words.is_end() {
        words.expect(" ")?;
    }
    input.extend_from_slice(words.rest())?;
    Ok(input.push(b'\n')?)
}

/// How many calls of an end come before the one that fails: the number after this word tells which one it
/// is.
fn good_calls(words: &mut Words<'_>, word: &str) -> Result<u64, TextError> {
    if !words.prefix(word) {
        return Ok(u64::MAX);
    }
    match u32::read(words)?.checked_sub(1) {
        Some(good_calls) => Ok(u64::from(good_calls)),
        None => Err(TextError::Syntax),
    }
}

/// Writes the bytes of a line as a word: in quotes where they are no text, and nothing where there are none.
fn write_text(line: &[u8], answer: &mut Answer) -> Result<(), AllocError> {
    if line.is_empty() {
        return Ok(());
    }
    match std::str::from_utf8(line) {
        Ok(line) => answer.word(line),
        Err(_) => {
            answer.space()?;
            answer.join_bytes(line)
        }
    }
}

/// Writes a line that an end was written after this word, in a line of its own.
fn write_line(word: &str, line: &[u8], answer: &mut Answer) -> Result<(), AllocError> {
    answer.line()?;
    answer.word(word)?;
    match line {
        [line @ .., b'\n'] => write_text(line, answer),
        _ => {
            answer.join("-open")?;
            write_text(line, answer)
        }
    }
}

/// Writes all lines that an end was written.
fn write_lines(word: &str, bytes: &[u8], answer: &mut Answer) -> Result<(), AllocError> {
    for line in bytes.split_inclusive(|byte| *byte == b'\n') {
        write_line(word, line, answer)?;
    }
    Ok(())
}

/// Writes the status of a run, and what each end was written.
fn write_run(
    status: u8,
    writer: &FailingWriter,
    errors: &FailingWriter,
    answer: &mut Answer,
) -> Result<(), AllocError> {
    put(answer, &("status", u32::from(status)))?;
    write_lines("out", writer.bytes.as_slice(), answer)?;
    write_lines("error", errors.bytes.as_slice(), answer)
}

/// Runs the program over this input and reports.
pub fn answer_run(
    alloc: Global,
    input: &[u8],
    good_reads: u64,
    good_writes: u64,
    answer: &mut Answer,
) -> Result<(), TextError> {
    let mut reader = FailingReader::new(input, good_reads);
    let mut writer = FailingWriter::new(alloc, good_writes);
    let mut errors = FailingWriter::new(alloc, u64::MAX);
    let outcome = run_program(alloc, &mut reader, &mut writer);
    let status = report(&outcome, &mut errors);
    if status == 4 || writer.is_out_of_memory || errors.is_out_of_memory {
        return Err(TextError::Memory);
    }
    Ok(write_run(status, &writer, &errors, answer)?)
}

/// Reads how many calls of the reader, and of the writer, come before the one that fails.
pub fn read_run(words: Words<'_>) -> Result<(u64, u64), TextError> {
    let mut words = words;
    let good_reads = good_calls(&mut words, "reads:")?;
    let good_writes = good_calls(&mut words, "writes:")?;
    words.end()?;
    Ok((good_reads, good_writes))
}
