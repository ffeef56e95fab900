//! Reading the next line. Waiting output is written before each read: a user who asks one question and waits
//! gets its answer.

ghost use Rattle.std.specs.Prelude.{◌≡◌, ◌+◌, ◌≤◌, ◌<◌, ◌^◌, ◌||◌, ◌⊎◌, [], true, false, length, cond};
ghost use Rattle.hir_show_io.specs.Text.{HasNoLineEnd};
ghost use Rattle.hir_show_io.specs.NextLine.{NextTakes, NextWrites, bytes_left, is_found, is_failed_input, is_failed_output};

use crate::ends::{Sink, Source};
use crate::lines::{FillFault, LineReader, LineTaken};
use crate::output::OutputBuffer;
use std::fmt;
use thiserror::Error;

/// Why the next line can't be taken.
#[derive(Clone, Copy, Debug, Drop, PartialEq, Eq, Error)]
pub enum LineFault {
    /// An allocation for a longer line failed.
    OutOfMemory,
    /// A read failed.
    InputFailed,
    /// The waiting output couldn't be written.
    OutputFailed,
}

/// What failed.
impl fmt::Display for LineFault {
    ghost use Rattle.std.specs.Prelude.{Some};
    ghost use Rattle.hir_show_io.specs.FaultTexts.{line_fault_text};

    ghost output = { λ fault. Some (line_fault_text fault) };

    fn fmt<W: fmt::Write>(&self, f: &mut fmt::Formatter<W>) -> fmt::Result {
        match self {
            LineFault::OutOfMemory => f.write_str("OutOfMemory"),
            LineFault::InputFailed => f.write_str("InputFailed"),
            LineFault::OutputFailed => f.write_str("OutputFailed"),
        }
    }
}

/// Takes the next line, and returns whether there is one. It reads only if no whole line is pending, and
/// first writes what waits.
///
/// `InputFailed` if a read failed: the pending bytes are the beginning of a line. `OutputFailed` if what
/// waited couldn't be written: a prefix of it was. `OutOfMemory` if an allocation for a longer line failed.
/// After the first and the last what waited is written, after each nothing waits, and no byte that was read
/// is lost.
pub fn next_line<R: Source, W: Sink>(
    lines: &mut LineReader,
    reader: &mut R,
    output: &mut OutputBuffer,
    writer: &mut W,
) -> Result<bool, LineFault>
    requires fits { lines.old.count + length lines.old.pending + R.allowance reader.old < 2 ^ 64 }
    ensures takes { NextTakes (bytes_left lines.old.pending lines.old.at_end (R.remaining reader.old))
        (bytes_left lines.new.pending lines.new.at_end (R.remaining reader.new))
        (R.remaining reader.new) lines.old lines.new result }
    ensures writes { NextWrites (W.contents writer.old) (W.contents writer.new) output.old output.new result }
    ensures count { lines.new.count ≡ lines.old.count + cond (is_found result) 1 0 }
    ensures falls { is_failed_input result ≡ false →
        length lines.new.pending + R.allowance reader.new + cond (is_found result) 1 0
        ≤ length lines.old.pending + R.allowance reader.old }
    ensures input_failure { R.is_failed reader.new ≡ (is_failed_input result || R.is_failed reader.old) }
    ensures output_failure { W.is_failed writer.new ≡ (is_failed_output result || W.is_failed writer.old) }
    // If nothing waits, the writer isn't called.
    ensures idle { output.old ≡ [] →
        (is_failed_output result ≡ false) × (writer.new ≡ writer.old) × (output.new ≡ []) }
    ensures read_late { ((reader.new ≡ reader.old) × (writer.new ≡ writer.old) × (output.new ≡ output.old))
        ⊎ (HasNoLineEnd lines.old.pending × (lines.old.at_end ≡ false) × (output.new ≡ [])) }
    ensures stays_ended { lines.old.at_end ≡ true → lines.new.at_end ≡ true }
{
    match lines.take_line() {
        LineTaken::Line => Ok(true),
        LineTaken::End => Ok(false),
        LineTaken::More => read_line(lines, reader, output, writer),
    }
}

/// Does what `next_line` does, where no whole line is pending.
// Nearly every line is pending as a whole. A function of its own for the other case saves 6 % of the
// instructions of making.
#[inline(never)]
fn read_line<R: Source, W: Sink>(
    lines: &mut LineReader,
    reader: &mut R,
    output: &mut OutputBuffer,
    writer: &mut W,
) -> Result<bool, LineFault>
    requires fits { lines.old.count + length lines.old.pending + R.allowance reader.old < 2 ^ 64 }
    ensures takes { NextTakes (bytes_left lines.old.pending lines.old.at_end (R.remaining reader.old))
        (bytes_left lines.new.pending lines.new.at_end (R.remaining reader.new))
        (R.remaining reader.new) lines.old lines.new result }
    ensures writes { NextWrites (W.contents writer.old) (W.contents writer.new) output.old output.new result }
    ensures count { lines.new.count ≡ lines.old.count + cond (is_found result) 1 0 }
    ensures falls { is_failed_input result ≡ false →
        length lines.new.pending + R.allowance reader.new + cond (is_found result) 1 0
        ≤ length lines.old.pending + R.allowance reader.old }
    ensures input_failure { R.is_failed reader.new ≡ (is_failed_input result || R.is_failed reader.old) }
    ensures output_failure { W.is_failed writer.new ≡ (is_failed_output result || W.is_failed writer.old) }
    // If nothing waits, the writer isn't called.
    ensures idle { output.old ≡ [] →
        (is_failed_output result ≡ false) × (writer.new ≡ writer.old) × (output.new ≡ []) }
    ensures read_late { ((reader.new ≡ reader.old) × (writer.new ≡ writer.old) × (output.new ≡ output.old))
        ⊎ (HasNoLineEnd lines.old.pending × (lines.old.at_end ≡ false) × (output.new ≡ [])) }
    ensures stays_ended { lines.old.at_end ≡ true → lines.new.at_end ≡ true }
{
    loop {
        match lines.take_line() {
            LineTaken::Line => return Ok(true),
            LineTaken::End => return Ok(false),
            LineTaken::More => {}
        }
        if output.flush(writer).is_err() {
            return Err(LineFault::OutputFailed);
        }
        match lines.fill(reader) {
            Ok(()) => {}
            Err(FillFault::OutOfMemory) => return Err(LineFault::OutOfMemory),
            Err(FillFault::InputFailed) => return Err(LineFault::InputFailed),
        }
    }
}
