//! A run: the lines of the input one after the other, and the answers that they have.

ghost use Rattle.std.specs.Prelude.{◌+◌, ◌<◌, ◌^◌, length};

use crate::report::{Ended, Fault};
use hir_show_io::{EndFailed, LineFault, LineReader, OutputBuffer, Sink, Source, next_line};
use hir_text::{Answer, Lines, Session, TextError};
use std::alloc::{AllocError, Global};

/// Why a run ends before the end of its input.
#[derive(Clone, Copy, Drop)]
enum Halt {
    /// The line that was taken last is none of the grammar.
    BadLine,
    OutOfMemory,
    InputFailed,
    OutputFailed,
}

impl From<TextError> for Halt {
    fn from(stop: TextError) -> Halt {
        match stop {
            TextError::Syntax => Halt::BadLine,
            TextError::Memory => Halt::OutOfMemory,
        }
    }
}

impl From<LineFault> for Halt {
    fn from(fault: LineFault) -> Halt {
        match fault {
            LineFault::OutOfMemory => Halt::OutOfMemory,
            LineFault::InputFailed => Halt::InputFailed,
            LineFault::OutputFailed => Halt::OutputFailed,
        }
    }
}

impl From<EndFailed> for Halt {
    fn from(_: EndFailed) -> Halt {
        Halt::OutputFailed
    }
}

/// Writes an answer as lines, each with its end: the first after `= `, or `! ` where it is a refusal, each
/// further one after `| `.
fn write_answer<W: Sink>(
    answer: &Answer,
    output: &mut OutputBuffer,
    writer: &mut W,
) -> Result<(), EndFailed> {
    let mut mark = if answer.is_refusal() { b'!' } else { b'=' };
    for line in answer.as_str().split('\n') {
        output.write(&[mark], writer)?;
        if !line.is_empty() {
            output.write(b" ", writer)?;
            output.write(line.as_bytes(), writer)?;
        }
        output.write(b"\n", writer)?;
        mark = b'|';
    }
    Ok(())
}

/// Does what a line says, and writes its answer, where it has one. Returns whether the answer is a refusal. A
/// line that isn't UTF-8 is a bad one.
fn take_line<W: Sink>(
    session: &mut Session,
    line: &[u8],
    output: &mut OutputBuffer,
    writer: &mut W,
) -> Result<bool, Halt> {
    let Some(answer) = session.take_line(line)? else {
        return Ok(false);
    };
    write_answer(&answer, output, writer)?;
    Ok(answer.is_refusal())
}

/// Takes all lines of the input. Returns how many lines come before the first whose answer is a refusal,
/// where one is.
fn ask_lines<R: Source, W: Sink>(
    session: &mut Session,
    lines: &mut LineReader,
    reader: &mut R,
    output: &mut OutputBuffer,
    writer: &mut W,
) -> Result<Ended, Halt>
    requires { lines.old.count + length lines.old.pending + R.allowance reader.old < 2 ^ 64 }
{
    let mut ended = Ended::Answered;
    'input: while next_line(lines, reader, output, writer)? {
        if take_line(session, lines.line(), output, writer)? {
            ended = ended.or_refused(lines.count());
        }
    }
    Ok(ended)
}

/// Takes all lines of the input by a session, and writes what waits when they end.
fn ask_by<R: Source, W: Sink>(
    session: &mut Session,
    lines: &mut LineReader,
    reader: &mut R,
    output: &mut OutputBuffer,
    writer: &mut W,
) -> Result<Ended, Fault>
    requires { lines.old.count + length lines.old.pending + R.allowance reader.old < 2 ^ 64 }
{
    let outcome = ask_lines(session, lines, reader, output, writer);
    if output.flush(writer).is_err() {
        return Err(Fault::OutputFailed);
    }
    match outcome {
        Ok(ended) => Ok(ended),
        Err(Halt::BadLine) => Err(Fault::BadLine(lines.count())),
        Err(Halt::OutOfMemory) => Err(Fault::OutOfMemory),
        Err(Halt::InputFailed) => Err(Fault::InputFailed),
        Err(Halt::OutputFailed) => Err(Fault::OutputFailed),
    }
}

/// What a run takes from memory before its first line.
fn begin(alloc: Global) -> Result<(Session, OutputBuffer), AllocError> {
    let session = Session::new(alloc)?;
    let output = OutputBuffer::new(alloc)?;
    Ok((session, output))
}

/// Takes all lines of the input, and writes the answers of those that have one, at the latest before more
/// input is waited for.
pub(crate) fn ask_all<R: Source, W: Sink>(
    alloc: Global,
    reader: &mut R,
    writer: &mut W,
) -> Result<Ended, Fault> {
    let Ok((mut session, mut output)) = begin(alloc) else {
        return Err(Fault::OutOfMemory);
    };
    let Ok(mut lines) = LineReader::new(alloc) else {
        return Err(Fault::OutOfMemory);
    };
    ask_by(&mut session, &mut lines, reader, &mut output, writer)
}
