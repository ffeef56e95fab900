//! How a run ended: its exit status, and what is written to standard error.

use hir_show_io::{EndFailed, Sink, write_all, write_decimal};

/// How a run ended that took all lines.
#[derive(Clone, Copy, Drop)]
pub(crate) enum Ended {
    /// No question was refused.
    Answered,
    /// The question in the line of this number is the first that was refused.
    Refused(u64),
}

impl Ended {
    /// Returns how the run ended where the question in the line of this number was refused too.
    pub(crate) fn or_refused(self, number: u64) -> Ended {
        match self {
            Ended::Answered => Ended::Refused(number),
            Ended::Refused(first) => Ended::Refused(first),
        }
    }
}

/// Why a run didn't take all lines.
#[derive(Clone, Copy, Drop)]
pub(crate) enum Fault {
    /// The line of this number, counted from 1, is none of the grammar.
    BadLine(u64),
    /// Out of memory.
    OutOfMemory,
    /// Standard input can't be read.
    InputFailed,
    /// Standard output can't be written.
    OutputFailed,
}

/// Writes a word, a number and a line end.
fn write_numbered<W: Sink>(text: &[u8], number: u64, errors: &mut W) -> Result<(), EndFailed> {
    write_all(errors, text)?;
    write_decimal(errors, number)?;
    write_all(errors, b"\n")
}

/// Writes how a run ended, where a question was refused or not all lines were taken.
fn write<W: Sink>(outcome: Result<Ended, Fault>, errors: &mut W) -> Result<(), EndFailed> {
    match outcome {
        Ok(Ended::Answered) => Ok(()),
        Ok(Ended::Refused(number)) => write_numbered(b"refused at line ", number, errors),
        Err(Fault::BadLine(number)) => write_numbered(b"bad line ", number, errors),
        Err(Fault::OutOfMemory) => write_all(errors, b"out of memory\n"),
        Err(Fault::InputFailed) => write_all(errors, b"input failed\n"),
        Err(Fault::OutputFailed) => write_all(errors, b"output failed\n"),
    }
}

/// Writes how a run ended to standard error, and returns the exit status: those of the C call, and 4 for an
/// end that failed.
pub(crate) fn report<W: Sink>(outcome: Result<Ended, Fault>, errors: &mut W) -> u8 {
    let _ = write(outcome, errors);
    match outcome {
        Ok(Ended::Answered) => 0,
        Ok(Ended::Refused(_)) => 1,
        Err(Fault::BadLine(_)) => 2,
        Err(Fault::OutOfMemory) => 3,
        Err(Fault::InputFailed | Fault::OutputFailed) => 4,
    }
}
