//! The numbers that C sees of an outcome, and the report of one.

ghost use Rattle.std.specs.Prelude.{◌≡◌, false};
ghost use Rattle.hir_c.specs.Report.{status_of, line_of, has_bad_line, is_taken, NamesLine, IsBlank};

use crate::report::{Report, code_of};
use hir_text::{Outcome, Stop};

/// The number of the status of a text that was taken so.
pub(crate) fn status_number(outcome: Outcome) -> u32
    ensures { result ≡ status_of outcome }
{
    match outcome {
        Outcome::Answered => 0,
        Outcome::Refused(_) => 1,
        Outcome::BadLine(_) => 2,
        Outcome::Memory => 3,
    }
}

/// Whether all lines of a text were taken.
pub(crate) fn is_taken(outcome: Outcome) -> bool
    ensures { result ≡ is_taken outcome }
{
    match outcome {
        Outcome::Answered | Outcome::Refused(_) => true,
        Outcome::BadLine(_) | Outcome::Memory => false,
    }
}

/// The number of the line that an outcome names; 0 where it names none.
fn line_named(outcome: Outcome) -> usize
    ensures { result ≡ line_of outcome }
{
    match outcome {
        Outcome::Refused(line) | Outcome::BadLine(line) => line,
        Outcome::Answered | Outcome::Memory => 0,
    }
}

/// The place in a bad line, and the number of the reason; zeros where there is no bad line.
fn place_in(outcome: Outcome, stop: Option<Stop>) -> (usize, u32)
    ensures { has_bad_line outcome ≡ false → (result.0 ≡ 0) × (result.1 ≡ 0) }
{
    match outcome {
        Outcome::BadLine(_) => match stop {
            Some(stop) => (stop.column, code_of(stop.reason)),
            None => (0, 0),
        },
        Outcome::Answered | Outcome::Refused(_) | Outcome::Memory => (0, 0),
    }
}

/// Nothing to report.
pub(crate) fn blank() -> Report
    ensures { IsBlank result }
{
    Report {
        length: 0,
        written: 0,
        line: 0,
        column: 0,
        reason: 0,
    }
}

/// The report of a text that was taken so: how many bytes its answers have, how many were written, and where
/// the reading of a bad line stopped.
pub(crate) fn report_of(
    length: usize,
    written: usize,
    outcome: Outcome,
    stop: Option<Stop>,
) -> Report
    ensures counts { (result.length ≡ length) × (result.written ≡ written) }
    ensures line { NamesLine outcome result }
{
    let (column, reason) = place_in(outcome, stop);
    Report {
        length,
        written,
        line: line_named(outcome),
        column,
        reason,
    }
}
