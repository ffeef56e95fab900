//! Whole runs in memory: how they end, and what is read and written. A run in which an allocation failed is
//! made again, so that each test passes where any one allocation fails too.

use crate::fakes::{FailingReader, FailingWriter};
use hir_show_io::LineReader;
use hir_show_run::{RunFault, run, run_lines, run_to_exit};
use std::alloc::{AllocError, Global};
use std::process::Abort;

/// How many bytes a call moves at most, and the number of the call, from 0, from which on all fail.
#[derive(Clone, Copy, Drop)]
pub struct Calls {
    pub step: usize,
    pub fail_from: u64,
}

/// Calls that move so many bytes at most, and don't fail.
pub fn by(step: usize) -> Calls {
    Calls {
        step,
        fail_from: u64::MAX,
    }
}

/// Calls that move so many bytes at most, and fail from this one on.
pub fn until(step: usize, fail_from: usize) -> Calls {
    Calls {
        step,
        fail_from: fail_from as u64,
    }
}

/// What is seen of a run.
#[derive(Drop)]
pub struct Seen<'a> {
    pub ended: Result<(), RunFault>,
    pub reader: FailingReader<'a>,
    pub writer: FailingWriter,
}

/// Fails where the run of this case ended in another way, or wrote something else. What was seen is lent: an
/// assert beside which something owned is alive is dear to prove.
pub fn ends(
    rt: &impl Abort,
    seen: &Seen<'_>,
    ended: Result<(), RunFault>,
    written: &[u8],
    case: usize,
) {
    assert_eq!(rt; seen.ended, ended, "case {case}");
    assert_eq!(rt; seen.writer.bytes.as_slice(), written, "case {case}");
}

/// Runs the program once.
pub fn run_once<'a>(alloc: Global, input: &'a [u8], reads: Calls, writes: Calls) -> Seen<'a> {
    let mut reader = FailingReader::new(input, reads.step, reads.fail_from);
    let mut writer = FailingWriter::new(alloc, writes.step, writes.fail_from);
    let ended = run(alloc, &mut reader, &mut writer);
    Seen {
        ended,
        reader,
        writer,
    }
}

/// How many lines were taken before the one at which the run ended: the line taken last is that one, unless
/// the next was being read.
fn lines_before(lines: &LineReader) -> u64 {
    if lines.line().is_empty() {
        lines.count()
    } else {
        lines.count().saturating_sub(1)
    }
}

/// Runs the program once over a reader of lines, and tells how many lines were taken before the one at which
/// it ended. No line of the input is empty.
pub fn run_lines_once<'a>(
    alloc: Global,
    input: &'a [u8],
    reads: Calls,
    writes: Calls,
) -> Result<(Seen<'a>, u64), AllocError> {
    let mut lines = LineReader::new(alloc)?;
    let mut reader = FailingReader::new(input, reads.step, reads.fail_from);
    let mut writer = FailingWriter::new(alloc, writes.step, writes.fail_from);
    let ended = run_lines(alloc, &mut lines, &mut reader, &mut writer);
    let before = lines_before(&lines);
    let seen = Seen {
        ended,
        reader,
        writer,
    };
    Ok((seen, before))
}

/// Runs the program, and again where an allocation failed.
pub fn run_again<'a>(alloc: Global, input: &'a [u8], reads: Calls, writes: Calls) -> Seen<'a> {
    let seen = run_once(alloc, input, reads, writes);
    if seen.ended == Err(RunFault::OutOfMemory) {
        return run_once(alloc, input, reads, writes);
    }
    seen
}

/// Runs the program once, as for a process that ends after it.
pub fn run_to_exit_once<'a>(
    alloc: Global,
    input: &'a [u8],
    reads: Calls,
    writes: Calls,
) -> Seen<'a> {
    let mut reader = FailingReader::new(input, reads.step, reads.fail_from);
    let mut writer = FailingWriter::new(alloc, writes.step, writes.fail_from);
    let ended = run_to_exit(alloc, &mut reader, &mut writer);
    Seen {
        ended,
        reader,
        writer,
    }
}

/// Runs the program as for a process that ends after it, and again where an allocation failed.
pub fn run_to_exit_again<'a>(
    alloc: Global,
    input: &'a [u8],
    reads: Calls,
    writes: Calls,
) -> Seen<'a> {
    let seen = run_to_exit_once(alloc, input, reads, writes);
    if seen.ended == Err(RunFault::OutOfMemory) {
        return run_to_exit_once(alloc, input, reads, writes);
    }
    seen
}
