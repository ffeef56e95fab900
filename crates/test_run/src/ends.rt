//! Ends that fail: at each read and at each write, what was answered before, and that the other end is left
//! alone. Answers wait and are written before each read, at the end, and before a fault is reported.

use crate::again::{Seen, by, ends, run_again, until};
use hir_show_io::{Sink, Source};
use hir_show_run::RunFault;
use std::mem::drop;
use std::process::Abort;

/// Answers, one of them after an empty line, and a line that is bad after a question.
const INPUT: &[u8] =
    b"expr path a\nexpr call 0 -\nroot 1\nchildren 1\n\nchildren 0\nchildren 7\nroots\nchildren 0\n";

const OUTPUT: &[u8] = b"children 1 = 0\nchildren 0 =\nchildren 7 unknown\n";

/// The bytes up to the bad line's end: given one byte a call, a run reads no further.
const READ: usize = 73;

/// The answers to the whole lines that the input begins with.
fn answers_to(prefix: &[u8]) -> &'static [u8] {
    match prefix.iter().filter(|b| **b == b'\n').count() {
        0..=3 => b"",
        4..=5 => b"children 1 = 0\n",
        6 => b"children 1 = 0\nchildren 0 =\n",
        _ => OUTPUT,
    }
}

/// Fails where there weren't so many reads, of which the last failed.
fn stops_at_read(rt: &impl Abort, seen: &Seen<'_>, reads: usize) {
    assert!(rt; seen.reader.has_failed() && !seen.writer.has_failed());
    assert_eq!(rt; seen.reader.calls, reads as u64);
}

/// Fails where the run didn't stop at this write, or the reader has failed.
fn stops_at_write(rt: &impl Abort, seen: &Seen<'_>, writes: usize) {
    assert!(rt; seen.writer.has_failed() && !seen.reader.has_failed());
    // After a failed write none is made.
    assert_eq!(rt; seen.writer.calls, writes as u64);
}

/// Fails where there were other numbers of reads and of writes.
fn calls(rt: &impl Abort, seen: &Seen<'_>, reads: u64, writes: u64) {
    assert_eq!(rt; (seen.reader.calls, seen.writer.calls), (reads, writes));
}

#[test]
fn stops_where_a_read_fails(rt: HostRuntime) {
    let alloc = rt.alloc();
    for call in 0..READ {
        let seen = run_again(alloc, INPUT, until(1, call), by(1000));
        let wanted = answers_to(&INPUT[..call]);
        ends(&rt, &seen, Err(RunFault::InputFailed), wanted, call);
        stops_at_read(&rt, &seen, call + 1);
    }
    // The read that would fail isn't made: the bad line is known by then.
    let seen = run_again(alloc, INPUT, until(1, READ), by(1000));
    ends(&rt, &seen, Err(RunFault::BadLine(8)), OUTPUT, READ);
    let has_failed = seen.reader.has_failed();
    drop(seen);
    assert!(rt; !has_failed);
}

/// Inputs whose second read fails, and what is written by then: a line that was begun isn't acted on.
const BEGUN: [(&[u8], &[u8]); 4] = [
    (b"", b""),
    (b"expr path a\nroots", b""),
    (b"roots\nx", b""),
    (b"roots\nchildren 0\nchildren 1", b"children 0 unknown\n"),
];

#[test]
fn takes_no_failed_read_for_the_end(rt: HostRuntime) {
    let alloc = rt.alloc();
    for (case, (input, output)) in BEGUN.iter().enumerate() {
        let first = usize::from(!input.is_empty());
        let seen = run_again(alloc, input, until(1000, first), by(1000));
        ends(&rt, &seen, Err(RunFault::InputFailed), output, case);
    }
    // Both ends would fail: what waits is written before the read.
    let seen = run_again(alloc, BEGUN[3].0, until(1000, 1), until(1000, 0));
    ends(&rt, &seen, Err(RunFault::OutputFailed), b"", 4);
    calls(&rt, &seen, 1, 1);
}

#[test]
fn stops_where_a_write_fails(rt: HostRuntime) {
    let alloc = rt.alloc();
    for step in &[1, 7, 1000] {
        for call in 0..OUTPUT.len() {
            let seen = run_again(alloc, INPUT, by(*step), until(1, call));
            ends(
                &rt,
                &seen,
                Err(RunFault::OutputFailed),
                &OUTPUT[..call],
                call,
            );
            stops_at_write(&rt, &seen, call + 1);
        }
    }
    for call in 0..9 {
        let seen = run_again(alloc, b"roots\n", by(1000), until(1, call));
        let written = &b"accepted\n"[..call];
        ends(&rt, &seen, Err(RunFault::OutputFailed), written, call);
    }
}

#[test]
fn writes_what_waits_before_it_reads(rt: HostRuntime) {
    let alloc = rt.alloc();
    let questions = b"children 0\nchildren 1\nchildren 2\n";
    let answers = b"children 0 unknown\nchildren 1 unknown\nchildren 2 unknown\n";
    // One question a read, and a last read that reaches the end: each answer is a write of its own.
    let seen = run_again(alloc, questions, by(11), by(1000));
    ends(&rt, &seen, Ok(()), answers, 0);
    calls(&rt, &seen, 4, 3);
    // All in one read: one write.
    let seen = run_again(alloc, questions, by(1000), by(1000));
    ends(&rt, &seen, Ok(()), answers, 1);
    calls(&rt, &seen, 2, 1);
    // The answers before a bad line are written before it is reported, by one write.
    let seen = run_again(alloc, INPUT, by(1000), until(1000, 1));
    ends(&rt, &seen, Err(RunFault::BadLine(8)), OUTPUT, 2);
    calls(&rt, &seen, 1, 1);
}
