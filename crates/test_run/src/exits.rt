//! Runs for a process that ends after them: they answer and end as runs that give their memory back, wherever
//! they end.

use crate::again::{Calls, Seen, by, run_again, run_to_exit_again, until};
use crate::fakes::{FailingReader, FailingWriter};
use hir_show_io::{Sink, Source};
use hir_show_run::{report, run_and_report};
use std::alloc::Global;
use std::process::Abort;

/// An input, what is written, the exit status, and what is written to the sink of errors.
type Case = (&'static [u8], &'static [u8], u8, &'static [u8]);

/// Inputs that end in each section, well and with a fault.
const RUNS: [Case; 13] = [
    (b"", b"accepted\n", 0, b""),
    (
        b"expr path f\n\nexpr path x\nexpr call 0 1\nroot 2",
        b"accepted\n",
        0,
        b"",
    ),
    (b"expr path f\nexpr unless 0 0\n", b"", 1, b"bad line 2\n"),
    (
        b"expr tuple 1\nexpr tuple 0\nroots\n",
        b"",
        2,
        b"refused Cycle ExprId(0)\n",
    ),
    (
        b"expr path f\nexpr path x\nexpr call 0 1\nroot 2\nchildren 2\n",
        b"children 2 = 0 1\n",
        0,
        b"",
    ),
    (
        b"expr path f\nexpr path x\nexpr call 0 1\nroot 2\nchildren 2\nroots\n",
        b"children 2 = 0 1\n",
        1,
        b"bad line 6\n",
    ),
    (
        b"expr tuple 1\nexpr tuple 0\nroots\nchildren 0\n",
        b"",
        2,
        b"refused Cycle ExprId(0)\n",
    ),
    (
        b"expr path f\nroots\nchildren 0\nprint\n",
        b"children 0 =\n",
        2,
        b"refused NoRoot\n",
    ),
    (
        b"bind x\npat bind 0 -\nexpr path x\nparam 0\nroot 0\nfn f\nprint\n",
        b"fn f(x) x\n",
        0,
        b"",
    ),
    (
        b"bind x\npat bind 0 -\nexpr path x\nparam 0\nroot 0\nfn f\nprint\nprints\n",
        b"fn f(x) x\n",
        1,
        b"bad line 8\n",
    ),
    (
        b"bind x\npat bind 0 -\nexpr path x\nparam 0\nroot 0\nfn f\nchain 0\n",
        b"chain 0 = x\n",
        0,
        b"",
    ),
    (ALL, ANSWERS, 0, b""),
    (
        b"bind x\npat bind 0 -\nexpr path x\nparam 0\nroot 0\nfn f\nchain 0\nroots\n",
        b"chain 0 = x\n",
        1,
        b"bad line 8\n",
    ),
];

/// A question on the store, one on the body and one that needs its scopes.
const ALL: &[u8] =
    b"bind x\npat bind 0 -\nexpr path x\nparam 0\nroot 0\nfn f\nchildren 0\nprint\nchain 0\n";

const ANSWERS: &[u8] = b"children 0 =\nfn f(x) x\nchain 0 = x\n";

/// Fails where a run to an exit isn't seen as one that gives its memory back.
fn are_alike(rt: &impl Abort, left: &Seen<'_>, given_back: &Seen<'_>, input: &[u8]) {
    assert_eq!(rt; left.ended, given_back.ended, "{input:?}");
    assert_eq!(rt;
        left.writer.bytes.as_slice(),
        given_back.writer.bytes.as_slice(),
        "{input:?}"
    );
    assert_eq!(rt; left.reader.calls, given_back.reader.calls, "{input:?}");
    assert_eq!(rt; left.writer.calls, given_back.writer.calls, "{input:?}");
}

/// What is seen of a run to an exit. Fails where it isn't seen of a run that gives its memory back, too.
fn run_both<'a>(
    rt: &impl Abort,
    alloc: Global,
    input: &'a [u8],
    reads: Calls,
    writes: Calls,
) -> Seen<'a> {
    let given_back = run_again(alloc, input, reads, writes);
    let left = run_to_exit_again(alloc, input, reads, writes);
    are_alike(rt, &left, &given_back, input);
    left
}

/// Fails where a case of `RUNS` has written something else to either sink, or ended with another status.
fn answers(
    rt: &impl Abort,
    case: &Case,
    answered: u8,
    writer: &FailingWriter,
    errors: &FailingWriter,
) {
    let (input, output, status, text) = case;
    assert_eq!(rt; answered, *status, "{input:?}");
    assert_eq!(rt; writer.bytes.as_slice(), *output, "{input:?}");
    assert_eq!(rt; errors.bytes.as_slice(), *text, "{input:?}");
}

/// Fails where something else was written to the sink of errors.
fn has_said(rt: &impl Abort, errors: &FailingWriter, text: &[u8]) {
    assert_eq!(rt; errors.bytes.as_slice(), text);
}

/// Does what the `main` of a process does, over these ends, and says whether an allocation failed. Fails
/// where a case has other answers.
fn runs_and_reports_once(
    rt: &impl Abort,
    alloc: Global,
    case: &Case,
    reads: Calls,
    writes: Calls,
) -> bool {
    let mut reader = FailingReader::new(case.0, reads.step, reads.fail_from);
    let mut writer = FailingWriter::new(alloc, writes.step, writes.fail_from);
    let mut errors = FailingWriter::new(alloc, 7, u64::MAX);
    let answered = run_and_report(alloc, &mut reader, &mut writer, &mut errors);
    if answered == 4 {
        has_said(rt, &errors, b"out of memory\n");
        return true;
    }
    answers(rt, case, answered, &writer, &errors);
    false
}

/// Does what the `main` of a process does, and again where an allocation failed.
fn runs_and_reports(rt: &impl Abort, alloc: Global, case: &Case, reads: Calls, writes: Calls) {
    if runs_and_reports_once(rt, alloc, case, reads, writes) {
        let refused_again = runs_and_reports_once(rt, alloc, case, reads, writes);
        assert!(rt; !refused_again);
    }
}

/// The one call for a `main` writes, reports and returns the status as a run and a report of its own do.
#[test]
fn runs_and_reports_in_one_call(rt: HostRuntime) {
    for case in &RUNS {
        runs_and_reports(&rt, rt.alloc(), case, by(7), by(7));
    }
}

/// After a failed read or write the status is 3, the answers before it are written, and the fault is
/// reported.
#[test]
fn reports_ends_that_fail(rt: HostRuntime) {
    let alloc = rt.alloc();
    let input_failed: &[u8] = b"input failed\n";
    let output_failed: &[u8] = b"output failed\n";
    runs_and_reports(
        &rt,
        alloc,
        &(ALL, b"", 3, input_failed),
        until(7, 0),
        by(1000),
    );
    let one_answer: &[u8] = b"children 0 =\n";
    runs_and_reports(
        &rt,
        alloc,
        &(ALL, one_answer, 3, input_failed),
        until(1, 66),
        by(1000),
    );
    runs_and_reports(
        &rt,
        alloc,
        &(ALL, b"", 3, output_failed),
        by(1000),
        until(1000, 0),
    );
    let prefix: &[u8] = b"children 0 =\nfn";
    runs_and_reports(
        &rt,
        alloc,
        &(ALL, prefix, 3, output_failed),
        by(1000),
        until(1, 15),
    );
}

#[test]
fn answers_as_a_run_that_gives_back(rt: HostRuntime) {
    let alloc = rt.alloc();
    for case in &RUNS {
        for step in &[1, 3, 1_000_000] {
            let seen = run_both(&rt, alloc, case.0, by(*step), by(*step));
            let mut errors = FailingWriter::new(alloc, *step, u64::MAX);
            let answered = report(&seen.ended, &mut errors);
            answers(&rt, case, answered, &seen.writer, &errors);
        }
    }
}

/// Fails where the reader, or else the writer, has failed or not as it is said.
fn have_failed(rt: &impl Abort, seen: &Seen<'_>, reader: bool, writer: bool, call: usize) {
    assert_eq!(rt; seen.reader.has_failed(), reader, "at {call}");
    assert_eq!(rt; seen.writer.has_failed(), writer, "at {call}");
}

/// Fails where something else was written.
fn has_written(rt: &impl Abort, seen: &Seen<'_>, written: &[u8]) {
    assert_eq!(rt; seen.writer.bytes.as_slice(), written);
}

#[test]
fn stops_where_an_end_fails(rt: HostRuntime) {
    let alloc = rt.alloc();
    for call in 0..ALL.len() {
        let seen = run_both(&rt, alloc, ALL, until(1, call), by(1000));
        have_failed(&rt, &seen, true, false, call);
    }
    for call in 0..ANSWERS.len() {
        let seen = run_both(&rt, alloc, ALL, by(1000), until(1, call));
        have_failed(&rt, &seen, false, true, call);
        has_written(&rt, &seen, &ANSWERS[..call]);
    }
}
