//! Allocations that fail. With enough memory each run is the whole one; where an allocation fails, the
//! answers to all lines before are written, and the call is made again. The loop over the allocations is
//! `scripts/refused-growths`.

use crate::again::{Seen, by, ends, run_lines_once, run_once, run_to_exit_once};
use hir_node::ExprId;
use hir_show_run::RunFault;
use hir_store::{FinishFault, NodeId};
use std::alloc::Global;
use std::mem::drop;
use std::process::Abort;
use std::test::Fail;

/// The answers to lines: so many make something, and each one after them is a question.
struct Answers {
    makers: u64,
    /// Nothing, the answer to the first question, the answers to the first two, and so on.
    prefixes: &'static [&'static [u8]],
}

/// The answers to so many lines.
fn answers_to(answers: &Answers, lines: u64) -> &'static [u8] {
    let mut answered = answers.makers;
    let mut text: &'static [u8] = b"";
    for prefix in answers.prefixes {
        if answered <= lines {
            text = prefix;
        }
        answered = answered.saturating_add(1);
    }
    text
}

/// Whether an allocation failed at the line after so many. Fails where something else than the answers to
/// these is written.
fn is_refused(rt: &impl Abort, seen: &Seen<'_>, answers: &Answers, before: u64) -> bool {
    let refused = seen.ended == Err(RunFault::OutOfMemory);
    if refused {
        assert_eq!(rt; seen.writer.bytes.as_slice(), answers_to(answers, before));
    }
    refused
}

/// Runs the program over input that is read at once, and again where an allocation failed: the answers before
/// that line waited.
fn run_at_once(
    rt: &impl Abort,
    alloc: Global,
    input: &[u8],
    answers: &Answers,
    ended: &Result<(), RunFault>,
) -> Result<(), Fail> {
    let (mut seen, before) = run_lines_once(alloc, input, by(1_000_000), by(1000))?;
    if is_refused(rt, &seen, answers, before) {
        seen = run_once(alloc, input, by(1_000_000), by(1000));
    }
    ends(rt, &seen, *ended, answers_to(answers, u64::MAX), 0);
    Ok(())
}

/// How many lines of input are before the one that was being taken, where this is what was read, a byte at a
/// time.
fn lines_before(read: &[u8]) -> u64 {
    let mut lines = 0u64;
    let mut before = 0;
    for byte in read {
        before = lines;
        if *byte == b'\n' {
            lines = lines.saturating_add(1);
        }
    }
    before
}

/// Runs the program over input that is read by single bytes, so that what was read tells at which line an
/// allocation failed; and again where one did.
fn run_by_bytes(
    rt: &impl Abort,
    alloc: Global,
    input: &[u8],
    answers: &Answers,
    ended: &Result<(), RunFault>,
) {
    let mut seen = run_once(alloc, input, by(1), by(1000));
    if is_refused(rt, &seen, answers, lines_before(seen.reader.read_of(input))) {
        seen = run_once(alloc, input, by(1), by(1000));
    }
    ends(rt, &seen, *ended, answers_to(answers, u64::MAX), 0);
    let mut seen = run_to_exit_once(alloc, input, by(1), by(1000));
    if is_refused(rt, &seen, answers, lines_before(seen.reader.read_of(input))) {
        seen = run_to_exit_once(alloc, input, by(1), by(1000));
    }
    ends(rt, &seen, *ended, answers_to(answers, u64::MAX), 1);
}

/// Lines for which each buffer grows: a name, lists of arguments, the arena, the roots, the tables of
/// `finish`.
const MAKERS: &[u8] =
    b"bind a_name_of_some_length\npat bind 0 -\npat tuple 0\nparam 1\nself 0\nfn a_name_of_some_length\ntype path T\ntype tuple 0\nexpr path a_name_of_some_length\nexpr path b\nexpr path c\nexpr call 0 1,2\nexpr missing\nexpr missing\nexpr missing\nexpr missing\nexpr missing\nexpr tuple 4,5,6,7,8\nroot 3\nroot 9\n";

const QUESTIONS: &[u8] = b"children 3\nchildren 9\nchildren 10\n";

const ANSWERS: Answers = Answers {
    makers: 20,
    prefixes: &[
        b"",
        b"children 3 = 0 1 2\n",
        b"children 3 = 0 1 2\nchildren 9 = 4 5 6 7 8\n",
        b"children 3 = 0 1 2\nchildren 9 = 4 5 6 7 8\nchildren 10 unknown\n",
    ],
};

static LONG: [u8; 200_000] = [b'x'; 200_000];

/// Puts the lines that make something, the questions and what comes after them into the text.
fn write_script(text: &mut Vec<u8>, after: &[u8]) -> Result<(), Fail> {
    text.extend_from_slice(MAKERS)?;
    text.extend_from_slice(QUESTIONS)?;
    text.extend_from_slice(after)?;
    Ok(())
}

/// The lines that make something, the questions and what comes after them.
fn script(alloc: Global, after: &[u8]) -> Result<Vec<u8>, Fail> {
    let size = MAKERS
        .len()
        .saturating_add(QUESTIONS.len())
        .saturating_add(after.len());
    let mut text = Vec::with_capacity(alloc, size)?;
    write_script(&mut text, after)?;
    Ok(text)
}

/// Where an allocation fails at a line, the answers to all lines before it are written: while lists are read,
/// and while a line of some blocks is.
#[test]
fn refused_growths_of_runs(rt: HostRuntime) -> Result<(), Fail> {
    let alloc = rt.alloc();
    // A list wants memory while answers wait; a line of some blocks wants it when they are written.
    let text = script(alloc, b"expr call 0 1,2,3\n")?;
    run_at_once(&rt, alloc, &text, &ANSWERS, &Err(RunFault::BadLine(24)))?;
    drop(text);
    let text = script(alloc, &LONG)?;
    run_at_once(&rt, alloc, &text, &ANSWERS, &Err(RunFault::BadLine(24)))?;
    drop(text);
    Ok(())
}

/// A print between two other answers.
const PRINT: &[u8] =
    b"bind x\npat bind 0 -\nexpr path x\nparam 0\nroot 0\nfn f\nchildren 0\nprint\nchain 0\n";

const PRINTED: Answers = Answers {
    makers: 6,
    prefixes: &[
        b"",
        b"children 0 =\n",
        b"children 0 =\nfn f(x) x\n",
        b"children 0 =\nfn f(x) x\nchain 0 = x\n",
    ],
};

/// The body of `fn foo(x) { let x = &x; x }`, with questions that need its scopes before the print.
const SHADOWED: &[u8] =
    b"bind x\nbind x\npat bind 0 -\npat bind 1 -\nexpr path x\nexpr ref 0\nexpr path x\nexpr block - 2 let:1:-:1:-\nparam 0\nroot 3\nfn foo\nchain 0\nchain 2\nresolve 0 x\nresolve 2 x\nprint\n";

const RESOLVED: Answers = Answers {
    makers: 11,
    prefixes: &[
        b"",
        b"chain 0 = x\n",
        b"chain 0 = x\nchain 2 = x x\n",
        b"chain 0 = x\nchain 2 = x x\nresolve 0 x = 0\n",
        b"chain 0 = x\nchain 2 = x x\nresolve 0 x = 0\nresolve 2 x = 1\n",
        b"chain 0 = x\nchain 2 = x x\nresolve 0 x = 0\nresolve 2 x = 1\nfn foo(x) {\n    let x = &x;\n    x\n}\n",
    ],
};

/// Where an allocation fails at a question on the body, its scopes or its text, the answers to all lines
/// before it are written: of a run that gives its memory back, and of one to an exit.
#[test]
fn refused_growths_of_questions_on_a_body(rt: HostRuntime) -> Result<(), Fail> {
    let alloc = rt.alloc();
    run_at_once(&rt, alloc, PRINT, &PRINTED, &Ok(()))?;
    run_by_bytes(&rt, alloc, PRINT, &PRINTED, &Ok(()));
    run_at_once(&rt, alloc, SHADOWED, &RESOLVED, &Ok(()))?;
    run_by_bytes(&rt, alloc, SHADOWED, &RESOLVED, &Ok(()));
    Ok(())
}

/// No line is answered.
const NOTHING: Answers = Answers {
    makers: 0,
    prefixes: &[],
};

/// The node that the faults of these builders name.
fn first_expr() -> NodeId {
    NodeId::Expr(ExprId::from_raw(0))
}

/// A refused builder ends the run with its first fault, or where an allocation fails with that; nothing is
/// written.
#[test]
fn refused_growths_of_refused_builders(rt: HostRuntime) -> Result<(), Fail> {
    let alloc = rt.alloc();
    let cases: [(&[u8], FinishFault); 5] = [
        (
            b"expr tuple 1\nexpr tuple 0\nroots\n",
            FinishFault::Cycle(first_expr()),
        ),
        (
            b"expr path f\nexpr call 0 0\nroots\n",
            FinishFault::SharedChild(first_expr()),
        ),
        (b"bind x\n", FinishFault::NoRoots),
        (
            b"expr path f\nroot 0\nroot 0\n",
            FinishFault::RootRepeated(1),
        ),
        (
            b"expr tuple 4294967295\nroots\n",
            FinishFault::IdOutOfRange(first_expr()),
        ),
    ];
    for (input, fault) in &cases {
        let ended = Err(RunFault::Refused(*fault));
        run_at_once(&rt, alloc, input, &NOTHING, &ended)?;
        run_by_bytes(&rt, alloc, input, &NOTHING, &ended);
    }
    Ok(())
}
