//! What the program says of its end, and its exit status, for each outcome; also where nothing can be said.

use crate::fakes::FailingWriter;
use hir_node::{ExprId, PatId, TypeRefId};
use hir_show_run::{RunFault, report};
use hir_store::{FinishFault, NodeId};
use std::alloc::Global;
use std::mem::drop;
use std::process::Abort;
use std::test::Fail;

/// Fails where a line is another.
fn has_text(rt: &impl Abort, line: &str, text: &str) {
    assert_eq!(rt; line, text);
}

/// Fails where an outcome isn't reported by this text and this status.
fn reports_to(
    rt: &impl Abort,
    outcome: &Result<(), RunFault>,
    errors: &mut FailingWriter,
    text: &[u8],
    status: u8,
) {
    assert_eq!(rt; report(outcome, errors), status, "{text:?}");
    assert_eq!(rt; errors.bytes.as_slice(), text);
}

/// Fails where an outcome is reported in other words or by another status. A sink that fails takes a prefix
/// of the text, is called no more, and changes no status.
fn reports(rt: &impl Abort, alloc: Global, outcome: Result<(), RunFault>, text: &str, status: u8) {
    for step in &[1, 1000] {
        let mut errors = FailingWriter::new(alloc, *step, u64::MAX);
        reports_to(rt, &outcome, &mut errors, text.as_bytes(), status);
    }
    for call in 0..text.len() {
        let mut errors = FailingWriter::new(alloc, 1, call as u64);
        let prefix = &text.as_bytes()[..call];
        reports_to(rt, &outcome, &mut errors, prefix, status);
        let calls = errors.calls;
        drop(errors);
        assert_eq!(rt; calls, call as u64 + 1);
    }
}

/// Reports a fault, whose line is its text and a line end.
fn reports_fault(
    rt: &impl Abort,
    alloc: Global,
    fault: RunFault,
    text: &str,
    status: u8,
) -> Result<(), Fail> {
    has_text(rt, format!(in alloc; "{fault}\n")?.as_str(), text);
    reports(rt, alloc, Err(fault), text, status);
    Ok(())
}

#[test]
fn reports_each_outcome(rt: HostRuntime) -> Result<(), Fail> {
    let alloc = rt.alloc();
    reports(&rt, alloc, Ok(()), "", 0);
    let cases = [
        (RunFault::BadLine(1), "bad line 1\n", 1),
        (
            RunFault::BadLine(u64::MAX),
            "bad line 18446744073709551615\n",
            1,
        ),
        (RunFault::InputFailed, "input failed\n", 3),
        (RunFault::OutputFailed, "output failed\n", 3),
        (RunFault::OutOfMemory, "out of memory\n", 4),
    ];
    for (fault, text, status) in &cases {
        reports_fault(&rt, alloc, *fault, text, *status)?;
    }
    Ok(())
}

#[test]
fn reports_each_fault_that_no_line_makes(rt: HostRuntime) -> Result<(), Fail> {
    let expr = ExprId::from_raw(4_294_967_295);
    let pat = PatId::from_raw(0);
    let type_ref = TypeRefId::from_raw(10);
    let cases = [
        (FinishFault::Memory, "refused Memory\n"),
        (
            FinishFault::RootEnds(usize::MAX),
            "refused RootEnds 18446744073709551615\n",
        ),
        (
            FinishFault::IdOutOfRange(NodeId::Expr(expr)),
            "refused IdOutOfRange ExprId(4294967295)\n",
        ),
        (
            FinishFault::NotAPath(NodeId::Expr(expr)),
            "refused NotAPath ExprId(4294967295)\n",
        ),
        (
            FinishFault::NoReturnType(NodeId::TypeRef(type_ref)),
            "refused NoReturnType TypeRefId(10)\n",
        ),
        (
            FinishFault::NoSelfArgument(NodeId::Pat(pat)),
            "refused NoSelfArgument PatId(0)\n",
        ),
        (
            FinishFault::ArgumentLists(NodeId::Pat(pat)),
            "refused ArgumentLists PatId(0)\n",
        ),
        (
            FinishFault::SharedChild(NodeId::Expr(expr)),
            "refused SharedChild ExprId(4294967295)\n",
        ),
        (
            FinishFault::Cycle(NodeId::Expr(expr)),
            "refused Cycle ExprId(4294967295)\n",
        ),
    ];
    for (fault, text) in &cases {
        reports_fault(&rt, rt.alloc(), RunFault::Refused(*fault), text, 2)?;
    }
    Ok(())
}
