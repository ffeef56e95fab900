//! Writes how the program ended, without taking memory: each piece of the text is a write of its own, so that
//! it is known what a failed write leaves.

ghost use Rattle.std.specs.Prelude.{◌≡◌, ◌||◌, ◌++◌, codes, false, is_err};
ghost use Rattle.std.specs.Fmt.{decimal};
ghost use Rattle.std.specs.Io.KnownBytes.{Appends};
ghost use Rattle.hir_show_io.specs.Effects.{AppendsPrefix};
ghost use Rattle.hir_show_run.specs.Faults.{status_of};
ghost use Rattle.hir_body.specs.FaultTexts.{body_fault_text};
ghost use Rattle.hir_show_run.specs.Texts.{fault_text, finish_fault_text, node_text, text_of};
ghost use Rattle.hir_show_run.specs.internal.Texts.{WritesText};

use crate::fault::RunFault;
use hir_body::BodyFault;
use hir_show_io::{EndFailed, Sink, write_all, write_decimal};
use hir_store::{FinishFault, NodeId};

/// Writes words and a number after them.
fn write_numbered<W: Sink>(words: &[u8], number: u64, errors: &mut W) -> Result<(), EndFailed>
    ensures text { WritesText (W.contents errors.old) (W.contents errors.new)
        (words.now ++ decimal number) result }
    ensures failure { W.is_failed errors.new ≡ (is_err result || W.is_failed errors.old) }
{
    write_all(errors, words)?;
    write_decimal(errors, number)
}

/// Writes the kind of an id, which ends in a parenthesis, and its number.
fn write_id<W: Sink>(kind: &[u8], number: u32, errors: &mut W) -> Result<(), EndFailed>
    ensures text { WritesText (W.contents errors.old) (W.contents errors.new)
        (kind.now ++ decimal number ++ codes ")") result }
    ensures failure { W.is_failed errors.new ≡ (is_err result || W.is_failed errors.old) }
{
    write_numbered(kind, u64::from(number), errors)?;
    write_all(errors, b")")
}

fn write_node<W: Sink>(node: NodeId, errors: &mut W) -> Result<(), EndFailed>
    ensures text { WritesText (W.contents errors.old) (W.contents errors.new) (node_text node) result }
    ensures failure { W.is_failed errors.new ≡ (is_err result || W.is_failed errors.old) }
{
    match node {
        NodeId::Expr(id) => write_id(b"ExprId(", id.into_raw(), errors),
        NodeId::Pat(id) => write_id(b"PatId(", id.into_raw(), errors),
        NodeId::TypeRef(id) => write_id(b"TypeRefId(", id.into_raw(), errors),
    }
}

/// Writes the name of a fault, which ends in a space, and its node.
fn write_at<W: Sink>(name: &[u8], node: NodeId, errors: &mut W) -> Result<(), EndFailed>
    ensures text { WritesText (W.contents errors.old) (W.contents errors.new)
        (name.now ++ node_text node) result }
    ensures failure { W.is_failed errors.new ≡ (is_err result || W.is_failed errors.old) }
{
    write_all(errors, name)?;
    write_node(node, errors)
}

fn write_finish_fault<W: Sink>(fault: FinishFault, errors: &mut W) -> Result<(), EndFailed>
    ensures text { WritesText (W.contents errors.old) (W.contents errors.new) (finish_fault_text fault)
        result }
    ensures failure { W.is_failed errors.new ≡ (is_err result || W.is_failed errors.old) }
{
    match fault {
        FinishFault::NoRoots => write_all(errors, b"NoRoots"),
        FinishFault::IdOutOfRange(node) => write_at(b"IdOutOfRange ", node, errors),
        FinishFault::NotAPath(node) => write_at(b"NotAPath ", node, errors),
        FinishFault::NoReturnType(node) => write_at(b"NoReturnType ", node, errors),
        FinishFault::NoSelfArgument(node) => write_at(b"NoSelfArgument ", node, errors),
        FinishFault::ArgumentLists(node) => write_at(b"ArgumentLists ", node, errors),
        FinishFault::SharedChild(node) => write_at(b"SharedChild ", node, errors),
        FinishFault::Cycle(node) => write_at(b"Cycle ", node, errors),
        FinishFault::RootOutOfRange(index) => {
            write_numbered(b"RootOutOfRange ", index as u64, errors)
        }
        FinishFault::RootRepeated(index) => write_numbered(b"RootRepeated ", index as u64, errors),
        FinishFault::RootUnderRoot(index) => {
            write_numbered(b"RootUnderRoot ", index as u64, errors)
        }
        FinishFault::RootEnds(index) => write_numbered(b"RootEnds ", index as u64, errors),
        FinishFault::Memory => write_all(errors, b"Memory"),
    }
}

fn write_body_fault<W: Sink>(fault: BodyFault, errors: &mut W) -> Result<(), EndFailed>
    ensures text { WritesText (W.contents errors.old) (W.contents errors.new) (body_fault_text fault) result }
    ensures failure { W.is_failed errors.new ≡ (is_err result || W.is_failed errors.old) }
{
    match fault {
        BodyFault::NoRoot => write_all(errors, b"NoRoot"),
        BodyFault::SelfOutOfRange => write_all(errors, b"SelfOutOfRange"),
        BodyFault::ParamOutOfRange(index) => {
            write_numbered(b"ParamOutOfRange ", index as u64, errors)
        }
        BodyFault::ParamRepeated(index) => write_numbered(b"ParamRepeated ", index as u64, errors),
        BodyFault::ParamUnder(index) => write_numbered(b"ParamUnder ", index as u64, errors),
        BodyFault::RootInParam => write_all(errors, b"RootInParam"),
        BodyFault::Memory => write_all(errors, b"Memory"),
    }
}

fn write_body_refusal<W: Sink>(fault: BodyFault, errors: &mut W) -> Result<(), EndFailed>
    ensures text { WritesText (W.contents errors.old) (W.contents errors.new)
        (codes "refused " ++ body_fault_text fault) result }
    ensures failure { W.is_failed errors.new ≡ (is_err result || W.is_failed errors.old) }
{
    write_all(errors, b"refused ")?;
    write_body_fault(fault, errors)
}

fn write_refusal<W: Sink>(fault: FinishFault, errors: &mut W) -> Result<(), EndFailed>
    ensures text { WritesText (W.contents errors.old) (W.contents errors.new)
        (codes "refused " ++ finish_fault_text fault) result }
    ensures failure { W.is_failed errors.new ≡ (is_err result || W.is_failed errors.old) }
{
    write_all(errors, b"refused ")?;
    write_finish_fault(fault, errors)
}

fn write_fault<W: Sink>(fault: RunFault, errors: &mut W) -> Result<(), EndFailed>
    ensures text { WritesText (W.contents errors.old) (W.contents errors.new) (fault_text fault) result }
    ensures failure { W.is_failed errors.new ≡ (is_err result || W.is_failed errors.old) }
{
    match fault {
        RunFault::BadLine(number) => write_numbered(b"bad line ", number, errors),
        RunFault::Refused(fault) => write_refusal(fault, errors),
        RunFault::BodyRefused(fault) => write_body_refusal(fault, errors),
        RunFault::InputFailed => write_all(errors, b"input failed"),
        RunFault::OutputFailed => write_all(errors, b"output failed"),
        RunFault::OutOfMemory => write_all(errors, b"out of memory"),
    }
}

/// Writes the text of a fault and a line end.
fn write_line<W: Sink>(fault: RunFault, errors: &mut W) -> Result<(), EndFailed>
    ensures text { WritesText (W.contents errors.old) (W.contents errors.new) (text_of (Err fault)) result }
    ensures failure { W.is_failed errors.new ≡ (is_err result || W.is_failed errors.old) }
{
    write_fault(fault, errors)?;
    write_all(errors, b"\n")
}

/// The exit status: 0 without a fault, 1 for a bad line, 2 for a refusal, 3 for a failed read or write, 4
/// where an allocation fails.
fn status(outcome: &Result<(), RunFault>) -> u8
    ensures { result ≡ status_of outcome.now }
{
    match outcome {
        Ok(()) => 0,
        Err(RunFault::BadLine(_)) => 1,
        Err(RunFault::Refused(_)) => 2,
        Err(RunFault::BodyRefused(_)) => 2,
        Err(RunFault::InputFailed) => 3,
        Err(RunFault::OutputFailed) => 3,
        Err(RunFault::OutOfMemory) => 4,
    }
}

/// Writes how the program failed, if it did, as one line, and returns its exit status: 0 without a fault, 1
/// for a bad line, 2 for a refusal, 3 for a failed read or write, 4 where an allocation fails. Takes no
/// memory. Where a write fails, a prefix of the line was written and the status is the same: the sink says
/// whether one has failed.
pub fn report<W: Sink>(outcome: &Result<(), RunFault>, errors: &mut W) -> u8
    ensures status { result ≡ status_of outcome.now }
    ensures whole { W.is_failed errors.new ≡ false →
        Appends (W.contents errors.old) (W.contents errors.new) (text_of outcome.now) }
    ensures prefix { AppendsPrefix (W.contents errors.old) (W.contents errors.new) (text_of outcome.now) }
    ensures quiet { outcome.now ≡ Ok tt → errors.new ≡ errors.old }
{
    if let Err(fault) = outcome {
        let _ = write_line(*fault, errors);
    }
    status(outcome)
}
