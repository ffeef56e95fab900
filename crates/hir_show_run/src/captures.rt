//! The answers that say what closures capture.

ghost use Rattle.std.specs.Prelude.{Some, None, List, Option, ℕ, OnOk, OnErr};
ghost use Rattle.hir_scope.specs.BodyScopes.{AreBodyScopes};
ghost use Rattle.hir_show_run.specs.Answer.{AreCapturesOf, captures_answer, after_spaces};
ghost use Rattle.hir_show_run.specs.internal.Output.{OutputsText, Untouched};

use crate::asking::MemoryRefused;
use crate::output::Output;
use hir_body::Body;
use hir_captures::{CapturesFault, captures};
use hir_node::{BindingId, ExprId};
use hir_scope::ExprScopes;
use hir_show_io::Sink;
use std::alloc::Global;

/// Puts the numbers of bindings, each after a space.
fn put_bindings<W: Sink>(bindings: &[BindingId], output: &mut Output<'_, W>)
    ensures { OutputsText W.Sink output.old output.new (after_spaces bindings.now) }
{
    for binding in bindings {
        output.put_spaced(binding.into_raw());
    }
}

/// Puts the line of a closure that captures these bindings.
fn put_captures<W: Sink>(id: ExprId, bindings: &[BindingId], output: &mut Output<'_, W>)
    ensures { OutputsText W.Sink output.old output.new (captures_answer id (Some bindings.now)) }
{
    output.put_asked(b"captures ", id);
    output.put(b" =");
    put_bindings(bindings, output);
    output.put(b"\n");
}

/// Puts the line of an expression that isn't a closure that the body reaches.
fn put_no_closure<W: Sink>(id: ExprId, output: &mut Output<'_, W>)
    ensures { OutputsText W.Sink output.old output.new (captures_answer id None) }
{
    output.put_asked(b"captures ", id);
    output.put(b" no closure");
    output.put(b"\n");
}

/// Puts the line of an expression of a body that has these scopes.
///
/// Returns `MemoryRefused` where an allocation fails; nothing is put then.
pub(crate) fn answer_captures<W: Sink>(
    alloc: Global,
    body: &Body,
    scopes: &ExprScopes,
    id: ExprId,
    output: &mut Output<'_, W>,
) -> Result<(), MemoryRefused>
    requires { AreBodyScopes body.now scopes.now }
    ensures ok { OnOk result ((known : Option (List ℕ)) × AreCapturesOf body.now id known
        × OutputsText W.Sink output.old output.new (captures_answer id known)) }
    ensures memory { OnErr result (Untouched W.Sink output.old output.new) }
{
    match captures(alloc, body, scopes, id) {
        Ok(bindings) => {
            put_captures(id, &bindings, output);
            Ok(())
        }
        Err(CapturesFault::NotAClosure) => {
            put_no_closure(id, output);
            Ok(())
        }
        Err(CapturesFault::Memory) => Err(MemoryRefused),
    }
}
