//! The program: lines in, answers out.

ghost use Rattle.std.specs.Prelude.{◌≡◌, [], true, false};
ghost use Rattle.std.specs.Io.KnownBytes.{Appends};
ghost use Rattle.hir_show_io.specs.Effects.{AppendsPrefix};
ghost use Rattle.hir_show_io.specs.LineState.{LineState};
ghost use Rattle.hir_body.specs.Bodies.{body_of};
ghost use Rattle.hir_store.specs.Building.{building_of};
ghost use Rattle.hir_show_run.specs.Faults.{status_of};
ghost use Rattle.hir_show_run.specs.Outcomes.{is_input_failed, is_output_failed};
ghost use Rattle.hir_show_run.specs.internal.Output.{output_of};
ghost use Rattle.hir_show_run.specs.internal.RunStates.{run_state_of};
ghost use Rattle.hir_show_run.specs.Program.{Outcome};
ghost use Rattle.hir_show_run.specs.Run.{IsRun, Unfailed, no_lines};
ghost use Rattle.hir_show_run.specs.internal.Stages.{Finishes, IsBodyOf, RunsUpTo};
ghost use Rattle.hir_show_run.specs.Texts.{text_of};

use crate::asking::answer_lines;
use crate::body_builder::BodyBuilder;
use crate::body_of_lines::BodyOfLines;
use crate::building::build;
use crate::disposal::Disposal;
use crate::fault::RunFault;
use crate::output::{Output, close};
use crate::reporting::report;
use hir_body::{Body, Param};
use hir_collections::Seq;
use hir_node::{BindingId, PatId};
use hir_show_grammar::laws::said_is_written;
use hir_show_io::{LineReader, OutputBuffer, Sink, Source};
use hir_store::{ExpressionStore, ExpressionStoreBuilder};
use std::alloc::Global;

/// The store of what was built, or why there is none.
fn finish(builder: ExpressionStoreBuilder) -> Result<ExpressionStore, RunFault>
    ensures { Finishes (building_of builder) result }
{
    let (store, _) = builder.finish()?;
    Ok(store)
}

/// The body of these parts, or why there is none.
fn body_of_parts(
    alloc: Global,
    store: ExpressionStore,
    params: Seq<Param<PatId>>,
    self_param: Option<Param<BindingId>>,
) -> Result<Body, RunFault>
    ensures { IsBodyOf (body_of store params self_param) result }
{
    Ok(Body::new(alloc, store, params, self_param)?)
}

/// Makes what the lines before the first question make, and writes the answers. The last ones may still
/// wait.
fn answer_script<R: Source, W: Sink>(
    alloc: Global,
    disposal: Disposal,
    lines: &mut LineReader,
    reader: &mut R,
    output: &mut Output<'_, W>,
) -> Result<(), RunFault>
    requires fresh { lines.old ≡ no_lines }
    requires quiet { output.old.waiting ≡ [] }
    requires unfailed { Unfailed R.Source W.Sink reader.old output.old.writer.now }
    ensures runs { RunsUpTo (R.remaining reader.old) (output_of W.Sink output.old)
        (run_state_of R.Source W.Sink lines.new reader.new output.new) result }
    ensures input_failed { R.is_failed reader.new ≡ is_input_failed result }
    ensures output_failed { W.is_failed output.new.writer.now ≡ is_output_failed result }
    // A read is made only where nothing waits.
    ensures quiet { is_input_failed result ≡ true → output.new.waiting ≡ [] }
    ensures same { output.new.writer.ghost_name ≡ output.old.writer.ghost_name }
{
    let mut parts = BodyBuilder::new(alloc);
    let first = build(alloc, &mut parts, lines, reader, output)?;
    let BodyBuilder {
        builder,
        self_param,
        params,
        name,
    } = parts;
    let mut store = finish(builder)?;
    let on_store = match first {
        Some(on_store) => on_store,
        None => {
            disposal.release(store);
            return output.accept();
        }
    };
    let left = answer_lines(alloc, &mut store, on_store, lines, reader, output)?;
    let on_body = match left {
        Some(on_body) => on_body,
        None => {
            disposal.release(store);
            return Ok(());
        }
    };
    said_is_written();
    let whole = body_of_parts(alloc, store, params, self_param)?;
    let mut body = BodyOfLines::new(whole, name);
    let unasked = answer_lines(alloc, &mut body, on_body, lines, reader, output)?;
    disposal.release(body);
    match unasked {
        None => Ok(()),
        Some(_) => unreachable!(),
    }
}

/// Runs the program as `run_lines` does; the memory of what was made is given back, or left.
fn run_lines_with<R: Source, W: Sink>(
    alloc: Global,
    disposal: Disposal,
    lines: &mut LineReader,
    reader: &mut R,
    writer: &mut W,
) -> Result<(), RunFault>
    requires fresh { lines.old ≡ no_lines }
    requires unfailed { Unfailed R.Source W.Sink reader.old writer.old }
    ensures { IsRun R.Source W.Sink reader.old reader.new writer.old writer.new lines.new result }
{
    let Ok(waiting) = OutputBuffer::new(alloc) else {
        return Err(RunFault::OutOfMemory);
    };
    let mut output = Output { waiting, writer };
    let outcome = answer_script(alloc, disposal, lines, reader, &mut output);
    let Output {
        mut waiting,
        writer,
    } = output;
    close(&mut waiting, writer, outcome)
}

/// Runs the program as `run_lines_with` does, on the lines that the source gives.
fn run_with<R: Source, W: Sink>(
    alloc: Global,
    disposal: Disposal,
    reader: &mut R,
    writer: &mut W,
) -> Result<(), RunFault>
    requires unfailed { Unfailed R.Source W.Sink reader.old writer.old }
    ensures { (taken : LineState)
        × IsRun R.Source W.Sink reader.old reader.new writer.old writer.new taken result }
{
    let Ok(mut lines) = LineReader::new(alloc) else {
        return Err(RunFault::OutOfMemory);
    };
    run_lines_with(alloc, disposal, &mut lines, reader, writer)
}

/// Runs the program as `run` does, on the lines that a fresh reader takes from the source. Where an
/// allocation fails, the reader shows at which: at its line, which is the last that was taken and may come
/// there; or, where it has none, after all that were taken, since the next was being read or the input had
/// ended.
pub fn run_lines<R: Source, W: Sink>(
    alloc: Global,
    lines: &mut LineReader,
    reader: &mut R,
    writer: &mut W,
) -> Result<(), RunFault>
    requires fresh { lines.old ≡ no_lines }
    requires unfailed { Unfailed R.Source W.Sink reader.old writer.old }
    ensures { IsRun R.Source W.Sink reader.old reader.new writer.old writer.new lines.new result }
{
    run_lines_with(alloc, Disposal::GiveBack, lines, reader, writer)
}

/// Runs the program on the lines that the source gives, and writes its answers to the sink.
///
/// Lines that make something come before the first question; after it, each line but a question or an empty
/// one is bad. The answers come in order up to the first fault; `accepted` where there is neither a question
/// nor a fault. What was made is tested where the first question comes, or at the end, and its body where
/// the first question on it comes. What waits to be written is written before each read and before the run
/// ends, so an answer is never held back while more input is awaited. A failed read ends the run: the
/// answers of the whole lines before are written. A failed write ends it too. Where an allocation fails at a
/// line, which is never a bad one, the answers of all lines before it are written: `run_lines` shows at
/// which line. All memory is given back.
pub fn run<R: Source, W: Sink>(
    alloc: Global,
    reader: &mut R,
    writer: &mut W,
) -> Result<(), RunFault>
    requires unfailed { Unfailed R.Source W.Sink reader.old writer.old }
    ensures { (taken : LineState)
        × IsRun R.Source W.Sink reader.old reader.new writer.old writer.new taken result }
{
    run_with(alloc, Disposal::GiveBack, reader, writer)
}

/// Runs the program as `run` does, for a process that ends after it.
///
/// The memory of what was made, which is the store, the body and its scopes, is not given back: the end of
/// the process takes it back at once, and to drop it before, node by node, takes time. Where the run ends
/// with a fault, some of it may be given back. The buffers of lines and answers are given back as by `run`.
pub fn run_to_exit<R: Source, W: Sink>(
    alloc: Global,
    reader: &mut R,
    writer: &mut W,
) -> Result<(), RunFault>
    requires unfailed { Unfailed R.Source W.Sink reader.old writer.old }
    ensures { (taken : LineState)
        × IsRun R.Source W.Sink reader.old reader.new writer.old writer.new taken result }
{
    run_with(alloc, Disposal::Leave, reader, writer)
}

/// Runs the program as `run_to_exit` does, reports on the sink of errors how it failed, if it did, as
/// `report` does, and returns the exit status. It is all that the `main` of a process does, but for making
/// the three ends.
pub fn run_and_report<R: Source, W: Sink, E: Sink>(
    alloc: Global,
    reader: &mut R,
    writer: &mut W,
    errors: &mut E,
) -> u8
    requires unfailed { Unfailed R.Source W.Sink reader.old writer.old }
    ensures { (taken : LineState) × (outcome : Outcome)
        × IsRun R.Source W.Sink reader.old reader.new writer.old writer.new taken outcome
        × (E.is_failed errors.new ≡ false →
        Appends (E.contents errors.old) (E.contents errors.new) (text_of outcome))
        × AppendsPrefix (E.contents errors.old) (E.contents errors.new) (text_of outcome)
        × (outcome ≡ Ok tt → errors.new ≡ errors.old)
        × (result ≡ status_of outcome) }
{
    let outcome = run_to_exit(alloc, reader, writer);
    report(&outcome, errors)
}
