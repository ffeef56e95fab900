//! The first part of a run: lines that make something, up to the first question.

ghost use Rattle.std.specs.Prelude.{◌≡◌, ◌||◌, [], OnOk};
ghost use Rattle.hir_show_run.specs.Outcomes.{is_input_failed};
ghost use Rattle.hir_show_run.specs.internal.Output.{Untouched};
ghost use Rattle.hir_show_run.specs.internal.Parts.{builder_parts};
ghost use Rattle.hir_show_run.specs.Parts.{no_parts};
ghost use Rattle.hir_show_run.specs.internal.RunStates.{CountFits, run_state_of};
ghost use Rattle.hir_show_run.specs.Run.{no_lines};
ghost use Rattle.hir_show_run.specs.internal.Stages.{Builds, BuildsLine};

use crate::asking::asked_by;
use crate::body_builder::BodyBuilder;
use crate::fault::RunFault;
use crate::output::Output;
use hir_show_grammar::{LineError, Question, make};
use hir_show_io::{LineReader, Sink, Source};
use std::alloc::Global;

/// Makes what the line that was taken last makes, and returns whether it makes something or is empty.
fn build_line(
    alloc: Global,
    lines: &LineReader,
    builder: &mut BodyBuilder,
) -> Result<bool, RunFault>
    ensures { BuildsLine lines.now (builder_parts builder.old) (builder_parts builder.new) result }
{
    match make(alloc, lines.line(), builder) {
        Ok(taken) => Ok(taken),
        Err(LineError::Syntax) => Err(RunFault::BadLine(lines.count())),
        Err(LineError::Memory) => Err(RunFault::OutOfMemory),
    }
}

/// Builds by the lines before the first question, and gives that question, if there is one.
pub(crate) fn build<R: Source, W: Sink>(
    alloc: Global,
    builder: &mut BodyBuilder,
    lines: &mut LineReader,
    reader: &mut R,
    output: &mut Output<'_, W>,
) -> Result<Option<Question>, RunFault>
    requires fits { CountFits (run_state_of R.Source W.Sink lines.old reader.old output.old) }
    requires fresh { (lines.old ≡ no_lines) × (builder_parts builder.old ≡ no_parts) }
    requires quiet { output.old.waiting ≡ [] }
    ensures builds { Builds (R.remaining reader.old)
        (run_state_of R.Source W.Sink lines.new reader.new output.new) (builder_parts builder.new) result }
    ensures still_quiet { Untouched W.Sink output.old output.new }
    ensures failure { R.is_failed reader.new ≡ (is_input_failed result || R.is_failed reader.old) }
    ensures still_fits { OnOk result (CountFits
        (run_state_of R.Source W.Sink lines.new reader.new output.new)) }
    ensures same { output.new.writer.ghost_name ≡ output.old.writer.ghost_name }
{
    while output.next_line(lines, reader)? {
        if !build_line(alloc, lines, builder)? {
            return asked_by(alloc, lines);
        }
    }
    Ok(None)
}
