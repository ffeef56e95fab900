//! The output of a run. Text is put after what waits, unless the sink has failed: to put several pieces, test
//! for a failure once, after the last.

ghost use Rattle.std.specs.Prelude.{◌≡◌, ◌+◌, ◌≤◌, ◌∷◌, ◌++◌, ◌||◌, [], false, length, cond};
ghost use Rattle.std.specs.Fmt.{decimal};
ghost use Rattle.hir_show_io.specs.NextLine.{is_found, is_failed_input, is_failed_output};
ghost use Rattle.hir_show_run.specs.Outcomes.{is_output_failed};
ghost use Rattle.hir_show_run.specs.internal.Output.{output_of, OutputsText, Untouched};
ghost use Rattle.hir_show_run.specs.internal.RunStates.{CountFits, TakesNext, run_state_of};
ghost use Rattle.hir_show_run.specs.internal.Stages.{Accepts, Closes};

use crate::fault::RunFault;
use hir_node::ExprId;
use hir_show_io::{LineFault, LineReader, OutputBuffer, Sink, Source, next_line};

/// A sink, and the bytes that wait to be written to it.
#[derive(Drop)]
pub(crate) struct Output<'a, W> {
    pub(crate) waiting: OutputBuffer,
    pub(crate) writer: &'a mut W,
}

impl<W: Sink> Output<'_, W> {
    /// Puts text after what waits. Where the sink has failed, nothing is done.
    pub(crate) fn put(&mut self, text: &[u8])
        ensures { OutputsText W.Sink self.old self.new text.now }
    {
        if !self.writer.has_failed() {
            let _ = self.waiting.write(text, self.writer);
        }
    }

    /// Puts a number in decimal.
    pub(crate) fn put_number(&mut self, number: u32)
        ensures { OutputsText W.Sink self.old self.new (decimal number) }
    {
        if !self.writer.has_failed() {
            let _ = self.waiting.write_number(number, self.writer);
        }
    }

    /// Puts a number after a space.
    pub(crate) fn put_spaced(&mut self, number: u32)
        ensures { OutputsText W.Sink self.old self.new (32 ∷ decimal number) }
    {
        self.put(b" ");
        self.put_number(number);
    }

    /// Puts the first words of an answer: what was asked, and of which expression.
    pub(crate) fn put_asked(&mut self, word: &[u8], id: ExprId)
        ensures { OutputsText W.Sink self.old self.new (word.now ++ decimal id) }
    {
        self.put(word);
        self.put_number(id.into_raw());
    }

    /// Takes the next line, and returns whether there is one, as `hir_show_io` does: what waits is written
    /// before a read.
    pub(crate) fn next_line<R: Source>(
        &mut self,
        lines: &mut LineReader,
        reader: &mut R,
    ) -> Result<bool, LineFault>
        requires { CountFits (run_state_of R.Source W.Sink lines.old reader.old self.old) }
        ensures takes { TakesNext (run_state_of R.Source W.Sink lines.old reader.old self.old)
            (run_state_of R.Source W.Sink lines.new reader.new self.new) result }
        ensures falls { is_failed_input result ≡ false →
            length lines.new.pending + R.allowance reader.new + cond (is_found result) 1 0
            ≤ length lines.old.pending + R.allowance reader.old }
        ensures input_failure { R.is_failed reader.new ≡ (is_failed_input result || R.is_failed reader.old) }
        ensures output_failure { W.is_failed self.new.writer.now ≡
            (is_failed_output result || W.is_failed self.old.writer.now) }
        ensures idle { self.old.waiting ≡ [] →
            (is_failed_output result ≡ false) × Untouched W.Sink self.old self.new }
        ensures same { self.new.writer.ghost_name ≡ self.old.writer.ghost_name }
    {
        next_line(lines, reader, &mut self.waiting, self.writer)
    }

    /// Writes that the store is accepted.
    pub(crate) fn accept(&mut self) -> Result<(), RunFault>
        ensures accepts { Accepts (output_of W.Sink self.old) (output_of W.Sink self.new) result }
        ensures failure { W.is_failed self.new.writer.now ≡
            (is_output_failed result || W.is_failed self.old.writer.now) }
        ensures same { self.new.writer.ghost_name ≡ self.old.writer.ghost_name }
    {
        match self.waiting.write(b"accepted\n", self.writer) {
            Ok(()) => Ok(()),
            Err(_) => Err(RunFault::OutputFailed),
        }
    }
}

/// Writes what waits to the sink, and returns the outcome.
pub(crate) fn close<W: Sink>(
    waiting: &mut OutputBuffer,
    writer: &mut W,
    outcome: Result<(), RunFault>,
) -> Result<(), RunFault>
    ensures closes { Closes (W.contents writer.old) (W.contents writer.new) waiting.old outcome result }
    ensures failure { W.is_failed writer.old ≡ is_output_failed outcome →
        W.is_failed writer.new ≡ is_output_failed result }
{
    let flushed = waiting.flush(writer);
    match flushed {
        Ok(()) => outcome,
        Err(_) => Err(RunFault::OutputFailed),
    }
}
