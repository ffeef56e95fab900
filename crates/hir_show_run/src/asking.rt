//! A section of questions: from its first question on, each line is answered, as far as such questions come.

ghost use Rattle.std.specs.Prelude.{◌≡◌, ◌||◌, ℕ, List, [], Bool, true, false, IfOk, OnErr, OnOk};
ghost use Rattle.hir_show_grammar.specs.Line.{Ask, line_of};
ghost use Rattle.hir_show_run.specs.Outcomes.{is_input_failed, is_output_failed};
ghost use Rattle.hir_show_run.specs.internal.Output.{Untouched, output_of};
ghost use Rattle.hir_show_run.specs.internal.RunStates.{CountFits, run_state_of};
ghost use Rattle.hir_show_run.specs.internal.Stages.{Asks, AsksLine, IsAsked, Replies};

use crate::fault::RunFault;
use crate::output::Output;
use hir_show_grammar::{LineError, Question, ask};
use hir_show_io::{LineReader, Sink, Source};
use std::alloc::Global;

/// An allocation failed.
#[derive(Drop)]
pub(crate) struct MemoryRefused;

/// What has answers to questions.
pub(crate) trait Answers {
    ghost use Rattle.hir_show_grammar.specs.declared.question.Question.{Question};

    // Which questions may be asked of it.
    ghost may: { Question → Bool };

    // What the answers to it are.
    ghost Is: { Self → Question → List ℕ → Type 0 };

    /// Writes the answer to a question by one line, put after what waits. A question that may not be asked
    /// is given back.
    ///
    /// Returns `MemoryRefused` where an allocation fails; nothing is put then.
    fn answer<W: Sink>(
        &mut self,
        alloc: Global,
        question: Question,
        output: &mut Output<'_, W>,
    ) -> Result<Option<Question>, MemoryRefused>
        ensures same { self.new ≡ self.old }
        ensures replies { IfOk result (Replies may (Is self.old) question (output_of W.Sink output.old)
            (output_of W.Sink output.new)) }
        ensures memory { OnErr result (Untouched W.Sink output.old output.new) };
}

/// What the line that was taken last asks, if it isn't empty.
pub(crate) fn asked_by(alloc: Global, lines: &LineReader) -> Result<Option<Question>, RunFault>
    ensures { IsAsked lines.now result }
{
    match ask(alloc, lines.line()) {
        Ok(question) => Ok(question),
        Err(LineError::Syntax) => Err(RunFault::BadLine(lines.count())),
        Err(LineError::Memory) => Err(RunFault::OutOfMemory),
    }
}

/// Writes the answer to a question. Its clause holds for a line of any number, since a question is never a
/// bad line.
fn answer_question<A: Answers, W: Sink>(
    alloc: Global,
    asked: &mut A,
    question: Question,
    output: &mut Output<'_, W>,
) -> Result<Option<Question>, RunFault>
    requires { W.is_failed output.old.writer.now ≡ false }
    ensures asks { (number : ℕ) → AsksLine A.may (A.Is asked.old) (Ask question) number
        (output_of W.Sink output.old) (output_of W.Sink output.new) result }
    ensures failure { W.is_failed output.new.writer.now ≡ is_output_failed result }
    ensures reads_none { is_input_failed result ≡ false }
    ensures same { (asked.new ≡ asked.old) × (output.new.writer.ghost_name ≡ output.old.writer.ghost_name) }
{
    let left = asked.answer(alloc, question, output)?;
    if output.writer.has_failed() {
        return Err(RunFault::OutputFailed);
    }
    Ok(left)
}

/// Writes the answer to the line that was taken last.
fn answer_next<A: Answers, W: Sink>(
    alloc: Global,
    asked: &mut A,
    lines: &LineReader,
    output: &mut Output<'_, W>,
) -> Result<Option<Question>, RunFault>
    requires { W.is_failed output.old.writer.now ≡ false }
    ensures asks { AsksLine A.may (A.Is asked.old) (line_of lines.now.line) lines.now.count
        (output_of W.Sink output.old) (output_of W.Sink output.new) result }
    ensures failure { W.is_failed output.new.writer.now ≡ is_output_failed result }
    ensures reads_none { is_input_failed result ≡ false }
    ensures same { (asked.new ≡ asked.old) × (output.new.writer.ghost_name ≡ output.old.writer.ghost_name) }
{
    match asked_by(alloc, lines)? {
        Some(question) => answer_question(alloc, asked, question, output),
        None => Ok(None),
    }
}

/// Writes the answers to the first question and those after it, and gives the first that may not be asked,
/// if there is one. Some of the answers may still wait.
pub(crate) fn answer_lines<A: Answers, R: Source, W: Sink>(
    alloc: Global,
    asked: &mut A,
    first: Question,
    lines: &mut LineReader,
    reader: &mut R,
    output: &mut Output<'_, W>,
) -> Result<Option<Question>, RunFault>
    requires fits { CountFits (run_state_of R.Source W.Sink lines.old reader.old output.old) }
    requires unfailed { W.is_failed output.old.writer.now ≡ false }
    ensures asks { Asks A.may (A.Is asked.old) (run_state_of R.Source W.Sink lines.old reader.old output.old)
        (run_state_of R.Source W.Sink lines.new reader.new output.new) first result }
    ensures read_failure { R.is_failed reader.new ≡ (is_input_failed result || R.is_failed reader.old) }
    ensures write_failure { W.is_failed output.new.writer.now ≡ is_output_failed result }
    // A read is made only where nothing waits.
    ensures quiet { is_input_failed result ≡ true → output.new.waiting ≡ [] }
    ensures still_fits { OnOk result (CountFits
        (run_state_of R.Source W.Sink lines.new reader.new output.new)) }
    ensures same { (asked.new ≡ asked.old) × (output.new.writer.ghost_name ≡ output.old.writer.ghost_name) }
{
    let left = answer_question(alloc, asked, first, output)?;
    if left.is_some() {
        return Ok(left);
    }
    while output.next_line(lines, reader)? {
        let later = answer_next(alloc, asked, lines, output)?;
        if later.is_some() {
            return Ok(later);
        }
    }
    Ok(None)
}
