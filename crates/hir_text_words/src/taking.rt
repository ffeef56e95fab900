//! Taking the lines of a text one after the other: the answers are written, or listed.

ghost use Rattle.std.specs.Prelude.{◌≡◌, Ok, Some};
ghost use Rattle.hir_text_words.specs.TakesText.{Adds, DoesLine, TakesText};

use crate::answer::Answer;
use crate::answers::{Answers, TextFault, write_lines};
use crate::lines::{Lines, Outcome, cut_line};
use crate::text_error::TextError;

/// Writes an answer as lines after the others; returns whether it is a refusal. Where memory is refused,
/// nothing of it is written. What is in `scratch` is overwritten.
fn add(answer: &Answer, scratch: &mut Vec<u8>, answers: &mut Vec<u8>) -> Result<bool, TextError>
    ensures { Adds (Ok (Some answer.now)) answers.old.items answers.new.items result }
{
    scratch.clear();
    let Ok(()) = write_lines(answer, scratch) else {
        return Err(TextError::Memory);
    };
    let Ok(()) = answers.extend_from_slice(scratch.as_slice()) else {
        return Err(TextError::Memory);
    };
    Ok(answer.is_refusal())
}

/// Does what a line says, and writes its answer after the others, where it has one; returns whether it is a
/// refusal.
fn take_line<L: Lines>(
    lines: &mut L,
    line: &[u8],
    scratch: &mut Vec<u8>,
    answers: &mut Vec<u8>,
) -> Result<bool, TextError>
    ensures { DoesLine L.takes lines.old line.now lines.new answers.old.items answers.new.items result }
{
    match lines.take_line(line) {
        Ok(Some(answer)) => add(&answer, scratch, answers),
        Ok(None) => Ok(false),
        Err(why) => Err(why),
    }
}

/// Does what the lines of a text say, one after the other, and leaves their answers in place of what was
/// there. What is in `scratch` is overwritten.
pub fn take_lines<L: Lines>(
    lines: &mut L,
    text: &[u8],
    scratch: &mut Vec<u8>,
    answers: &mut Vec<u8>,
) -> Outcome
    ensures { TakesText L.takes lines.old text.now lines.new answers.new.items result }
{
    answers.clear();
    let mut left = Some(text);
    let mut number: usize = 0;
    let mut outcome = Outcome::Answered;
    'lines: while let Some(rest) = left {
        let (line, behind) = cut_line(rest);
        number = number.saturating_add(1);
        match take_line(lines, line, scratch, answers) {
            Ok(is_refusal) => outcome = outcome.after_answer(number, is_refusal),
            Err(TextError::Syntax) => return Outcome::BadLine(number),
            Err(TextError::Memory) => return Outcome::Memory,
        }
        left = behind;
    }
    outcome
}

/// Does what a line says, and puts its answer after the others, where it has one.
fn list_answer<L: Lines>(
    lines: &mut L,
    number: usize,
    line: &[u8],
    answers: &mut Answers,
) -> Result<(), TextError> {
    if let Some(answer) = lines.take_line(line)? {
        answers.push(number, answer)?;
    }
    Ok(())
}

/// Reads a text of lines by what takes them, and puts the answer to each question in it after the others.
pub fn answer_by<L: Lines>(
    lines: &mut L,
    text: &str,
    answers: &mut Answers,
) -> Result<(), TextFault> {
    let mut number: usize = 0;
    for line in text.split('\n') {
        number = number.saturating_add(1);
        match list_answer(lines, number, line.as_bytes(), answers) {
            Ok(()) => {}
            Err(TextError::Syntax) => return Err(TextFault::BadLine(number)),
            Err(TextError::Memory) => return Err(TextFault::Memory),
        }
    }
    Ok(())
}
