//! The lines of a text, what takes them, and how a text of them was taken.

ghost use Rattle.std.specs.Prelude.{◌≡◌, ◌∷◌, ℕ, List, option_map};
ghost use Rattle.hir_text_words.specs.AnswerLines.{text_lines, lines_left};

use crate::answer::Answer;
use crate::text_error::TextError;
use memchr::memchr;

/// What takes the lines of a text one after the other.
pub trait Lines {
    ghost use Rattle.hir_text_words.specs.Line.{Taken};

    // Whether a line that is taken in the first state may make the second of it, with this answer.
    ghost takes: { Self → List ℕ → Self → Taken → Type 0 };

    /// Does what a line says. Returns the answer, where the line has one.
    fn take_line(&mut self, line: &[u8]) -> Result<Option<Answer>, TextError>
        ensures { takes self.old line.now self.new result };
}

/// Returns whether a line is skipped: an empty one, a remark or an answer.
pub fn is_skipped(line: &[u8]) -> bool {
    match line {
        [] => true,
        [first, ..] => matches!(first, b'#' | b'=' | b'!' | b'|'),
    }
}

/// How a text of lines was taken.
#[derive(Clone, Copy, PartialEq, Eq, Debug, Drop)]
pub enum Outcome {
    /// Each line was taken, and no question was refused.
    Answered,
    /// Each line was taken. The question in the line of this number, counted from 1, is the first that was
    /// refused.
    Refused(usize),
    /// The line of this number, counted from 1, is none of the grammar; those before it were taken.
    BadLine(usize),
    /// Out of memory, in some line; those before it were taken.
    Memory,
}

/// The first line of a text, and what comes behind its end, where it has one.
pub(crate) fn cut_line(text: &[u8]) -> (&[u8], Option<&[u8]>)
    ensures { text_lines text.now ≡ result.0.now ∷ lines_left (option_map (λ behind. behind.now) result.1) }
{
    match memchr(b'\n', text) {
        Some(end) => (&text[..end], Some(&text[end + 1..])),
        None => (text, None),
    }
}

impl Outcome {
    ghost use Rattle.hir_text_words.specs.TakesText.{after_answer};

    /// How a text was taken so far, where the question in the line of this number was refused or not.
    pub(crate) fn after_answer(self, number: usize, is_refusal: bool) -> Outcome
        ensures { result ≡ after_answer self number is_refusal }
    {
        match self {
            Outcome::Answered => {
                if is_refusal {
                    Outcome::Refused(number)
                } else {
                    Outcome::Answered
                }
            }
            Outcome::Refused(_) | Outcome::BadLine(_) | Outcome::Memory => self,
        }
    }
}
