//! A session whose answers are kept until they are fetched.

ghost use Rattle.std.specs.Prelude.{◌≡◌, ◌≤◌, [], length, IfOk};

use crate::session::Session;
use hir_text_words::{Outcome, Stop, take_lines};
use std::alloc::{AllocError, Global};

/// A session, and the answers to the text that it took last, of which a part was fetched.
pub struct BufferedSession {
    session: Session,
    answers: Vec<u8>,
    /// Room for one answer, while it is written.
    scratch: Vec<u8>,
    /// How many bytes of the answers were fetched.
    fetched: usize,
    ghost in_range: { fetched ≤ length answers.items },
}

/// What comes of a text that was asked: how it was taken, and the first part of its answers.
#[derive(Clone, Copy, Drop)]
pub struct FirstPart {
    /// How its lines were taken.
    pub outcome: Outcome,
    /// How many bytes the answers have.
    pub length: usize,
    /// How many of them were written.
    pub written: usize,
}

/// Drops the parts. This `impl` exists so that the drop is proved once, and is a call where a value is
/// dropped.
impl Drop for BufferedSession {
    fn drop(self) {
        let BufferedSession {
            session,
            answers,
            scratch,
            fetched: _,
        } = self;
    }
}

impl BufferedSession {
    ghost use Rattle.std.specs.Prelude.{min, drop};
    ghost use Rattle.hir_text.specs.Sealed.{SessionTakes, IsNew};
    ghost use Rattle.hir_text_words.specs.TakesText.{TakesText};
    ghost use Rattle.hir_text.specs.Buffered.{kept, with_front, Asks};

    /// A session in which no line has been taken.
    pub fn new(alloc: Global) -> Result<BufferedSession, AllocError>
        ensures kept { IfOk result (λ made. kept made ≡ []) }
        ensures session { IfOk result (λ made. IsNew made.session) }
    {
        Ok(BufferedSession {
            session: Session::new(alloc)?,
            answers: Vec::new(alloc),
            scratch: Vec::new(alloc),
            fetched: 0,
        })
    }

    /// Does what the lines of a text say, one after the other, and keeps their answers; those of an earlier
    /// text that weren't fetched are dropped.
    pub fn take_text(&mut self, text: &[u8]) -> Outcome
        ensures { TakesText SessionTakes self.old.session text.now self.new.session (kept self.new) result }
    {
        self.fetched = 0;
        take_lines(
            &mut self.session,
            text,
            &mut self.scratch,
            &mut self.answers,
        )
    }

    /// How many bytes of the answers are kept.
    pub fn kept(&self) -> usize
        ensures { result ≡ length (kept self.now) }
    {
        self.answers.len() - self.fetched
    }

    /// Writes the next part of the answers, as many bytes as the buffer has room for; returns how many.
    pub fn fetch(&mut self, buffer: &mut [u8]) -> usize
        ensures buffer { buffer.new ≡ with_front (kept self.old) buffer.old }
        ensures written { result ≡ min (length (kept self.old)) (length buffer.old) }
        ensures kept { kept self.new ≡ drop (length buffer.old) (kept self.old) }
        ensures session { self.new.session ≡ self.old.session }
    {
        let written = self.kept().min(buffer.len());
        let end = self.fetched + written;
        buffer[..written].copy_from_slice(&self.answers[self.fetched..end]);
        self.fetched = end;
        written
    }

    /// Takes a text, and writes the first part of its answers, as many bytes as the buffer has room for; the
    /// rest is kept.
    pub fn ask(&mut self, text: &[u8], buffer: &mut [u8]) -> FirstPart
        ensures { Asks self.old text.now buffer.old
            self.new buffer.new result.outcome result.length result.written }
    {
        let outcome = self.take_text(text);
        let length = self.kept();
        let written = self.fetch(buffer);
        FirstPart {
            outcome,
            length,
            written,
        }
    }

    /// Where the reading of the last bad line stopped, where there was one.
    pub fn stop(&self) -> Option<Stop> {
        self.session.stop()
    }
}
