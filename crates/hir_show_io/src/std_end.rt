//! The readers and writers of the standard library as sources and sinks: which of their results count as
//! failed, and how often an interrupted call is retried.

ghost use Rattle.std.specs.Prelude.{◌≡◌, ◌+◌, ◌-◌, ◌^◌, ◌≤◌, ◌<◌, ◌||◌, false, min, length, take, is_err, IfOk, OnErr};
ghost use Rattle.std.specs.Io.KnownBytes.{Appends, Consumes, IsAtEnd, Keeps};
ghost use Rattle.hir_show_io.specs.StdEnd.{IsKeptWithin, ReadMeans, WriteMeans, unless_overrun};

use crate::ends::{EndFailed, Sink, Source};
use std::io::{ErrorKind, Read, Result as IoResult, Write};

/// How often in a row an interrupted call is retried.
const RETRIES: u32 = 1000;

/// What the result of one std call says to a source or a sink.
#[derive(Clone, Copy, PartialEq, Eq)]
pub enum Attempt {
    /// The call took so many bytes.
    Done(usize),
    /// The call was interrupted, and can be retried.
    Again,
    /// The call counts as failed, and took no byte.
    Failed,
    /// The call counts as failed, and took more bytes than may be read.
    Overrun,
}

/// Classifies the result of a std read, if at most `left` bytes may still be read: more of them are an
/// overrun, and each error but an interruption counts as failed.
pub fn read_attempt(answer: IoResult<usize>, left: u64) -> Attempt
    ensures { ReadMeans answer left result }
{
    match answer {
        Ok(count) => {
            if count as u64 <= left {
                Attempt::Done(count)
            } else {
                Attempt::Overrun
            }
        }
        Err(error) => {
            if error.kind() == ErrorKind::Interrupted {
                Attempt::Again
            } else {
                Attempt::Failed
            }
        }
    }
}

/// Classifies the result of a std write of `asked` bytes: to take none of some bytes counts as failed, and so
/// does each error but an interruption.
pub fn write_attempt(answer: IoResult<usize>, asked: usize) -> Attempt
    ensures { WriteMeans answer asked result }
{
    match answer {
        Ok(count) => {
            if count == 0 && asked > 0 {
                Attempt::Failed
            } else {
                Attempt::Done(count)
            }
        }
        Err(error) => {
            if error.kind() == ErrorKind::Interrupted {
                Attempt::Again
            } else {
                Attempt::Failed
            }
        }
    }
}

/// A reader or a writer of the standard library, as a source or a sink.
///
/// An interrupted call is retried, at most 1,000 times in a row; one interruption more is a failed call. So
/// is a read of more bytes than the allowance, which is at first the greatest `u64`, and a write that takes
/// none of some bytes. A failed call leaves the bytes as they were, but for a read past the allowance, whose
/// bytes are lost: after it the source no longer shows what it has left.
#[derive(Drop)]
pub struct StdEnd<T> {
    inner: T,
    has_failed: bool,
    has_overrun: bool,
    allowance: u64,
}

impl<T> StdEnd<T> {
    /// An end over this reader or writer, of which no call has failed.
    pub fn new(inner: T) -> Self
        ensures inner { result.inner ≡ inner }
        ensures has_failed { result.has_failed ≡ false }
        ensures has_overrun { result.has_overrun ≡ false }
        ensures allowance { result.allowance ≡ 2 ^ 64 - 1 }
    {
        StdEnd {
            inner,
            has_failed: false,
            has_overrun: false,
            allowance: u64::MAX,
        }
    }
}

impl<T: Read> Source for StdEnd<T> {
    ghost use Rattle.std.specs.Prelude.{min, ◌-◌, ◌^◌};
    ghost use Rattle.std.proofs.Common.{arith};
    ghost use Rattle.hir_show_io.specs.StdEnd.{unless_overrun};

    ghost remaining = { λ s. unless_overrun s.has_overrun (T.remaining s.inner) };

    ghost is_failed = { λ s. s.has_failed };

    ghost allowance = { λ s. min s.allowance (2 ^ 64 - 1) };

    ghost allowance_fits = { λ s. omega arith };

    fn read(&mut self, buffer: &mut [u8]) -> Result<usize, EndFailed>
        ensures count { IfOk result (λ n. n ≤ length buffer.new) }
        ensures bytes { IfOk result
            (λ n. Consumes (unless_overrun self.old.has_overrun (T.remaining self.old.inner))
            (unless_overrun self.new.has_overrun (T.remaining self.new.inner)) (take n buffer.new)) }
        ensures end { result ≡ Ok 0 → 0 < length buffer.new →
            IsAtEnd (unless_overrun self.old.has_overrun (T.remaining self.old.inner)) }
        ensures err { OnErr result
            (IsKeptWithin self.old.allowance (unless_overrun self.old.has_overrun
            (T.remaining self.old.inner))
            (unless_overrun self.new.has_overrun (T.remaining self.new.inner))) }
        ensures failure { self.new.has_failed ≡ (is_err result || self.old.has_failed) }
        ensures falls { IfOk result
            (λ n. min self.new.allowance (2 ^ 64 - 1) + n ≤ min self.old.allowance (2 ^ 64 - 1)) }
    {
        for _ in 0..=RETRIES {
            match read_attempt(self.inner.read(buffer), self.allowance) {
                Attempt::Done(count) => {
                    self.allowance -= count as u64;
                    return Ok(count);
                }
                Attempt::Again => {}
                Attempt::Failed => break,
                Attempt::Overrun => {
                    self.has_overrun = true;
                    break;
                }
            }
        }
        self.has_failed = true;
        Err(EndFailed)
    }

    fn has_failed(&self) -> bool {
        self.has_failed
    }
}

impl<T: Write> Sink for StdEnd<T> {
    ghost contents = { λ s. T.contents s.inner };

    ghost is_failed = { λ s. s.has_failed };

    fn write(&mut self, buffer: &[u8]) -> Result<usize, EndFailed>
        ensures count { IfOk result (λ n. n ≤ length buffer.now) }
        ensures progress { IfOk result (λ n. 0 < length buffer.now → 0 < n) }
        ensures bytes { IfOk result
            (λ n. Appends (T.contents self.old.inner) (T.contents self.new.inner) (take n buffer.now)) }
        ensures err { OnErr result (Keeps (T.contents self.old.inner) (T.contents self.new.inner)) }
        ensures failure { self.new.has_failed ≡ (is_err result || self.old.has_failed) }
    {
        for _ in 0..=RETRIES {
            match write_attempt(self.inner.write(buffer), buffer.len()) {
                Attempt::Done(count) => return Ok(count),
                Attempt::Again => {}
                Attempt::Failed | Attempt::Overrun => break,
            }
        }
        self.has_failed = true;
        Err(EndFailed)
    }

    fn has_failed(&self) -> bool {
        self.has_failed
    }
}
