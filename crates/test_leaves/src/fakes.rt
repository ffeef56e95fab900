//! Sources and sinks that fail at a chosen call, and readers and writers of std that are interrupted or fail.
//! But for those that break they show no bytes to contracts: a test compares what a run gave.

ghost use Rattle.std.specs.Prelude.{◌≤◌, IfOk};

use hir_show_io::{EndFailed, Sink, Source};
use std::alloc::Global;
use std::io::{Error, ErrorKind, Read, Result as IoResult, Write};

/// Bytes that are read some at a time, but for one call that fails.
#[derive(Drop)]
pub struct FailingReader<'a> {
    bytes: &'a [u8],
    at: usize,
    step: usize,
    pub calls: u64,
    fails_at: u64,
    has_failed: bool,
}

impl<'a> FailingReader<'a> {
    pub fn new(bytes: &'a [u8], step: usize, fails_at: u64) -> FailingReader<'a> {
        FailingReader {
            bytes,
            at: 0,
            step,
            calls: 0,
            fails_at,
            has_failed: false,
        }
    }
}

impl Source for FailingReader<'_> {
    ghost use Rattle.std.specs.Prelude.{None, min, length, ◌-◌, ◌^◌};
    ghost use Rattle.std.proofs.Common.{arith};

    ghost remaining = { λ _. None };

    ghost is_failed = { λ s. s.has_failed };

    ghost allowance = { λ s. min (length s.bytes.now - s.at) (2 ^ 64 - 1) };

    ghost allowance_fits = { λ s. omega arith };

    fn read(&mut self, buffer: &mut [u8]) -> Result<usize, EndFailed> {
        let call = self.calls;
        self.calls = call.saturating_add(1);
        if call == self.fails_at {
            self.has_failed = true;
            return Err(EndFailed);
        }
        let left = &self.bytes[self.at.min(self.bytes.len())..];
        let count = self.step.max(1).min(buffer.len()).min(left.len());
        buffer[..count].copy_from_slice(&left[..count]);
        self.at = self.at.min(self.bytes.len()) + count;
        Ok(count)
    }

    fn has_failed(&self) -> bool {
        self.has_failed
    }
}

/// How many bytes a `FailingWriter` keeps.
const ROOM: usize = 128;

/// The first bytes are kept and all are counted, but for the calls from one on, which fail.
#[derive(Drop)]
pub struct FailingWriter {
    bytes: [u8; ROOM],
    pub len: usize,
    step: usize,
    pub calls: u64,
    fails_from: u64,
    has_failed: bool,
}

impl FailingWriter {
    pub fn new(step: usize, fails_from: u64) -> FailingWriter {
        FailingWriter {
            bytes: [0; ROOM],
            len: 0,
            step,
            calls: 0,
            fails_from,
            has_failed: false,
        }
    }

    pub fn bytes(&self) -> &[u8] {
        &self.bytes[..self.len.min(ROOM)]
    }
}

impl Sink for FailingWriter {
    ghost use Rattle.std.specs.Prelude.{None};

    ghost contents = { λ _. None };

    ghost is_failed = { λ s. s.has_failed };

    fn write(&mut self, buffer: &[u8]) -> Result<usize, EndFailed> {
        let call = self.calls;
        self.calls = call.saturating_add(1);
        if call >= self.fails_from {
            self.has_failed = true;
            return Err(EndFailed);
        }
        let count = self.step.max(1).min(buffer.len());
        let from = self.len.min(ROOM);
        let kept = count.min(ROOM - from);
        self.bytes[from..from + kept].copy_from_slice(&buffer[..kept]);
        self.len = self.len.saturating_add(count);
        Ok(count)
    }

    fn has_failed(&self) -> bool {
        self.has_failed
    }
}

/// A reader and writer of std whose calls are interrupted so many times before each that succeeds or fails.
/// One that succeeds takes so many bytes at most.
#[derive(Drop)]
pub struct Interrupted {
    times: u32,
    left: u32,
    takes: Result<usize, ErrorKind>,
    pub calls: u64,
}

impl Interrupted {
    pub fn new(times: u32, takes: Result<usize, ErrorKind>) -> Interrupted {
        Interrupted {
            times,
            left: times,
            takes,
            calls: 0,
        }
    }

    fn call(&mut self, asked: usize) -> IoResult<usize>
        ensures { IfOk result (λ n. n ≤ asked) }
    {
        self.calls = self.calls.saturating_add(1);
        if self.left > 0 {
            self.left -= 1;
            return Err(Error::from(ErrorKind::Interrupted));
        }
        self.left = self.times;
        match self.takes {
            Ok(takes) => Ok(takes.min(asked)),
            Err(kind) => Err(Error::from(kind)),
        }
    }
}

impl Read for Interrupted {
    fn read(&mut self, buffer: &mut [u8]) -> IoResult<usize> {
        self.call(buffer.len())
    }
}

impl Write for Interrupted {
    fn write(&mut self, buffer: &[u8]) -> IoResult<usize> {
        self.call(buffer.len())
    }

    fn flush(&mut self) -> IoResult<()> {
        Ok(())
    }
}

/// A reader of std that gives its bytes one by one, so many of them before it breaks.
#[derive(Drop)]
pub struct BreakingReader<'a> {
    pub left: &'a [u8],
    good_calls: u32,
}

impl<'a> BreakingReader<'a> {
    pub fn new(left: &'a [u8], good_calls: u32) -> BreakingReader<'a> {
        BreakingReader { left, good_calls }
    }
}

impl Read for BreakingReader<'_> {
    ghost use Rattle.std.specs.Prelude.{Some};

    ghost remaining = { λ r. Some r.left.now };

    fn read(&mut self, buffer: &mut [u8]) -> IoResult<usize> {
        if self.good_calls == 0 {
            return Err(Error::from(ErrorKind::BrokenPipe));
        }
        self.good_calls -= 1;
        let count = buffer.len().min(self.left.len()).min(1);
        buffer[..count].copy_from_slice(&self.left[..count]);
        self.left = &self.left[count..];
        Ok(count)
    }
}

/// A writer of std that takes bytes one by one, so many of them before it breaks.
#[derive(Drop)]
pub struct BreakingWriter {
    pub bytes: Vec<u8>,
    good_calls: u32,
}

impl BreakingWriter {
    pub fn new(alloc: Global, good_calls: u32) -> BreakingWriter {
        BreakingWriter {
            bytes: Vec::new(alloc),
            good_calls,
        }
    }
}

impl Write for BreakingWriter {
    ghost use Rattle.std.specs.Prelude.{Some};

    ghost contents = { λ w. Some w.bytes.items };

    fn write(&mut self, buffer: &[u8]) -> IoResult<usize> {
        if self.good_calls == 0 {
            return Err(Error::from(ErrorKind::BrokenPipe));
        }
        self.good_calls -= 1;
        self.bytes.write(&buffer[..buffer.len().min(1)])
    }

    fn flush(&mut self) -> IoResult<()> {
        Ok(())
    }
}
