//! Sources and sinks in memory that tell their bytes, take some at a time and fail from a chosen call on.

ghost use Rattle.std.specs.Prelude.{◌≡◌, ◌++◌, IsFalse, IsTrue, false};

use hir_show_io::{EndFailed, Sink, Source};
use std::alloc::Global;

/// Bytes that are read some at a time, until the call that fails.
#[derive(Drop)]
pub struct FailingReader<'a> {
    left: &'a [u8],
    step: usize,
    pub calls: u64,
    fails_from: u64,
    has_failed: bool,
}

impl<'a> FailingReader<'a> {
    pub fn new(bytes: &'a [u8], step: usize, fails_from: u64) -> FailingReader<'a>
        ensures { result.has_failed ≡ false }
    {
        FailingReader {
            left: bytes,
            step,
            calls: 0,
            fails_from,
            has_failed: false,
        }
    }

    /// What was read, where these are the bytes that it was made of.
    pub fn read_of<'b>(&self, bytes: &'b [u8]) -> &'b [u8] {
        &bytes[..bytes.len().saturating_sub(self.left.len())]
    }
}

impl Source for FailingReader<'_> {
    ghost use Rattle.std.specs.Prelude.{Some, length, min, ◌-◌, ◌^◌};
    ghost use Rattle.std.proofs.Common.{arith};

    ghost remaining = { λ s. Some s.left.now };

    ghost is_failed = { λ s. s.has_failed };

    ghost allowance = { λ s. min (length s.left.now) (2 ^ 64 - 1) };

    ghost allowance_fits = { λ s. omega arith };

    fn read(&mut self, buffer: &mut [u8]) -> Result<usize, EndFailed> {
        let call = self.calls;
        self.calls = call.saturating_add(1);
        if call >= self.fails_from {
            self.has_failed = true;
            return Err(EndFailed);
        }
        let count = self.step.max(1).min(buffer.len()).min(self.left.len());
        buffer[..count].copy_from_slice(&self.left[..count]);
        self.left = &self.left[count..];
        Ok(count)
    }

    fn has_failed(&self) -> bool {
        self.has_failed
    }
}

/// Bytes that are kept, until the call that fails.
#[derive(Drop)]
pub struct FailingWriter {
    pub bytes: Vec<u8>,
    step: usize,
    pub calls: u64,
    fails_from: u64,
    has_failed: bool,
    /// Whether an allocation for the bytes failed. It is none of the program's, so it is made again.
    pub was_refused: bool,
}

impl FailingWriter {
    pub fn new(alloc: Global, step: usize, fails_from: u64) -> FailingWriter
        ensures { result.has_failed ≡ false }
    {
        FailingWriter {
            bytes: Vec::new(alloc),
            step,
            calls: 0,
            fails_from,
            has_failed: false,
            was_refused: false,
        }
    }

    /// Keeps the bytes, and says whether there was memory for them.
    fn keep(&mut self, bytes: &[u8]) -> bool
        ensures kept { IsTrue result → self.new.bytes.items ≡ self.old.bytes.items ++ bytes.now }
        ensures refused { IsFalse result → self.new.bytes.items ≡ self.old.bytes.items }
        ensures failure { self.new.has_failed ≡ self.old.has_failed }
    {
        if self.bytes.extend_from_slice(bytes).is_ok() {
            return true;
        }
        self.was_refused = true;
        self.bytes.extend_from_slice(bytes).is_ok()
    }
}

impl Sink for FailingWriter {
    ghost use Rattle.std.specs.Prelude.{Some};

    ghost contents = { λ s. Some s.bytes.items };

    ghost is_failed = { λ s. s.has_failed };

    fn write(&mut self, buffer: &[u8]) -> Result<usize, EndFailed> {
        let call = self.calls;
        self.calls = call.saturating_add(1);
        let count = self.step.max(1).min(buffer.len());
        if call >= self.fails_from || !self.keep(&buffer[..count]) {
            self.has_failed = true;
            return Err(EndFailed);
        }
        Ok(count)
    }

    fn has_failed(&self) -> bool {
        self.has_failed
    }
}
