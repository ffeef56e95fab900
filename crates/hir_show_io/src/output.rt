//! Buffered output, so that many short writes become few calls of a sink. It takes its memory once, at the
//! start.

ghost use Rattle.std.specs.Prelude.{◌≡◌, ◌+◌, ◌≤◌, ◌||◌, ◌++◌, [], true, length, IfOk, OnOk, OnErr, IsOk, is_err, cond};
ghost use Rattle.std.specs.Fmt.{decimal};
ghost use Rattle.std.specs.Io.KnownBytes.{Appends};
ghost use Rattle.hir_show_io.specs.Effects.{AppendsPrefix, IsWrittenUpTo};

use crate::ends::{EndFailed, Sink, write_all};
use itoa::Buffer;
use std::alloc::{AllocError, Global};
use std::marker::Model;

/// How many bytes can wait at most.
const CAPACITY: usize = 65536;

/// The bytes that wait to be written, modelled as a list. Writing needs no memory.
#[derive(Drop)]
pub struct OutputBuffer {
    bytes: Vec<u8>,
}

impl Model for OutputBuffer {
    ghost use Rattle.std.specs.Prelude.{List, ℕ, ◌≤◌, vec_capacity};

    ghost Value = { List ℕ };

    ghost view = { λ b. b.bytes.items };

    ghost invariant = { λ b. 65536 ≤ vec_capacity b.bytes };
}

impl OutputBuffer {
    /// An empty buffer, with all its memory.
    ///
    /// `AllocError` if an allocation fails.
    pub fn new(alloc: Global) -> Result<Self, AllocError>
        ensures { IfOk result (λ b. b ≡ []) }
    {
        Ok(OutputBuffer {
            bytes: Vec::with_capacity(alloc, CAPACITY)?,
        })
    }

    /// Adds bytes to those that wait, if they fit, and returns whether they did.
    fn hold(&mut self, bytes: &[u8]) -> bool
        ensures added { self.new ≡ self.old ++ cond result bytes.now [] }
        ensures fits { length self.old + length bytes.now ≤ CAPACITY → result ≡ true }
    {
        bytes.len() <= self.bytes.capacity() - self.bytes.len()
            && self.bytes.extend_from_slice(bytes).is_ok()
    }

    /// Adds bytes to those that wait. If they would be more than 65,536, it first writes what waits; if they
    /// fit, the writer isn't called.
    ///
    /// After an `Err` a prefix of what waited followed by these bytes was written, and nothing waits.
    pub fn write<W: Sink>(&mut self, bytes: &[u8], writer: &mut W) -> Result<(), EndFailed>
        ensures bytes { OnOk result
            (IsWrittenUpTo (W.contents writer.old) (W.contents writer.new) (self.old ++ bytes.now) self.new) }
        ensures err { OnErr result
            (AppendsPrefix (W.contents writer.old) (W.contents writer.new) (self.old ++ bytes.now)
            × (self.new ≡ [])) }
        ensures failure { W.is_failed writer.new ≡ (is_err result || W.is_failed writer.old) }
        ensures waits { length self.old + length bytes.now ≤ CAPACITY →
            IsOk result × (writer.new ≡ writer.old) }
    {
        if self.hold(bytes) {
            return Ok(());
        }
        self.flush(writer)?;
        if self.hold(bytes) {
            return Ok(());
        }
        write_all(writer, bytes)
    }

    /// Adds a number in decimal, as `write` does.
    pub fn write_number<W: Sink>(&mut self, number: u32, writer: &mut W) -> Result<(), EndFailed>
        ensures bytes { OnOk result
            (IsWrittenUpTo (W.contents writer.old) (W.contents writer.new)
            (self.old ++ decimal number) self.new) }
        ensures err { OnErr result
            (AppendsPrefix (W.contents writer.old) (W.contents writer.new) (self.old ++ decimal number)
            × (self.new ≡ [])) }
        ensures failure { W.is_failed writer.new ≡ (is_err result || W.is_failed writer.old) }
        ensures waits { length self.old + length (decimal number) ≤ CAPACITY →
            IsOk result × (writer.new ≡ writer.old) }
    {
        let mut digits = Buffer::new();
        self.write(digits.format(number).as_bytes(), writer)
    }

    /// Writes all that waits. If nothing waits, the writer isn't called.
    ///
    /// After an `Err` a prefix of it was written. Either way nothing waits afterwards.
    pub fn flush<W: Sink>(&mut self, writer: &mut W) -> Result<(), EndFailed>
        ensures empty { self.new ≡ [] }
        ensures bytes { OnOk result (Appends (W.contents writer.old) (W.contents writer.new) self.old) }
        ensures err { OnErr result (AppendsPrefix (W.contents writer.old) (W.contents writer.new) self.old) }
        ensures failure { W.is_failed writer.new ≡ (is_err result || W.is_failed writer.old) }
        ensures idle { self.old ≡ [] → IsOk result × (writer.new ≡ writer.old) }
    {
        let result = write_all(writer, &self.bytes);
        self.bytes.clear();
        result
    }
}
