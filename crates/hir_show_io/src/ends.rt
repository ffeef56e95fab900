//! Sources and sinks: where bytes are read from and written to, what they show of them, and how to write a
//! whole slice.

ghost use Rattle.std.specs.Prelude.{◌≡◌, ◌+◌, ◌≤◌, ◌<◌, ◌^◌, ◌||◌, [], List, ℕ, Bool, Option, IfOk, IsOk, OnErr, OnOk, take, length, is_err};
ghost use Rattle.std.specs.Fmt.{decimal};
ghost use Rattle.std.specs.Io.KnownBytes.{Appends, Consumes, IsAtEnd};
ghost use Rattle.hir_show_io.specs.Effects.{AppendsPrefix, IsKeptOrUntold};

use itoa::Buffer;
use std::fmt;
use thiserror::Error;

/// A call of a source or a sink failed.
#[derive(Clone, Copy, Debug, Drop, PartialEq, Eq, Error)]
pub struct EndFailed;

/// The text says no more than the type does: std's error isn't kept.
impl fmt::Display for EndFailed {
    ghost use Rattle.std.specs.Prelude.{Some};
    ghost use Rattle.hir_show_io.specs.FaultTexts.{end_failed_text};

    ghost output = { λ _. Some end_failed_text };

    fn fmt<W: fmt::Write>(&self, f: &mut fmt::Formatter<W>) -> fmt::Result {
        f.write_str("EndFailed")
    }
}

/// Where bytes are read from.
///
/// A contract sees a source as the bytes that it has left, if it shows them, whether a call has failed, and a
/// number below 2^64 that decreases with each byte read, so that reading ends and lines can be counted in 64
/// bits.
pub trait Source {
    // The bytes that are left to read, if they are shown.
    ghost remaining: { Self → Option (List ℕ) };

    // Whether a call has failed.
    ghost is_failed: { Self → Bool };

    // A number that decreases with each byte that is read.
    ghost allowance: { Self → ℕ };

    /// Reads some bytes into the start of the buffer, and returns how many: none only at the end, or if there
    /// is no room. After an `Err` the bytes left are as before or no longer shown, and `has_failed` is true
    /// from then on.
    fn read(&mut self, buffer: &mut [u8]) -> Result<usize, EndFailed>
        ensures count { IfOk result (λ n. n ≤ length buffer.new) }
        ensures bytes { IfOk result
            (λ n. Consumes (remaining self.old) (remaining self.new) (take n buffer.new)) }
        ensures end { result ≡ Ok 0 → 0 < length buffer.new → IsAtEnd (remaining self.old) }
        ensures err { OnErr result (IsKeptOrUntold (remaining self.old) (remaining self.new)) }
        ensures failure { is_failed self.new ≡ (is_err result || is_failed self.old) }
        ensures falls { IfOk result (λ n. allowance self.new + n ≤ allowance self.old) };

    /// Whether a call has failed.
    fn has_failed(&self) -> bool
        ensures { result ≡ is_failed self.now };

    // The number fits 64 bits.
    ghost allowance_fits: { (source : Self) → allowance source < 2 ^ 64 };
}

/// Where bytes are written to.
///
/// A contract sees a sink as the bytes that were written to it, if it shows them, and whether a call has
/// failed.
pub trait Sink {
    // The bytes that were written, if they are shown.
    ghost contents: { Self → Option (List ℕ) };

    // Whether a call has failed.
    ghost is_failed: { Self → Bool };

    /// Writes some bytes from the start of the buffer, at least one if there are any, and returns how many.
    /// After an `Err` what was written is as before or no longer shown, and `has_failed` is true from then
    /// on.
    fn write(&mut self, buffer: &[u8]) -> Result<usize, EndFailed>
        ensures count { IfOk result (λ n. n ≤ length buffer.now) }
        ensures progress { IfOk result (λ n. 0 < length buffer.now → 0 < n) }
        ensures bytes { IfOk result
            (λ n. Appends (contents self.old) (contents self.new) (take n buffer.now)) }
        ensures err { OnErr result (IsKeptOrUntold (contents self.old) (contents self.new)) }
        ensures failure { is_failed self.new ≡ (is_err result || is_failed self.old) };

    /// Whether a call has failed.
    fn has_failed(&self) -> bool
        ensures { result ≡ is_failed self.now };
}

/// Writes all the bytes. After an `Err` a prefix of them was written. If there are none, the writer isn't
/// called.
pub fn write_all<W: Sink>(writer: &mut W, bytes: &[u8]) -> Result<(), EndFailed>
    ensures bytes { OnOk result (Appends (W.contents writer.old) (W.contents writer.new) bytes.now) }
    ensures err { OnErr result (AppendsPrefix (W.contents writer.old) (W.contents writer.new) bytes.now) }
    ensures failure { W.is_failed writer.new ≡ (is_err result || W.is_failed writer.old) }
    ensures idle { bytes.now ≡ [] → IsOk result × (writer.new ≡ writer.old) }
{
    let mut rest = bytes;
    while !rest.is_empty() {
        let count = writer.write(rest)?;
        rest = &rest[count..];
    }
    Ok(())
}

/// Writes a number in decimal. After an `Err` a prefix of its digits was written.
pub fn write_decimal<W: Sink>(writer: &mut W, number: u64) -> Result<(), EndFailed>
    ensures bytes { OnOk result (Appends (W.contents writer.old) (W.contents writer.new) (decimal number)) }
    ensures err { OnErr result
        (AppendsPrefix (W.contents writer.old) (W.contents writer.new) (decimal number)) }
    ensures failure { W.is_failed writer.new ≡ (is_err result || W.is_failed writer.old) }
{
    let mut digits = Buffer::new();
    write_all(writer, digits.format(number).as_bytes())
}
