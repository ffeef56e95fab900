//! The lines of a source, which is read block by block: a line that is whole in the buffer is borrowed from
//! it and never copied.

ghost use Rattle.hir_show_io.specs.internal.Text.{IsFirstLineEnd};
ghost use Rattle.std.specs.Prelude.{◌≡◌, ◌+◌, ◌-◌, ◌*◌, ◌≤◌, ◌<◌, ◌^◌, ◌||◌, [], false, IfOk, OnOk, length, take, slice_range, vec_len, List, ℕ};

use crate::ends::Source;
use memchr::memchr_iter;
use std::alloc::{AllocError, Global};
use std::fmt;
use std::marker::Model;
use thiserror::Error;

/// How many bytes a read asks for at least.
const BLOCK: usize = 65536;

/// What `take_line` found.
#[derive(Clone, Copy, PartialEq, Eq)]
pub enum LineTaken {
    /// A line was taken.
    Line,
    /// The pending bytes have no line end, and more may come.
    More,
    /// All lines were taken.
    End,
}

/// Why no more bytes were read.
#[derive(Clone, Copy, Debug, Drop, PartialEq, Eq, Error)]
pub enum FillFault {
    /// An allocation for a longer line failed, before the read.
    OutOfMemory,
    /// The read failed.
    InputFailed,
}

/// What failed.
impl fmt::Display for FillFault {
    ghost use Rattle.std.specs.Prelude.{Some};
    ghost use Rattle.hir_show_io.specs.FaultTexts.{fill_fault_text};

    ghost output = { λ fault. Some (fill_fault_text fault) };

    fn fmt<W: fmt::Write>(&self, f: &mut fmt::Formatter<W>) -> fmt::Result {
        match self {
            FillFault::OutOfMemory => f.write_str("OutOfMemory"),
            FillFault::InputFailed => f.write_str("InputFailed"),
        }
    }
}

/// Takes the lines of a source.
///
/// It is modelled as the line taken last, the bytes that were read and not yet taken, whether the end was
/// reached, and how many lines were taken. A line is borrowed from the buffer, which grows only for a longer
/// line.
#[derive(Drop)]
pub struct LineReader {
    bytes: Vec<u8>,
    line_start: usize,
    line_end: usize,
    start: usize,
    scanned: usize,
    filled: usize,
    at_end: bool,
    count: u64,
}

impl Model for LineReader {
    ghost use Rattle.std.specs.Prelude.{◌≤◌, slice_range, vec_len};
    ghost use Rattle.hir_show_io.specs.Text.{HasNoLineEnd};
    ghost use Rattle.hir_show_io.specs.LineState.{LineState};

    ghost Value = { LineState };

    ghost view = { λ r. record {
      line = slice_range r.bytes.items r.line_start r.line_end;
      pending = slice_range r.bytes.items r.start r.filled;
      at_end = r.at_end;
      count = r.count;
    } };

    ghost invariant = { λ r. (r.line_start ≤ r.line_end) × (r.line_end ≤ vec_len r.bytes)
        × (r.start ≤ r.scanned) × (r.scanned ≤ r.filled) × (r.filled ≤ vec_len r.bytes)
        × (65536 ≤ vec_len r.bytes)
        × HasNoLineEnd (slice_range r.bytes.items r.start r.scanned) };
}

/// The index of the first line end.
fn find_line_end(bytes: &[u8]) -> Option<usize>
    ensures { IsFirstLineEnd bytes.now result }
{
    // An empty line is worth a test of its own: a search reads 32 bytes at least, where there are as many.
    if let [b'\n', ..] = bytes {
        return Some(0);
    }
    // Most lines are shorter than 32 bytes, which this search reads first; `memchr` reads 64.
    memchr_iter(b'\n', bytes).next()
}

/// Moves the bytes from `start` to `filled` to the start of the buffer, with room for a block after them.
fn make_room(bytes: &mut Vec<u8>, start: usize, filled: usize) -> Result<(), AllocError>
    requires in_order { (start ≤ filled) × (filled ≤ vec_len bytes.old) }
    requires has_block { 65536 ≤ vec_len bytes.old }
    ensures moved { take (filled - start) bytes.new.items ≡ slice_range bytes.old.items start filled }
    ensures room { OnOk result (filled - start + 65536 ≤ vec_len bytes.new) }
    ensures kept { vec_len bytes.old ≤ vec_len bytes.new }
{
    let pending = filled - start;
    if start > 0 {
        bytes.copy_within(start..filled, 0);
    }
    if bytes.len() - pending < BLOCK {
        bytes.resize(bytes.len() * 2, 0)?;
    }
    Ok(())
}

impl LineReader {
    ghost use Rattle.hir_show_io.specs.Reading.{Takes, Fills, is_failed_read};

    /// A reader that has taken no line, with room for one block.
    ///
    /// `AllocError` if an allocation fails.
    pub fn new(alloc: Global) -> Result<Self, AllocError>
        ensures { IfOk result (λ r. r ≡ record { line = []; pending = []; at_end = false; count = 0 }) }
    {
        Ok(LineReader {
            bytes: vec![in alloc; 0; BLOCK]?,
            line_start: 0,
            line_end: 0,
            start: 0,
            scanned: 0,
            filled: 0,
            at_end: false,
            count: 0,
        })
    }

    /// The line taken last, without its end; empty before the first, once more bytes were asked for, and once
    /// all lines were taken.
    pub fn line(&self) -> &[u8]
        ensures { result.now ≡ self.now.line }
    {
        &self.bytes[self.line_start..self.line_end]
    }

    /// How many lines were taken.
    pub fn count(&self) -> u64
        ensures { result ≡ self.now.count }
    {
        self.count
    }

    /// Takes a line from the pending bytes, without a read. The last line may lack its end once the end of
    /// the input was reached.
    pub fn take_line(&mut self) -> LineTaken
        requires { self.old.count + length self.old.pending < 2 ^ 64 }
        ensures { Takes self.old self.new result }
    {
        match find_line_end(&self.bytes[self.scanned..self.filled]) {
            Some(i) => {
                let end = self.scanned + i;
                self.line_start = self.start;
                self.line_end = end;
                self.start = end + 1;
                self.scanned = end + 1;
                self.count += 1;
                LineTaken::Line
            }
            None => {
                self.scanned = self.filled;
                if !self.at_end {
                    return LineTaken::More;
                }
                if self.start == self.filled {
                    self.line_start = 0;
                    self.line_end = 0;
                    return LineTaken::End;
                }
                self.line_start = self.start;
                self.line_end = self.filled;
                self.start = self.filled;
                self.count += 1;
                LineTaken::Line
            }
        }
    }

    /// Reads once, after the pending bytes, and asks for a block at least. A read of no bytes is the end of
    /// the input.
    ///
    /// `OutOfMemory` if the buffer had to grow and couldn't: nothing was read. `InputFailed` if the read
    /// failed. After either the pending bytes are as before, and the call can be retried.
    pub fn fill<R: Source>(&mut self, reader: &mut R) -> Result<(), FillFault>
        ensures fills { Fills self.old self.new (R.remaining reader.old) (R.remaining reader.new) result }
        ensures unread { result ≡ Err FillFault.OutOfMemory → reader.new ≡ reader.old }
        ensures failure { R.is_failed reader.new ≡ (is_failed_read result || R.is_failed reader.old) }
        ensures falls { OnOk result
            (length self.new.pending + R.allowance reader.new
            ≤ length self.old.pending + R.allowance reader.old) }
    {
        let pending = self.filled - self.start;
        let room = make_room(&mut self.bytes, self.start, self.filled);
        self.line_start = 0;
        self.line_end = 0;
        self.scanned -= self.start;
        self.start = 0;
        self.filled = pending;
        if room.is_err() {
            return Err(FillFault::OutOfMemory);
        }
        match reader.read(&mut self.bytes[pending..]) {
            Ok(count) => {
                self.filled = pending + count;
                self.at_end = count == 0;
                Ok(())
            }
            Err(_) => Err(FillFault::InputFailed),
        }
    }
}
