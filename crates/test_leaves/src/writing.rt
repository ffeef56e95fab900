//! Output that waits: when it is written, and what a failed write leaves of it.

use crate::fakes::FailingWriter;
use hir_show_io::{EndFailed, OutputBuffer, write_all, write_decimal};
use std::alloc::{AllocError, Global};
use std::mem::drop;
use std::test::Fail;

/// How many bytes are written, how many calls are made after it, and how many bytes those have. A whole
/// buffer waits; one byte more writes it, and a longer text goes past it.
const FILLS: [(usize, u64, usize); 6] = [
    (0, 0, 0),
    (2, 0, 0),
    (65_536, 1, 2),
    (1, 2, 65_538),
    (70_000, 4, 135_539),
    (1, 4, 135_539),
];

/// How many of the texts, from the first one on, are written when they should be, and how many calls and
/// bytes there are once what waits is written, where it is. To write it again is no call.
fn fill(alloc: Global, text: &[u8]) -> Result<Option<(usize, u64, usize)>, AllocError> {
    let mut output = OutputBuffer::new(alloc)?;
    let mut writer = FailingWriter::new(1_000_000, u64::MAX);
    let mut right = 0;
    for (at, (count, calls, len)) in FILLS.iter().enumerate() {
        let bytes = text.get(..*count).unwrap_or(b"");
        let is_written = output.write(bytes, &mut writer) == Ok(());
        if is_written && writer.calls == *calls && writer.len == *len && right == at {
            right = at + 1;
        }
    }
    if output.flush(&mut writer) == Ok(()) && output.flush(&mut writer) == Ok(()) {
        return Ok(Some((right, writer.calls, writer.len)));
    }
    Ok(None)
}

/// Writes the prefixes of a text of 70,000 bytes. It is made here: a static of its length is dear to prove.
fn fill_fronts(alloc: Global) -> Result<Option<(usize, u64, usize)>, AllocError> {
    let text = vec![in alloc; b'w'; 70_000]?;
    let filled = fill(alloc, &text);
    drop(text);
    filled
}

/// Whether four numbers are written in digits, each with a comma after it.
fn are_digits(alloc: Global) -> Result<bool, AllocError> {
    let mut output = OutputBuffer::new(alloc)?;
    let mut writer = FailingWriter::new(1_000_000, u64::MAX);
    let mut is_written = true;
    for number in &[0, 9, 10, 4_294_967_295] {
        is_written &= output.write_number(*number, &mut writer) == Ok(())
            && output.write(b",", &mut writer) == Ok(());
    }
    is_written &= output.flush(&mut writer) == Ok(());
    Ok(is_written && writer.bytes() == b"0,9,10,4294967295,".as_slice())
}

#[test]
fn what_waits_is_written_in_time(rt: HostRuntime) -> Result<(), Fail> {
    assert!(rt; fill_fronts(rt.alloc())? == Some((6, 5, 135_540)));
    assert!(rt; are_digits(rt.alloc())?);
    Ok(())
}

/// Whether a text that is written byte by byte is a prefix of it where the call of this number fails, and one
/// failure is returned.
fn writes_a_front(call: u64) -> bool {
    let mut writer = FailingWriter::new(1, call);
    let ended = write_all(&mut writer, b"abcdef");
    ended == Err(EndFailed) && writer.bytes() == &b"abcdef"[..(call as usize).min(6)]
}

/// Flushes a buffer into a writer that fails at this call. Nothing waits after a failed write, so the next
/// has nothing to write.
fn flushes_a_front(alloc: Global, call: u64) -> Result<bool, AllocError> {
    let mut output = OutputBuffer::new(alloc)?;
    let mut sink = FailingWriter::new(1, call);
    let waits = output.write(b"abc", &mut sink) == Ok(())
        && output.write_number(123, &mut sink) == Ok(())
        && sink.calls == 0;
    let ended = (output.flush(&mut sink), output.flush(&mut sink));
    let is_front = sink.bytes() == &b"abc123"[..(call as usize).min(6)];
    Ok(
        waits
            && ended == (Err(EndFailed), Ok(()))
            && is_front
            && sink.calls == call.saturating_add(1),
    )
}

#[test]
fn writes_a_front_before_it_fails(rt: HostRuntime) -> Result<(), Fail> {
    for call in 0..6 {
        let is_front = writes_a_front(call) && flushes_a_front(rt.alloc(), call)?;
        assert!(rt; is_front, "at {call}");
    }
    Ok(())
}

/// Whether the greatest number that is written digit by digit is a prefix of its digits where the call of
/// this number fails.
fn digits_are_a_front(call: u64) -> bool {
    let digits = b"18446744073709551615".as_slice();
    let mut writer = FailingWriter::new(1, call);
    let ended = write_decimal(&mut writer, u64::MAX);
    let done = (call as usize).min(20);
    ended == (if call < 20 { Err(EndFailed) } else { Ok(()) }) && writer.bytes() == &digits[..done]
}

#[test]
fn writes_digits(rt: HostRuntime) {
    for call in 0..22 {
        assert!(rt; digits_are_a_front(call), "at {call}");
    }
    let mut writer = FailingWriter::new(1000, u64::MAX);
    let ended = write_decimal(&mut writer, 0);
    assert!(rt; ended == Ok(()) && writer.calls == 1 && writer.bytes() == b"0".as_slice());
}
