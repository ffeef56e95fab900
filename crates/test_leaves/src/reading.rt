//! Lines through both ends: across blocks, empty, longer than the buffer, without their end, and where a read
//! or a write fails. Each line is written again with a `$` after it, so that what a run wrote says which
//! lines it took.

ghost use Rattle.std.specs.Prelude.{◌+◌, ◌<◌, ◌^◌, length};

use crate::fakes::{FailingReader, FailingWriter};
use hir_show_io::{LineFault, LineReader, OutputBuffer, Sink, Source, next_line};
use std::alloc::{AllocError, Global};
use std::mem::drop;
use std::test::Fail;

/// Writes each line with a `$`, and says how many there were.
fn echo<R: Source, W: Sink>(
    lines: &mut LineReader,
    reader: &mut R,
    output: &mut OutputBuffer,
    writer: &mut W,
) -> Result<u64, LineFault>
    requires { lines.old.count + length lines.old.pending + R.allowance reader.old < 2 ^ 64 }
{
    while next_line(lines, reader, output, writer)? {
        if output.write(lines.line(), writer).is_err() || output.write(b"$", writer).is_err() {
            return Err(LineFault::OutputFailed);
        }
    }
    match output.flush(writer) {
        Ok(()) => Ok(lines.count()),
        Err(_) => Err(LineFault::OutputFailed),
    }
}

/// How a run ended, whether the sink has what it should, and of the source and of the sink how many calls it
/// took and whether one failed.
type Ran = (Result<u64, LineFault>, bool, (u64, bool), (u64, bool));

/// Echoes all lines of a source, and says how that ran where the sink should have this echo.
fn run(
    alloc: Global,
    mut reader: FailingReader,
    mut writer: FailingWriter,
    echoed: &[u8],
) -> Result<Ran, Fail> {
    let mut lines = LineReader::new(alloc)?;
    let mut output = OutputBuffer::new(alloc)?;
    let ended = echo(&mut lines, &mut reader, &mut output, &mut writer);
    if ended == Err(LineFault::OutOfMemory) {
        return Err(Fail::from(LineFault::OutOfMemory));
    }
    let reads = (reader.calls, reader.has_failed());
    let writes = (writer.calls, writer.has_failed());
    Ok((ended, writer.bytes() == echoed, reads, writes))
}

const TEXTS: [(&[u8], &[u8], u64); 8] = [
    (b"", b"", 0),
    (b"\n", b"$", 1),
    (b"\n\n\n", b"$$$", 3),
    (b"a", b"a$", 1),
    (b"a\n", b"a$", 1),
    (b"ab\n\ncde\nf", b"ab$$cde$f$", 4),
    (b"\nab\n", b"$ab$", 2),
    (b"a\r\nb \x00\xff\n\n", b"a\r$b \x00\xff$$", 3),
];

#[test]
fn takes_lines_across_reads(rt: HostRuntime) -> Result<(), Fail> {
    let alloc = rt.alloc();
    for (text, echoed, count) in &TEXTS {
        for step in &[1, 2, 3, 5, 100] {
            let reader = FailingReader::new(text, *step, u64::MAX);
            let ran = run(alloc, reader, FailingWriter::new(7, u64::MAX), echoed)?;
            assert!(rt; ran.0 == Ok(*count) && ran.1, "{count} lines by {step}");
        }
    }
    Ok(())
}

const TEXT: &[u8] = b"one\n\nthree\nfour";

const ECHO: &[u8] = b"one$$three$four$";

/// How many of the first bytes of the text are whole lines, where so many bytes are read: their echo has as
/// many.
const WHOLE: [usize; 16] = [0, 0, 0, 0, 4, 5, 5, 5, 5, 5, 5, 11, 11, 11, 11, 11];

#[test]
fn stops_where_a_read_fails(rt: HostRuntime) -> Result<(), Fail> {
    let alloc = rt.alloc();
    // Each read gives one byte, and one more reaches the end: the lines read before the failed one are
    // returned.
    for (call, whole) in WHOLE.iter().enumerate() {
        let reader = FailingReader::new(TEXT, 1, call as u64);
        let answered = ECHO.get(..*whole).unwrap_or(b"");
        let (ended, is_echoed, reads, writes) = run(
            alloc,
            reader,
            FailingWriter::new(1000, u64::MAX),
            answered,
        )?;
        assert!(rt;
            ended == Err(LineFault::InputFailed) && is_echoed,
            "at {call}"
        );
        assert!(rt; reads == (call as u64 + 1, true) && !writes.1, "at {call}");
    }
    // One read reaches the end.
    let reader = FailingReader::new(TEXT, 1, TEXT.len() as u64 + 1);
    let ran = run(alloc, reader, FailingWriter::new(1000, u64::MAX), ECHO)?;
    assert!(rt; ran.0 == Ok(4) && ran.1);
    // All answers of a block are written by one call, before the read that reaches the end.
    let reader = FailingReader::new(TEXT, 100, 1);
    let (ended, is_echoed, _, writes) = run(
        alloc,
        reader,
        FailingWriter::new(1000, u64::MAX),
        b"one$$three$",
    )?;
    assert!(rt; ended == Err(LineFault::InputFailed) && is_echoed && writes.0 == 1);
    Ok(())
}

#[test]
fn stops_where_a_write_fails(rt: HostRuntime) -> Result<(), Fail> {
    let alloc = rt.alloc();
    for step in &[1, 4, 100] {
        for call in 0..ECHO.len() as u64 {
            let reader = FailingReader::new(TEXT, *step, u64::MAX);
            let written = &ECHO[..call as usize];
            let (ended, is_echoed, reads, writes) = run(
                alloc,
                reader,
                FailingWriter::new(1, call),
                written,
            )?;
            assert!(rt;
                ended == Err(LineFault::OutputFailed) && is_echoed,
                "at {call}"
            );
            assert!(rt; writes == (call + 1, true) && !reads.1, "at {call}");
        }
    }
    Ok(())
}

/// Whether the line is taken whole, where the source gives so many bytes at a time.
fn takes_line(alloc: Global, line: &[u8], step: usize) -> Result<bool, AllocError> {
    let mut lines = LineReader::new(alloc)?;
    let mut output = OutputBuffer::new(alloc)?;
    let mut reader = FailingReader::new(line, step, u64::MAX);
    let mut writer = FailingWriter::new(1, 0);
    let taken = next_line(&mut lines, &mut reader, &mut output, &mut writer);
    Ok((taken == Ok(true)) & (lines.count() == 1) & (lines.line() == line))
}

/// Takes a long line in reads of this many bytes. It is made here: a static of its length is dear to prove.
fn takes_long_line(alloc: Global, step: usize) -> Result<bool, AllocError> {
    let line = vec![in alloc; b'x'; 400_000]?;
    let takes = takes_line(alloc, &line, step);
    drop(line);
    takes
}

#[test]
fn takes_a_line_of_many_blocks(rt: HostRuntime) -> Result<(), Fail> {
    for step in &[1000, 65_536, 1_000_000] {
        assert!(rt; takes_long_line(rt.alloc(), *step)?, "by {step}");
    }
    Ok(())
}
