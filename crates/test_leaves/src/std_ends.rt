//! Readers and writers of std as sources and sinks: interruptions, failures, and how one result is
//! classified.

ghost use Rattle.std.specs.Prelude.{◌≡◌, ◌≤◌, false, length, OnErr, Some};
ghost use Rattle.hir_show_io.specs.Effects.{AppendsPrefix};

use crate::fakes::{BreakingReader, BreakingWriter, Interrupted};
use hir_show_io::{
    Attempt, EndFailed, Sink, Source, StdEnd, read_attempt, write_all, write_attempt,
};
use std::io::{Error, ErrorKind};

/// What two calls in a row return, whether one failed, and how many calls of std they make.
type Twice = (
    Result<usize, EndFailed>,
    Result<usize, EndFailed>,
    bool,
    u64,
);

fn read_twice(mut source: Interrupted) -> Twice {
    let mut room = [0; 8];
    let mut reader = StdEnd::new(&mut source);
    let first = reader.read(&mut room);
    let second = reader.read(&mut room);
    let failed = Source::has_failed(&reader);
    (first, second, failed, source.calls)
}

fn write_twice(mut sink: Interrupted, text: &[u8]) -> Twice {
    let mut writer = StdEnd::new(&mut sink);
    let first = writer.write(text);
    let second = writer.write(text);
    let failed = Sink::has_failed(&writer);
    (first, second, failed, sink.calls)
}

const NONE: Twice = (Ok(0), Ok(0), false, 2);

const FAILED: Twice = (Err(EndFailed), Err(EndFailed), true, 2);

/// How often each call of std is interrupted, what it takes, the bytes to write, and what two reads and two
/// writes do.
type Calls = (u32, Result<usize, ErrorKind>, &'static [u8], Twice, Twice);

const CALLS: [Calls; 8] = [
    (
        0,
        Ok(3),
        b"text",
        (Ok(3), Ok(3), false, 2),
        (Ok(3), Ok(3), false, 2),
    ),
    (
        1,
        Ok(3),
        b"text",
        (Ok(3), Ok(3), false, 4),
        (Ok(3), Ok(3), false, 4),
    ),
    (
        1000,
        Ok(3),
        b"text",
        (Ok(3), Ok(3), false, 2002),
        (Ok(3), Ok(3), false, 2002),
    ),
    (
        1001,
        Ok(3),
        b"text",
        (Err(EndFailed), Ok(3), true, 1002),
        (Err(EndFailed), Ok(3), true, 1002),
    ),
    // A call that fails isn't made again.
    (0, Err(ErrorKind::BrokenPipe), b"text", FAILED, FAILED),
    (0, Err(ErrorKind::WouldBlock), b"text", FAILED, FAILED),
    // Nor is a write that takes none of some bytes; to read or write none is no failure.
    (0, Ok(0), b"text", NONE, FAILED),
    (0, Ok(0), b"", NONE, NONE),
];

#[test]
fn interrupted_calls_alone_are_made_again(rt: HostRuntime) {
    for (times, takes, text, read, written) in &CALLS {
        assert!(rt;
            read_twice(Interrupted::new(*times, *takes)) == *read,
            "{times}"
        );
        assert!(rt;
            write_twice(Interrupted::new(*times, *takes), text) == *written,
            "{times}"
        );
    }
}

/// Bytes that a call of std took, the bytes it was asked for, and the attempt that this is for a read and for
/// a write.
const TAKEN: [(usize, usize, Attempt, Attempt); 5] = [
    (0, 0, Attempt::Done(0), Attempt::Done(0)),
    (0, 7, Attempt::Done(0), Attempt::Failed),
    (1, 7, Attempt::Done(1), Attempt::Done(1)),
    (7, 7, Attempt::Done(7), Attempt::Done(7)),
    (8, 7, Attempt::Overrun, Attempt::Done(8)),
];

const ERRORS: [(ErrorKind, Attempt); 4] = [
    (ErrorKind::Interrupted, Attempt::Again),
    (ErrorKind::WouldBlock, Attempt::Failed),
    (ErrorKind::UnexpectedEof, Attempt::Failed),
    (ErrorKind::WriteZero, Attempt::Failed),
];

#[test]
fn each_answer_is_weighed(rt: HostRuntime) {
    for (count, asked, read, written) in &TAKEN {
        let is_read = read_attempt(Ok(*count), *asked as u64) == *read;
        let is_written = write_attempt(Ok(*count), *asked) == *written;
        assert!(rt; is_read && is_written, "{count} of {asked}");
    }
    for (kind, attempt) in &ERRORS {
        assert!(rt; read_attempt(Err(Error::from(*kind)), 7) == *attempt);
        assert!(rt; write_attempt(Err(Error::from(*kind)), 7) == *attempt);
    }
}

/// Writes over a writer of std. Where that fails, what the writer says that it took has grown by a prefix of
/// the text.
fn write_over(writer: &mut StdEnd<&mut BreakingWriter>, text: &[u8]) -> Result<(), EndFailed>
    ensures { OnErr result (AppendsPrefix (Some writer.old.inner.now.bytes.items)
        (Some writer.new.inner.now.bytes.items) text.now) }
{
    write_all(writer, text)
}

#[test]
fn a_failed_writer_says_what_it_took(rt: HostRuntime) {
    for calls in 0..4 {
        let mut sink = BreakingWriter::new(rt.alloc(), calls);
        let ended = write_over(&mut StdEnd::new(&mut sink), b"text");
        let taken = sink.bytes.as_slice() == &b"text"[..calls as usize];
        assert!(rt; ended == Err(EndFailed) && taken, "after {calls}");
    }
}

/// Reads once over a reader of std. Where that fails, the reader has left what it had, if that is within the
/// allowance.
fn read_over(reader: &mut StdEnd<&mut BreakingReader>, room: &mut [u8]) -> Result<usize, EndFailed>
    ensures { reader.old.has_overrun ≡ false →
        length reader.old.inner.now.left.now ≤ reader.old.allowance →
        OnErr result (reader.new.inner.now.left.now ≡ reader.old.inner.now.left.now) }
{
    reader.read(room)
}

#[test]
fn a_failed_reader_says_what_is_left(rt: HostRuntime) {
    let mut source = BreakingReader::new(b"text", 1);
    let mut room = [0; 8];
    let mut reader = StdEnd::new(&mut source);
    let first = read_over(&mut reader, &mut room);
    let second = read_over(&mut reader, &mut room);
    assert!(rt; first == Ok(1) && second == Err(EndFailed) && source.left == b"ext".as_slice());
}
