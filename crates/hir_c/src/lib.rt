//! The expression store for C and for any language that calls C: `include/hir_expr_store.h` declares what
//! this library exports, and says what a caller owes.
#![tactic(auto)]

ghost use Rattle.std.specs.Prelude.{◌≡◌, None, is_some, true, false, cond};
ghost use Rattle.hir_c.specs.Calls.{Tells, Opens, AsksKept, Fetches, FetchesKept, Answers};

mod handle;
mod outcomes;
mod parts;
mod report;
mod slot;

pub use handle::Handle;
use hir_text::{BufferedSession, Outcome};
use outcomes::{blank, is_taken, report_of, status_number};
pub use report::Report;
pub use slot::Slot;
use std::alloc::Global;

/// The version of this interface.
const VERSION: u32 = 1;

/// Done, and nothing was refused.
const ANSWERED: u32 = 0;

/// Memory was refused.
const OUT_OF_MEMORY: u32 = 3;

/// The handle keeps no session.
const IS_CLOSED: u32 = 4;

/// The handle keeps a session already.
const IS_OPEN: u32 = 5;

/// Returns the version of this interface.
#[unsafe(no_mangle)]
pub extern "C" fn hir_c_version() -> u32
    ensures { result ≡ 1 }
{
    VERSION
}

/// A handle with a session that has taken the lines of a text; the report says how many bytes of answers it
/// keeps. A closed one where a line is bad or memory is refused.
fn open(alloc: Global, text: &[u8]) -> (Handle, Report, u32)
    ensures { Opens text.now result.0.slot.kept result.1 result.2 }
{
    let Ok(mut session) = BufferedSession::new(alloc) else {
        return (Handle::closed(alloc), blank(), OUT_OF_MEMORY);
    };
    let outcome = session.take_text(text);
    let status = status_number(outcome);
    if !is_taken(outcome) {
        let report = report_of(0, 0, outcome, session.stop());
        return (Handle::closed(alloc), report, status);
    }
    let report = report_of(session.kept(), 0, outcome, None);
    match Box::new(alloc, session) {
        Ok(session) => (Handle::of(session), report, status),
        Err(_) => (Handle::closed(alloc), blank(), OUT_OF_MEMORY),
    }
}

/// Opens a session that has taken the lines of a text.
#[unsafe(no_mangle)]
pub extern "C" fn hir_c_open(
    alloc: Global,
    handle: &mut Handle,
    text: &[u8],
    report: &mut Report,
) -> u32
    ensures open { is_some handle.old.slot.kept ≡ true
        → (result ≡ 5) × (handle.new.slot.kept ≡ handle.old.slot.kept) }
    ensures opens { is_some handle.old.slot.kept ≡ false
        → Opens text.now handle.new.slot.kept report.new result }
{
    if handle.is_open() {
        *report = blank();
        return IS_OPEN;
    }
    let (opened, told, status) = open(alloc, text);
    *handle = opened;
    *report = told;
    status
}

/// Takes the lines of a text, and writes the first part of their answers.
fn ask(session: &mut BufferedSession, text: &[u8], buffer: &mut [u8]) -> (Report, u32)
    ensures { Tells session.old text.now buffer.old session.new buffer.new result.0 result.1 }
{
    let asked = session.ask(text, buffer);
    let report = report_of(asked.length, asked.written, asked.outcome, session.stop());
    (report, status_number(asked.outcome))
}

/// Takes the lines of a text by the session of a handle, and writes the first part of their answers, as many
/// bytes as the buffer has room for.
#[unsafe(no_mangle)]
pub extern "C" fn hir_c_ask(
    alloc: Global,
    handle: &mut Handle,
    text: &[u8],
    buffer: &mut [u8],
    report: &mut Report,
) -> u32
    ensures { AsksKept handle.old.slot.kept text.now buffer.old
        handle.new.slot.kept buffer.new report.new result }
{
    match handle.take(alloc) {
        Some(mut session) => {
            let (told, status) = ask(&mut session, text, buffer);
            *report = told;
            *handle = Handle::of(session);
            status
        }
        None => {
            *report = blank();
            IS_CLOSED
        }
    }
}

/// Writes the next part of the answers that are kept, as many bytes as the buffer has room for.
fn fetch(session: &mut BufferedSession, buffer: &mut [u8]) -> Report
    ensures { Fetches session.old buffer.old session.new buffer.new result }
{
    let length = session.kept();
    let written = session.fetch(buffer);
    report_of(length, written, Outcome::Answered, None)
}

/// Writes the next part of the answers that a handle keeps, as many bytes as the buffer has room for.
#[unsafe(no_mangle)]
pub extern "C" fn hir_c_fetch(
    alloc: Global,
    handle: &mut Handle,
    buffer: &mut [u8],
    report: &mut Report,
) -> u32
    ensures { FetchesKept handle.old.slot.kept buffer.old
        handle.new.slot.kept buffer.new report.new result }
{
    match handle.take(alloc) {
        Some(mut session) => {
            *report = fetch(&mut session, buffer);
            *handle = Handle::of(session);
            ANSWERED
        }
        None => {
            *report = blank();
            IS_CLOSED
        }
    }
}

/// Closes a session, and gives its memory back.
#[unsafe(no_mangle)]
pub extern "C" fn hir_c_close(alloc: Global, handle: &mut Handle) -> u32
    ensures closed { handle.new.slot.kept ≡ None }
    ensures status { result ≡ cond (is_some handle.old.slot.kept) 0 4 }
{
    match handle.take(alloc) {
        Some(_) => ANSWERED,
        None => IS_CLOSED,
    }
}

/// Writes the answers to the questions of a text, as many bytes as the buffer has room for: opens, asks and
/// closes.
#[unsafe(no_mangle)]
pub extern "C" fn hir_c_answer(
    alloc: Global,
    text: &[u8],
    buffer: &mut [u8],
    report: &mut Report,
) -> u32
    ensures { Answers text.now buffer.old buffer.new report.new result }
{
    let Ok(mut session) = BufferedSession::new(alloc) else {
        *report = blank();
        return OUT_OF_MEMORY;
    };
    let (told, status) = ask(&mut session, text, buffer);
    *report = told;
    status
}
