//! What a call reports to its caller: a status, and a report beside it.

use hir_text::Reason;

/// What a call reports beside the status.
#[repr(C)]
#[derive(Clone, Copy, Drop)]
pub struct Report {
    /// How many bytes the answers have: all of this text, or those that were still kept before a fetch.
    pub length: usize,
    /// How many of them this call wrote to the buffer.
    pub written: usize,
    /// The number of the bad line, or of the first question that was refused, counted from 1; 0 where there
    /// is none.
    pub line: usize,
    /// Where the reading of the bad line stopped, in bytes counted from 1; 0 where there is none.
    pub column: usize,
    /// Why it stopped there, by its number; 0 where there is no bad line.
    pub reason: u32,
}

/// The number of a reason in C.
pub(crate) fn code_of(reason: Reason) -> u32 {
    match reason {
        Reason::NotUtf8 => 1,
        Reason::UnknownWord => 2,
        Reason::EndsEarly => 3,
        Reason::Unexpected => 4,
    }
}
