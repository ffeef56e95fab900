//! Where the program's bytes come from and where they go: sources and sinks, the lines of a source, buffered
//! output, and asking for the next line.
#![tactic(auto)]

mod ends;
mod laws;
mod lines;
mod next;
mod output;
mod std_end;

pub use ends::{EndFailed, Sink, Source, write_all, write_decimal};
pub use laws::answers_are_compared_by_all_fields;
pub use lines::{FillFault, LineReader, LineTaken};
pub use next::{LineFault, next_line};
pub use output::OutputBuffer;
pub use std_end::{Attempt, StdEnd, read_attempt, write_attempt};
