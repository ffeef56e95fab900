//! The lines of a text, the words of a line that is read, and the text of an answer that is written.
#![tactic(auto)]

mod answer;
mod answers;
mod lines;
mod quotes;
mod stop;
mod taking;
mod text_error;
mod values;
mod words;

pub use answer::Answer;
pub use answers::{Answers, Entry, TextFault};
pub use lines::{Lines, Outcome, is_skipped};
pub use stop::{Reason, Stop};
pub use taking::{answer_by, take_lines};
pub use text_error::TextError;
pub use words::{Part, Words};
