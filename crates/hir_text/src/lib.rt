//! Lines that make stores, bodies, signatures and tables, and ask the public calls about them.
#![tactic(auto)]

mod buffered;
mod caches;
mod grammar;
mod nodes;
mod scope_cache;
mod scopes;
mod session;
mod text;
mod texts;
mod usages;

pub use buffered::{BufferedSession, FirstPart};
pub use hir_text_defs::Asked;
pub use hir_text_words::{
    Answer, Answers, Entry, Lines, Outcome, Reason, Stop, TextError, TextFault, answer_by,
    is_skipped,
};
pub use session::Session;
pub use text::answer;
