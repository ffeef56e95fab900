//! A text of lines that is read by a session of its own.

use crate::session::Session;
use hir_text_words::{Answers, TextFault, answer_by};
use std::alloc::Global;

/// Reads a text of lines, and gives the answer to each question in it.
pub fn answer(alloc: Global, text: &str, answers: &mut Answers) -> Result<(), TextFault> {
    let mut session = Session::new(alloc)?;
    answer_by(&mut session, text, answers)
}
