//! Precedences by the names of their variants.

use hir_base::ExprPrecedence;
use hir_text_nodes::{TextError, Words, precedence_text};

const PRECEDENCES: [ExprPrecedence; 16] = [
    ExprPrecedence::Jump,
    ExprPrecedence::Assign,
    ExprPrecedence::Range,
    ExprPrecedence::LOr,
    ExprPrecedence::LAnd,
    ExprPrecedence::Compare,
    ExprPrecedence::BitOr,
    ExprPrecedence::BitXor,
    ExprPrecedence::BitAnd,
    ExprPrecedence::Shift,
    ExprPrecedence::Sum,
    ExprPrecedence::Product,
    ExprPrecedence::Cast,
    ExprPrecedence::Prefix,
    ExprPrecedence::Postfix,
    ExprPrecedence::Unambiguous,
];

/// The precedence after a space.
pub(crate) fn next_precedence(words: &mut Words<'_>) -> Result<ExprPrecedence, TextError> {
    let word = words.next_keyword()?;
    for precedence in &PRECEDENCES {
        if precedence_text(*precedence) == word {
            return Ok(*precedence);
        }
    }
    Err(TextError::Syntax)
}
