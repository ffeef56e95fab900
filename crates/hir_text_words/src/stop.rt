//! Where the reading of a bad line stopped, and why.

use crate::words::Words;

/// Why a bad line is none of the grammar.
#[derive(Clone, Copy, PartialEq, Eq, Debug, Drop)]
pub enum Reason {
    /// The bytes from there on aren't UTF-8.
    NotUtf8,
    /// No line begins with this word.
    UnknownWord,
    /// The line ends where a word, or more of its last word, is wanted.
    EndsEarly,
    /// What is written there isn't what such a line has there, or such a line has nothing more.
    Unexpected,
}

/// Where the reading of a bad line stopped, and why.
#[derive(Clone, Copy, PartialEq, Eq, Debug, Drop)]
pub struct Stop {
    /// The place in the line, in bytes counted from 1: of the word that isn't what is wanted, or of the
    /// first byte of it that isn't.
    pub column: usize,
    /// Why reading stopped there.
    pub reason: Reason,
}

impl Stop {
    /// The first word of a line, with which no line begins.
    pub fn unknown_word() -> Stop {
        Stop {
            column: 1,
            reason: Reason::UnknownWord,
        }
    }

    /// The first byte that isn't UTF-8 of a line in which as many bytes as this are.
    pub fn not_utf8(valid: usize) -> Stop {
        Stop {
            column: valid.saturating_add(1),
            reason: Reason::NotUtf8,
        }
    }

    /// Where the words of a line could be read no further.
    pub fn of(line: &[u8], words: &Words<'_>) -> Stop {
        let left = words.stop();
        let read = line.len().saturating_sub(left.len());
        Stop {
            column: read.saturating_add(1),
            reason: if left.is_empty() {
                Reason::EndsEarly
            } else {
                Reason::Unexpected
            },
        }
    }
}
