//! Why a line can't be read or answered.

use hir_collections::ArenaFault;
use std::alloc::{AllocError, AllocFailed};
use std::num::TryFromIntError;

/// Why a line can't be read or answered.
#[derive(Clone, Copy, PartialEq, Eq, Debug, Drop)]
pub enum TextError {
    /// The line isn't one of the grammar.
    Syntax,
    /// Out of memory.
    Memory,
}

/// A number that its type doesn't have.
impl From<TryFromIntError> for TextError {
    fn from(_: TryFromIntError) -> TextError {
        TextError::Syntax
    }
}

impl From<AllocError> for TextError {
    fn from(_: AllocError) -> TextError {
        TextError::Memory
    }
}

impl<T: Drop> From<AllocFailed<T>> for TextError {
    fn from(_: AllocFailed<T>) -> TextError {
        TextError::Memory
    }
}

impl<T: Drop> From<(ArenaFault, T)> for TextError {
    fn from(_: (ArenaFault, T)) -> TextError {
        TextError::Memory
    }
}
