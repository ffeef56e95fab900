//! Why a line isn't taken.

ghost use Rattle.std.specs.Prelude.{◌≡◌};
ghost use Rattle.hir_show_grammar.specs.declared.line_error.LineError.TheVariants as to;

use hir_collections::ExactEq;
use std::alloc::AllocError;
use thiserror::Error;

/// Words that aren't written so. A call that returns this alone takes no memory.
#[derive(Clone, Copy, Drop)]
pub struct Malformed;

/// Why a line isn't taken.
#[derive(Clone, Copy, Debug, Drop, PartialEq, Eq, Error)]
pub enum LineError {
    /// No line is written so, or what it makes may not be made.
    #[error("Syntax")]
    Syntax,
    /// An allocation failed, or an arena is full.
    #[error("Memory")]
    Memory,
}

impl ExactEq for LineError {
    ghost use Rattle.hir_collections.specs.Exact.{exact};

    ghost eq_decides = { Prim.search exact };
}

impl From<Malformed> for LineError {
    ghost from_gives = { λ _ stop. stop ≡ to.Syntax };

    fn from(_bad: Malformed) -> LineError {
        LineError::Syntax
    }
}

impl From<AllocError> for LineError {
    ghost from_gives = { λ _ stop. stop ≡ to.Memory };

    fn from(_error: AllocError) -> LineError {
        LineError::Memory
    }
}
