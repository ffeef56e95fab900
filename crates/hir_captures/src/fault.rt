//! The faults with which captures fail.
ghost use Rattle.std.specs.Prelude.{◌≡◌};
ghost use Rattle.hir_collections.specs.Exact.{exact};

use hir_collections::ExactEq;
use std::alloc::AllocError;
use thiserror::Error;

/// Why a call returned no captures. Its text is its name.
#[derive(Clone, Copy, Debug, Drop, PartialEq, Eq, Error)]
pub enum CapturesFault {
    /// The expression isn't a closure that the body reaches.
    #[error("NotAClosure")]
    NotAClosure,
    /// An allocation failed.
    #[error("Memory")]
    Memory,
}

impl ExactEq for CapturesFault {
    ghost eq_decides = { Prim.search exact };
}

impl From<AllocError> for CapturesFault {
    ghost use Rattle.hir_captures.specs.declared.fault.CapturesFault.TheVariants as fault;

    ghost from_gives = { λ _ made. made ≡ fault.Memory };

    fn from(_: AllocError) -> CapturesFault {
        CapturesFault::Memory
    }
}
