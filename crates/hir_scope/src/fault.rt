//! The faults with which scopes fail.
ghost use Rattle.std.specs.Prelude.{◌≡◌};
ghost use Rattle.hir_collections.specs.Exact.{exact};

use hir_collections::ExactEq;
use std::alloc::AllocError;
use thiserror::Error;

/// Why the scopes of a body or a signature were not made. Its text is its name.
#[derive(Clone, Copy, Debug, Drop, PartialEq, Eq, Error)]
pub enum ScopesFault {
    /// The tables hold no body, signature or fields of this definition.
    #[error("Missing")]
    Missing,
    /// More than 2^32 - 1 scopes, or more than 2^32 - 1 entries, are needed.
    #[error("Full")]
    Full,
    /// An allocation failed.
    #[error("Memory")]
    Memory,
}

impl ExactEq for ScopesFault {
    ghost eq_decides = { Prim.search exact };
}

impl From<AllocError> for ScopesFault {
    ghost use Rattle.hir_scope.specs.declared.fault.ScopesFault.TheVariants as fault;

    ghost from_gives = { λ _ made. made ≡ fault.Memory };

    fn from(_: AllocError) -> ScopesFault {
        ScopesFault::Memory
    }
}
