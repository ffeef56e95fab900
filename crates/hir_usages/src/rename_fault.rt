//! Why a binding isn't renamed.
ghost use Rattle.hir_collections.specs.Exact.{exact};

use hir_collections::ExactEq;
use hir_node::{BindingId, ExprOrPatId};
use std::alloc::AllocError;
use thiserror::Error;

/// Why a binding isn't renamed: the first of these that holds, in their order. `Hidden` and `Captures` come
/// at the first use, in the order of the walk, that would resolve to something else. Its text is its name.
#[derive(Clone, Copy, Debug, Drop, PartialEq, Eq, Error)]
pub enum RenameFault {
    /// The body has no entry of the binding.
    #[error("NotBound")]
    NotBound,
    /// The binding is that of the self parameter or is named `self`, or the new name is `self`.
    #[error("IsSelf")]
    IsSelf,
    /// Another binding of the new name and the same hygiene is bound in the same frame.
    #[error("SameFrame")]
    SameFrame {
        other: BindingId,
    },
    /// A use of the binding would find another one.
    #[error("Hidden")]
    Hidden {
        usage: ExprOrPatId,
        by: BindingId,
    },
    /// A use of another binding, or of none, would find this one.
    #[error("Captures")]
    Captures {
        usage: ExprOrPatId,
        was: Option<BindingId>,
    },
    /// An allocation failed.
    #[error("Memory")]
    Memory,
}

impl ExactEq for RenameFault {
    ghost eq_decides = { Prim.search exact };
}

impl From<AllocError> for RenameFault {
    ghost use Rattle.std.specs.Prelude.{◌≡◌};
    ghost use Rattle.hir_usages.specs.declared.rename_fault.RenameFault.TheVariants as fault;

    ghost from_gives = { λ _ made. made ≡ fault.Memory };

    fn from(_: AllocError) -> RenameFault {
        RenameFault::Memory
    }
}
