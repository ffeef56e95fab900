//! Why a printing gives no text.
ghost use Rattle.std.specs.Prelude.{◌≡◌};
ghost use Rattle.hir_collections.specs.Exact.{exact};
ghost use Rattle.hir_pretty_nodes.specs.declared.fault.PrintFault.TheVariants.{Memory};

use hir_collections::{ExactEq, TryClone};
use hir_store_core::Missing;
use std::alloc::AllocError;
use thiserror::Error;

/// Why a printing gives no text. The text of a fault is its name alone; `Debug` writes what is missing too,
/// as `Missing(Signature(FunctionId(7)))`.
#[derive(Clone, Copy, Debug, Drop, PartialEq, Eq, Error)]
pub enum PrintFault {
    /// A definition outside that the text names is missing: the first in printing order.
    #[error("Missing")]
    Missing(Missing),
    /// An allocation failed.
    #[error("Memory")]
    Memory,
}

impl ExactEq for PrintFault {
    ghost eq_decides = { Prim.search exact };
}

impl TryClone for PrintFault {
    ghost clone_is_same = { Prim.search exact };
}

impl From<AllocError> for PrintFault {
    ghost from_gives = { λ _ fault. fault ≡ Memory };

    fn from(_: AllocError) -> PrintFault {
        PrintFault::Memory
    }
}
