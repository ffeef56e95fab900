//! The side tables of a store: owners of bindings, hygiene of paths, and blocks that may hold items.

ghost use Rattle.std.specs.Prelude.{◌≡◌};

use hir_base::{BlockId, HygieneId};
use hir_collections::{ExactEq, LazyBox, Seq, Table, TryClone};
use hir_node::{BindingId, ExprId, ExprOrPatId};
use std::alloc::{AllocError, Global};

/// Side tables: binding owners, path hygiene, blocks. `finish` doesn't check them: ids may be of nodes that
/// don't exist.
#[derive(Drop, PartialEq, Eq)]
pub struct SideTables {
    /// The owner of a binding, where it isn't the body itself.
    pub owners: LazyBox<Table<BindingId, ExprId>>,
    /// The hygiene of an expression or a pattern that is a path.
    pub hygiene: LazyBox<Table<ExprOrPatId, HygieneId>>,
    /// The blocks that may hold items, in order.
    pub blocks: LazyBox<Seq<BlockId>>,
}

impl SideTables {
    ghost use Rattle.hir_store_core.specs.SideTables.{no_side_tables};

    /// Returns empty side tables, without an allocation.
    pub fn new(alloc: Global) -> SideTables
        ensures { result ≡ no_side_tables }
    {
        SideTables {
            owners: LazyBox::new(alloc),
            hygiene: LazyBox::new(alloc),
            blocks: LazyBox::new(alloc),
        }
    }
}

impl ExactEq for SideTables {
    ghost use Rattle.hir_store_core.specs.same.SameSideTables.{side_tables_decide};

    ghost eq_decides = { side_tables_decide };
}

impl Clone for SideTables {
    ghost is_clone = { λ side_tables copy. copy ≡ side_tables };

    fn clone(&self) -> Result<SideTables, AllocError> {
        let owners = self.owners.try_clone()?;
        let hygiene = self.hygiene.try_clone()?;
        let blocks = self.blocks.try_clone()?;
        Ok(SideTables {
            owners,
            hygiene,
            blocks,
        })
    }
}

impl TryClone for SideTables {
    ghost clone_is_same = { λ x y h. h };
}
