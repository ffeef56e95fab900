//! Lookups in the side tables of a store: the owner of a binding, the hygiene of a path.

ghost use Rattle.std.specs.Prelude.{◌≡◌};

use crate::store::ExpressionStore;
use hir_base::HygieneId;
use hir_node::{BindingId, ExprId, ExprOrPatId, PatId};

impl ExpressionStore {
    ghost use Rattle.hir_path.specs.declared.ids.ExprOrPatId.TheVariants.{ExprId as of_expr, PatId as of_pat};
    ghost use Rattle.hir_store_core.specs.SideTables.{owner_of, hygiene_of};

    /// Returns the closure, coroutine or anonymous constant that owns the binding, and `None` where the body
    /// itself owns it.
    pub fn binding_owner(&self, id: BindingId) -> Option<ExprId>
        ensures { result ≡ owner_of self.now.side_tables id }
    {
        self.side_tables().owners.get()?.get(&id).copied()
    }

    /// Returns the hygiene of the path that the expression is: `ROOT` where none was set.
    pub fn expr_path_hygiene(&self, expr: ExprId) -> HygieneId
        ensures { result ≡ hygiene_of self.now.side_tables (of_expr expr) }
    {
        self.expr_or_pat_path_hygiene(ExprOrPatId::ExprId(expr))
    }

    /// Returns the hygiene of the path that the pattern is: `ROOT` where none was set.
    pub fn pat_path_hygiene(&self, pat: PatId) -> HygieneId
        ensures { result ≡ hygiene_of self.now.side_tables (of_pat pat) }
    {
        self.expr_or_pat_path_hygiene(ExprOrPatId::PatId(pat))
    }

    /// Returns the hygiene of the path that the expression or the pattern is: `ROOT` where none was set.
    pub fn expr_or_pat_path_hygiene(&self, id: ExprOrPatId) -> HygieneId
        ensures { result ≡ hygiene_of self.now.side_tables id }
    {
        let Some(hygiene) = self.side_tables().hygiene.get() else {
            return HygieneId::ROOT;
        };
        hygiene.get(&id).copied().unwrap_or(HygieneId::ROOT)
    }
}
