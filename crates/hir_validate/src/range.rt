//! A visitor that tests whether every id that it is called with is in range.

ghost use Rattle.std.specs.Prelude.{◌≡◌};
ghost use Rattle.std.specs.List.{list_all};
ghost use Rattle.hir_validate.specs.Sizes.{is_in_range};
ghost use Rattle.hir_validate.specs.internal.Ranges.{Tests};
ghost use Rattle.hir_node.specs.ChildCalls.{bound_calls, path_calls};

use crate::sizes::Sizes;
use hir_node::{
    ExprId, LifetimeRefId, PatId, Path, StoreVisitor, StoreVisitorExt, TypeBound, TypeRefId,
};

/// Whether every id that it was called with is in range.
#[derive(Drop)]
struct InRange {
    sizes: Sizes,
    all_in_range: bool,
}

impl StoreVisitor for InRange {
    ghost step = { Tests };

    fn on_expr(&mut self, id: ExprId) {
        self.all_in_range = self.all_in_range && (id.into_raw() as usize) < self.sizes.exprs;
    }

    fn on_anon_const_expr(&mut self, id: ExprId) {
        self.all_in_range = self.all_in_range && (id.into_raw() as usize) < self.sizes.exprs;
    }

    fn on_pat(&mut self, id: PatId) {
        self.all_in_range = self.all_in_range && (id.into_raw() as usize) < self.sizes.pats;
    }

    fn on_type(&mut self, id: TypeRefId) {
        self.all_in_range = self.all_in_range && (id.into_raw() as usize) < self.sizes.types;
    }

    fn on_lifetime(&mut self, id: LifetimeRefId) {
        self.all_in_range = self.all_in_range && (id.into_raw() as usize) < self.sizes.lifetimes;
    }
}

/// Returns whether each id that the path passes to a visitor is in range.
pub(crate) fn path_is_in_range(path: &Path, sizes: Sizes) -> bool
    ensures { result ≡ list_all (is_in_range sizes) (path_calls path.now) }
{
    let mut ids = InRange {
        sizes,
        all_in_range: true,
    };
    ids.on_path(path);
    ids.all_in_range
}

/// Returns whether each id that the bound passes to a visitor is in range.
pub(crate) fn bound_is_in_range(bound: &TypeBound, sizes: Sizes) -> bool
    ensures { result ≡ list_all (is_in_range sizes) (bound_calls bound.now) }
{
    let mut ids = InRange {
        sizes,
        all_in_range: true,
    };
    ids.on_type_bound(bound);
    ids.all_in_range
}
