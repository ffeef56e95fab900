//! The path of a bound, which the store holds.

ghost use Rattle.std.specs.Prelude.{◌≡◌, Option, option_map};
ghost use Rattle.hir_path.specs.declared.path.Path.{Path};
ghost use Rattle.hir_path.specs.declared.bound.TraitBoundModifier.{TraitBoundModifier};
ghost use Rattle.hir_validate.specs.declared.node_arenas.Nodes.{Nodes};

use crate::store::ExpressionStore;
use hir_node::{Path, TraitBoundModifier, TypeBound};

/// Finds the path of a bound in its store.
pub trait TypeBoundExt {
    // what the bound names as a path is one
    ghost fits: { Self → Nodes → Type 0 };

    // the path that it names, with its modifier
    ghost path_in: { Self → Nodes → Option (Path × TraitBoundModifier) };

    /// Returns the path of a trait and its modifier, which is `TraitBoundModifier::None` after `for<..>`.
    /// Returns `None` for a bound that isn't a trait.
    ///
    /// What the bound names as a path has to be one in the store: in a bound of the store's own nodes it is,
    /// else `has_path` tests it.
    fn as_path<'a>(&self, store: &'a ExpressionStore) -> Option<(&'a Path, TraitBoundModifier)>
        requires { fits self.now store.now.nodes }
        ensures { option_map (λ found. (found.0.now, found.1)) result ≡ path_in self.now store.now.nodes };
}

impl TypeBoundExt for TypeBound {
    ghost use Rattle.hir_store_core.specs.Bounds.{bound_path, BoundFits};

    ghost fits = { BoundFits };

    ghost path_in = { bound_path };

    fn as_path<'a>(&self, store: &'a ExpressionStore) -> Option<(&'a Path, TraitBoundModifier)> {
        match self {
            TypeBound::Path(id, modifier) => Some((&store[*id], *modifier)),
            TypeBound::ForLifetime(_, id) => Some((&store[*id], TraitBoundModifier::None)),
            TypeBound::Lifetime(_) | TypeBound::Use(_) | TypeBound::Error => None,
        }
    }
}
