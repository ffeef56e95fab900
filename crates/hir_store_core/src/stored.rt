//! The lookup of an item by its id, the same for the six arenas of a store.

ghost use Rattle.std.specs.Prelude.{◌≡◌, List, slice_get};
ghost use Rattle.std.specs.Option.{option_copied};
ghost use Rattle.hir_validate.specs.declared.node_arenas.Nodes.{Nodes};

use crate::store::ExpressionStore;
use hir_collections::Idx;
use hir_node::{
    Binding, BindingKind, Expr, ExprKind, Label, LabelKind, LifetimeRef, LifetimeRefKind, Pat,
    PatKind, TypeRef, TypeRefKind,
};

/// A kind of item that a store has an arena of, by the marker of its ids: `ExprKind` for expressions, and so
/// on.
pub trait Stored {
    /// What an id of this kind names.
    type Item;

    // the items of this kind, in the order of their ids
    ghost items_of: { Nodes → List Self.Item };

    /// Returns the items of this kind, in the order of their ids.
    fn items(store: &ExpressionStore) -> &[Self::Item]
        ensures { result.now ≡ items_of store.now.nodes };
}

impl Stored for ExprKind {
    type Item = Expr;

    ghost items_of = { λ s. s.exprs };

    fn items(store: &ExpressionStore) -> &[Expr] {
        store.nodes().exprs
    }
}

impl Stored for PatKind {
    type Item = Pat;

    ghost items_of = { λ s. s.pats };

    fn items(store: &ExpressionStore) -> &[Pat] {
        store.nodes().pats
    }
}

impl Stored for BindingKind {
    type Item = Binding;

    ghost items_of = { λ s. s.bindings };

    fn items(store: &ExpressionStore) -> &[Binding] {
        store.nodes().bindings
    }
}

impl Stored for LabelKind {
    type Item = Label;

    ghost items_of = { λ s. s.labels };

    fn items(store: &ExpressionStore) -> &[Label] {
        store.nodes().labels
    }
}

impl Stored for TypeRefKind {
    type Item = TypeRef;

    ghost items_of = { λ s. s.types };

    fn items(store: &ExpressionStore) -> &[TypeRef] {
        store.nodes().types
    }
}

impl Stored for LifetimeRefKind {
    type Item = LifetimeRef;

    ghost items_of = { λ s. s.lifetimes };

    fn items(store: &ExpressionStore) -> &[LifetimeRef] {
        store.nodes().lifetimes
    }
}

impl ExpressionStore {
    /// Returns the expression, pattern, binding, label, type or lifetime of this id, and `None` where the
    /// store has none.
    pub fn get<K: Stored>(&self, id: Idx<K>) -> Option<&K::Item>
        ensures { option_copied result ≡ slice_get (K.items_of self.now.nodes) id }
    {
        K::items(self).get(id.into_raw() as usize)
    }
}
