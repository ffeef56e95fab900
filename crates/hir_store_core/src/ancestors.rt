//! The parent of a node, and an iterator over its ancestors, by the parents that a store keeps.

ghost use Rattle.std.specs.Prelude.{◌≡◌, length, IfSome};
ghost use Rattle.std.specs.Iterator.{YieldsFirst, UpTo, at_most, item_count};
ghost use Rattle.std.specs.Iterator.SizeHint.{IsWithinCount};
ghost use Rattle.hir_store_core.specs.Ancestors.{parent, ancestors};

use crate::store::ExpressionStore;
use hir_node::NodeId;
use std::alloc::AllocError;
use std::iter::FusedIterator;
use std::marker::Model;

impl ExpressionStore {
    /// The parent of a node: the only node whose child it is. `None` where it is no child, and where the
    /// store has no node of this id.
    ///
    /// It takes a constant time and no memory: the parents of nodes are kept.
    pub fn parent(&self, node: NodeId) -> Option<NodeId>
        ensures { result ≡ parent self.now.nodes node }
    {
        self.has_no_fault();
        let kept = self.kept_parts()?;
        let sizes = self.sizes();
        let place = kept.parents.parent(sizes.place(node)?)?;
        Some(sizes.node_at(place))
    }

    /// The ancestors of a node, innermost first: its parent, the parent of that one, and so on. The node
    /// itself is none of them.
    ///
    /// It takes no memory, and each step a constant time. There is none where the store has no node of this
    /// id.
    pub fn ancestors(&self, node: NodeId) -> Ancestors<'_>
        ensures { result ≡ ancestors self.now.nodes node }
    {
        Ancestors { store: self, node }
    }
}

/// An iterator over the ancestors of a node, innermost first. A contract sees it as the list of those that
/// are left.
#[derive(Drop)]
pub struct Ancestors<'a> {
    store: &'a ExpressionStore,
    node: NodeId,
}

impl<'a> Model for Ancestors<'a> {
    ghost use Rattle.std.specs.Prelude.{List};
    ghost use Rattle.hir_node.specs.declared.node_id.NodeId.{NodeId};
    ghost use Rattle.hir_store_core.specs.Ancestors.{ancestors};

    ghost Value = { List NodeId };

    ghost view = { λ it. ancestors it.store.now.nodes it.node };
}

impl<'a> Clone for Ancestors<'a> {
    ghost use Rattle.std.specs.Prelude.{⊤};

    ghost is_clone = { λ it copy. copy ≡ it };

    ghost is_infallible = { λ _. ⊤ };

    fn clone(&self) -> Result<Self, AllocError> {
        Ok(Ancestors {
            store: self.store,
            node: self.node,
        })
    }
}

impl<'a> Iterator for Ancestors<'a> {
    type Item = NodeId;

    ghost next_gives = { YieldsFirst (λ rest. rest) };

    ghost remaining = { item_count (λ rest. rest) };

    fn next(&mut self) -> Option<NodeId> {
        self.store.has_no_fault();
        self.node = self.store.parent(self.node)?;
        Some(self.node)
    }
}

impl<'a> FusedIterator for Ancestors<'a> {}
