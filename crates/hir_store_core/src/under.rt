//! Sets of nodes of a store, and which nodes are descendants of others.

ghost use Rattle.std.specs.Prelude.{◌≡◌, ◌↔◌, ◌<◌, length, IfOk, IsTrue};
ghost use Rattle.hir_node.specs.declared.node_id.NodeId.{NodeId};
ghost use Rattle.hir_node.specs.declared.node_id.NodeId.TheVariants as node;
ghost use Rattle.hir_validate.specs.Nodes.{Has, sizes_of};
ghost use Rattle.hir_store_core.specs.NodeSets.{IsIn, Gains, NoChildIn};
ghost use Rattle.hir_store_core.specs.Under.{LiesUnderOther};

use crate::store::ExpressionStore;
use hir_node::{ExprId, PatId};
use hir_validate::Sizes;
use std::alloc::{AllocError, Global};
use std::marker::Model;

/// A set of nodes of a store. It has a mark for each node that existed when it was made.
#[derive(Drop)]
pub struct NodeSet {
    sizes: Sizes,
    marks: Vec<bool>,
}

impl Model for NodeSet {
    ghost use Rattle.std.specs.Prelude.{◌≡◌, ◌+◌, length};
    ghost use Rattle.hir_store_core.specs.NodeSets.{MarkedNodes};

    ghost Value = { MarkedNodes };

    ghost view = { λ s. record { sizes = s.sizes; marks = s.marks.items } };

    ghost invariant = { λ s. length s.marks.items ≡ s.sizes.exprs + s.sizes.pats + s.sizes.types };
}

impl NodeSet {
    /// Returns whether the expression is in the set. The store has to have it.
    pub fn has_expr(&self, id: ExprId) -> bool
        requires { id < self.now.sizes.exprs }
        ensures { IsTrue result ↔ IsIn self.now (node.Expr id) }
    {
        let at = id.into_raw() as usize;
        self.marks[at]
    }

    /// Returns whether the pattern is in the set. The store has to have it.
    pub fn has_pat(&self, id: PatId) -> bool
        requires { id < self.now.sizes.pats }
        ensures { IsTrue result ↔ IsIn self.now (node.Pat id) }
    {
        let place = self.sizes.exprs + id.into_raw() as usize;
        self.marks[place]
    }

    /// Puts the expression into the set. The store has to have it.
    pub fn add_expr(&mut self, id: ExprId)
        requires { id < self.old.sizes.exprs }
        ensures { Gains self.old (node.Expr id) self.new }
    {
        self.marks[id.into_raw() as usize] = true;
    }

    /// Puts the pattern into the set. The store has to have it.
    pub fn add_pat(&mut self, id: PatId)
        requires { id < self.old.sizes.pats }
        ensures { Gains self.old (node.Pat id) self.new }
    {
        self.marks[self.sizes.exprs + id.into_raw() as usize] = true;
    }
}

impl ExpressionStore {
    /// Returns the empty set.
    ///
    /// It fails only where the allocation of a mark for each node fails.
    pub fn no_nodes(&self, alloc: Global) -> Result<NodeSet, AllocError>
        ensures sizes { IfOk result (λ set. set.sizes ≡ sizes_of self.now.nodes) }
        ensures none { IfOk result (λ set. (n : NodeId) → IsIn set n → ⊥) }
    {
        let sizes = self.sizes();
        Ok(NodeSet {
            sizes,
            marks: vec![in alloc; false; sizes.exprs + sizes.pats + sizes.types]?,
        })
    }

    /// Returns whether no child of a node is in the set, which is of nodes of this store. Then no node in it
    /// is a descendant of another node.
    ///
    /// It takes time in the number of nodes and no memory: the store keeps the parents of nodes.
    pub fn no_child_is_in(&self, set: &NodeSet) -> bool
        requires { set.now.sizes ≡ sizes_of self.now.nodes }
        ensures { IsTrue result ↔ NoChildIn self.now.nodes set.now }
    {
        self.has_no_fault();
        match self.kept_parts() {
            Some(kept) => kept.parents.marked_have_none(set.marks.as_slice()),
            None => true,
        }
    }

    /// Returns the nodes that are descendants of one of these, other than itself. These are nodes of this
    /// store.
    ///
    /// It takes time in the number of nodes and doesn't recurse: it goes from node to parent, which the store
    /// keeps. It fails only where an allocation of two marks a node fails.
    pub fn under(&self, alloc: Global, entry_nodes: &NodeSet) -> Result<NodeSet, AllocError>
        requires { entry_nodes.now.sizes ≡ sizes_of self.now.nodes }
        ensures sizes { IfOk result (λ found. found.sizes ≡ sizes_of self.now.nodes) }
        ensures under { IfOk result (λ found. (n : NodeId) → Has self.now.nodes n
            → IsIn found n ↔ LiesUnderOther self.now.nodes (IsIn entry_nodes.now) n) }
    {
        self.has_no_fault();
        let Some(kept) = self.kept_parts() else {
            return self.no_nodes(alloc);
        };
        let marks = kept
            .parents
            .under_marked(alloc, entry_nodes.marks.as_slice())?;
        Ok(NodeSet {
            sizes: self.sizes(),
            marks,
        })
    }
}
