//! The parents of a graph's nodes, noted edge by edge: the first child that is shared is found at once, and
//! no list of children is kept.
//! The lists of the nodes' children are begun one after the other, and children are added to the last list.

ghost use Rattle.std.specs.Prelude.{◌≡◌, ℕ, ◌+◌, ◌<◌, ◌^◌, ◌↔◌, List, [], ◌∷◌, ◌++◌, None, length, IfOk, IsTrue, slice_index_or};
ghost use Rattle.hir_forest.specs.Rows.{with_children};
ghost use Rattle.hir_forest.specs.Forest.{Marks};
ghost use Rattle.hir_forest.specs.Parents.{HasParent, IsParentageOf};

use crate::parent_table::ParentTable;
use std::alloc::{AllocError, Global};
use std::marker::Model;

/// The parents of a graph's nodes, as far as their lists of children have been read, and the first child that
/// is shared. A node takes 4 bytes, or 8 if there are more than `u32::MAX` nodes.
#[derive(Drop)]
pub struct Parents {
    pub(crate) table: ParentTable,
    rows: usize,
    pub(crate) shared: Option<usize>,
}

impl Model for Parents {
    ghost use Rattle.std.specs.Prelude.{◌≤◌, ◌<◌, ◌^◌, length};
    ghost use Rattle.hir_forest.specs.Parents.{Parentage};

    ghost Value = { Parentage };

    ghost view = { λ p. record { rows = p.rows; parents = p.table; shared = p.shared } };

    ghost invariant = { λ p. (p.rows ≤ length p.table) × (length p.table < 2 ^ 64) };
}

impl Parents {
    /// Returns the parents of the given number of nodes, before the first list of children.
    ///
    /// Returns `AllocError` only if the allocation of the table fails.
    pub fn new(alloc: Global, nodes: usize) -> Result<Parents, AllocError>
        ensures none { IfOk result (λ parents. IsParentageOf [] parents) }
        ensures room { IfOk result (λ parents. length parents.parents ≡ nodes) }
    {
        Ok(Parents::of(ParentTable::new(alloc, nodes)?))
    }

    /// Returns the parents of no nodes. It takes no memory.
    pub fn none(alloc: Global) -> Parents
        ensures none { IsParentageOf [] result }
        ensures room { result.parents ≡ [] }
    {
        Parents::of(ParentTable::empty(alloc))
    }

    /// Returns these parents, before the first list of children.
    fn of(table: ParentTable) -> Parents
        requires { length table < 2 ^ 64 }
        ensures { result ≡ record { rows = 0; parents = table; shared = None } }
    {
        Parents {
            table,
            rows: 0,
            shared: None,
        }
    }

    /// Begins the list of children of the next node, which must be one of the nodes that there is room for.
    pub fn begin_row(&mut self)
        requires { self.old.rows < length self.old.parents }
        ensures noted { (g : List (List ℕ)) → IsParentageOf g self.old
            → IsParentageOf (g ++ [] ∷ []) self.new }
        ensures rows { self.new.rows ≡ self.old.rows + 1 }
        ensures room { length self.new.parents ≡ length self.old.parents }
    {
        self.rows += 1;
    }

    /// Adds a child at the end of the last list. There must be a list, and the child must be one of the
    /// nodes.
    pub fn push_child(&mut self, child: usize)
        requires some { 0 < self.old.rows }
        requires within { child < length self.old.parents }
        ensures noted { (g : List (List ℕ)) → IsParentageOf g self.old
            → IsParentageOf (with_children g (child ∷ [])) self.new }
        ensures rows { self.new.rows ≡ self.old.rows }
        ensures room { length self.new.parents ≡ length self.old.parents }
    {
        if self.table.parent(child).is_some() {
            self.shared = self.shared.or(Some(child));
            return;
        }
        self.table.set_parent(child, self.rows - 1);
    }

    /// Returns the parent of a node, which must be one of those that there is room for: `None` if no list so
    /// far has the node.
    ///
    /// If `first_fault` found none, it is the node whose child this one is, by `HasParents`.
    pub fn parent(&self, node: usize) -> Option<usize>
        requires { node < length self.now.parents }
        ensures { result ≡ slice_index_or self.now.parents node None }
    {
        self.table.parent(node)
    }

    /// Returns whether no marked node has a parent. There must be a mark for each node.
    pub fn marked_have_none(&self, marks: &[bool]) -> bool
        requires { length marks.now ≡ length self.now.parents }
        ensures { IsTrue result ↔ ((c p : ℕ) → Marks marks.now c → HasParent self.now.parents c p → ⊥) }
    {
        for (node, marked) in marks.iter().enumerate() {
            if *marked && self.table.parent(node).is_some() {
                return false;
            }
        }
        true
    }
}

impl Clone for Parents {
    ghost is_clone = { λ parents copy. copy ≡ parents };

    fn clone(&self) -> Result<Parents, AllocError> {
        Ok(Parents {
            table: self.table.clone()?,
            rows: self.rows,
            shared: self.shared,
        })
    }
}
