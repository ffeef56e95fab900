//! Which nodes of a forest are descendants of a marked one, found by going from parent to parent. A climb
//! notes what it finds of the nodes of a chain of parents, so that all nodes together take at most twice as
//! many steps as there are nodes.

ghost use Rattle.std.specs.Prelude.{◌≡◌, ℕ, ◌<◌, ◌↔◌, List, [], length, IfOk, IsTrue};
ghost use Rattle.hir_forest.specs.Forest.{ChainEnds, Marks, LiesUnderMarked};
ghost use Rattle.hir_forest.specs.internal.Forest.{MarksAll};
ghost use Rattle.hir_forest.specs.Parents.{HasParents};
ghost use Rattle.hir_forest.specs.internal.Parents.{AreKnown};

use crate::parent_table::ParentTable;
use crate::parents::Parents;
use std::alloc::{AllocError, Global};

/// Returns whether a node is a descendant of a marked one, by what is noted of the known nodes.
fn is_under_marked(
    parents: &ParentTable,
    marked: &[bool],
    known: &[bool],
    under: &[bool],
    node: usize,
) -> bool
    requires node { node < length parents.now }
    requires marked { length marked.now ≡ length parents.now }
    requires known { length known.now ≡ length parents.now }
    requires under { length under.now ≡ length parents.now }
    ensures { (g : List (List ℕ)) → HasParents g parents.now → ChainEnds g node
        → AreKnown g marked.now known.now under.now → IsTrue result ↔ LiesUnderMarked g marked.now node }
{
    let mut at = node;
    // A chain that ends has fewer steps than there are nodes.
    for _ in 0..parents.len() {
        if known[at] {
            return under[at];
        }
        match parents.parent(at) {
            Some(parent) => {
                if marked[parent] {
                    return true;
                }
                at = parent;
            }
            None => return false,
        }
    }
    false
}

/// Notes of a node and of its ancestors, up to the first that is marked or known, whether each is a
/// descendant of a marked one.
fn note_chain(
    parents: &ParentTable,
    marked: &[bool],
    known: &mut [bool],
    under: &mut [bool],
    node: usize,
    is_under: bool,
)
    requires node { node < length parents.now }
    requires marked { length marked.now ≡ length parents.now }
    requires known { length known.old ≡ length parents.now }
    requires under { length under.old ≡ length parents.now }
    ensures node { Marks known.new node }
    ensures stays { (c : ℕ) → Marks known.old c → Marks known.new c }
    ensures known { (g : List (List ℕ)) → HasParents g parents.now
        → IsTrue is_under ↔ LiesUnderMarked g marked.now node
        → AreKnown g marked.now known.old under.old → AreKnown g marked.now known.new under.new }
{
    let mut at = node;
    while !known[at] {
        known[at] = true;
        under[at] = is_under;
        match parents.parent(at) {
            Some(parent) => {
                if marked[parent] {
                    return;
                }
                at = parent;
            }
            None => return,
        }
    }
}

/// Notes of each node whether it is a descendant of a marked one, if nothing is known before.
fn note_all(parents: &ParentTable, marked: &[bool], known: &mut [bool], under: &mut [bool])
    requires marked { length marked.now ≡ length parents.now }
    requires known { length known.old ≡ length parents.now }
    requires under { length under.old ≡ length parents.now }
    requires none { MarksAll known.old [] }
    ensures { (g : List (List ℕ)) → HasParents g parents.now
        → ((n : ℕ) → n < length g → ChainEnds g n) → (n : ℕ) → n < length g
        → Marks under.new n ↔ LiesUnderMarked g marked.now n }
{
    for node in 0..parents.len() {
        if !known[node] {
            let is_under = is_under_marked(parents, marked, known, under, node);
            note_chain(parents, marked, known, under, node, is_under);
        }
    }
}

impl Parents {
    /// Returns which nodes of a forest are descendants of a marked node, as a table by number. There must be
    /// a mark for each node. A marked node is one only if it is a descendant of another marked node.
    ///
    /// It takes time linear in nodes, and two tables with a mark for each. It returns `AllocError` only if
    /// their allocation fails.
    pub fn under_marked(&self, alloc: Global, marked: &[bool]) -> Result<Vec<bool>, AllocError>
        requires { length marked.now ≡ length self.now.parents }
        ensures length { IfOk result (λ under. length under.items ≡ length self.now.parents) }
        ensures under { IfOk result (λ under. (g : List (List ℕ)) → HasParents g self.now.parents
            → ((n : ℕ) → n < length g → ChainEnds g n) → (n : ℕ) → n < length g
            → Marks under.items n ↔ LiesUnderMarked g marked.now n) }
    {
        let nodes = self.table.len();
        let mut known = vec![in alloc; false; nodes]?;
        let mut under = vec![in alloc; false; nodes]?;
        note_all(&self.table, marked, &mut known, &mut under);
        Ok(under)
    }
}
