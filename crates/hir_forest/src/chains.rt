//! Chains of parents: whether the chain from a node ends, and whether a listed node is on it. A climb marks
//! what it finds of the nodes of a chain, so that all nodes together take no more steps than there are
//! nodes.

ghost use Rattle.std.specs.Prelude.{◌≡◌, ◌⊎◌, ℕ, ◌<◌, ◌≤◌, ◌↔◌, Bool, List, [], length, IsTrue, IsFalse};
ghost use Rattle.hir_forest.specs.Verdict.{first_below};
ghost use Rattle.hir_forest.specs.Forest.{ChainEnds, LiesUnderMarked, Marks};
ghost use Rattle.hir_forest.specs.internal.Forest.{MarksAll};
ghost use Rattle.hir_forest.specs.Faults.{cycle_fault};
ghost use Rattle.hir_forest.specs.Parents.{HasParents};
ghost use Rattle.hir_forest.specs.internal.Parents.{IsOnChain, MeetsMarked, AreClear};

use crate::ForestFault;
use crate::parent_table::ParentTable;

/// Returns whether the chain of parents from a node ends, if the chains of all marked nodes do.
fn chain_ends(parents: &ParentTable, ends: &[bool], node: usize) -> bool
    requires node { node < length parents.now }
    requires nodes { length ends.now ≡ length parents.now }
    ensures { (g : List (List ℕ)) → HasParents g parents.now
        → ((c : ℕ) → Marks ends.now c → ChainEnds g c) → IsTrue result ↔ ChainEnds g node }
{
    let mut at = node;
    // A chain that ends has fewer steps than there are nodes.
    for _ in 0..parents.len() {
        if ends[at] {
            return true;
        }
        match parents.parent(at) {
            Some(parent) => at = parent,
            None => return true,
        }
    }
    false
}

/// Marks the chain of parents from a node up to the first node that is already marked.
fn mark_chain(parents: &ParentTable, marked: &mut [bool], node: usize)
    requires node { node < length parents.now }
    requires nodes { length marked.old ≡ length parents.now }
    ensures node { Marks marked.new node }
    ensures stays { (c : ℕ) → Marks marked.old c → Marks marked.new c }
    ensures fresh { (g : List (List ℕ)) → HasParents g parents.now
        → (c : ℕ) → Marks marked.new c → Marks marked.old c ⊎ IsOnChain g node c }
{
    let mut at = node;
    while !marked[at] {
        marked[at] = true;
        match parents.parent(at) {
            Some(parent) => at = parent,
            None => return,
        }
    }
}

/// Marks each node from `from` up to `to` that has no parent or a marked one, the last node first.
///
/// Most parents come after their children, so a pass from the last node down finds them marked, and few nodes
/// are left to climb from.
fn mark_down(parents: &ParentTable, ends: &mut [bool], from: usize, to: usize)
    requires nodes { length ends.old ≡ length parents.now }
    requires to { to ≤ length parents.now }
    ensures nodes { length ends.new ≡ length parents.now }
    ensures ends { (g : List (List ℕ)) → HasParents g parents.now
        → ((c : ℕ) → Marks ends.old c → ChainEnds g c) → (c : ℕ) → Marks ends.new c → ChainEnds g c }
{
    for node in (from..to).rev() {
        ends[node] = match parents.parent(node) {
            Some(parent) => ends[parent],
            None => true,
        };
    }
}

/// Returns the least node whose chain of parents doesn't end.
///
/// The nodes below `split` are marked first, since most others have a parent among these, or one after
/// themselves.
pub(crate) fn first_cycle(
    parents: &ParentTable,
    ends: &mut [bool],
    split: usize,
) -> Option<ForestFault>
    requires nodes { length ends.old ≡ length parents.now }
    requires split { split ≤ length parents.now }
    requires none { MarksAll ends.old [] }
    ensures { (g : List (List ℕ)) → HasParents g parents.now
        → first_below (length g) (cycle_fault (ChainEnds g)) result }
{
    mark_down(parents, ends, 0, split);
    mark_down(parents, ends, split, parents.len());
    for node in 0..parents.len() {
        if !ends[node] {
            if !chain_ends(parents, ends, node) {
                return Some(ForestFault::Cycle(node));
            }
            mark_chain(parents, ends, node);
        }
    }
    None
}

/// Returns whether a listed node is on the chain of parents from a node, if none is on the chains of nodes
/// that are clear.
fn meets_listed(parents: &ParentTable, listed: &[bool], clear: &[bool], node: usize) -> bool
    requires node { node < length parents.now }
    requires listed { length listed.now ≡ length parents.now }
    requires clear { length clear.now ≡ length parents.now }
    ensures { (g : List (List ℕ)) → HasParents g parents.now → ChainEnds g node
        → AreClear g listed.now clear.now → IsTrue result ↔ MeetsMarked g listed.now node }
{
    let mut at = node;
    for _ in 0..parents.len() {
        if listed[at] {
            return true;
        }
        if clear[at] {
            return false;
        }
        match parents.parent(at) {
            Some(parent) => at = parent,
            None => return false,
        }
    }
    false
}

/// Returns whether a node is a descendant of a listed one. If it isn't, its ancestors become clear.
pub(crate) fn is_under(
    parents: &ParentTable,
    listed: &[bool],
    clear: &mut [bool],
    node: usize,
) -> bool
    requires node { node < length parents.now }
    requires listed { length listed.now ≡ length parents.now }
    requires clear { length clear.old ≡ length parents.now }
    ensures under { (g : List (List ℕ)) → HasParents g parents.now → ChainEnds g node
        → AreClear g listed.now clear.old → IsTrue result ↔ LiesUnderMarked g listed.now node }
    ensures clear { (g : List (List ℕ)) → HasParents g parents.now → ChainEnds g node
        → AreClear g listed.now clear.old → IsFalse result → AreClear g listed.now clear.new }
{
    let parent = match parents.parent(node) {
        Some(parent) => parent,
        None => return false,
    };
    if meets_listed(parents, listed, clear, parent) {
        return true;
    }
    mark_chain(parents, clear, parent);
    false
}
