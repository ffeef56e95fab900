//! The first fault of a graph and its roots: shared children are found while the parents are noted, cycles
//! and faults of roots by climbing from parent to parent.

ghost use Rattle.std.specs.Prelude.{◌≡◌, ℕ, ◌<◌, ◌≤◌, List, [], length, IfNone, IfOk};
ghost use Rattle.hir_forest.specs.Verdict.{◌before◌, first_below};
ghost use Rattle.hir_forest.specs.Forest.{ChainEnds, LiesUnder, Marks};
ghost use Rattle.hir_forest.specs.internal.Forest.{MarksAll, MarksRoots};
ghost use Rattle.hir_forest.specs.Faults.{LiesUnderRoot, cycle_fault, root_fault, forest_fault, root_nodes};
ghost use Rattle.hir_forest.specs.Parents.{HasParents, IsParentageOf};

use crate::chains::{first_cycle, is_under};
use crate::parent_table::ParentTable;
use crate::parents::Parents;
use crate::{Ends, ForestFault, Root};
use std::alloc::{AllocError, Global};

/// Marks each listed root that is in range.
fn mark_roots(limit: u32, roots: &[Root], marked: &mut [bool])
    requires within { limit ≤ length marked.old }
    requires unmarked { MarksAll marked.old [] }
    ensures { MarksRoots marked.new limit (root_nodes roots.now) }
{
    for root in roots {
        if root.node < limit {
            marked[root.node as usize] = true;
        }
    }
}

/// Returns the first fault of a root in a forest whose listed roots are known.
fn first_root_fault(
    lengths: Ends,
    roots: &[Root],
    parents: &ParentTable,
    listed: &[bool],
    seen: &mut [bool],
    clear: &mut [bool],
) -> Option<ForestFault>
    requires exprs { lengths.exprs ≤ length parents.now }
    requires listed_nodes { length listed.now ≡ length parents.now }
    requires seen_nodes { length seen.old ≡ lengths.exprs }
    requires clear_nodes { length clear.old ≡ length parents.now }
    requires listed { MarksRoots listed.now lengths.exprs (root_nodes roots.now) }
    requires seen { MarksAll seen.old [] }
    requires clear { MarksAll clear.old [] }
    ensures { (g : List (List ℕ)) → HasParents g parents.now
        → ((n : ℕ) → n < length g → ChainEnds g n)
        → first_below (length roots.now)
        (root_fault (LiesUnderRoot g lengths.exprs (root_nodes roots.now)) lengths roots.now) result }
{
    let mut earlier = Ends {
        exprs: 0,
        pats: 0,
        bindings: 0,
    };
    for (i, root) in roots.iter().enumerate() {
        if root.node >= lengths.exprs {
            return Some(ForestFault::RootOutOfRange(i));
        }
        let node = root.node as usize;
        if seen[node] {
            return Some(ForestFault::RootRepeated(i));
        }
        if is_under(parents, listed, clear, node) {
            return Some(ForestFault::RootUnderRoot(i));
        }
        if !root.ends.fit(earlier, lengths) {
            return Some(ForestFault::RootEnds(i));
        }
        seen[node] = true;
        earlier = root.ends;
    }
    None
}

/// Returns the fault of a root that is listed alone: in a forest it is neither repeated nor a descendant of
/// another root, so no tables are needed.
fn lone_root_fault(lengths: Ends, roots: &[Root]) -> Option<ForestFault>
    requires { length roots.now < 2 }
    ensures { (g : List (List ℕ)) → ((n : ℕ) → n < lengths.exprs → LiesUnder g n n → ⊥)
        → first_below (length roots.now)
        (root_fault (LiesUnderRoot g lengths.exprs (root_nodes roots.now)) lengths roots.now) result }
{
    let Some(root) = roots.first() else {
        return None;
    };
    if root.node >= lengths.exprs {
        return Some(ForestFault::RootOutOfRange(0));
    }
    let before = Ends {
        exprs: 0,
        pats: 0,
        bindings: 0,
    };
    if !root.ends.fit(before, lengths) {
        return Some(ForestFault::RootEnds(0));
    }
    None
}

/// Returns the first cycle, or else the first fault of a root, where no child is shared.
fn first_chain_fault(
    alloc: Global,
    parents: &ParentTable,
    lengths: Ends,
    roots: &[Root],
) -> Result<Option<ForestFault>, AllocError>
    requires { lengths.exprs ≤ length parents.now }
    ensures { IfOk result (λ fault. (g : List (List ℕ)) → HasParents g parents.now
        → (first_below (length g) (cycle_fault (ChainEnds g))
        before first_below (length roots.now)
        (root_fault (LiesUnderRoot g lengths.exprs (root_nodes roots.now)) lengths roots.now)) fault) }
{
    let nodes = parents.len();
    let mut marks = vec![in alloc; false; nodes]?;
    if let Some(fault) = first_cycle(parents, &mut marks, lengths.exprs as usize) {
        return Ok(Some(fault));
    }
    if roots.len() < 2 {
        return Ok(lone_root_fault(lengths, roots));
    }
    // The marks of roots take the memory of the marks of chains.
    marks.fill(false);
    mark_roots(lengths.exprs, roots, &mut marks);
    let mut seen = vec![in alloc; false; lengths.exprs as usize]?;
    let mut clear = vec![in alloc; false; nodes]?;
    Ok(first_root_fault(lengths, roots, parents, &marks, &mut seen, &mut clear))
}

impl Parents {
    /// Returns the first fault of the graph and its roots, or `None` if the graph is a forest and the roots
    /// have no fault. Each node must have its list of children.
    ///
    /// The number of a fault is that of a node, or the index of a root. If there is none, these are the
    /// parents of the nodes of a forest.
    /// `lengths` has the lengths of the three arenas; nodes below `lengths.exprs` may be roots, so there are
    /// at least as many nodes.
    ///
    /// It takes time linear in nodes and roots, and tables with three marks for each node, or with one if
    /// fewer than two roots are listed. It returns `AllocError` only if their allocation fails.
    pub fn first_fault(
        &self,
        alloc: Global,
        lengths: Ends,
        roots: &[Root],
    ) -> Result<Option<ForestFault>, AllocError>
        requires exprs { lengths.exprs ≤ length self.now.parents }
        requires rows { self.now.rows ≡ length self.now.parents }
        ensures fault { IfOk result (λ fault. (g : List (List ℕ)) → IsParentageOf g self.now
            → forest_fault g lengths roots.now fault) }
        ensures parents { IfOk result (λ fault. IfNone fault ((g : List (List ℕ)) → IsParentageOf g self.now
            → HasParents g self.now.parents)) }
    {
        match self.shared {
            Some(child) => Ok(Some(ForestFault::SharedChild(child))),
            None => first_chain_fault(alloc, &self.table, lengths, roots),
        }
    }
}
