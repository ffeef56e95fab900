//! Roots, with the lengths of the arenas at the time when each was listed, and the faults of a graph and its
//! roots.
//! Nodes are numbered from 0; those below a given limit, the number of expressions, may be roots.

ghost use Rattle.std.specs.Prelude.{◌↔◌, IsTrue};
ghost use Rattle.hir_forest.specs.Faults.{EndsFit};

/// How many expressions, patterns and bindings there are, or were when a root was listed.
#[derive(Clone, Copy, Default, PartialEq, Eq, Drop)]
pub struct Ends {
    pub exprs: u32,
    pub pats: u32,
    pub bindings: u32,
}

impl Ends {
    /// Returns whether each of the three ends is at least the end in `earlier` and at most that in
    /// `lengths`.
    pub fn fit(self, earlier: Ends, lengths: Ends) -> bool
        ensures { IsTrue result ↔ EndsFit lengths earlier self }
    {
        earlier.exprs <= self.exprs
            && self.exprs <= lengths.exprs
            && earlier.pats <= self.pats
            && self.pats <= lengths.pats
            && earlier.bindings <= self.bindings
            && self.bindings <= lengths.bindings
    }
}

/// A listed root: the number of a node, and the lengths of the arenas when it was listed.
#[derive(Clone, Copy, Default, PartialEq, Eq, Drop)]
pub struct Root {
    pub node: u32,
    pub ends: Ends,
}

/// What can be wrong with a graph and its roots, in the order in which `first_fault` looks for faults. Of
/// the roots it takes the first in the list that has a fault, and then that root's first fault in this
/// order.
///
/// `SharedChild` and `Cycle` have the number of a node, the others the index of a root in the list.
#[derive(Clone, Copy, PartialEq, Eq, Drop)]
pub enum ForestFault {
    /// The node is the child of two edges; it is the child of the first edge whose child is one of an
    /// earlier edge.
    SharedChild(usize),
    /// No number of steps to a parent leads from the node to one without a parent; it is the least such
    /// node.
    /// It is on a cycle, or a descendant of a node on one.
    Cycle(usize),
    /// The root's number is not below the number of expressions.
    RootOutOfRange(usize),
    /// The root is listed earlier.
    RootRepeated(usize),
    /// The root is a descendant of a listed root, earlier or later.
    RootUnderRoot(usize),
    /// An end of the root is past its arena, or less than that of the root before.
    RootEnds(usize),
}
