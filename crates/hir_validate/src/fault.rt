//! Why a builder is refused.

ghost use Rattle.hir_collections.specs.Exact.{exact};

use hir_collections::ExactEq;
use hir_node::NodeId;
use std::fmt;
use thiserror::Error;

/// Why a builder is refused: the first of its faults, in this order. Nodes are ordered as expressions,
/// patterns, types, each by id; the faults from `IdOutOfRange` to `ArgumentLists` are those of the first
/// node that has one, and then the first in this order. The faults from `RootOutOfRange` to `RootEnds` are
/// those of the first root that has one, named by its index in the list of roots. The text is the name and,
/// after a space, the node or the index.
#[derive(Clone, Copy, Drop, PartialEq, Eq, Error)]
pub enum FinishFault {
    /// An expression, a pattern, a binding or a label exists, and no list of roots was begun.
    #[error("NoRoots")]
    NoRoots,
    /// The node names an expression, a pattern, a binding, a label, a type or a lifetime that is out of
    /// range.
    #[error("IdOutOfRange {0}")]
    IdOutOfRange(NodeId),
    /// A bound in the node names as a path a type that isn't one.
    #[error("NotAPath {0}")]
    NotAPath(NodeId),
    /// The node is a function type with an empty list: it lacks the return type.
    #[error("NoReturnType {0}")]
    NoReturnType(NodeId),
    /// Generic arguments in the node have `has_self_type`, and are empty.
    #[error("NoSelfArgument {0}")]
    NoSelfArgument(NodeId),
    /// A `Normal` path in the node doesn't have one list of arguments for each segment.
    #[error("ArgumentLists {0}")]
    ArgumentLists(NodeId),
    /// The first edge whose child is the child of an earlier edge leads to this node.
    #[error("SharedChild {0}")]
    SharedChild(NodeId),
    /// The least node whose chain of parents doesn't end: it is on a cycle, or a descendant of a node on
    /// one.
    #[error("Cycle {0}")]
    Cycle(NodeId),
    /// The root isn't an expression of the arena.
    #[error("RootOutOfRange {0}")]
    RootOutOfRange(usize),
    /// An earlier root is the same.
    #[error("RootRepeated {0}")]
    RootRepeated(usize),
    /// The root is a descendant of another listed root.
    #[error("RootUnderRoot {0}")]
    RootUnderRoot(usize),
    /// An end of the root is past its arena, or less than that of the root before.
    #[error("RootEnds {0}")]
    RootEnds(usize),
    /// An allocation of the test failed. It may come in place of any result.
    #[error("Memory")]
    Memory,
}

/// Writes its text.
impl fmt::Debug for FinishFault {
    fn fmt<W: fmt::Write>(&self, f: &mut fmt::Formatter<W>) -> fmt::Result {
        fmt::Display::fmt(self, f)
    }
}

impl ExactEq for FinishFault {
    ghost eq_decides = { Prim.search exact };
}
