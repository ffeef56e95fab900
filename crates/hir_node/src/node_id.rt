//! The id of a node of any sort.
ghost use Rattle.std.specs.Prelude.{Some};
ghost use Rattle.hir_collections.specs.Exact.{exact};

use hir_collections::ExactEq;
use hir_path::{ExprId, PatId, TypeRefId};
use std::fmt;

/// A node: an expression, a pattern or a type, by its id. Its text is the kind of id and the number, as
/// `ExprId(3)`.
#[derive(Clone, Copy, Drop, PartialEq, Eq)]
pub enum NodeId {
    Expr(ExprId),
    Pat(PatId),
    TypeRef(TypeRefId),
}

impl ExactEq for NodeId {
    ghost eq_decides = { Prim.search exact };
}

impl fmt::Display for NodeId {
    ghost use Rattle.hir_node.specs.NodeText.{node_text};

    ghost output = { λ node. Some (node_text node) };

    fn fmt<W: fmt::Write>(&self, f: &mut fmt::Formatter<W>) -> fmt::Result {
        match self {
            NodeId::Expr(id) => write!(f, "ExprId({})", id.into_raw()),
            NodeId::Pat(id) => write!(f, "PatId({})", id.into_raw()),
            NodeId::TypeRef(id) => write!(f, "TypeRefId({})", id.into_raw()),
        }
    }
}

/// Writes the text that `Display` writes.
impl fmt::Debug for NodeId {
    ghost use Rattle.hir_node.specs.NodeText.{node_text};

    ghost debug_output = { λ node. Some (node_text node) };

    fn fmt<W: fmt::Write>(&self, f: &mut fmt::Formatter<W>) -> fmt::Result {
        fmt::Display::fmt(self, f)
    }
}
