//! How many items the arenas have, and the order of all nodes: expressions, then patterns, then types.

ghost use Rattle.std.specs.Prelude.{◌≡◌, ◌+◌, ◌<◌, None, IfSome};
ghost use Rattle.hir_validate.specs.Sizes.{Few, HasNode, place, node_at};

use hir_node::{ExprId, NodeId, PatId, TypeRefId};

/// How many items each arena has.
#[derive(Clone, Copy, Drop)]
pub struct Sizes {
    pub exprs: usize,
    pub pats: usize,
    pub types: usize,
    pub bindings: usize,
    pub labels: usize,
    pub lifetimes: usize,
}

impl Sizes {
    /// The place of a node in the row. `None` where there is no node of this id.
    pub fn place(self, node: NodeId) -> Option<usize>
        requires { Few self }
        ensures place { IfSome result (λ at. (at ≡ place self node) × HasNode self node) }
        ensures none { result ≡ None → HasNode self node → ⊥ }
    {
        let (number, count, before) = match node {
            NodeId::Expr(id) => (id.into_raw() as usize, self.exprs, 0),
            NodeId::Pat(id) => (id.into_raw() as usize, self.pats, self.exprs),
            NodeId::TypeRef(id) => (id.into_raw() as usize, self.types, self.exprs + self.pats),
        };
        if number < count {
            Some(before + number)
        } else {
            None
        }
    }

    /// The node at a place of the row.
    pub fn node_at(self, place: usize) -> NodeId
        requires few { Few self }
        requires within { place < self.exprs + self.pats + self.types }
        ensures { result ≡ node_at self place }
    {
        if place < self.exprs {
            return NodeId::Expr(ExprId::from_raw(place as u32));
        }
        if place < self.exprs + self.pats {
            return NodeId::Pat(PatId::from_raw((place - self.exprs) as u32));
        }
        NodeId::TypeRef(TypeRefId::from_raw((place - (self.exprs + self.pats)) as u32))
    }
}
