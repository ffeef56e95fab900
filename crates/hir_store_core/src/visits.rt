//! Visits of a store's nodes: a visitor is called with each child of a node.

ghost use Rattle.std.specs.Prelude.{◌<◌, length};
ghost use Rattle.hir_node.specs.declared.node_id.NodeId.TheVariants as node;
ghost use Rattle.hir_node.specs.Runs.{Runs, MayRun};
ghost use Rattle.hir_validate.specs.Nodes.{calls_of};

use crate::store::ExpressionStore;
use hir_node::{ExprId, PatId, StoreVisitor, TypeRefId};

impl ExpressionStore {
    /// Calls the visitor with each child of an expression, in the order of the child calls.
    pub fn visit_expr_children<V: StoreVisitor>(&self, id: ExprId, visitor: &mut V)
        requires in_range { id < length self.now.nodes.exprs }
        requires may { MayRun V.may V.step visitor.old (calls_of self.now.nodes (node.Expr id)) }
        ensures { Runs V.step visitor.old (calls_of self.now.nodes (node.Expr id)) visitor.new }
    {
        let expr = &self[id];
        expr.visit_children(visitor);
    }

    /// Calls the visitor with each child of a pattern, in the order of the child calls.
    pub fn visit_pat_children<V: StoreVisitor>(&self, id: PatId, visitor: &mut V)
        requires in_range { id < length self.now.nodes.pats }
        requires may { MayRun V.may V.step visitor.old (calls_of self.now.nodes (node.Pat id)) }
        ensures { Runs V.step visitor.old (calls_of self.now.nodes (node.Pat id)) visitor.new }
    {
        let pat = &self[id];
        pat.visit_children(visitor);
    }

    /// Calls the visitor with each child of a type, in the order of the child calls.
    pub fn visit_type_ref_children<V: StoreVisitor>(&self, id: TypeRefId, visitor: &mut V)
        requires in_range { id < length self.now.nodes.types }
        requires may { MayRun V.may V.step visitor.old (calls_of self.now.nodes (node.TypeRef id)) }
        ensures { Runs V.step visitor.old (calls_of self.now.nodes (node.TypeRef id)) visitor.new }
    {
        let type_ref = &self[id];
        type_ref.visit_children(visitor);
    }
}
