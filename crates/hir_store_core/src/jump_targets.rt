//! What encloses an expression, and where a jump goes. Each call goes from parent to parent, up to the
//! nearest constant or closure.

ghost use Rattle.std.specs.Prelude.{◌≡◌};
ghost use Rattle.hir_node.specs.declared.node_id.NodeId.TheVariants as node;
ghost use Rattle.hir_validate.specs.Nodes.{calls_of};
ghost use Rattle.hir_store_core.specs.JumpTargets.{has_const, is_const_of, role_at, is_loop, nearest, nearest_in_closure, if_passes, left_by, enclosing_closure, enclosing_loop, jump_target};
ghost use Rattle.hir_store_core.specs.internal.Sought.{passes, passes_alone, parent_in_code};

use crate::anon_consts::{expr_has_const, pat_has_const, type_has_const};
use crate::jump_roles::JumpRole;
use crate::store::ExpressionStore;
use hir_node::{ExprId, LabelId, NodeId, PatId, TypeRefId};

/// What is looked for around an expression, where no closure is nearer.
#[derive(Drop)]
enum Sought {
    Closure,
    Loop,
    Label(LabelId),
}

impl Sought {
    /// Whether this is what is looked for.
    fn is(&self, role: &JumpRole) -> bool
        ensures { result ≡ passes_alone self.now role.now }
    {
        match self {
            Sought::Closure => role.is_closure(),
            Sought::Loop => role.is_loop(),
            Sought::Label(label) => role.has_label(*label),
        }
    }

    /// Whether the search ends here.
    fn ends_at(&self, role: &JumpRole) -> bool
        ensures { result ≡ passes self.now role.now }
    {
        self.is(role) || role.is_closure()
    }
}

impl ExpressionStore {
    /// Whether a node is an anonymous constant of its parent, or a type.
    fn is_const_of(&self, parent: &NodeId, node: &NodeId) -> bool
        ensures { result ≡ is_const_of self.now.nodes parent.now node.now }
    {
        let expr = match node {
            NodeId::Expr(expr) => *expr,
            NodeId::Pat(_) => return false,
            NodeId::TypeRef(_) => return true,
        };
        match parent {
            NodeId::Expr(id) => self.is_const_of_expr(*id, expr),
            NodeId::Pat(id) => self.is_const_of_pat(*id, expr),
            NodeId::TypeRef(id) => self.is_const_of_type(*id, expr),
        }
    }

    /// Whether an expression is an anonymous constant of another one.
    fn is_const_of_expr(&self, parent: ExprId, expr: ExprId) -> bool
        ensures { result ≡ has_const (calls_of self.now.nodes (node.Expr parent)) expr }
    {
        match self.get(parent) {
            Some(parent) => expr_has_const(parent, expr),
            None => false,
        }
    }

    /// Whether an expression is an anonymous constant of a pattern.
    fn is_const_of_pat(&self, parent: PatId, expr: ExprId) -> bool
        ensures { result ≡ has_const (calls_of self.now.nodes (node.Pat parent)) expr }
    {
        match self.get(parent) {
            Some(parent) => pat_has_const(parent, expr),
            None => false,
        }
    }

    /// Whether an expression is an anonymous constant of a type.
    fn is_const_of_type(&self, parent: TypeRefId, expr: ExprId) -> bool
        ensures { result ≡ has_const (calls_of self.now.nodes (node.TypeRef parent)) expr }
    {
        match self.get(parent) {
            Some(parent) => type_has_const(parent, expr),
            None => false,
        }
    }

    /// The parent of a node, where the node is no anonymous constant of it, and no type.
    fn parent_in_code(&self, node: &NodeId) -> Option<NodeId>
        ensures { result ≡ parent_in_code self.now.nodes node.now }
    {
        let parent = self.parent(*node)?;
        if self.is_const_of(&parent, node) {
            return None;
        }
        Some(parent)
    }

    /// What an expression is to a jump.
    fn role_at(&self, id: ExprId) -> JumpRole
        ensures { result ≡ role_at self.now.nodes id }
    {
        match self.get(id) {
            Some(expr) => JumpRole::of(expr),
            None => JumpRole::Other,
        }
    }

    /// The nearest expression around at which the search ends.
    fn nearest(&self, expr: ExprId, sought: &Sought) -> Option<ExprId>
        ensures { result ≡ nearest self.now.nodes (passes sought.now) expr }
    {
        self.has_no_fault();
        let mut node = NodeId::Expr(expr);
        while let Some(parent) = self.parent_in_code(&node) {
            if let NodeId::Expr(id) = &parent {
                if sought.ends_at(&self.role_at(*id)) {
                    return Some(*id);
                }
            }
            node = parent;
        }
        None
    }

    /// The nearest expression around that is looked for, where no closure is nearer.
    fn nearest_in_closure(&self, expr: ExprId, sought: &Sought) -> Option<ExprId>
        ensures { result ≡ nearest_in_closure self.now.nodes (passes_alone sought.now) expr }
    {
        let id = self.nearest(expr, sought)?;
        if sought.is(&self.role_at(id)) {
            Some(id)
        } else {
            None
        }
    }

    /// What a jump from an expression leaves: the nearest loop, or by its label the nearest loop or block
    /// that has it.
    fn left_by(&self, expr: ExprId, label: Option<LabelId>) -> Option<ExprId>
        ensures { result ≡ left_by self.now.nodes expr label }
    {
        match label {
            Some(label) => self.nearest_in_closure(expr, &Sought::Label(label)),
            None => self.nearest_in_closure(expr, &Sought::Loop),
        }
    }

    /// The expression that was found, where it is a loop.
    fn if_loop(&self, found: Option<ExprId>) -> Option<ExprId>
        ensures { result ≡ if_passes self.now.nodes is_loop found }
    {
        let id = found?;
        if self.role_at(id).is_loop() {
            Some(id)
        } else {
            None
        }
    }

    /// The nearest closure, of any kind, in whose code the expression is. `None` where it is in none, or in
    /// an anonymous constant or a type within the closure: what is there is code of no closure.
    ///
    /// It takes time in the number of ancestors, and no memory. An expression doesn't enclose itself.
    pub fn enclosing_closure(&self, expr: ExprId) -> Option<ExprId>
        ensures { result ≡ enclosing_closure self.now.nodes expr }
    {
        self.nearest(expr, &Sought::Closure)
    }

    /// The nearest loop in whose body the expression is. `None` where there is none before the nearest
    /// closure, anonymous constant or type that the expression is in.
    ///
    /// The condition of a `while` is in the body of its loop. It takes time in the number of ancestors, and
    /// no memory.
    pub fn enclosing_loop(&self, expr: ExprId) -> Option<ExprId>
        ensures { result ≡ enclosing_loop self.now.nodes expr }
    {
        self.nearest_in_closure(expr, &Sought::Loop)
    }

    /// The loop or the labelled block that a `break` leaves, and the loop that a `continue` continues: by its
    /// label the nearest loop or block around it with this label, else the nearest loop.
    ///
    /// `None` where there is none before the nearest closure, anonymous constant or type that the jump is in,
    /// where the label of a `continue` is that of a block, and where the expression is no such jump. It takes
    /// time in the number of ancestors, and no memory.
    pub fn jump_target(&self, expr: ExprId) -> Option<ExprId>
        ensures { result ≡ jump_target self.now.nodes expr }
    {
        match self.role_at(expr) {
            JumpRole::Break(label) => self.left_by(expr, label),
            JumpRole::Continue(label) => self.if_loop(self.left_by(expr, label)),
            JumpRole::Closure | JumpRole::Loop(_) | JumpRole::Block(_) | JumpRole::Other => None,
        }
    }
}
