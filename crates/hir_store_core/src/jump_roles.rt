//! What an expression is to a jump in it: a loop or a block that it may leave, a closure that it never
//! leaves, or a jump itself.

ghost use Rattle.std.specs.Prelude.{◌≡◌};
ghost use Rattle.hir_store_core.specs.JumpTargets.{role_of, is_closure, is_loop, has_label};

use hir_node::{Expr, LabelId};

/// What an expression is to a jump, with its label where it has one.
#[derive(Drop)]
pub(crate) enum JumpRole {
    Closure,
    Loop(Option<LabelId>),
    Block(Option<LabelId>),
    Break(Option<LabelId>),
    Continue(Option<LabelId>),
    Other,
}

impl JumpRole {
    /// What this expression is to a jump.
    pub(crate) fn of(expr: &Expr) -> JumpRole
        ensures { result ≡ role_of expr.now }
    {
        match expr {
            Expr::Closure {
                args: _,
                arg_types: _,
                ret_type: _,
                body: _,
                closure_kind: _,
                capture_by: _,
            } => JumpRole::Closure,
            Expr::Loop {
                body: _,
                label,
                source: _,
            } => JumpRole::Loop(*label),
            Expr::Block {
                id: _,
                statements: _,
                tail: _,
                label,
                unsafe_: _,
            } => JumpRole::Block(*label),
            Expr::Break { expr: _, label } => JumpRole::Break(*label),
            Expr::Continue { label } => JumpRole::Continue(*label),
            Expr::Missing
            | Expr::Underscore
            | Expr::IncludeBytes
            | Expr::Path(_)
            | Expr::Literal(_)
            | Expr::Array(_)
            | Expr::OffsetOf(_)
            | Expr::Const(_)
            | Expr::If {
                condition: _,
                then_branch: _,
                else_branch: _,
            }
            | Expr::Let { pat: _, expr: _ }
            | Expr::Call { callee: _, args: _ }
            | Expr::MethodCall {
                receiver: _,
                method_name: _,
                args: _,
                generic_args: _,
            }
            | Expr::Match { expr: _, arms: _ }
            | Expr::Return { expr: _ }
            | Expr::Yield { expr: _ }
            | Expr::Yeet { expr: _ }
            | Expr::Become { expr: _ }
            | Expr::Await { expr: _ }
            | Expr::RecordLit {
                path: _,
                fields: _,
                spread: _,
            }
            | Expr::Field { expr: _, name: _ }
            | Expr::Cast {
                expr: _,
                type_ref: _,
            }
            | Expr::Ref {
                expr: _,
                rawness: _,
                mutability: _,
            }
            | Expr::UnaryOp { expr: _, op: _ }
            | Expr::BinaryOp {
                lhs: _,
                rhs: _,
                op: _,
            }
            | Expr::Assignment {
                target: _,
                value: _,
            }
            | Expr::Index { base: _, index: _ }
            | Expr::Tuple { exprs: _ } => JumpRole::Other,
        }
    }

    /// Whether this is a closure of any kind.
    pub(crate) fn is_closure(&self) -> bool
        ensures { result ≡ is_closure self.now }
    {
        match self {
            JumpRole::Closure => true,
            JumpRole::Loop(_)
            | JumpRole::Block(_)
            | JumpRole::Break(_)
            | JumpRole::Continue(_)
            | JumpRole::Other => false,
        }
    }

    /// Whether this is a loop.
    pub(crate) fn is_loop(&self) -> bool
        ensures { result ≡ is_loop self.now }
    {
        match self {
            JumpRole::Loop(_) => true,
            JumpRole::Closure
            | JumpRole::Block(_)
            | JumpRole::Break(_)
            | JumpRole::Continue(_)
            | JumpRole::Other => false,
        }
    }

    /// Whether this is a loop or a block with this label.
    pub(crate) fn has_label(&self, label: LabelId) -> bool
        ensures { result ≡ has_label label self.now }
    {
        match self {
            JumpRole::Loop(Some(found)) | JumpRole::Block(Some(found)) => *found == label,
            JumpRole::Loop(None)
            | JumpRole::Block(None)
            | JumpRole::Closure
            | JumpRole::Break(_)
            | JumpRole::Continue(_)
            | JumpRole::Other => false,
        }
    }
}
