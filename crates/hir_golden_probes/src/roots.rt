//! The root that a node was made for, by the searches that count their steps.

use hir_base::Steps;
use hir_node::{BindingId, ExprId, PatId};
use hir_store::ExpressionStore;
use hir_text_nodes::{Node, TextError, Words, next};

/// A node of the kinds that are made for a root.
#[derive(Clone, Copy, Drop)]
pub(crate) enum Rooted {
    Expr(ExprId),
    Pat(PatId),
    Binding(BindingId),
}

/// A node after a space.
pub(crate) fn next_rooted(words: &mut Words<'_>) -> Result<Rooted, TextError> {
    match next(words)? {
        Node::Expr(id) => Ok(Rooted::Expr(id)),
        Node::Pat(id) => Ok(Rooted::Pat(id)),
        Node::Binding(id) => Ok(Rooted::Binding(id)),
        Node::Type(_) | Node::Label(_) | Node::Lifetime(_) => Err(TextError::Syntax),
    }
}

/// Returns the root, where the node has one.
pub(crate) fn counted_root_of(store: &ExpressionStore, node: Rooted) -> Option<ExprId> {
    let mut steps = Steps::new();
    match node {
        Rooted::Expr(id) if store.covers_expr(id) => {
            Some(store.find_root_for_expr_counted(id, &mut steps))
        }
        Rooted::Pat(id) if store.covers_pat(id) => {
            Some(store.find_root_for_pat_counted(id, &mut steps))
        }
        Rooted::Binding(id) if store.covers_binding(id) => {
            Some(store.find_root_for_binding_counted(id, &mut steps))
        }
        Rooted::Expr(_) | Rooted::Pat(_) | Rooted::Binding(_) => None,
    }
}
