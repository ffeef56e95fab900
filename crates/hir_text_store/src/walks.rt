//! What the walks over expressions and patterns visit.

use crate::calls::{Recorder, put_same};
use crate::refusals::answer_unknown;
use hir_node::{BindingId, ExprId, PatId};
use hir_store::ExpressionStore;
use hir_text_nodes::Answer;
use std::alloc::AllocError;

/// A walk from a node.
#[derive(Clone, Copy)]
pub enum Walk {
    Children(ExprId),
    ChildrenWithoutPats(ExprId),
    Pats(PatId),
    PatsShallow(PatId),
    Bindings(PatId),
    Exprs(PatId),
}

/// Does a walk; returns whether its node exists.
fn visit(store: &ExpressionStore, walk: Walk, found: &mut Recorder) -> bool {
    match walk {
        Walk::Children(id) if store.has_expr(id) => {
            store.walk_child_exprs(id, &mut |child: ExprId| found.visit(child));
            true
        }
        Walk::ChildrenWithoutPats(id) if store.has_expr(id) => {
            store.walk_child_exprs_without_pats(id, &mut |child: ExprId| found.visit(child));
            true
        }
        Walk::Pats(id) if store.has_pat(id) => {
            store.walk_pats(id, &mut |pat: PatId| found.visit(pat));
            true
        }
        Walk::PatsShallow(id) if store.has_pat(id) => {
            store.walk_pats_shallow(id, &mut |pat: PatId| found.visit(pat));
            true
        }
        Walk::Bindings(id) if store.has_pat(id) => {
            store.walk_bindings_in_pat(id, &mut |binding: BindingId| found.visit(binding));
            true
        }
        Walk::Exprs(id) if store.has_pat(id) => {
            store.walk_exprs_in_pat(id, &mut |expr: ExprId| found.visit(expr));
            true
        }
        Walk::Children(_)
        | Walk::ChildrenWithoutPats(_)
        | Walk::Pats(_)
        | Walk::PatsShallow(_)
        | Walk::Bindings(_)
        | Walk::Exprs(_) => false,
    }
}

/// Writes what a walk visits.
pub(crate) fn put_visited(
    answer: &mut Answer,
    store: &ExpressionStore,
    walk: Walk,
) -> Result<(), AllocError> {
    let mut found = Recorder::new(answer.alloc());
    if !visit(store, walk, &mut found) {
        return answer_unknown(answer);
    }
    answer.join(found.as_str()?)
}

/// Writes the child patterns of a pattern, by the iterator and by the walk.
pub(crate) fn put_child_pats(
    answer: &mut Answer,
    store: &ExpressionStore,
    id: PatId,
) -> Result<(), AllocError> {
    let Some(pat) = store.get(id) else {
        return answer_unknown(answer);
    };
    let mut by_walk = Recorder::new(answer.alloc());
    pat.walk_child_pats(&mut |child: PatId| by_walk.visit(child));
    let mut found = Recorder::new(answer.alloc());
    for child in pat.child_pats() {
        found.visit(child);
    }
    put_same(answer, &found, &by_walk)
}
