//! Questions on equality and on copies, of nodes and of whole stores.

use hir_collections::{ArenaIter, ExactEq, TryClone};
use hir_node::{Binding, Expr, Label, LabelId, LifetimeRef, Pat, TypeRef};
use hir_store::{ExpressionStore, ExpressionStoreSourceMap};
use hir_text_defs::Finished;
use hir_text_nodes::{Answer, Node, put_yes_or_no};
use hir_text_store::{answer_unknown, differs, has_node};
use std::alloc::AllocError;

/// `same-store`: whether the store that is kept equals the one that questions ask.
pub(crate) fn same_store(
    kept: Option<&Finished>,
    store: &ExpressionStore,
    answer: &mut Answer,
) -> Result<(), AllocError> {
    match kept {
        Some(kept) => write_same(kept.0 == *store, kept.0.is_same(store), answer),
        None => answer_unknown(answer),
    }
}

/// `same-sources`: whether the source map that is kept equals the one that questions ask.
pub(crate) fn same_sources(
    kept: Option<&Finished>,
    sources: &ExpressionStoreSourceMap,
    answer: &mut Answer,
) -> Result<(), AllocError> {
    match kept {
        Some(kept) => put_yes_or_no(answer, kept.1 == *sources),
        None => answer_unknown(answer),
    }
}

/// Writes whether two values are equal by `==`, where `is_same` says the same.
pub(crate) fn write_same(
    is_equal: bool,
    is_same: bool,
    answer: &mut Answer,
) -> Result<(), AllocError> {
    if is_equal != is_same {
        return differs(answer);
    }
    put_yes_or_no(answer, is_equal)
}

/// Whether two nodes of one arena are equal, where both are there.
fn write_equal<T: ExactEq>(
    first: Option<&T>,
    second: Option<&T>,
    answer: &mut Answer,
) -> Result<(), AllocError> {
    let Some(first) = first else {
        return answer_unknown(answer);
    };
    match second {
        Some(second) => write_same(*first == *second, first.is_same(second), answer),
        None => answer.word("no"),
    }
}

/// The node, where it is an expression that is there; so the next five for the other arenas.
fn expr_at(store: &ExpressionStore, node: Node) -> Option<&Expr> {
    let Node::Expr(id) = node else {
        return None;
    };
    if store.has_expr(id) {
        Some(&store[id])
    } else {
        None
    }
}

fn pat_at(store: &ExpressionStore, node: Node) -> Option<&Pat> {
    let Node::Pat(id) = node else {
        return None;
    };
    if store.has_pat(id) {
        Some(&store[id])
    } else {
        None
    }
}

fn type_at(store: &ExpressionStore, node: Node) -> Option<&TypeRef> {
    let Node::Type(id) = node else {
        return None;
    };
    if store.has_type(id) {
        Some(&store[id])
    } else {
        None
    }
}

fn binding_at(store: &ExpressionStore, node: Node) -> Option<&Binding> {
    let Node::Binding(id) = node else {
        return None;
    };
    if store.has_binding(id) {
        Some(&store[id])
    } else {
        None
    }
}

fn label_at(store: &ExpressionStore, node: Node) -> Option<&Label> {
    let Node::Label(id) = node else {
        return None;
    };
    if store.has_label(id) {
        Some(&store[id])
    } else {
        None
    }
}

fn lifetime_at(store: &ExpressionStore, node: Node) -> Option<&LifetimeRef> {
    let Node::Lifetime(id) = node else {
        return None;
    };
    if store.has_lifetime(id) {
        Some(&store[id])
    } else {
        None
    }
}

/// Whether two nodes are equal: those of different arenas never are.
fn write_equal_nodes(
    store: &ExpressionStore,
    first: Node,
    second: Node,
    answer: &mut Answer,
) -> Result<(), AllocError> {
    match first {
        Node::Expr(_) => write_equal(expr_at(store, first), expr_at(store, second), answer),
        Node::Pat(_) => write_equal(pat_at(store, first), pat_at(store, second), answer),
        Node::Type(_) => write_equal(type_at(store, first), type_at(store, second), answer),
        Node::Binding(_) => {
            write_equal(binding_at(store, first), binding_at(store, second), answer)
        }
        Node::Label(_) => write_equal(label_at(store, first), label_at(store, second), answer),
        Node::Lifetime(_) => {
            write_equal(
                lifetime_at(store, first),
                lifetime_at(store, second),
                answer,
            )
        }
    }
}

/// `equal NODE NODE`
pub(crate) fn equal(
    store: &ExpressionStore,
    first: &Node,
    second: &Node,
    answer: &mut Answer,
) -> Result<(), AllocError> {
    if has_node(store, *first) && has_node(store, *second) {
        write_equal_nodes(store, *first, *second, answer)
    } else {
        answer_unknown(answer)
    }
}

/// Whether a value is its copy.
fn is_copied<T: TryClone + ExactEq + Drop>(value: &T) -> Result<bool, AllocError> {
    let copy = value.try_clone()?;
    Ok(copy == *value)
}

/// Whether each node of an arena is its copy.
fn are_copied<K, T: TryClone + ExactEq + Drop>(
    nodes: ArenaIter<'_, K, T>,
) -> Result<bool, AllocError> {
    for (_, node) in nodes {
        if !is_copied(node)? {
            return Ok(false);
        }
    }
    Ok(true)
}

/// The same of the labels, of which a store has no list.
fn are_labels_copied(store: &ExpressionStore) -> Result<bool, AllocError> {
    for number in 0..u32::MAX {
        let id = LabelId::from_raw(number);
        if !store.has_label(id) {
            break;
        }
        if !is_copied(&store[id])? {
            return Ok(false);
        }
    }
    Ok(true)
}

/// Whether each node equals its copy.
fn are_all_copied(store: &ExpressionStore) -> Result<bool, AllocError> {
    Ok(
        are_copied(store.exprs())?
            && are_copied(store.pats())?
            && are_copied(store.types())?
            && are_copied(store.bindings())?
            && are_copied(store.lifetimes())?
            && are_labels_copied(store)?,
    )
}

/// `copies`: whether each node, and the store, equals its copy.
pub(crate) fn copies(store: &ExpressionStore, answer: &mut Answer) -> Result<(), AllocError> {
    if are_all_copied(store)? && is_copied(store)? {
        answer.word("equal")
    } else {
        differs(answer)
    }
}
