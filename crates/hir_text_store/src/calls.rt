//! The child calls of nodes and of their parts, as a visitor gets them.
#![tactic(auto, using(hir_node::proofs::RunLemmas::freely))]

use crate::refusals::{answer_unknown, differs};
use hir_collections::Idx;
use hir_node::{
    ExprId, GenericArgs, LifetimeRefId, PatId, Path, StoreVisitor, StoreVisitorExt, TypeBound,
    TypeRefId, visit_generic_args,
};
use hir_store::ExpressionStore;
use hir_text_nodes::{Answer, Node, put, put_prefixed};
use std::alloc::{AllocError, Global};

/// What a visitor is called with, in the order of the calls, or what a walk visits.
#[derive(Drop)]
pub(crate) struct Recorder {
    text: Answer,
    /// The last refusal of memory, after which the text isn't all of it.
    outcome: Result<(), AllocError>,
}

impl Recorder {
    /// No calls.
    pub(crate) fn new(alloc: Global) -> Recorder {
        Recorder {
            text: Answer::new(alloc),
            outcome: Ok(()),
        }
    }

    fn call<K>(&mut self, kind: &str, id: Idx<K>) {
        if let Err(refused) = put_prefixed(&mut self.text, kind, &Some(id)) {
            self.outcome = Err(refused);
        }
    }

    /// Notes an id.
    pub(crate) fn visit<K>(&mut self, id: Idx<K>) {
        if let Err(refused) = put(&mut self.text, &id) {
            self.outcome = Err(refused);
        }
    }

    /// Returns what was noted, or that an allocation failed.
    pub(crate) fn as_str(&self) -> Result<&str, AllocError> {
        match &self.outcome {
            Ok(()) => Ok(self.text.as_str()),
            Err(refused) => Err(*refused),
        }
    }
}

/// Writes what was noted, where both ways to it give the same.
pub(crate) fn put_same(
    answer: &mut Answer,
    first: &Recorder,
    second: &Recorder,
) -> Result<(), AllocError> {
    let noted = first.as_str()?;
    if noted != second.as_str()? {
        return differs(answer);
    }
    answer.join(noted)
}

impl StoreVisitor for Recorder {
    ghost step = { λ _ _ _. Unit {0} };

    fn on_expr(&mut self, expr: ExprId) {
        self.call("expr:", expr);
    }

    fn on_anon_const_expr(&mut self, expr: ExprId) {
        self.call("const:", expr);
    }

    fn on_pat(&mut self, pat: PatId) {
        self.call("pat:", pat);
    }

    fn on_type(&mut self, type_ref: TypeRefId) {
        self.call("type:", type_ref);
    }

    fn on_lifetime(&mut self, lifetime: LifetimeRefId) {
        self.call("lifetime:", lifetime);
    }
}

/// `calls path PATH`
pub(crate) fn put_of_path(answer: &mut Answer, path: &Path) -> Result<(), AllocError> {
    let mut calls = Recorder::new(answer.alloc());
    calls.on_path(path);
    answer.join(calls.as_str()?)
}

/// `calls bound BOUND`
pub(crate) fn put_of_bound(answer: &mut Answer, bound: &TypeBound) -> Result<(), AllocError> {
    let mut calls = Recorder::new(answer.alloc());
    calls.on_type_bound(bound);
    answer.join(calls.as_str()?)
}

/// `calls args ARGS`, by both ways to them.
pub(crate) fn put_of_args(answer: &mut Answer, args: &GenericArgs) -> Result<(), AllocError> {
    let mut first = Recorder::new(answer.alloc());
    visit_generic_args(&mut first, args);
    let mut second = Recorder::new(answer.alloc());
    second.on_generic_args(args);
    put_same(answer, &first, &second)
}

/// Visits the children of a node, by the store and by the node alone; returns whether the node exists. A
/// binding, a label and a lifetime have no children.
fn visit(
    store: &ExpressionStore,
    node: Node,
    by_store: &mut Recorder,
    by_node: &mut Recorder,
) -> bool {
    match node {
        Node::Expr(id) if store.has_expr(id) => {
            store.visit_expr_children(id, by_store);
            store[id].visit_children(by_node);
            true
        }
        Node::Pat(id) if store.has_pat(id) => {
            store.visit_pat_children(id, by_store);
            store[id].visit_children(by_node);
            true
        }
        Node::Type(id) if store.has_type(id) => {
            store.visit_type_ref_children(id, by_store);
            store[id].visit_children(by_node);
            true
        }
        Node::Expr(_) | Node::Pat(_) | Node::Type(_) => false,
        Node::Binding(id) => store.has_binding(id),
        Node::Label(id) => store.has_label(id),
        Node::Lifetime(id) => store.has_lifetime(id),
    }
}

/// `calls NODE`
pub(crate) fn put_of_node(
    answer: &mut Answer,
    store: &ExpressionStore,
    node: Node,
) -> Result<(), AllocError> {
    let mut by_store = Recorder::new(answer.alloc());
    let mut by_node = Recorder::new(answer.alloc());
    if !visit(store, node, &mut by_store, &mut by_node) {
        return answer_unknown(answer);
    }
    put_same(answer, &by_store, &by_node)
}
