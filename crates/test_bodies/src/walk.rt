//! A body as a new user builds it, by calls, and walks over it: the children of each expression, and what is
//! visited below the root. What the body and its store give is given back to them with nothing asked in
//! between.
#![tactic(auto, using(hir_store_core::proofs::GivenLemmas::id_is_in_range, hir_node::proofs::RunLemmas::freely))]

use hir_body::Body;
use hir_error::HirError;
use hir_make::{bind, block, body, let_, local};
use hir_node::{Expr, ExprId, LifetimeRefId, Mutability, PatId, Rawness, TypeRefId};
use hir_store::{ExpressionStore, ExpressionStoreBuilder, StoreVisitor};
use std::alloc::Global;
use std::test::Fail;

/// `{ let x = &x; x }`, the body of a function with the parameter `x`.
fn build_body(alloc: Global) -> Result<Body, HirError> {
    let mut builder = ExpressionStoreBuilder::new(alloc);
    let param = bind(alloc, &mut builder, "x")?;
    let local_x = bind(alloc, &mut builder, "x")?;
    let read = local(alloc, &mut builder, "x")?;
    let by_ref = builder.alloc_expr(Expr::Ref {
        expr: read,
        rawness: Rawness::Ref,
        mutability: Mutability::Shared,
    })?;
    let tail = local(alloc, &mut builder, "x")?;
    let statements = vec![in alloc; let_(local_x, by_ref)]?;
    let value = block(&mut builder, statements, tail)?;
    body(alloc, builder, &[param], value)
}

/// How many expressions and patterns were visited.
#[derive(Drop)]
struct Counts {
    exprs: usize,
    pats: usize,
}

impl StoreVisitor for Counts {
    ghost step = { λ _ _ _. Unit {0} };

    fn on_expr(&mut self, _: ExprId) {
        self.exprs = self.exprs.saturating_add(1);
    }

    fn on_anon_const_expr(&mut self, _: ExprId) {}

    fn on_pat(&mut self, _: PatId) {
        self.pats = self.pats.saturating_add(1);
    }

    fn on_type(&mut self, _: TypeRefId) {}

    fn on_lifetime(&mut self, _: LifetimeRefId) {}
}

/// How many children all expressions have together.
fn count_children(store: &ExpressionStore) -> usize {
    let mut count = 0usize;
    for (id, _) in store.exprs() {
        store.walk_child_exprs(
            id,
            &mut |_child: ExprId| {
                count = count.saturating_add(1);
            },
        );
    }
    count
}

/// How many bindings all patterns bind together, each counted in every pattern around it.
fn count_bindings(store: &ExpressionStore) -> usize {
    let mut count = 0usize;
    for (id, _) in store.pats() {
        store.walk_bindings_in_pat(
            id,
            &mut |_binding| {
                count = count.saturating_add(1);
            },
        );
    }
    count
}

/// What is visited below the root.
fn below_the_root(body: &Body) -> Counts {
    let mut counts = Counts { exprs: 0, pats: 0 };
    body.store()
        .visit_expr_children(body.root_expr(), &mut counts);
    counts
}

#[test]
fn walks(rt: HostRuntime) -> Result<(), Fail> {
    let body = build_body(rt.alloc())?;
    let children = count_children(body.store());
    let bindings = count_bindings(body.store());
    let counts = below_the_root(&body);
    let root = body.root_expr().into_raw();
    std::mem::drop(body);
    // The block has the initializer and its tail as children, the reference what is referred to.
    assert!(&rt; children == 3 && bindings == 2);
    assert!(&rt; counts.exprs == 2 && counts.pats == 1 && root == 3);
    Ok(())
}
