//! The children of an expression in the order in which scopes are made, beside the order in which they are
//! written.
#![tactic(auto, using(hir_node::proofs::RunLemmas::freely))]

use hir_collections::Idx;
use hir_node::{Expr, ExprId, LifetimeRefId, PatId, StoreVisitor, TypeRefId};
use hir_scope::visit_in_scope_order;
use std::test::Fail;

/// A visitor that keeps the places at which it was called with the pattern and with the expression, from 1
/// on.
#[derive(Drop)]
struct Places {
    calls: u32,
    pat: u32,
    expr: u32,
}

impl StoreVisitor for Places {
    ghost step = { λ _ _ _. Unit {0} };

    fn on_expr(&mut self, _expr: ExprId) {
        self.calls = self.calls.wrapping_add(1);
        self.expr = self.calls;
    }

    fn on_anon_const_expr(&mut self, _expr: ExprId) {}

    fn on_pat(&mut self, _pat: PatId) {
        self.calls = self.calls.wrapping_add(1);
        self.pat = self.calls;
    }

    fn on_type(&mut self, _type_ref: TypeRefId) {}

    fn on_lifetime(&mut self, _lifetime: LifetimeRefId) {}
}

const NONE: Places = Places {
    calls: 0,
    pat: 0,
    expr: 0,
};

/// The places of the pattern and of the expression: in the order of scopes, and as they are written.
fn orders(expr: &Expr) -> ((u32, u32), (u32, u32)) {
    let mut of_scopes = NONE;
    visit_in_scope_order(expr, &mut of_scopes);
    let mut written = NONE;
    expr.visit_children(&mut written);
    ((of_scopes.pat, of_scopes.expr), (written.pat, written.expr))
}

#[test]
fn what_is_matched_comes_first(rt: HostRuntime) -> Result<(), Fail> {
    let condition = Expr::Let {
        pat: Idx::from_raw(0),
        expr: Idx::from_raw(0),
    };
    let assignment = Expr::Assignment {
        target: Idx::from_raw(0),
        value: Idx::from_raw(0),
    };
    assert!(&rt; orders(&condition) == ((2, 1), (1, 2)));
    assert!(&rt; orders(&assignment) == ((1, 2), (1, 2)));
    Ok(())
}
