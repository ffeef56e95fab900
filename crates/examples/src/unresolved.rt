//! Finds the paths of a body that are one name and resolve to nothing.

use crate::assigned::targets;
use crate::bodies::names;
use hir::{Body, Expr, ExprOrPatId, ExprScopes, HirError, Pat, local_name};
use std::alloc::Global;

/// The paths that may be a local variable's name and resolve to none: expressions, and variables that are
/// assigned to. What is defined outside the body, as a function, is among them. An expression that the body
/// doesn't reach has no scope, and no name is looked up there.
fn unresolved(alloc: Global, body: &Body) -> Result<Vec<ExprOrPatId>, HirError> {
    let scopes = ExprScopes::new_body(alloc, body)?;
    let store = body.store();
    let mut found = Vec::new(alloc);
    for (id, expr) in store.exprs() {
        if scopes.scope_for(id).is_none() {
            continue;
        }
        if let Expr::Path(path) = expr
            && local_name(path).is_some()
            && scopes.binding_at(store, id).is_none()
        {
            found.push(ExprOrPatId::ExprId(id))?;
        }
        for &pat in &targets(alloc, store, expr)? {
            if store.has_pat(pat)
                && let Pat::Path(path) = &store[pat]
                && local_name(path).is_some()
                && scopes.target_binding_at(store, id, pat).is_none()
            {
                found.push(ExprOrPatId::PatId(pat))?;
            }
        }
    }
    Ok(found)
}

/// Prints that each resolves to nothing.
fn print_all(rt: &impl Print, found: &[ExprOrPatId]) -> anyhow::Result<()> {
    for id in found {
        match id {
            ExprOrPatId::ExprId(id) => println!(rt;
                "expression {} resolves to nothing",
                id.into_raw()
            )?,
            ExprOrPatId::PatId(id) => println!(rt;
                "pattern {} resolves to nothing",
                id.into_raw()
            )?,
        }
    }
    Ok(())
}

/// Prints those of the body `names`.
pub fn print(rt: &impl Print, alloc: Global) -> anyhow::Result<()> {
    let body = names(alloc)?;
    let found = unresolved(alloc, &body)?;
    print_all(rt, &found)
}
