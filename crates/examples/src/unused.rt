//! Finds the bindings of a body that no path resolves to: a check for unused variables.

use crate::assigned::targets;
use crate::bodies::names;
use hir::{ArenaMap, BindingId, BindingKind, Body, ExprScopes, ExpressionStore, HirError};
use std::alloc::Global;

/// A set of bindings.
type Bindings = ArenaMap<BindingKind, ()>;

/// The bindings that paths resolve to: expressions, and variables that are assigned to.
fn used(alloc: Global, store: &ExpressionStore, scopes: &ExprScopes) -> Result<Bindings, HirError> {
    let mut used = ArenaMap::with_capacity(alloc, store.bindings().len())?;
    for (id, expr) in store.exprs() {
        if let Some(binding) = scopes.binding_at(store, id) {
            used.insert(binding, ())?;
        }
        for &pat in &targets(alloc, store, expr)? {
            if let Some(binding) = scopes.target_binding_at(store, id, pat) {
                used.insert(binding, ())?;
            }
        }
    }
    Ok(used)
}

/// The bindings that no path resolves to. Those of `self` aren't among them, since a method has to take
/// `self`.
fn unused(alloc: Global, body: &Body) -> Result<Vec<BindingId>, HirError> {
    let scopes = ExprScopes::new_body(alloc, body)?;
    let used = used(alloc, body.store(), &scopes)?;
    let mut unused = Vec::new(alloc);
    for (id, _) in body.store().bindings() {
        if used.get(id).is_none() && !body.is_any_self_param(id) {
            unused.push(id)?;
        }
    }
    Ok(unused)
}

/// Prints the name of each of these bindings.
fn print_all(rt: &impl Print, store: &ExpressionStore, found: &[BindingId]) -> anyhow::Result<()> {
    for &id in found {
        if store.has_binding(id) {
            println!(rt; "`{}` isn't used", store[id].name.as_str())?;
        }
    }
    Ok(())
}

/// Prints those of the body `names`.
pub fn print(rt: &impl Print, alloc: Global) -> anyhow::Result<()> {
    let body = names(alloc)?;
    let found = unused(alloc, &body)?;
    print_all(rt, body.store(), &found)
}
