//! Finds what each closure of a body captures.

ghost use Rattle.std.specs.Prelude.{◌↔◌, ℕ, IsSome};
ghost use Rattle.std.specs.FinMap as map;
ghost use Rattle.hir.specs.NodeId.TheVariants as node;
ghost use Rattle.hir.specs.Bodies.{BodyReaches};
ghost use Rattle.hir.specs.BodyScopes.{ChainsAreFrames, entry_nodes_of_body};

use crate::bodies::closures;
use hir::{
    BindingId, Body, CapturesFault, ExprId, ExprScopes, ExpressionStore, HirError, captures,
};
use std::alloc::Global;

/// A closure, and the bindings from outside that its code uses, in the order of their first use.
#[derive(Drop)]
struct ClosureCaptures {
    closure: ExprId,
    bindings: Vec<BindingId>,
}

/// What each closure of the body captures, in the order of their ids. An expression that the body doesn't
/// reach isn't among them.
fn captures_by_closure(
    alloc: Global,
    body: &Body,
    scopes: &ExprScopes,
) -> Result<Vec<ClosureCaptures>, HirError>
    requires reached { (expr : ℕ) → IsSome (map.get scopes.now.scope_by_expr expr)
        ↔ BodyReaches body.now (node.Expr expr) }
    requires chains { ChainsAreFrames body.now.store.nodes (entry_nodes_of_body body.now) scopes.now }
{
    let mut found = Vec::new(alloc);
    for (closure, _) in body.store().exprs() {
        match captures(alloc, body, scopes, closure) {
            Ok(bindings) => found.push(ClosureCaptures { closure, bindings })?,
            Err(CapturesFault::NotAClosure) => {}
            Err(fault) => return Err(fault.into()),
        }
    }
    Ok(found)
}

/// What each closure of the body captures, with scopes made for it.
fn captures_of_body(alloc: Global, body: &Body) -> Result<Vec<ClosureCaptures>, HirError> {
    let scopes = ExprScopes::new_body(alloc, body)?;
    captures_by_closure(alloc, body, &scopes)
}

/// Prints a closure, and the names of what it captures.
fn print_one(
    rt: &impl Print,
    store: &ExpressionStore,
    found: &ClosureCaptures,
) -> anyhow::Result<()> {
    println!(rt; "closure {} captures", found.closure.into_raw())?;
    for &binding in &found.bindings {
        if store.has_binding(binding) {
            println!(rt; "    {}", store[binding].name.as_str())?;
        }
    }
    Ok(())
}

/// Prints those of the body `closures`.
pub fn print(rt: &impl Print, alloc: Global) -> anyhow::Result<()> {
    let body = closures(alloc)?;
    for found in &captures_of_body(alloc, &body)? {
        print_one(rt, body.store(), found)?;
    }
    Ok(())
}
