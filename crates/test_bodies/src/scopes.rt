//! The scopes along a chain, all scopes, and the expressions that have a scope, item by item, to their end
//! and after it.
#![tactic(auto)]

use hir_body::Body;
use hir_collections::Idx;
use hir_error::HirError;
use hir_make::{bind, body, closure, local};
use hir_scope::{ExprScopes, ScopeId, ScopesFault};
use hir_store::ExpressionStoreBuilder;
use hir_store_core::ExpressionStore;
use std::alloc::Global;
use std::mem::size_of;
use std::test::Fail;

/// The body of `fn f(a) |x| |x| a`. `a` is expression 0, the inner closure is 1, and the outer one is 2.
///
/// The binding of the parameter is 0, and those of the closures are numbered as these are.
fn closures(alloc: Global) -> Result<Body, HirError> {
    let mut builder = ExpressionStoreBuilder::new(alloc);
    let a = bind(alloc, &mut builder, "a")?;
    let mut value = local(alloc, &mut builder, "a")?;
    for _ in 0..2 {
        let x = bind(alloc, &mut builder, "x")?;
        value = closure(alloc, &mut builder, &[x], value)?;
    }
    body(alloc, builder, &[a], value)
}

/// The scopes that were made, in a box: what is dropped is then a pointer.
fn opened(
    alloc: Global,
    outcome: Result<ExprScopes, ScopesFault>,
) -> Result<Box<ExprScopes>, Fail> {
    Ok(Box::new(alloc, outcome?)?)
}

/// Whether from `a` in `|x| |x| a` there are three scopes, the inner closure's first and the body's last, and
/// none after them.
fn chain_ends(scopes: &ExprScopes) -> bool {
    let inner = scopes.scope_for(Idx::from_raw(0));
    let outer = scopes.scope_for(Idx::from_raw(1));
    let around = scopes.scope_for(Idx::from_raw(2));
    let mut chain = scopes.scope_chain(inner);
    let found = [
        chain.next(),
        chain.next(),
        chain.next(),
        chain.next(),
        chain.next(),
    ];
    inner.is_some()
        && inner != outer
        && outer != around
        && found == [inner, outer, around, None, None]
}

/// Whether there is none from no scope.
fn is_empty_from_none(scopes: &ExprScopes) -> bool {
    scopes.scope_chain(None).next().is_none()
}

/// Whether the expressions 0, 1 and 2 have a scope, each the one that is asked for, and no other has one.
fn are_scoped(scopes: &ExprScopes) -> bool {
    let mut scoped = scopes.scope_by_expr().iter();
    let mut are = true;
    for number in 0..3 {
        let id = Idx::from_raw(number);
        are = are
            && match scoped.next() {
                Some((expr, scope)) => expr == id && Some(*scope) == scopes.scope_for(id),
                None => false,
            };
    }
    are && scoped.next().is_none() && scoped.next().is_none()
}

/// Whether all scopes are three, by number, and none is after them.
fn all_end(scopes: &ExprScopes) -> bool {
    let mut all = scopes.scopes();
    let found = [all.next(), all.next(), all.next(), all.next(), all.next()];
    let [body, outer, inner] = [
        ScopeId::from_raw(0),
        ScopeId::from_raw(1),
        ScopeId::from_raw(2),
    ];
    found == [Some(body), Some(outer), Some(inner), None, None]
}

/// Whether each scope is around the one that was made after it.
fn each_is_in_the_one_before(scopes: &ExprScopes) -> bool {
    let mut before = None;
    for scope in scopes.scopes() {
        if scopes.parent(scope) != before {
            return false;
        }
        before = Some(scope);
    }
    true
}

/// Whether the scope of `a` has one entry, the inner `x`.
fn has_one_entry(scopes: &ExprScopes) -> bool {
    let Some(scope) = scopes.scope_for(Idx::from_raw(0)) else {
        return false;
    };
    match scopes.entries(scope) {
        [entry] => entry.name().as_str() == "x" && entry.binding() == Idx::from_raw(1),
        _ => false,
    }
}

#[test]
fn chains_maps_and_entries(rt: HostRuntime) -> Result<(), Fail> {
    let body = Box::new(rt.alloc(), closures(rt.alloc())?)?;
    let scopes = opened(rt.alloc(), ExprScopes::new_body(rt.alloc(), &body))?;
    let are_asked = [
        chain_ends(&scopes),
        is_empty_from_none(&scopes),
        are_scoped(&scopes),
        has_one_entry(&scopes),
        all_end(&scopes),
        each_is_in_the_one_before(&scopes),
    ];
    std::mem::drop(scopes);
    std::mem::drop(body);
    assert!(&rt; are_asked == [true; 6]);
    Ok(())
}

/// The store of two roots, each `|x| a`: the expressions 0 and 1, and then 2 and 3.
fn two_roots(alloc: Global) -> Result<ExpressionStore, HirError> {
    let mut builder = ExpressionStoreBuilder::new(alloc);
    for _ in 0..2 {
        let x = bind(alloc, &mut builder, "x")?;
        let value = local(alloc, &mut builder, "a")?;
        let root = closure(alloc, &mut builder, &[x], value)?;
        builder.push_root(root)?;
    }
    let (store, _sources) = builder.finish()?;
    Ok(store)
}

/// Whether the scopes of the first root, its own and that of its closure, come before those of the second.
fn are_numbered_root_by_root(scopes: &ExprScopes) -> bool {
    let found = [
        scopes.scope_for(Idx::from_raw(1)),
        scopes.scope_for(Idx::from_raw(0)),
        scopes.scope_for(Idx::from_raw(3)),
        scopes.scope_for(Idx::from_raw(2)),
    ];
    let [first, inner, second, last] = [
        ScopeId::from_raw(1),
        ScopeId::from_raw(2),
        ScopeId::from_raw(3),
        ScopeId::from_raw(4),
    ];
    found == [Some(first), Some(inner), Some(second), Some(last)]
}

#[test]
fn roots_are_numbered_one_by_one(rt: HostRuntime) -> Result<(), Fail> {
    let store = Box::new(rt.alloc(), two_roots(rt.alloc())?)?;
    let scopes = opened(rt.alloc(), ExprScopes::new_store(rt.alloc(), &store))?;
    let are_numbered = are_numbered_root_by_root(&scopes);
    std::mem::drop(scopes);
    std::mem::drop(store);
    assert!(&rt; are_numbered);
    Ok(())
}

#[test]
fn small_bodies_have_small_scopes(rt: HostRuntime) {
    assert!(rt; size_of::<Body>() <= 300);
    assert!(rt; size_of::<ExprScopes>() <= 160);
}
