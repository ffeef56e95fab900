//! Which uses a body has, what each resolves to, and which bindings nothing uses.
use crate::bodies;
use hir_body::Body;
use hir_error::HirError;
use hir_node::{BindingId, ExprId, ExprOrPatId};
use hir_scope::ExprScopes;
use hir_usages::{Usage, Usages, labels_at, visible_names};
use std::alloc::Global;
use std::test::Fail;

fn usages_in(alloc: Global, body: &Body) -> Result<Usages, HirError> {
    let scopes = ExprScopes::new_body(alloc, body)?;
    Ok(Usages::new(alloc, body, &scopes)?)
}

/// The number of a path: of an expression as it is, of a pattern 100 more.
fn number(usage: &Usage) -> u32 {
    match usage.path {
        ExprOrPatId::ExprId(id) => id.into_raw(),
        ExprOrPatId::PatId(id) => id.into_raw().saturating_add(100),
    }
}

/// The numbers of the paths of these uses.
fn numbers(alloc: Global, usages: &[Usage]) -> Result<Vec<u32>, HirError> {
    let mut numbers = Vec::new(alloc);
    for usage in usages {
        numbers.push(number(usage))?;
    }
    Ok(numbers)
}

/// The numbers of the uses of a binding.
fn of(alloc: Global, body: &Body, binding: u32) -> Result<Vec<u32>, HirError> {
    let usages = usages_in(alloc, body)?;
    numbers(alloc, usages.of(BindingId::from_raw(binding)))
}

/// The numbers of the uses that resolve to nothing.
fn unresolved(alloc: Global, body: &Body) -> Result<Vec<u32>, HirError> {
    let usages = usages_in(alloc, body)?;
    numbers(alloc, usages.unresolved())
}

/// The numbers of the bindings that nothing uses.
fn unused(alloc: Global, body: &Body) -> Result<Vec<u32>, HirError> {
    let usages = usages_in(alloc, body)?;
    let mut numbers = Vec::new(alloc);
    for binding in usages.unused() {
        numbers.push(binding.into_raw())?;
    }
    Ok(numbers)
}

/// How many uses there are.
fn count(alloc: Global, body: &Body) -> Result<usize, HirError> {
    Ok(usages_in(alloc, body)?.iter().count())
}

#[test]
fn a_use_is_of_the_nearest_binding(rt: HostRuntime) -> Result<(), Fail> {
    let alloc = rt.alloc();
    let body = bodies::shadowing(alloc)?;
    assert!(&rt; of(alloc, &body, 0)?.as_slice() == [0].as_slice());
    assert!(&rt; of(alloc, &body, 1)?.as_slice() == [1].as_slice());
    assert!(&rt; of(alloc, &body, 2)?.as_slice() == [2].as_slice());
    assert!(&rt; of(alloc, &body, 3)?.as_slice().is_empty());
    assert!(&rt; count(alloc, &body)? == 3);
    Ok(())
}

#[test]
fn uses_come_in_the_order_of_the_walk(rt: HostRuntime) -> Result<(), Fail> {
    let alloc = rt.alloc();
    let body = bodies::match_arm(alloc)?;
    assert!(&rt; of(alloc, &body, 0)?.as_slice() == [0, 2].as_slice());
    let body = bodies::let_else_body(alloc)?;
    assert!(&rt; unresolved(alloc, &body)?.as_slice() == [1].as_slice());
    assert!(&rt; of(alloc, &body, 1)?.as_slice() == [3].as_slice());
    Ok(())
}

#[test]
fn a_constant_sees_parameters_alone(rt: HostRuntime) -> Result<(), Fail> {
    let alloc = rt.alloc();
    let body = bodies::constant(alloc)?;
    assert!(&rt; of(alloc, &body, 0)?.as_slice() == [0, 1].as_slice());
    assert!(&rt; unresolved(alloc, &body)?.as_slice() == [2].as_slice());
    assert!(&rt; unused(alloc, &body)?.as_slice() == [1].as_slice());
    Ok(())
}

#[test]
fn two_entries_are_one_binding(rt: HostRuntime) -> Result<(), Fail> {
    let alloc = rt.alloc();
    let body = bodies::or_pattern(alloc)?;
    assert!(&rt; unused(alloc, &body)?.as_slice() == [0].as_slice());
    assert!(&rt; unresolved(alloc, &body)?.as_slice() == [0].as_slice());
    Ok(())
}

#[test]
fn a_target_is_a_use(rt: HostRuntime) -> Result<(), Fail> {
    let alloc = rt.alloc();
    let body = bodies::assignment(alloc)?;
    assert!(&rt; of(alloc, &body, 0)?.as_slice() == [101].as_slice());
    assert!(&rt; unresolved(alloc, &body)?.as_slice() == [0].as_slice());
    Ok(())
}

#[test]
fn hygiene_is_part_of_a_name(rt: HostRuntime) -> Result<(), Fail> {
    let alloc = rt.alloc();
    let body = bodies::hygienic(alloc)?;
    assert!(&rt; unresolved(alloc, &body)?.as_slice() == [0].as_slice());
    assert!(&rt; unused(alloc, &body)?.as_slice() == [0, 1].as_slice());
    Ok(())
}

#[test]
fn a_deep_body_is_walked(rt: HostRuntime) -> Result<(), Fail> {
    let alloc = rt.alloc();
    let body = bodies::deep(alloc, 1_000_000)?;
    assert!(&rt; of(alloc, &body, 0)?.as_slice() == [0].as_slice());
    Ok(())
}

/// The bindings of the names that are visible at an expression, or nothing where it has no scope.
fn visible(alloc: Global, body: &Body, expr: u32) -> Result<Vec<u32>, HirError> {
    let scopes = ExprScopes::new_body(alloc, body)?;
    let mut numbers = Vec::new(alloc);
    let Some(scope) = scopes.scope_for(ExprId::from_raw(expr)) else {
        return Ok(numbers);
    };
    for entry in visible_names(alloc, &scopes, scope)?.iter() {
        numbers.push(entry.binding().into_raw())?;
    }
    Ok(numbers)
}

#[test]
fn shadowed_names_are_not_visible(rt: HostRuntime) -> Result<(), Fail> {
    let alloc = rt.alloc();
    let body = bodies::shadowing(alloc)?;
    assert!(&rt; visible(alloc, &body, 0)?.as_slice() == [0].as_slice());
    assert!(&rt; visible(alloc, &body, 1)?.as_slice() == [1, 0].as_slice());
    assert!(&rt; visible(alloc, &body, 2)?.as_slice() == [2, 1].as_slice());
    let body = bodies::or_pattern(alloc)?;
    assert!(&rt; visible(alloc, &body, 0)?.as_slice() == [0].as_slice());
    Ok(())
}

/// The numbers of the labels around an expression.
fn labels(alloc: Global, body: &Body, expr: u32) -> Result<Vec<u32>, HirError> {
    let scopes = ExprScopes::new_body(alloc, body)?;
    let mut numbers = Vec::new(alloc);
    for label in labels_at(alloc, &scopes, ExprId::from_raw(expr))?.iter() {
        numbers.push(label.into_raw())?;
    }
    Ok(numbers)
}

#[test]
fn labels_are_those_around(rt: HostRuntime) -> Result<(), Fail> {
    let alloc = rt.alloc();
    let body = bodies::labelled_loops(alloc)?;
    assert!(&rt; labels(alloc, &body, 0)?.as_slice() == [1, 0].as_slice());
    assert!(&rt; labels(alloc, &body, 1)?.as_slice() == [0].as_slice());
    assert!(&rt; labels(alloc, &body, 3)?.as_slice().is_empty());
    assert!(&rt; labels(alloc, &body, 4)?.as_slice().is_empty());
    Ok(())
}
