//! Renamed bodies, as they are printed.
use crate::bodies;
use hir_base::{DefWithBodyId, Edition, ExpressionStoreOwnerId, FunctionId, Name};
use hir_body::Body;
use hir_defs::Tables;
use hir_error::HirError;
use hir_node::{BindingId, ExprId, PatId};
use hir_pretty::{print_expr_hir, print_pat_hir};
use hir_scope::ExprScopes;
use hir_usages::{RenameFault, renamed};
use std::alloc::Global;
use std::test::Fail;

fn owner() -> ExpressionStoreOwnerId {
    ExpressionStoreOwnerId::Body(DefWithBodyId::FunctionId(FunctionId::from_raw(0)))
}

/// The text of the pattern of this number, in one line, or nothing where there is none.
fn pat_text(alloc: Global, body: &Body, pat: u32) -> Result<String, HirError> {
    let pat = PatId::from_raw(pat);
    if !body.store().has_pat(pat) {
        return Ok(String::new(alloc));
    }
    let tables = Tables::new(alloc);
    let edition = Edition::Edition2021;
    Ok(print_pat_hir(alloc, &tables, body.store(), owner(), pat, true, edition)?)
}

/// The text of what the body evaluates to.
fn root_text(alloc: Global, body: &Body) -> Result<String, HirError> {
    let root: ExprId = body.root_expr();
    let tables = Tables::new(alloc);
    let edition = Edition::Edition2021;
    Ok(print_expr_hir(alloc, &tables, body.store(), owner(), root, edition)?)
}

/// The body in which the binding of this number has this name, or why it may not have it.
fn with_name(
    alloc: Global,
    body: &Body,
    binding: u32,
    name: &str,
) -> Result<Result<Body, RenameFault>, HirError> {
    let scopes = ExprScopes::new_body(alloc, body)?;
    let name = Name::new(alloc, name)?;
    Ok(renamed(alloc, body, &scopes, BindingId::from_raw(binding), &name))
}

#[test]
fn a_short_field_prints_its_new_name(rt: HostRuntime) -> Result<(), Fail> {
    let alloc = rt.alloc();
    let body = bodies::record(alloc)?;
    assert!(&rt; pat_text(alloc, &body, 2)?.as_str() == "Point { x, y }");
    assert!(&rt; root_text(alloc, &body)?.as_str() == "x");
    let body = with_name(alloc, &body, 0, "a")??;
    assert!(&rt; pat_text(alloc, &body, 2)?.as_str() == "Point { x: a, y }");
    assert!(&rt; root_text(alloc, &body)?.as_str() == "a");
    // (and back: the field is short again)
    let body = with_name(alloc, &body, 0, "x")??;
    assert!(&rt; pat_text(alloc, &body, 2)?.as_str() == "Point { x, y }");
    Ok(())
}

#[test]
fn a_target_prints_the_new_name(rt: HostRuntime) -> Result<(), Fail> {
    let alloc = rt.alloc();
    let body = bodies::assignment(alloc)?;
    let body = with_name(alloc, &body, 0, "z")??;
    assert!(&rt; pat_text(alloc, &body, 1)?.as_str() == "z");
    assert!(&rt; root_text(alloc, &body)?.as_str() == "z = y");
    Ok(())
}

/// Why there is no body, where there is none.
fn refusal(renamed: Result<Body, RenameFault>) -> Option<RenameFault> {
    match renamed {
        Ok(body) => {
            drop(body);
            None
        }
        Err(fault) => Some(fault),
    }
}

#[test]
fn a_conflict_makes_no_body(rt: HostRuntime) -> Result<(), Fail> {
    let alloc = rt.alloc();
    let body = bodies::record(alloc)?;
    let other = BindingId::from_raw(1);
    let fault = refusal(with_name(alloc, &body, 0, "y")?);
    assert!(&rt; fault == Some(RenameFault::SameFrame { other }));
    if let Some(fault) = fault {
        assert!(&rt; format!(in alloc; "{fault}")?.as_str() == "SameFrame");
    }
    Ok(())
}
