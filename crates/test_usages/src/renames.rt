//! Which renames are accepted, and the first conflict of those that aren't.
use crate::bodies;
use hir_base::Name;
use hir_body::Body;
use hir_error::HirError;
use hir_node::{BindingId, ExprId, ExprOrPatId};
use hir_scope::ExprScopes;
use hir_usages::{RenameFault, rename};
use std::alloc::Global;
use std::test::Fail;

/// How many uses change when the binding of this number takes this name, or why it can't.
fn outcome(
    alloc: Global,
    body: &Body,
    binding: u32,
    name: &str,
) -> Result<Result<usize, RenameFault>, HirError> {
    let scopes = ExprScopes::new_body(alloc, body)?;
    let name = Name::new(alloc, name)?;
    match rename(alloc, body, &scopes, BindingId::from_raw(binding), &name) {
        Ok(usages) => Ok(Ok(usages.len())),
        Err(fault) => Ok(Err(fault)),
    }
}

fn expr(id: u32) -> ExprOrPatId {
    ExprOrPatId::ExprId(ExprId::from_raw(id))
}

/// The use of this path would find this binding.
fn hidden(usage: ExprOrPatId, by: u32) -> Result<usize, RenameFault> {
    Err(RenameFault::Hidden {
        usage,
        by: BindingId::from_raw(by),
    })
}

/// The use of this path, which resolved to this binding, would find the one that is renamed.
fn captures(usage: ExprOrPatId, was: Option<u32>) -> Result<usize, RenameFault> {
    Err(RenameFault::Captures {
        usage,
        was: was.map(BindingId::from_raw),
    })
}

#[test]
fn shadowing_that_harms_nothing_is_accepted(rt: HostRuntime) -> Result<(), Fail> {
    let alloc = rt.alloc();
    let body = bodies::shadowing(alloc)?;
    assert!(&rt; outcome(alloc, &body, 0, "y")? == Ok(1));
    assert!(&rt; outcome(alloc, &body, 1, "x")? == Ok(1));
    assert!(&rt; outcome(alloc, &body, 2, "y")? == Ok(1));
    assert!(&rt; outcome(alloc, &body, 2, "x")? == Ok(1));
    assert!(&rt; outcome(alloc, &body, 0, "new")? == Ok(1));
    Ok(())
}

#[test]
fn an_argument_of_a_closure_hides_and_captures(rt: HostRuntime) -> Result<(), Fail> {
    let alloc = rt.alloc();
    let body = bodies::nested_closure(alloc)?;
    assert!(&rt; outcome(alloc, &body, 0, "b")? == hidden(expr(1), 1));
    assert!(&rt; outcome(alloc, &body, 1, "a")? == captures(expr(1), Some(0)));
    Ok(())
}

#[test]
fn a_match_arm_hides_and_captures(rt: HostRuntime) -> Result<(), Fail> {
    let alloc = rt.alloc();
    let body = bodies::match_arm(alloc)?;
    assert!(&rt; outcome(alloc, &body, 0, "y")? == hidden(expr(2), 1));
    assert!(&rt; outcome(alloc, &body, 1, "x")? == captures(expr(2), Some(0)));
    Ok(())
}

#[test]
fn what_resolved_to_nothing_is_captured(rt: HostRuntime) -> Result<(), Fail> {
    let alloc = rt.alloc();
    let body = bodies::let_else_body(alloc)?;
    assert!(&rt; outcome(alloc, &body, 0, "y")? == captures(expr(1), None));
    assert!(&rt; outcome(alloc, &body, 1, "x")? == Ok(1));
    Ok(())
}

#[test]
fn a_condition_binds_in_the_then_branch_alone(rt: HostRuntime) -> Result<(), Fail> {
    let alloc = rt.alloc();
    let body = bodies::condition_that_reads_a(alloc)?;
    assert!(&rt; outcome(alloc, &body, 1, "a")? == captures(expr(2), Some(0)));
    assert!(&rt; outcome(alloc, &body, 0, "b")? == hidden(expr(2), 1));
    let body = bodies::condition_that_reads_b(alloc)?;
    assert!(&rt; outcome(alloc, &body, 1, "a")? == Ok(1));
    assert!(&rt; outcome(alloc, &body, 0, "b")? == Ok(2));
    Ok(())
}

#[test]
fn a_constant_is_captured_by_parameters_alone(rt: HostRuntime) -> Result<(), Fail> {
    let alloc = rt.alloc();
    let body = bodies::constant(alloc)?;
    assert!(&rt; outcome(alloc, &body, 0, "b")? == hidden(expr(1), 1));
    assert!(&rt; outcome(alloc, &body, 1, "c")? == Ok(0));
    let body = bodies::constant_alone(alloc)?;
    assert!(&rt; outcome(alloc, &body, 0, "b")? == captures(expr(1), None));
    assert!(&rt; outcome(alloc, &body, 0, "c")? == Ok(0));
    Ok(())
}

#[test]
fn two_entries_take_one_name(rt: HostRuntime) -> Result<(), Fail> {
    let alloc = rt.alloc();
    let body = bodies::or_pattern(alloc)?;
    assert!(&rt; outcome(alloc, &body, 0, "z")? == Ok(0));
    assert!(&rt; outcome(alloc, &body, 0, "y")? == captures(expr(0), None));
    Ok(())
}

#[test]
fn a_target_is_renamed_and_captured(rt: HostRuntime) -> Result<(), Fail> {
    let alloc = rt.alloc();
    let body = bodies::assignment(alloc)?;
    assert!(&rt; outcome(alloc, &body, 0, "z")? == Ok(1));
    assert!(&rt; outcome(alloc, &body, 0, "y")? == captures(expr(0), None));
    Ok(())
}

#[test]
fn one_frame_has_a_name_once(rt: HostRuntime) -> Result<(), Fail> {
    let alloc = rt.alloc();
    let body = bodies::one_frame(alloc)?;
    let other = BindingId::from_raw(1);
    assert!(&rt; outcome(alloc, &body, 0, "b")? == Err(RenameFault::SameFrame { other }));
    assert!(&rt; outcome(alloc, &body, 0, "a")? == Ok(1));
    assert!(&rt; outcome(alloc, &body, 0, "self")? == Err(RenameFault::IsSelf));
    assert!(&rt; outcome(alloc, &body, 7, "b")? == Err(RenameFault::NotBound));
    Ok(())
}

#[test]
fn hygiene_keeps_names_apart(rt: HostRuntime) -> Result<(), Fail> {
    let alloc = rt.alloc();
    let body = bodies::hygienic(alloc)?;
    assert!(&rt; outcome(alloc, &body, 0, "y")? == Ok(0));
    assert!(&rt; outcome(alloc, &body, 1, "x")? == captures(expr(0), None));
    Ok(())
}
