//! A long chain, the empty store, roots from the back, and builders that are compared.
use crate::build::{BuildFault, NEVER, PATH, Step, WILD};
use crate::entries::Entry;
use crate::nodes::ExprStep;
use crate::outcomes;
use hir_collections::Idx;
use hir_store::ExprRoots;
use std::alloc::Global;
use std::test::Fail;

/// A path, and 100,000 expressions each of which holds the one before.
const CHAIN: &[Step] = &[Step::Begin, Step::Chain(100_001)];

#[test]
fn a_chain_and_nothing(rt: HostRuntime) -> Result<(), Fail> {
    let a = rt.alloc();
    let made = outcomes::accept_steps(a, CHAIN)?;
    let chain_is_empty = outcomes::is_empty(&made.0, a);
    std::mem::drop(made);
    let made = outcomes::accept_steps(a, &[])?;
    let is_empty = outcomes::is_empty(&made.0, a);
    std::mem::drop(made);
    assert!(&rt; is_empty & !chain_is_empty);
    Ok(())
}

/// The roots 2 and 4, with two patterns and a binding made between them, and an expression after.
const TWO_ROOTS: &[Step] = &[
    PATH,
    PATH,
    Step::Expr(ExprStep::Tuple(&[0, 1])),
    Step::Root(2),
    WILD,
    WILD,
    Step::Binding("x"),
    PATH,
    Step::Expr(ExprStep::Tuple(&[3])),
    Step::Root(4),
    PATH,
];

/// Whether the roots are 4 from the end, and then 2 from the first on alone.
fn are_4_and_2(mut roots: ExprRoots<'_>) -> bool {
    let last = roots.next_back();
    let first = roots.next();
    let is_last = last == Some(Idx::from_raw(4));
    let is_first = first == Some(Idx::from_raw(2));
    is_last & is_first & roots.next().is_none()
}

#[test]
fn roots_from_the_back(rt: HostRuntime) -> Result<(), Fail> {
    let made = outcomes::accept_steps(rt.alloc(), TWO_ROOTS)?;
    let are_4_and_2 = are_4_and_2(made.0.expr_roots());
    std::mem::drop(made);
    assert!(&rt; are_4_and_2);
    Ok(())
}

/// One step of each kind, which each changes an empty builder.
const STEPS: &[Step] = &[
    Step::Begin,
    Step::Root(0),
    PATH,
    WILD,
    NEVER,
    Step::Binding("x"),
    Step::Label("l"),
    Step::Static,
    Step::Entry(Entry::Expr, 5),
    Step::Entry(Entry::ExprBack, 5),
    Step::Entry(Entry::Pat, 5),
    Step::Entry(Entry::PatBack, 5),
    Step::Entry(Entry::Label, 5),
    Step::Entry(Entry::LabelBack, 5),
    Step::Entry(Entry::Type, 5),
    Step::Entry(Entry::TypeBack, 5),
    Step::Entry(Entry::Lifetime, 5),
    Step::Entry(Entry::LifetimeBack, 5),
    Step::Entry(Entry::FieldBack, 5),
    Step::Entry(Entry::PatFieldBack, 5),
    Step::Entry(Entry::Expansion, 5),
    Step::Entry(Entry::Definition, 5),
    Step::Entry(Entry::Diagnostic, 5),
    Step::Entry(Entry::Hygiene, 5),
    Step::Entry(Entry::Block, 5),
    Step::Entry(Entry::Owner, 5),
];

/// Whether each of these steps makes another builder than none.
fn each_changes(alloc: Global, steps: &[Step]) -> Result<bool, BuildFault> {
    for step in steps.chunks(1) {
        match outcomes::differ(alloc, &[], step) {
            Ok(true) => {}
            outcome => return outcome,
        }
    }
    Ok(true)
}

#[test]
fn builders_that_differ_in_one_step(rt: HostRuntime) -> Result<(), Fail> {
    let a = rt.alloc();
    assert!(&rt; each_changes(a, STEPS)?);
    assert!(&rt; !outcomes::differ(a, STEPS, STEPS)?);
    Ok(())
}
