//! The iterator over ancestors: what is left of it in a copy and at its end, and a chain 1,000,000 deep.
use crate::build::{PATH, Step, WILD};
use crate::nodes::ExprStep;
use crate::outcomes;
use hir_collections::Idx;
use hir_node::ExprId;
use hir_store::NodeId;
use std::test::Fail;

/// A `let` in a tuple. Pattern 0 is in the `let`, expression 1, which is in the tuple, expression 2.
const LET_IN_TUPLE: &[Step] = &[
    WILD,
    PATH,
    Step::Expr(ExprStep::Let(0, 0)),
    Step::Expr(ExprStep::Tuple(&[1])),
    Step::Root(2),
];

/// Expressions each of which has the one before.
const CHAIN: &[Step] = &[Step::Begin, Step::Chain(1_000_001)];

/// The expression of this number.
fn expr(number: u32) -> Option<NodeId> {
    let id: ExprId = Idx::from_raw(number);
    Some(NodeId::Expr(id))
}

#[test]
fn ancestors_are_taken_one_after_the_other(rt: HostRuntime) -> Result<(), Fail> {
    let made = outcomes::accept_steps(rt.alloc(), LET_IN_TUPLE)?;
    let mut ancestors = made.0.ancestors(NodeId::Pat(Idx::from_raw(0)));
    let first = ancestors.next();
    let mut copy = ancestors.clone()?;
    let second = ancestors.next();
    let end = (ancestors.next(), ancestors.next());
    let copied = (copy.next(), copy.next());
    std::mem::drop(made);
    assert!(&rt; first == expr(1) && second == expr(2) && end == (None, None));
    assert!(&rt; copied == (expr(2), None));
    Ok(())
}

#[test]
fn ancestors_on_a_long_chain(rt: HostRuntime) -> Result<(), Fail> {
    let made = outcomes::accept_steps(rt.alloc(), CHAIN)?;
    let store = &made.0;
    let leaf: ExprId = Idx::from_raw(0);
    let top = store.ancestors(NodeId::Expr(leaf)).last();
    let enclosing = (store.enclosing_loop(leaf), store.enclosing_closure(leaf));
    std::mem::drop(made);
    assert!(&rt; top == expr(1_000_000));
    assert!(&rt; enclosing == (None, None));
    Ok(())
}
