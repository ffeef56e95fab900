//! Sets of nodes, and the nodes that lie under them.
ghost use Rattle.std.specs.Prelude.{◌≡◌, IfOk};
ghost use Rattle.hir_validate.specs.Nodes.{sizes_of};

use crate::build::{PATH, Step, WILD};
use crate::nodes::ExprStep;
use crate::outcomes;
use hir_collections::Idx;
use hir_node::{ExprId, PatId};
use hir_store::{ExpressionStore, NodeSet};
use std::alloc::{AllocError, Global};
use std::test::Fail;

/// A `let` in a tuple. The descendants of the `let`, expression 1, are expression 0 and pattern 0; pattern 1
/// is disjoint; expression 2 is the root.
const LET_IN_TUPLE: &[Step] = &[
    WILD,
    WILD,
    PATH,
    Step::Expr(ExprStep::Let(0, 0)),
    Step::Expr(ExprStep::Tuple(&[1])),
    Step::Root(2),
];

/// The set of the `let` and of the pattern that is disjoint.
fn mark_nodes(alloc: Global, store: &ExpressionStore) -> Result<NodeSet, AllocError>
    ensures { IfOk result (λ set. set.sizes ≡ sizes_of store.now.nodes) }
{
    let mut entry_nodes = store.no_nodes(alloc)?;
    if store.has_expr(Idx::from_raw(1)) {
        entry_nodes.add_expr(Idx::from_raw(1));
    }
    if store.has_pat(Idx::from_raw(1)) {
        entry_nodes.add_pat(Idx::from_raw(1));
    }
    Ok(entry_nodes)
}

/// Whether a set has an expression and a pattern, where the store has them.
type Answer = (Option<bool>, Option<bool>);

/// Whether the set has the expression and the pattern of this number.
fn answer_of_set(store: &ExpressionStore, set: &NodeSet, number: u32) -> Answer
    requires { set.now.sizes ≡ sizes_of store.now.nodes }
{
    let id = ExprId::from_raw(number);
    let expr = if store.has_expr(id) {
        Some(set.has_expr(id))
    } else {
        None
    };
    let id = PatId::from_raw(number);
    let pat = if store.has_pat(id) {
        Some(set.has_pat(id))
    } else {
        None
    };
    (expr, pat)
}

/// What a set of no nodes and the set of the marked ones have of number 1, and the set of the descendants of
/// these of 0, 1 and 2.
fn all_held(alloc: Global, store: &ExpressionStore) -> Result<[Answer; 5], AllocError> {
    let none = store.no_nodes(alloc)?;
    let in_none = answer_of_set(store, &none, 1);
    std::mem::drop(none);
    let entry_nodes = mark_nodes(alloc, store)?;
    let in_entry_nodes = answer_of_set(store, &entry_nodes, 1);
    let under = store.under(alloc, &entry_nodes);
    std::mem::drop(entry_nodes);
    let under = under?;
    let all = [
        in_none,
        in_entry_nodes,
        answer_of_set(store, &under, 0),
        answer_of_set(store, &under, 1),
        answer_of_set(store, &under, 2),
    ];
    std::mem::drop(under);
    Ok(all)
}

#[test]
fn what_lies_under_marked_nodes(rt: HostRuntime) -> Result<(), Fail> {
    let a = rt.alloc();
    let made = outcomes::accept_steps(a, LET_IN_TUPLE)?;
    let all_held = all_held(a, &made.0);
    std::mem::drop(made);
    let (zip_ok, neither) = ((Some(true), Some(true)), (Some(false), Some(false)));
    assert!(&rt; all_held? == [neither, zip_ok, zip_ok, neither, (Some(false), None)]);
    Ok(())
}
