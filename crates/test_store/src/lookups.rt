//! Items by their ids, in each of the six arenas, and the qualifier of a path that a store has.
use crate::build::{NEVER, PATH, Step, WILD};
use crate::outcomes;
use hir_collections::Idx;
use hir_node::{BindingId, Expr, ExprId, LabelId, LifetimeRefId, PatId, TypeRefId};
use hir_store::{ExpressionStore, laws};
use std::alloc::{AllocError, Global};
use std::test::Fail;

/// One item in each arena, and an expression more.
const ITEMS: &[Step] = &[
    Step::Begin,
    PATH,
    PATH,
    WILD,
    NEVER,
    Step::Binding("x"),
    Step::Label("l"),
    Step::Static,
];

/// Which arenas have an item of this number: those of expressions, patterns, bindings, labels, types,
/// lifetimes.
fn have(store: &ExpressionStore, number: u32) -> [bool; 6] {
    let expr: ExprId = Idx::from_raw(number);
    let pat: PatId = Idx::from_raw(number);
    let label: LabelId = Idx::from_raw(number);
    let type_ref: TypeRefId = Idx::from_raw(number);
    let lifetime: LifetimeRefId = Idx::from_raw(number);
    let binding: BindingId = Idx::from_raw(number);
    [
        store.get(expr).is_some(),
        store.get(pat).is_some(),
        store.get(binding).is_some(),
        store.get(label).is_some(),
        store.get(type_ref).is_some(),
        store.get(lifetime).is_some(),
    ]
}

/// Whether the expression is a path, and nothing qualifies it. By the theorems the path may be asked: it has
/// one list for each segment.
fn is_unqualified_path(
    alloc: Global,
    store: &ExpressionStore,
    id: ExprId,
) -> Result<bool, AllocError> {
    store.has_no_fault();
    laws::paths_of_nodes_fit();
    laws::paths_that_fit_have_one_list_each();
    let Some(Expr::Path(path)) = store.get(id) else {
        return Ok(false);
    };
    Ok(path.qualifier(alloc)?.is_none())
}

#[test]
fn items_by_their_ids(rt: HostRuntime) -> Result<(), Fail> {
    let a = rt.alloc();
    let made = outcomes::accept_steps(a, ITEMS)?;
    let store = &made.0;
    let found = [have(store, 0), have(store, 1), have(store, 2)];
    let path = is_unqualified_path(a, store, Idx::from_raw(1));
    let absent = is_unqualified_path(a, store, Idx::from_raw(2));
    std::mem::drop(made);
    let all = [true, true, true, true, true, true];
    let one = [true, false, false, false, false, false];
    let none = [false, false, false, false, false, false];
    assert!(&rt; found == [all, one, none]);
    let (path, absent) = (path?, absent?);
    assert!(&rt; path && !absent);
    Ok(())
}
