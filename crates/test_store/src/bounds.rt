//! Whether what a bound names exists, and whether it is a path. Golden cases have which path it is.
use crate::build::{NEVER, Step};
use crate::nodes::TypeStep;
use crate::outcomes;
use hir_collections::Idx;
use hir_node::{PathId, TraitBoundModifier, TypeBound};
use hir_store::ExpressionStore;
use std::test::Fail;

/// The types `a` and `!`.
const TYPES: &[Step] = &[Step::Type(TypeStep::Path), NEVER];

/// Whether what the bound by the type of this number names exists, and whether it is a path.
fn names(store: &ExpressionStore, number: u32) -> (bool, bool) {
    let id = PathId::from_type_ref_unchecked(Idx::from_raw(number));
    let bound = TypeBound::Path(id, TraitBoundModifier::Maybe);
    (store.has_bound(&bound), store.bound_names_path(&bound))
}

#[test]
fn what_bounds_name(rt: HostRuntime) -> Result<(), Fail> {
    let made = outcomes::accept_steps(rt.alloc(), TYPES)?;
    let store = &made.0;
    let named = [names(store, 0), names(store, 1), names(store, 2)];
    std::mem::drop(made);
    assert!(&rt; named == [(true, true), (true, false), (false, false)]);
    Ok(())
}
