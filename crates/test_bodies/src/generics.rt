//! Lists of generic parameters: iterators from both ends, and lists that are compared.
use crate::memory::{copies, in_a_box};
use crate::params::{Entry, LifetimeOf, ParamLists, Predicate, make_params, meets_for_a};
use hir_base::{FunctionId, GenericDefId, Name};
use hir_collections::{ArenaIter, ExactEq, Idx};
use hir_signature::{BoundLifetimes, GenericParams, LifetimeParamData, generic_laws};
use std::alloc::{AllocError, Global};
use std::test::Fail;

/// The type `Self` of a trait, the type `T`, the constant `N`, five lifetimes, and two predicates. Three of
/// the lifetimes are bound early and two late, so that no count of the ones is right for the others.
const ALL: ParamLists = ParamLists {
    types: TYPES,
    lifetimes: LIFETIMES,
    predicates: &[Predicate::MeetsForA, Predicate::Outlives],
};

/// The lists of `ALL` without the last predicate.
const ONE_PREDICATE: ParamLists = ParamLists {
    types: TYPES,
    lifetimes: LIFETIMES,
    predicates: &[Predicate::MeetsForA],
};

const TYPES: &[Entry] = &[Entry::TraitSelf, Entry::Type("T"), Entry::Constant("N")];

const LIFETIMES: &[LifetimeOf] = &[
    LifetimeOf::Early("'a"),
    LifetimeOf::Late("'b"),
    LifetimeOf::Early("'c"),
    LifetimeOf::Late("'d"),
    LifetimeOf::Early("'e"),
];

/// A constant, and after it types of its name.
const CONSTANT_AND_TYPES: ParamLists = ParamLists {
    types: &[Entry::Constant("N"), Entry::Type("N"), Entry::Type("N")],
    lifetimes: &[],
    predicates: &[],
};

/// Nothing.
const EMPTY: ParamLists = ParamLists {
    types: &[],
    lifetimes: &[],
    predicates: &[],
};

/// Function 6, whose parameters the tests look for.
fn parent() -> GenericDefId {
    GenericDefId::FunctionId(FunctionId::from_raw(6))
}

/// Whether the type `T`, the constant `N` and the lifetime `'c` are found as parameters of function 6.
fn are_of_parent(params: &GenericParams, names: &[Name; 3]) -> bool {
    let [t, n, c] = names;
    let of_type = match params.find_type_by_name(t, parent()) {
        Some(id) => id.parent() == parent(),
        None => false,
    };
    let of_constant = match params.find_const_by_name(n, parent()) {
        Some(id) => id.parent() == parent(),
        None => false,
    };
    let of_lifetime = match params.find_lifetime_by_name(c, parent()) {
        Some(id) => id.parent == parent(),
        None => false,
    };
    of_type && of_constant && of_lifetime
}

/// The names `T`, `N` and `'c`.
fn names(alloc: Global) -> Result<Box<[Name; 3]>, AllocError> {
    let t = Name::new(alloc, "T")?;
    let n = Name::new(alloc, "N")?;
    let c = Name::new(alloc, "'c")?;
    in_a_box(alloc, [t, n, c])
}

#[test]
fn what_is_found_is_of_its_parent(rt: HostRuntime) -> Result<(), Fail> {
    generic_laws::finds_answer_the_first();
    let params = make_params(rt.alloc(), &ALL)?;
    let names = names(rt.alloc())?;
    let are_of_parent = are_of_parent(&params, &names);
    std::mem::drop(params);
    std::mem::drop(names);
    assert!(&rt; are_of_parent);
    assert!(&rt; GenericParams::self_param_id_in_self() == Idx::from_raw(0));
    Ok(())
}

/// Whether this is the early bound `'e`.
fn is_e(lifetime: &LifetimeParamData) -> bool {
    lifetime.name.as_str() == "'e" && lifetime.is_early_bound() && !lifetime.is_late_bound()
}

/// Whether the ids begin with the `Self` of a trait, and end with the constant 2 and the lifetime 4, which is
/// `'e`.
fn has_ends(params: &GenericParams) -> bool {
    let (first, constant) = (Idx::from_raw(0), Idx::from_raw(2));
    let e = Idx::from_raw(4);
    params.has_type_or_const(first)
        && params[first].is_trait_self()
        && params.has_type_or_const(constant)
        && !params.has_type_or_const(Idx::from_raw(3))
        && params[constant].const_param().is_some()
        && !params[constant].is_trait_self()
        && params.has_lifetime(e)
        && !params.has_lifetime(Idx::from_raw(5))
        && is_e(&params[e])
}

/// The order of items as a number: each is a digit, counted from 1, in the order in which they come when they
/// are asked for from both ends in turn.
fn order<K, T>(mut items: ArenaIter<'_, K, T>) -> u32 {
    let mut order = 0u32;
    while let Some((id, _)) = items.next() {
        order = with_digit(order, id.into_raw());
        if let Some((id, _)) = items.next_back() {
            order = with_digit(order, id.into_raw());
        }
    }
    order
}

fn with_digit(order: u32, id: u32) -> u32 {
    order.wrapping_mul(10).wrapping_add(id).wrapping_add(1)
}

/// The order of lifetimes that are all bound so, as a number of digits too.
fn bound_order(mut lifetimes: BoundLifetimes<'_>, early: bool) -> Option<u32> {
    let mut order = 0u32;
    while let Some((id, lifetime)) = lifetimes.next() {
        if lifetime.is_early_bound() != early {
            return None;
        }
        order = with_digit(order, id.into_raw());
        if let Some((id, lifetime)) = lifetimes.next_back() {
            if lifetime.is_early_bound() != early {
                return None;
            }
            order = with_digit(order, id.into_raw());
        }
    }
    Some(order)
}

/// Whether all iterators of the four kinds come in their order, and so does a copy of one.
fn come_in_order(params: &GenericParams) -> Result<bool, AllocError> {
    let early = params.iter_early_bound_lt();
    let copy = early.clone()?;
    Ok(
        order(params.iter_type_or_consts()) == 132
            && order(params.iter_lt()) == 15243
            && bound_order(early, true) == Some(153)
            && bound_order(copy, true) == Some(153)
            && bound_order(params.iter_late_bound_lt(), false) == Some(24),
    )
}

/// Whether there are parameters and predicates, by all that golden cases don't ask; a copy of a predicate is
/// asked too.
fn are_all(alloc: Global, params: &GenericParams) -> Result<bool, AllocError> {
    let is_full = !params.is_empty() && !params.has_no_predicates() && has_ends(params);
    let ordered = come_in_order(params)?;
    let copied = copies(meets_for_a(alloc)?)?;
    Ok(is_full && ordered && copied)
}

#[test]
fn ends_and_orders(rt: HostRuntime) -> Result<(), Fail> {
    generic_laws::lifetimes_are_early_or_late();
    let params = make_params(rt.alloc(), &ALL)?;
    let are_all = are_all(rt.alloc(), &params);
    std::mem::drop(params);
    assert!(&rt; are_all?);
    Ok(())
}

/// Whether there are no parameters.
fn are_none(params: GenericParams) -> bool {
    params.is_empty() && params.has_no_predicates() && params.where_predicates().is_empty()
}

/// Whether the parameters of these two are equal, by `==` and by `is_same`.
fn are_equal(alloc: Global, left: &ParamLists, right: &ParamLists) -> Result<(bool, bool), Fail> {
    let left = make_params(alloc, left)?;
    let right = make_params(alloc, right)?;
    Ok((*left == *right, left.is_same(&right)))
}

/// Parameters, and whether they equal those of `ALL`.
const COMPARED: &[(ParamLists, bool)] = &[
    (ALL, true),
    (ONE_PREDICATE, false),
    (CONSTANT_AND_TYPES, false),
    (EMPTY, false),
];

#[test]
fn parameters_compare_by_all_fields(rt: HostRuntime) -> Result<(), Fail> {
    assert!(&rt; are_none(GenericParams::empty(rt.alloc())));
    for (other, wanted) in COMPARED {
        assert!(&rt; are_equal(rt.alloc(), &ALL, other)? == (*wanted, *wanted));
    }
    Ok(())
}
