//! Tests of whether the ids that parameters, predicates and fields name exist.

ghost use Rattle.std.specs.Prelude.{◌≡◌, nat_lt, length};
ghost use Rattle.std.specs.List.{list_all};
ghost use Rattle.hir_node.specs.ChildCalls.{a, l, t, opt};
ghost use Rattle.hir_validate.specs.TestedParts.{is_path_at};
ghost use Rattle.hir_signature.specs.Signatures.{param_calls, predicate_calls, predicate_paths, field_calls, all_in_range, generics_in_range, generics_name_paths, types_in_range};

use crate::generic_params::GenericParams;
use crate::signatures::FieldData;
use crate::{TypeOrConstParamData, WherePredicate};
use hir_node::{ExprId, LifetimeRefId, TypeRefId};
use hir_store_core::ExpressionStore;

fn has_expr(store: &ExpressionStore, id: ExprId) -> bool
    ensures { result ≡ nat_lt id (length store.now.nodes.exprs) }
{
    store.has_expr(id)
}

fn has_type(store: &ExpressionStore, id: TypeRefId) -> bool
    ensures { result ≡ nat_lt id (length store.now.nodes.types) }
{
    store.has_type(id)
}

fn has_lifetime(store: &ExpressionStore, id: LifetimeRefId) -> bool
    ensures { result ≡ nat_lt id (length store.now.nodes.lifetimes) }
{
    store.has_lifetime(id)
}

/// Returns whether the type, if any, exists.
pub(crate) fn has_type_opt(store: &ExpressionStore, id: Option<TypeRefId>) -> bool
    ensures { result ≡ all_in_range store.now.nodes (opt t id) }
{
    match id {
        Some(id) => has_type(store, id),
        None => true,
    }
}

/// Returns whether the expression, if any, exists.
fn has_expr_opt(store: &ExpressionStore, id: Option<ExprId>) -> bool
    ensures { result ≡ all_in_range store.now.nodes (opt a id) }
{
    match id {
        Some(id) => has_expr(store, id),
        None => true,
    }
}

fn has_param(store: &ExpressionStore, param: &TypeOrConstParamData) -> bool
    ensures { result ≡ all_in_range store.now.nodes (param_calls param.now) }
{
    match param {
        TypeOrConstParamData::TypeParamData(param) => has_type_opt(store, param.default),
        TypeOrConstParamData::ConstParamData(param) => match param.default {
            Some(default) => has_type(store, param.ty) && has_expr(store, default.expr),
            None => has_type(store, param.ty),
        },
    }
}

fn has_params(store: &ExpressionStore, params: &[TypeOrConstParamData]) -> bool
    ensures { result ≡ list_all (λ p. all_in_range store.now.nodes (param_calls p)) params.now }
{
    params.iter().all(|param| has_param(store, param))
}

fn has_predicate(store: &ExpressionStore, predicate: &WherePredicate) -> bool
    ensures { result ≡ all_in_range store.now.nodes (predicate_calls predicate.now) }
{
    match predicate {
        WherePredicate::TypeBound {
            lifetimes: _,
            target,
            bound,
        } => { has_type(store, *target) && store.has_bound(bound) }
        WherePredicate::Lifetime { target, bound } => {
            has_lifetime(store, *target) && has_lifetime(store, *bound)
        }
    }
}

fn has_predicates(store: &ExpressionStore, predicates: &[WherePredicate]) -> bool
    ensures { result ≡ list_all (λ w. all_in_range store.now.nodes (predicate_calls w)) predicates.now }
{
    predicates
        .iter()
        .all(|predicate| has_predicate(store, predicate))
}

/// Returns whether each id of the parameters and predicates exists.
pub(crate) fn has_generics(store: &ExpressionStore, generics: &GenericParams) -> bool
    ensures { result ≡ generics_in_range store.now.nodes generics.now }
{
    has_params(store, generics.type_or_consts())
        && has_predicates(store, generics.where_predicates())
}

fn names_paths(store: &ExpressionStore, predicate: &WherePredicate) -> bool
    ensures { result ≡ list_all (is_path_at store.now.nodes.types) (predicate_paths predicate.now) }
{
    match predicate {
        WherePredicate::TypeBound {
            lifetimes: _,
            target: _,
            bound,
        } => store.bound_names_path(bound),
        WherePredicate::Lifetime {
            target: _,
            bound: _,
        } => true,
    }
}

fn predicates_name_paths(store: &ExpressionStore, predicates: &[WherePredicate]) -> bool
    ensures { result ≡
        list_all (λ w. list_all (is_path_at store.now.nodes.types) (predicate_paths w)) predicates.now }
{
    predicates
        .iter()
        .all(|predicate| names_paths(store, predicate))
}

/// Returns whether what the predicates name as paths are paths.
pub(crate) fn generics_name_paths(store: &ExpressionStore, generics: &GenericParams) -> bool
    ensures { result ≡ generics_name_paths store.now.nodes generics.now }
{
    predicates_name_paths(store, generics.where_predicates())
}

/// Returns whether each type exists.
pub(crate) fn has_types(store: &ExpressionStore, ids: &[TypeRefId]) -> bool
    ensures { result ≡ types_in_range store.now.nodes ids.now }
{
    ids.iter().all(|id| has_type(store, *id))
}

fn has_field(store: &ExpressionStore, field: &FieldData) -> bool
    ensures { result ≡ all_in_range store.now.nodes (field_calls field.now) }
{
    has_type(store, field.type_ref) && has_expr_opt(store, field.default_value)
}

/// Returns whether each id of the fields exists.
pub(crate) fn has_fields(store: &ExpressionStore, fields: &[FieldData]) -> bool
    ensures { result ≡ list_all (λ f. all_in_range store.now.nodes (field_calls f)) fields.now }
{
    fields.iter().all(|field| has_field(store, field))
}
