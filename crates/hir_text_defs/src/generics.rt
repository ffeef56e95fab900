//! Questions on generic parameters.

use hir_base::{GenericDefId, LocalLifetimeParamId, Name};
use hir_defs::{BoundLifetimes, GenericParams};
use hir_text_nodes::{Answer, Write, put, put_found};
use std::alloc::AllocError;

/// A question on the generic parameters of a definition.
#[derive(Drop)]
pub enum GenericsQuestion {
    Counts,
    TypesAndConsts,
    Lifetimes,
    EarlyLifetimes,
    LateLifetimes,
    Predicates,
    TraitSelf,
    FindType(Name),
    FindConst(Name),
    FindLifetime(Name),
    LifetimeIndex(LocalLifetimeParamId),
}

/// Writes a number and what has it, in a line of their own.
fn put_numbered<T: Write>(answer: &mut Answer, number: u32, item: &T) -> Result<(), AllocError> {
    answer.next_line()?;
    put(answer, &(number, item))
}

fn put_counts(answer: &mut Answer, params: &GenericParams) -> Result<(), AllocError> {
    put(
        answer,
        &("len", params.len(), "no-late", params.len_no_late()),
    )?;
    put(answer, &("lifetimes", params.len_lifetimes()))?;
    put(answer, &("early", params.len_early_bound_lifetimes()))?;
    put(answer, &("late", params.len_late_bound_lifetimes()))?;
    put(answer, &("type-or-consts", params.len_type_or_consts()))?;
    put(answer, &("predicates", params.where_predicates().len()))
}

/// Writes lifetimes that are bound early, or late.
fn put_bound(answer: &mut Answer, lifetimes: BoundLifetimes<'_>) -> Result<(), AllocError> {
    for (id, lifetime) in lifetimes {
        put_numbered(answer, id.into_raw(), lifetime)?;
    }
    Ok(())
}

fn put_predicates(answer: &mut Answer, params: &GenericParams) -> Result<(), AllocError> {
    let mut number: u32 = 0;
    for predicate in params.where_predicates() {
        put_numbered(answer, number, predicate)?;
        number = number.saturating_add(1);
    }
    Ok(())
}

/// Writes the index of a lifetime among those that are bound when it is.
fn put_index(
    answer: &mut Answer,
    params: &GenericParams,
    id: LocalLifetimeParamId,
) -> Result<(), AllocError> {
    match params.lifetime_param_idx(&id) {
        Some((index, is_late)) => put(answer, &(index, if is_late { "late" } else { "early" })),
        None => answer.word("none"),
    }
}

impl GenericsQuestion {
    /// Writes the answer of the parameters of a definition.
    pub(crate) fn ask(
        &self,
        params: &GenericParams,
        def: GenericDefId,
        answer: &mut Answer,
    ) -> Result<(), AllocError> {
        match self {
            GenericsQuestion::Counts => put_counts(answer, params),
            GenericsQuestion::TypesAndConsts => {
                for (id, param) in params.iter_type_or_consts() {
                    put_numbered(answer, id.into_raw(), param)?;
                }
                Ok(())
            }
            GenericsQuestion::Lifetimes => {
                for (id, lifetime) in params.iter_lt() {
                    put_numbered(answer, id.into_raw(), lifetime)?;
                }
                Ok(())
            }
            GenericsQuestion::EarlyLifetimes => put_bound(answer, params.iter_early_bound_lt()),
            GenericsQuestion::LateLifetimes => put_bound(answer, params.iter_late_bound_lt()),
            GenericsQuestion::Predicates => put_predicates(answer, params),
            GenericsQuestion::TraitSelf => put_found(answer, &params.trait_self_param()),
            GenericsQuestion::FindType(name) => match params.find_type_by_name(name, def) {
                Some(id) => put(answer, &id.local_id()),
                None => answer.word("none"),
            },
            GenericsQuestion::FindConst(name) => match params.find_const_by_name(name, def) {
                Some(id) => put(answer, &id.local_id()),
                None => answer.word("none"),
            },
            GenericsQuestion::FindLifetime(name) => match params.find_lifetime_by_name(name, def) {
                Some(id) => put(answer, &id.local_id),
                None => answer.word("none"),
            },
            GenericsQuestion::LifetimeIndex(id) => put_index(answer, params, *id),
        }
    }
}
