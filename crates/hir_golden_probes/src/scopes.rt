//! Whether scopes that are made in several ways are the same.

use crate::equality::write_same;
use hir_base::{ExpressionStoreOwnerId, Steps};
use hir_collections::ExactEq;
use hir_defs::{Body, Tables};
use hir_scope::{ExprScopes, ScopesFault};
use hir_text_defs::{Asked, Finished};
use hir_text_nodes::{Answer, TextError, put};
use hir_text_store::{answer_unknown, differs, refuse};
use std::alloc::{AllocError, Global};

/// The scopes that were made. Where there are none, the answer says why.
fn open_scopes(
    alloc: Global,
    outcome: Result<ExprScopes, ScopesFault>,
    answer: &mut Answer,
) -> Result<Option<Box<ExprScopes>>, TextError> {
    match outcome {
        Ok(scopes) => Ok(Some(Box::new(alloc, scopes)?)),
        Err(ScopesFault::Memory) => Err(TextError::Memory),
        Err(fault) => {
            refuse(answer, &fault)?;
            Ok(None)
        }
    }
}

/// The scopes of what is asked: of a body, or else of a store.
fn make_scopes(alloc: Global, asked: &Asked<'_>) -> Result<ExprScopes, ScopesFault> {
    match asked.body() {
        Some(body) => ExprScopes::new_body(alloc, body),
        None => ExprScopes::new_store(alloc, asked.store),
    }
}

/// Writes how many scopes and entries there are.
fn write_counts(scopes: &ExprScopes, answer: &mut Answer) -> Result<(), AllocError> {
    let (scopes, entries) = (scopes.scope_count(), scopes.entry_count());
    put(answer, &(scopes, "scopes", entries, "entries"))
}

/// The scopes of an owner's store, by the call for its kind.
fn made_by_kind(
    alloc: Global,
    tables: &Tables,
    owner: ExpressionStoreOwnerId,
) -> Result<ExprScopes, ScopesFault> {
    match owner {
        ExpressionStoreOwnerId::Signature(def) => ExprScopes::sig_expr_scopes(alloc, tables, def),
        ExpressionStoreOwnerId::Body(def) => ExprScopes::body_expr_scopes(alloc, tables, def),
        ExpressionStoreOwnerId::VariantFields(id) => ExprScopes::variant_scopes(alloc, tables, id),
    }
}

/// An owner that is lent to the call for whatever converts into one: at an owner itself the prover's borrow
/// checker can't build the proof of the call.
#[derive(Clone, Copy)]
struct OwnerRef<'a>(&'a ExpressionStoreOwnerId);

impl From<OwnerRef<'_>> for ExpressionStoreOwnerId {
    fn from(owner: OwnerRef<'_>) -> ExpressionStoreOwnerId {
        *owner.0
    }
}

/// The scopes of an owner's store, by the call for all kinds.
fn made_of_owner(
    alloc: Global,
    tables: &Tables,
    owner: &ExpressionStoreOwnerId,
) -> Result<ExprScopes, ScopesFault> {
    ExprScopes::of(alloc, tables, OwnerRef(owner))
}

/// Whether scopes that were made are the same as these. Where there are none, the answer says why.
fn compared(
    alloc: Global,
    outcome: Result<ExprScopes, ScopesFault>,
    scopes: &ExprScopes,
    answer: &mut Answer,
) -> Result<Option<bool>, TextError> {
    match open_scopes(alloc, outcome, answer)? {
        Some(others) => Ok(Some(*scopes == *others)),
        None => Ok(None),
    }
}

/// Writes how many scopes and entries there are, where others were the same. Where there were none, the
/// answer says why.
fn write_compared(
    is_same: Option<bool>,
    scopes: &ExprScopes,
    answer: &mut Answer,
) -> Result<(), AllocError> {
    match is_same {
        Some(true) => write_counts(scopes, answer),
        Some(false) => differs(answer),
        None => Ok(()),
    }
}

/// Compares scopes with those that are made by a lookup of the owner, of which both calls find some or none.
fn ask_looked_up(
    alloc: Global,
    tables: &Tables,
    owner: &ExpressionStoreOwnerId,
    scopes: &ExprScopes,
    answer: &mut Answer,
) -> Result<(), TextError> {
    let by_kind = compared(alloc, made_by_kind(alloc, tables, *owner), scopes, answer)?;
    let of_all = compared(alloc, made_of_owner(alloc, tables, owner), scopes, answer)?;
    if by_kind != of_all {
        return Ok(differs(answer)?);
    }
    Ok(write_compared(by_kind, scopes, answer)?)
}

/// Compares the scopes of the store that is asked with those that are made by a lookup of an owner.
fn ask_by_owner(
    alloc: Global,
    asked: &Asked<'_>,
    owner: &ExpressionStoreOwnerId,
    answer: &mut Answer,
) -> Result<(), TextError> {
    match open_scopes(alloc, make_scopes(alloc, asked), answer)? {
        Some(scopes) => ask_looked_up(alloc, asked.tables, owner, &scopes, answer),
        None => Ok(()),
    }
}

/// `scopes-by-tables [OWNER]`: the same of the store that is asked, by its owner or by the one that is named.
pub(crate) fn ask_by_tables(
    alloc: Global,
    asked: &Asked<'_>,
    named: &Option<ExpressionStoreOwnerId>,
    answer: &mut Answer,
) -> Result<(), TextError> {
    if let Some(owner) = named {
        return ask_by_owner(alloc, asked, owner, answer);
    }
    match &asked.owner {
        Some(owner) => ask_by_owner(alloc, asked, owner, answer),
        None => Ok(answer_unknown(answer)?),
    }
}

/// `same-scopes`: whether the scopes of the store that is kept equal those of the one that is asked.
pub(crate) fn ask_same(
    alloc: Global,
    kept: Option<&Finished>,
    asked: &Asked<'_>,
    answer: &mut Answer,
) -> Result<(), TextError> {
    let Some(kept) = kept else {
        return Ok(answer_unknown(answer)?);
    };
    let Some(first) = open_scopes(alloc, ExprScopes::new_store(alloc, &kept.0), answer)? else {
        return Ok(());
    };
    match open_scopes(alloc, make_scopes(alloc, asked), answer)? {
        Some(second) => Ok(write_same(*first == *second, first.is_same(&second), answer)?),
        None => Ok(()),
    }
}

/// `counted-scopes`: compares the scopes of a body with those that are counted.
pub(crate) fn ask_counted(
    alloc: Global,
    asked: &Asked<'_>,
    answer: &mut Answer,
) -> Result<(), TextError> {
    match asked.body() {
        Some(body) => compare_counted(alloc, body, answer),
        None => Ok(answer_unknown(answer)?),
    }
}

/// Writes how many scopes and entries a body has, where they are the same by the call that counts.
fn compare_counted(alloc: Global, body: &Body, answer: &mut Answer) -> Result<(), TextError> {
    let mut steps = Steps::new();
    let counted = ExprScopes::new_body_counted(alloc, body, &mut steps);
    let Some(counted) = open_scopes(alloc, counted, answer)? else {
        return Ok(());
    };
    let is_same = compared(alloc, ExprScopes::new_body(alloc, body), &counted, answer)?;
    Ok(write_compared(is_same, &counted, answer)?)
}
