//! The line `body`, and the questions on a body's parameters.

use crate::pending::Pending;
use crate::subject::{Finished, Subject, ask_accepted, ask_again};
use hir_base::{DefWithBodyId, ExpressionStoreOwnerId};
use hir_collections::{Idx, Seq};
use hir_defs::{Body, BodyFault, BodySourceMap, Param, RefusedBody, Tables, TablesOf};
use hir_node::BindingId;
use hir_store::ExpressionStore;
use hir_text_nodes::{Answer, TextError, Words, next, put, put_yes_or_no};
use hir_text_store::{answer_unknown, done, refuse};
use std::alloc::AllocError;
use std::mem;

/// Lets the parts of a body that was refused wait again. Returns its store.
fn take_back(
    refused: RefusedBody,
    pending: &mut Pending,
    answer: &mut Answer,
) -> Result<ExpressionStore, TextError> {
    let RefusedBody {
        fault,
        store,
        params,
        self_param,
    } = refused;
    pending.params = params;
    pending.self_param = self_param;
    if fault == BodyFault::Memory {
        return Err(TextError::Memory);
    }
    refuse(answer, &fault)?;
    Ok(store)
}

/// Makes a body of the store and of what waits for it, and adds it to the tables. Returns the store that
/// questions ask from then on.
pub(crate) fn make<F: Drop, S: Drop, P: Drop, V: Drop, M: Drop>(
    def: &DefWithBodyId,
    finished: Finished,
    pending: &mut Pending,
    tables: &mut TablesOf<F, S, P, V, Body, M, BodySourceMap>,
    answer: &mut Answer,
) -> Result<Subject, TextError> {
    let (store, sources) = Box::into_inner(finished);
    let params = mem::replace(&mut pending.params, Seq::new(answer.alloc()));
    match Body::new(answer.alloc(), store, params, pending.self_param.take()) {
        Ok(body) => {
            let sources = BodySourceMap::new(sources, pending.self_source.take());
            done(tables.add_body(*def, body, sources))?;
            ask_accepted(ExpressionStoreOwnerId::Body(*def), answer)
        }
        Err(refused) => {
            let store = take_back(refused, pending, answer)?;
            ask_again(store, sources, answer)
        }
    }
}

/// Returns the definition whose body the owner is, where it is a body.
pub fn asked_def(owner: Option<ExpressionStoreOwnerId>) -> Option<DefWithBodyId> {
    match owner {
        Some(ExpressionStoreOwnerId::Body(def)) => Some(def),
        Some(ExpressionStoreOwnerId::Signature(_) | ExpressionStoreOwnerId::VariantFields(_))
        | None => None,
    }
}

/// A question on the parameters of a body.
#[derive(Clone, Copy)]
pub enum BodyQuestion {
    Parts,
    IsSelf(BindingId),
}

/// Writes a parameter: the formal and what the user wrote, as `0:1`.
fn put_param<K>(answer: &mut Answer, param: Param<Idx<K>>) -> Result<(), AllocError> {
    put(answer, &param.formal)?;
    answer.join(":")?;
    answer.join_number(param.user_written.into_raw())
}

/// Writes the root of a body, its parameters, and its `self`, where it has one.
fn put_parts(answer: &mut Answer, body: &Body) -> Result<(), AllocError> {
    put(answer, &("root", body.root_expr(), "params"))?;
    for param in body.params() {
        put_param(answer, *param)?;
    }
    if let Some(param) = body.self_param() {
        answer.word("self")?;
        put_param(answer, param)?;
    }
    Ok(())
}

impl BodyQuestion {
    /// Reads a question, after its first word; `None` where no such question begins with it.
    pub fn read(word: &str, words: &mut Words<'_>) -> Result<Option<BodyQuestion>, TextError> {
        match word {
            "body-parts" => Ok(Some(BodyQuestion::Parts)),
            "is-self" => Ok(Some(BodyQuestion::IsSelf(next(words)?))),
            _ => Ok(None),
        }
    }

    /// Writes the answer of the body that is asked, where there is one.
    pub fn ask(self, body: Option<&Body>, answer: &mut Answer) -> Result<(), AllocError> {
        let Some(body) = body else {
            return answer_unknown(answer);
        };
        match self {
            BodyQuestion::Parts => put_parts(answer, body),
            BodyQuestion::IsSelf(binding) => put_yes_or_no(answer, body.is_any_self_param(binding)),
        }
    }
}
