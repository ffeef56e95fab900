//! The scopes, captures and uses of a store, which are made where the first question comes that needs them.

use crate::caches::StoreCache;
use crate::scopes::{OfScopes, ScopeQuestion};
use crate::usages::{NewName, OfUsages};
use hir_base::ExpressionStoreOwnerId;
use hir_captures::{CapturesFault, captures};
use hir_collections::{Seq, TryClone};
use hir_defs::{Body, BodyFault, Param};
use hir_node::{BindingId, ExprId, PatId};
use hir_scope::{ExprScopes, ScopesFault};
use hir_text_defs::Asked;
use hir_text_nodes::put_each;
use hir_text_store::{answer_unknown, refuse};
use hir_text_words::{Answer, TextError};
use hir_usages::Usages;
use std::alloc::{AllocError, Global};
use std::collections::HashMap;
use std::marker::Model;

/// A body with its scopes. It is a copy, since the tables keep the body that questions ask.
struct ScopedBody {
    body: Box<Body>,
    scopes: ExprScopes,
}

/// Drops the parts. This `impl` exists so that the drop is proved once, and is a call where a value is
/// dropped.
impl Drop for ScopedBody {
    fn drop(self) {
        let ScopedBody { body, scopes } = self;
    }
}

impl Model for ScopedBody {
    ghost use Rattle.hir_scope.specs.BodyScopes.{AreBodyScopes};

    ghost Value = { Unit {0} };

    ghost view = { λ _. tt };

    ghost invariant = { λ b. AreBodyScopes b.body.value b.scopes };
}

impl ScopedBody {
    /// Returns a body with its scopes. It takes time in the number of nodes and entries.
    fn new(alloc: Global, body: Box<Body>) -> Result<ScopedBody, ScopesFault> {
        let scopes = ExprScopes::new_body(alloc, &body)?;
        Ok(ScopedBody { body, scopes })
    }

    fn captures(&self, alloc: Global, closure: ExprId) -> Result<Vec<BindingId>, CapturesFault> {
        captures(alloc, &self.body, &self.scopes, closure)
    }

    fn scopes(&self) -> &ExprScopes {
        &self.scopes
    }
}

fn copy_params(alloc: Global, params: &[Param<PatId>]) -> Result<Seq<Param<PatId>>, AllocError> {
    let mut copy = Seq::new(alloc);
    for param in params {
        copy.push(*param)?;
    }
    Ok(copy)
}

/// Returns a copy of a body, whose parts are good ones.
fn copy_body(alloc: Global, body: &Body) -> Result<Result<Box<Body>, BodyFault>, AllocError> {
    let params = copy_params(alloc, body.params())?;
    let store = body.store().try_clone()?;
    match Body::new(alloc, store, params, body.self_param()) {
        Ok(copy) => Ok(Ok(Box::new(alloc, copy)?)),
        Err(refused) => Ok(Err(refused.fault)),
    }
}

/// Returns what was made, in a box. Where there is none, the answer says why.
fn open<T: Drop>(
    outcome: Result<T, ScopesFault>,
    answer: &mut Answer,
) -> Result<Option<Box<T>>, TextError> {
    match outcome {
        Ok(made) => Ok(Some(Box::new(answer.alloc(), made)?)),
        Err(ScopesFault::Memory) => Err(TextError::Memory),
        Err(fault) => {
            refuse(answer, &fault)?;
            Ok(None)
        }
    }
}

/// Returns the scopes of a body, or else of a store.
fn make_scopes(alloc: Global, asked: &Asked<'_>) -> Result<ExprScopes, ScopesFault> {
    match asked.body() {
        Some(body) => ExprScopes::new_body(alloc, body),
        None => ExprScopes::new_store(alloc, asked.store),
    }
}

/// Returns a copy of a body with its scopes. Where there are none, the answer says why.
fn make_scoped_body(
    body: &Body,
    answer: &mut Answer,
) -> Result<Option<Box<ScopedBody>>, TextError> {
    match copy_body(answer.alloc(), body)? {
        Ok(copy) => {
            let made = ScopedBody::new(answer.alloc(), copy);
            open(made, answer)
        }
        Err(BodyFault::Memory) => Err(TextError::Memory),
        Err(fault) => {
            refuse(answer, &fault)?;
            Ok(None)
        }
    }
}

/// What closures were found to capture.
type Captures = HashMap<ExprId, Vec<BindingId>>;

/// Writes what a closure was found to capture, and keeps it.
fn keep_captures(
    captures: &mut Captures,
    closure: ExprId,
    found: Result<Vec<BindingId>, CapturesFault>,
    answer: &mut Answer,
) -> Result<(), TextError> {
    match found {
        Ok(found) => {
            put_each(answer, found.as_slice())?;
            let _ = captures.insert(closure, found)?;
            Ok(())
        }
        Err(CapturesFault::Memory) => Err(TextError::Memory),
        Err(fault) => Ok(refuse(answer, &fault)?),
    }
}

/// The scopes, captures and uses of a store.
pub(crate) struct ScopeCache {
    /// The scopes, until they are kept with the body.
    scopes: Option<Box<ExprScopes>>,
    body: Option<Box<ScopedBody>>,
    captures: Captures,
    usages: Option<Box<Usages>>,
}

/// Drops the parts. This `impl` exists so that the drop is proved once, and is a call where a value is
/// dropped.
impl Drop for ScopeCache {
    fn drop(self) {
        let ScopeCache {
            scopes,
            body,
            captures,
            usages,
        } = self;
    }
}

impl ScopeCache {
    /// Returns the scopes, where they are made.
    fn scopes(&self) -> Option<&ExprScopes> {
        if let Some(body) = &self.body {
            return Some(&body.scopes);
        }
        match &self.scopes {
            Some(scopes) => Some(scopes),
            None => None,
        }
    }

    /// Makes the scopes of what is asked, where there are none yet. Where they can't be made, the answer
    /// says why.
    fn open_scopes(&mut self, asked: &Asked<'_>, answer: &mut Answer) -> Result<(), TextError> {
        if self.body.is_none() && self.scopes.is_none() {
            self.scopes = open(make_scopes(answer.alloc(), asked), answer)?;
        }
        Ok(())
    }

    fn ask_scopes(
        &mut self,
        asked: &Asked<'_>,
        question: &OfScopes,
        answer: &mut Answer,
    ) -> Result<(), TextError> {
        self.open_scopes(asked, answer)?;
        match self.scopes() {
            Some(scopes) => Ok(question.ask(scopes, answer)?),
            None => Ok(()),
        }
    }

    /// Makes a copy of the body with its scopes, where there is none yet. Where it can't be made, the answer
    /// says why.
    fn open_body(&mut self, body: &Body, answer: &mut Answer) -> Result<(), TextError> {
        if self.body.is_none() {
            self.body = make_scoped_body(body, answer)?;
            self.scopes = None;
        }
        Ok(())
    }

    /// Writes what a closure captures, and keeps it.
    fn ask_captures(
        &mut self,
        body: Option<&Body>,
        closure: ExprId,
        answer: &mut Answer,
    ) -> Result<(), TextError> {
        if let Some(found) = self.captures.get(&closure) {
            return Ok(put_each(answer, found.as_slice())?);
        }
        let Some(body) = body else {
            return Ok(answer_unknown(answer)?);
        };
        self.open_body(body, answer)?;
        let Some(body) = &self.body else {
            return Ok(());
        };
        let found = body.captures(answer.alloc(), closure);
        keep_captures(&mut self.captures, closure, found, answer)
    }

    /// Finds the uses of a body, where they aren't found yet and it has scopes.
    fn open_usages(&mut self, alloc: Global, body: &Body) -> Result<(), AllocError> {
        if self.usages.is_some() {
            return Ok(());
        }
        let Some(scopes) = self.scopes() else {
            return Ok(());
        };
        let found = Usages::new(alloc, body, scopes)?;
        self.usages = Some(Box::new(alloc, found)?);
        Ok(())
    }

    fn ask_usages(
        &mut self,
        asked: &Asked<'_>,
        question: OfUsages,
        answer: &mut Answer,
    ) -> Result<(), TextError> {
        let Some(body) = asked.body() else {
            return Ok(answer_unknown(answer)?);
        };
        self.open_scopes(asked, answer)?;
        self.open_usages(answer.alloc(), body)?;
        match &self.usages {
            Some(usages) => Ok(question.ask(usages, answer)?),
            None => Ok(()),
        }
    }

    fn ask_rename(
        &mut self,
        asked: &Asked<'_>,
        question: &NewName,
        answer: &mut Answer,
    ) -> Result<(), TextError> {
        let (Some(body), Some(ExpressionStoreOwnerId::Body(owner))) = (asked.body(), asked.owner)
        else {
            return Ok(answer_unknown(answer)?);
        };
        self.open_scopes(asked, answer)?;
        match self.scopes() {
            Some(scopes) => question.ask(asked, body, owner, scopes, answer),
            None => Ok(()),
        }
    }
}

impl StoreCache for ScopeCache {
    fn new(alloc: Global) -> ScopeCache {
        ScopeCache {
            scopes: None,
            body: None,
            captures: HashMap::new(alloc),
            usages: None,
        }
    }

    fn ask(
        &mut self,
        asked: &Asked<'_>,
        question: &ScopeQuestion,
        answer: &mut Answer,
    ) -> Result<(), TextError> {
        match question {
            ScopeQuestion::Scopes(question) => self.ask_scopes(asked, question, answer),
            ScopeQuestion::Captures(closure) => {
                self.ask_captures(asked.body(), *closure, answer)
            }
            ScopeQuestion::Usages(question) => self.ask_usages(asked, *question, answer),
            ScopeQuestion::Rename(question) => self.ask_rename(asked, question, answer),
        }
    }
}
