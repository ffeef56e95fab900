//! What a session keeps of the stores that are asked.

use crate::scopes::ScopeQuestion;
use hir_base::ExpressionStoreOwnerId;
use hir_text_defs::Asked;
use hir_text_words::{Answer, TextError};
use std::alloc::{AllocError, Global};
use std::collections::HashMap;

/// What is kept of one store, from the first question on that needs it.
// A map of a type parameter is cheap to prove, where one of scopes and bodies is costly to lay out.
pub(crate) trait StoreCache: Sized + Drop {
    /// Nothing.
    fn new(alloc: Global) -> Self;

    /// Writes the answer to a question on the scopes, captures or uses of the store.
    fn ask(
        &mut self,
        asked: &Asked<'_>,
        question: &ScopeQuestion,
        answer: &mut Answer,
    ) -> Result<(), TextError>;
}

/// What is kept of the store that was finished last, and of those of owners.
#[derive(Drop)]
pub(crate) struct StoreCaches<C> {
    finished: C,
    owned: HashMap<ExpressionStoreOwnerId, C>,
}

impl<C: StoreCache> StoreCaches<C> {
    /// Nothing.
    pub(crate) fn new(alloc: Global) -> StoreCaches<C> {
        StoreCaches {
            finished: C::new(alloc),
            owned: HashMap::new(alloc),
        }
    }

    /// Begins to keep something of the store of an owner, where nothing is kept yet.
    fn open(&mut self, alloc: Global, owner: ExpressionStoreOwnerId) -> Result<(), AllocError> {
        if !self.owned.contains_key(&owner) {
            let _ = self.owned.insert(owner, C::new(alloc))?;
        }
        Ok(())
    }

    /// Writes the answer to a question by what is kept of the store of an owner.
    fn ask_owned(
        &mut self,
        owner: ExpressionStoreOwnerId,
        asked: &Asked<'_>,
        question: &ScopeQuestion,
        answer: &mut Answer,
    ) -> Result<(), TextError> {
        self.open(answer.alloc(), owner)?;
        match self.owned.get_mut(&owner) {
            Some(cache) => cache.ask(asked, question, answer),
            None => Ok(()),
        }
    }

    /// Writes the answer to a question by what is kept of the store that is asked.
    pub(crate) fn ask(
        &mut self,
        asked: &Asked<'_>,
        question: &ScopeQuestion,
        answer: &mut Answer,
    ) -> Result<(), TextError> {
        match asked.owner {
            Some(owner) => self.ask_owned(owner, asked, question, answer),
            None => self.finished.ask(asked, question, answer),
        }
    }

    /// Forgets what is kept of the store that was finished last: another is, or it is taken.
    pub(crate) fn forget_finished(&mut self, alloc: Global) {
        self.finished = C::new(alloc);
    }

    /// Forgets what is kept of the store of an owner: the owner has another.
    pub(crate) fn forget(&mut self, owner: ExpressionStoreOwnerId) {
        let _ = self.owned.remove(&owner);
    }
}
