//! The nodes that lines have made so far, and the store that questions ask.

use hir_store::{ExpressionStoreBuilder, FinishFault};
use hir_text_defs::{Finished, Subject};
use hir_text_store::{Change, answer_unknown, refuse};
use hir_text_words::{Answer, TextError};
use std::alloc::{AllocError, Global};
use std::mem;

/// The nodes so far, and the store that questions ask.
#[derive(Drop)]
pub(crate) struct Nodes {
    builder: Box<ExpressionStoreBuilder>,
    /// Whether the builder is to be finished before a question is asked.
    has_lines: bool,
    /// Why the nodes were refused when they were finished last, where lines have made nothing since.
    fault: Option<FinishFault>,
    pub(crate) subject: Subject,
}

fn empty(alloc: Global) -> Result<Box<ExpressionStoreBuilder>, AllocError> {
    Ok(Box::new(alloc, ExpressionStoreBuilder::new(alloc))?)
}

/// Finishes a builder, or gives it back with its fault.
fn finish(
    alloc: Global,
    builder: Box<ExpressionStoreBuilder>,
) -> Result<Result<Finished, (FinishFault, Box<ExpressionStoreBuilder>)>, AllocError> {
    match Box::into_inner(builder).finish() {
        Ok(made) => Ok(Ok(Box::new(alloc, made)?)),
        Err(refused) => Ok(Err((refused.fault, Box::new(alloc, refused.builder)?))),
    }
}

impl Nodes {
    /// No nodes.
    pub(crate) fn new(alloc: Global) -> Result<Nodes, AllocError> {
        Ok(Nodes {
            builder: empty(alloc)?,
            has_lines: true,
            fault: None,
            subject: Subject::None,
        })
    }

    /// Adds what a line says.
    pub(crate) fn add(&mut self, change: Change) -> Result<(), TextError> {
        change.make(&mut self.builder)?;
        self.has_lines = true;
        self.fault = None;
        Ok(())
    }

    /// Returns whether lines have made something since the last store was finished or selected.
    pub(crate) fn has_lines(&self) -> bool {
        self.has_lines
    }

    /// Makes this store the one that questions ask, until lines make something.
    pub(crate) fn select(&mut self, subject: Subject) {
        self.subject = subject;
        self.has_lines = false;
    }

    /// Finishes the nodes so far. Where that is refused they stay, and the answer says why; they are tested
    /// once, however often they are asked.
    fn finish(
        &mut self,
        alloc: Global,
        answer: &mut Answer,
    ) -> Result<Option<Finished>, TextError> {
        if let Some(fault) = self.fault {
            refuse(answer, &fault)?;
            return Ok(None);
        }
        match finish(alloc, mem::replace(&mut self.builder, empty(alloc)?))? {
            Ok(finished) => {
                self.has_lines = false;
                Ok(Some(finished))
            }
            Err((FinishFault::Memory, _)) => Err(TextError::Memory),
            Err((fault, builder)) => {
                self.builder = builder;
                self.fault = Some(fault);
                refuse(answer, &fault)?;
                Ok(None)
            }
        }
    }

    /// Returns whether there is a store to ask. Where there is none, the answer says so.
    fn has_subject(&self, answer: &mut Answer) -> Result<bool, TextError> {
        match &self.subject {
            Subject::None => {
                answer_unknown(answer)?;
                Ok(false)
            }
            Subject::Store(_) | Subject::Owner(_) => Ok(true),
        }
    }

    /// Whether there is a store to ask: the nodes are finished, where lines made some since the last time.
    /// Where that is refused, the answer says why.
    pub(crate) fn ready(&mut self, alloc: Global, answer: &mut Answer) -> Result<bool, TextError> {
        if !self.has_lines {
            return self.has_subject(answer);
        }
        match self.finish(alloc, answer)? {
            Some(finished) => {
                self.subject = Subject::Store(finished);
                Ok(true)
            }
            None => Ok(false),
        }
    }

    /// Takes the store for a body, a signature or the fields of a variant: the one that was finished last, or
    /// that of the lines since then. Where these are refused they stay, and the answer says why; so it does
    /// where the store has an owner.
    pub(crate) fn take_store(
        &mut self,
        alloc: Global,
        answer: &mut Answer,
    ) -> Result<Option<Finished>, TextError> {
        if self.has_lines {
            return self.finish(alloc, answer);
        }
        match mem::replace(&mut self.subject, Subject::None) {
            Subject::Store(finished) => Ok(Some(finished)),
            other => {
                self.subject = other;
                answer_unknown(answer)?;
                Ok(None)
            }
        }
    }
}
