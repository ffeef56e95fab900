//! A session: what lines have made so far, and the questions on it.

ghost use Rattle.std.specs.Prelude.{IfOk};

use crate::caches::StoreCaches;
use crate::grammar::{Ask, Line, Make, OfStore};
use crate::nodes::Nodes;
use crate::scope_cache::ScopeCache;
use crate::scopes::ScopeQuestion;
use hir_base::ExpressionStoreOwnerId;
use hir_defs::{StoreOf, Tables};
use hir_store::ExpressionStore;
use hir_store_core::Missing;
use hir_text_defs::{Asked, Definition, Finished, Pending, Subject};
use hir_text_store::refuse_missing;
use hir_text_words::{Answer, Lines, Stop, TextError, Words, is_skipped};
use std::alloc::{AllocError, Global};

/// What lines have made so far: nodes, a finished store, parameters that wait for a definition, and tables.
pub struct Session {
    alloc: Global,
    nodes: Nodes,
    pending: Pending,
    tables: Box<Tables>,
    caches: StoreCaches<ScopeCache>,
    /// Where the reading of the last bad line stopped.
    stop: Option<Stop>,
}

/// Drops the parts. This `impl` exists so that the drop is proved once, and is a call where a value is
/// dropped.
impl Drop for Session {
    fn drop(self) {
        let Session {
            alloc,
            nodes,
            pending,
            tables,
            caches,
            stop: _,
        } = self;
    }
}

/// Returns what the tables lack of the store of this owner, if anything.
fn lookup(tables: &Tables, owner: &ExpressionStoreOwnerId) -> Result<(), Missing> {
    match ExpressionStore::of(tables, *owner) {
        Ok(_) => Ok(()),
        Err(missing) => Err(missing),
    }
}

impl Session {
    ghost use Rattle.hir_text.specs.Sealed.{IsNew};

    /// A session in which no line has been taken.
    pub fn new(alloc: Global) -> Result<Session, AllocError>
        ensures { IfOk result (λ made. IsNew made) }
    {
        Ok(Session {
            alloc,
            nodes: Nodes::new(alloc)?,
            pending: Pending::new(alloc),
            tables: Box::new(alloc, Tables::new(alloc))?,
            caches: StoreCaches::new(alloc),
            stop: None,
        })
    }

    /// Returns the tables.
    pub fn tables(&self) -> &Tables {
        &self.tables
    }

    /// Returns where the reading of the last bad line stopped, and why; `None` where there was none.
    pub fn stop(&self) -> Option<Stop> {
        self.stop
    }

    /// Finishes the nodes, where lines have made some since the last time, and returns whether there is a
    /// store to ask. Where there is none, the answer says why.
    pub fn finish(&mut self, answer: &mut Answer) -> Result<bool, TextError> {
        if self.nodes.has_lines() {
            self.caches.forget_finished(self.alloc);
        }
        self.nodes.ready(self.alloc, answer)
    }

    /// Returns the store that questions ask, where there is one.
    pub fn asked(&self) -> Option<Asked<'_>> {
        Asked::new(&self.tables, &self.nodes.subject)
    }

    /// Takes the store that was finished last out of the session, of which none is left to ask. Where there
    /// is none, or it has an owner, the answer says so.
    pub fn take_finished(&mut self, answer: &mut Answer) -> Result<Option<Finished>, TextError> {
        if !self.finish(answer)? {
            return Ok(None);
        }
        self.caches.forget_finished(self.alloc);
        self.nodes.take_store(self.alloc, answer)
    }

    /// Forgets the nodes, the store and the parameters so far.
    fn begin(&mut self) -> Result<(), TextError> {
        self.nodes = Nodes::new(self.alloc)?;
        self.pending = Pending::new(self.alloc);
        Ok(())
    }

    fn make(&mut self, make: Make) -> Result<(), TextError> {
        match make {
            Make::Change(change) => self.nodes.add(change),
            Make::Part(part) => self.pending.add(part),
            Make::Entry(entry) => entry.add(&mut self.tables),
            Make::Begin => self.begin(),
        }
    }

    /// Makes the store of this owner the one that questions ask.
    fn select(
        &mut self,
        owner: ExpressionStoreOwnerId,
        answer: &mut Answer,
    ) -> Result<(), TextError> {
        match lookup(&self.tables, &owner) {
            Ok(()) => {
                answer.word("found")?;
                self.nodes.select(Subject::Owner(owner));
            }
            Err(missing) => refuse_missing(answer, missing)?,
        }
        if let Subject::Owner(_) = &self.nodes.subject {
            self.caches.forget_finished(self.alloc);
        }
        Ok(())
    }

    /// Makes a body, a signature or the fields of a variant of the store.
    fn define(&mut self, definition: Definition, answer: &mut Answer) -> Result<(), TextError> {
        self.caches.forget_finished(self.alloc);
        let Some(finished) = self.nodes.take_store(self.alloc, answer)? else {
            return Ok(());
        };
        self.nodes.subject = definition.make(
            finished,
            &mut self.pending,
            &mut self.tables,
            answer,
        )?;
        if let Subject::Owner(owner) = &self.nodes.subject {
            self.caches.forget(*owner);
        }
        Ok(())
    }

    /// Writes the answer of the store that is asked, where there is one; where there is none, the answer
    /// says why.
    fn ask_store(&mut self, question: &OfStore, answer: &mut Answer) -> Result<(), TextError> {
        if !self.finish(answer)? {
            return Ok(());
        }
        match Asked::new(&self.tables, &self.nodes.subject) {
            Some(asked) => question.ask(&asked, answer),
            None => Ok(()),
        }
    }

    /// Writes the answer to a question on scopes, captures or uses, by what is kept of the store that is
    /// asked.
    fn ask_scopes(
        &mut self,
        question: &ScopeQuestion,
        answer: &mut Answer,
    ) -> Result<(), TextError> {
        if !self.finish(answer)? {
            return Ok(());
        }
        match Asked::new(&self.tables, &self.nodes.subject) {
            Some(asked) => self.caches.ask(&asked, question, answer),
            None => Ok(()),
        }
    }

    /// Does what a line says that has an answer, and writes the answer.
    fn ask(&mut self, ask: Ask, answer: &mut Answer) -> Result<(), TextError> {
        match ask {
            Ask::Finish => {
                let is_finished = self.finish(answer)?;
                Ok(answer.flag(is_finished, "accepted")?)
            }
            Ask::Select(owner) => self.select(owner, answer),
            Ask::Define(definition) => self.define(definition, answer),
            Ask::Tables(question) => Ok(question.ask(&self.tables, answer)?),
            Ask::TablesText(text) => text.ask(&self.tables, answer),
            Ask::OfStore(question) => self.ask_store(&question, answer),
            Ask::Scopes(question) => self.ask_scopes(&question, answer),
        }
    }

    /// Does what a line says. Returns the answer, where the line has one.
    fn do_line(&mut self, line: Line) -> Result<Option<Answer>, TextError> {
        match line {
            Line::Make(make) => {
                self.make(make)?;
                Ok(None)
            }
            Line::Ask(ask) => {
                let mut answer = Answer::new(self.alloc);
                self.ask(ask, &mut answer)?;
                Ok(Some(answer))
            }
        }
    }

    /// Keeps where the reading of a bad line stopped.
    fn stop_at(&mut self, stop: Stop) -> TextError {
        self.stop = Some(stop);
        TextError::Syntax
    }

    /// Reads a line, and does what it says. Returns the answer, where the line has one.
    fn read_line(&mut self, line: &[u8]) -> Result<Option<Answer>, TextError> {
        if let Err(error) = std::str::from_utf8(line) {
            return Err(self.stop_at(Stop::not_utf8(error.valid_up_to())));
        }
        if is_skipped(line) {
            return Ok(None);
        }
        let mut words = Words::new(self.alloc, line);
        match Line::read(&mut words) {
            Ok(Some(line)) => self.do_line(line),
            Ok(None) => Err(self.stop_at(Stop::unknown_word())),
            Err(TextError::Syntax) => Err(self.stop_at(Stop::of(line, &words))),
            Err(TextError::Memory) => Err(TextError::Memory),
        }
    }
}

impl Lines for Session {
    ghost use Rattle.hir_text.specs.Sealed.{SessionTakes};

    ghost takes = { SessionTakes };

    fn take_line(&mut self, line: &[u8]) -> Result<Option<Answer>, TextError> {
        self.read_line(line)
    }
}
