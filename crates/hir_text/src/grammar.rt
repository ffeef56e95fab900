//! The lines of the grammar: each is read to its end before it does anything. What a store is asked.

use crate::scopes::ScopeQuestion;
use crate::texts::{StoreText, TablesText};
use hir_base::ExpressionStoreOwnerId;
use hir_text_defs::{Asked, BodyQuestion, Definition, Entry, Part};
use hir_text_nodes::next;
use hir_text_store::Change;
use hir_text_words::{Answer, TextError, Words};

/// What a line makes that has no answer.
#[derive(Drop)]
pub(crate) enum Make {
    Change(Change),
    Part(Part),
    Entry(Entry),
    Begin,
}

/// What the store is asked that questions ask.
#[derive(Drop)]
pub(crate) enum OfStore {
    Store(hir_text_store::Question),
    Body(BodyQuestion),
    Text(StoreText),
}

/// What a line asks, or makes and has an answer.
#[derive(Drop)]
pub(crate) enum Ask {
    Finish,
    Select(ExpressionStoreOwnerId),
    Define(Definition),
    Tables(hir_text_defs::Question),
    TablesText(TablesText),
    OfStore(OfStore),
    Scopes(ScopeQuestion),
}

/// A line of the grammar.
#[derive(Drop)]
pub(crate) enum Line {
    Make(Make),
    Ask(Ask),
}

fn read_make(word: &str, words: &mut Words<'_>) -> Result<Option<Make>, TextError> {
    if word == "begin" {
        return Ok(Some(Make::Begin));
    }
    if let Some(change) = Change::read(word, words)? {
        return Ok(Some(Make::Change(change)));
    }
    if let Some(part) = Part::read(word, words)? {
        return Ok(Some(Make::Part(part)));
    }
    match Entry::read(word, words)? {
        Some(entry) => Ok(Some(Make::Entry(entry))),
        None => Ok(None),
    }
}

fn read_of_store(word: &str, words: &mut Words<'_>) -> Result<Option<OfStore>, TextError> {
    if let Some(question) = hir_text_store::Question::read(word, words)? {
        return Ok(Some(OfStore::Store(question)));
    }
    if let Some(question) = BodyQuestion::read(word, words)? {
        return Ok(Some(OfStore::Body(question)));
    }
    match StoreText::read(word, words)? {
        Some(text) => Ok(Some(OfStore::Text(text))),
        None => Ok(None),
    }
}

/// Reads a question on the tables, or on scopes, captures or uses.
fn read_question(word: &str, words: &mut Words<'_>) -> Result<Option<Ask>, TextError> {
    if let Some(question) = ScopeQuestion::read(word, words)? {
        return Ok(Some(Ask::Scopes(question)));
    }
    if let Some(question) = hir_text_defs::Question::read(word, words)? {
        return Ok(Some(Ask::Tables(question)));
    }
    match TablesText::read(word, words)? {
        Some(text) => Ok(Some(Ask::TablesText(text))),
        None => Ok(None),
    }
}

fn read_ask(word: &str, words: &mut Words<'_>) -> Result<Option<Ask>, TextError> {
    if let Some(question) = read_of_store(word, words)? {
        return Ok(Some(Ask::OfStore(question)));
    }
    if let Some(definition) = Definition::read(word, words)? {
        return Ok(Some(Ask::Define(definition)));
    }
    match word {
        "finish" => Ok(Some(Ask::Finish)),
        "of" => Ok(Some(Ask::Select(next(words)?))),
        _ => read_question(word, words),
    }
}

impl OfStore {
    /// Writes the answer of a store.
    pub(crate) fn ask(&self, asked: &Asked<'_>, answer: &mut Answer) -> Result<(), TextError> {
        match self {
            OfStore::Store(question) => Ok(question.ask(asked.store, asked.sources, answer)?),
            OfStore::Body(question) => Ok(question.ask(asked.body(), answer)?),
            OfStore::Text(text) => text.ask(asked, answer),
        }
    }
}

impl Line {
    /// Reads a line to its end; `None` where no line begins with its first word.
    pub(crate) fn read(words: &mut Words<'_>) -> Result<Option<Line>, TextError> {
        let word = words.keyword();
        let line = match read_make(word, words)? {
            Some(make) => Line::Make(make),
            None => match read_ask(word, words)? {
                Some(ask) => Line::Ask(ask),
                None => return Ok(None),
            },
        };
        words.end()?;
        Ok(Some(line))
    }
}
