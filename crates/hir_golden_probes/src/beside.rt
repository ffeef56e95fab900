//! Questions on what is looked up together with the generic parameters of a definition.

use hir_base::GenericDefId;
use hir_defs::{GenericParams, Signatures, Tables};
use hir_store::ExpressionStore;
use hir_text_nodes::{Answer, TextError, Words, next};
use hir_text_store::{Question, differs, refuse_missing};
use std::alloc::{AllocError, Global};

/// Whether the parameters of a definition are these by each call that looks them up, and their store is this
/// one.
fn are_beside<T: Signatures>(
    tables: &T,
    def: &GenericDefId,
    params: &GenericParams,
    store: &ExpressionStore,
) -> bool {
    let Ok(alone) = GenericParams::of(tables, *def) else {
        return false;
    };
    let Ok((beside, same_store)) = GenericParams::with_store(tables, *def) else {
        return false;
    };
    *alone == *params && *beside == *params && *same_store == *store
}

/// Asks the store and the source map that are looked up with the generic parameters of a definition.
fn ask_looked_up<T: Signatures>(
    tables: &T,
    def: &GenericDefId,
    question: &Question,
    answer: &mut Answer,
) -> Result<(), AllocError> {
    let (params, store, sources) = match GenericParams::with_source_map(tables, *def) {
        Ok(entry) => entry,
        Err(missing) => return refuse_missing(answer, missing),
    };
    if !are_beside(tables, def, params, store) {
        return differs(answer);
    }
    question.ask(store, sources, answer)
}

/// The question of a line.
fn next_question(words: &mut Words<'_>) -> Result<Question, TextError> {
    let word = words.next_keyword()?;
    let Some(question) = Question::read(word, words)? else {
        return Err(TextError::Syntax);
    };
    words.end()?;
    Ok(question)
}

/// Writes the answer to what comes after the word `beside`.
// A match in place of `?`, behind which the prover's borrow checker can't carry the definition.
fn ask_rest(tables: &Tables, words: &mut Words<'_>, answer: &mut Answer) -> Result<(), TextError> {
    match next(words) {
        Ok(def) => match next_question(words) {
            Ok(question) => Ok(ask_looked_up(tables, &def, &question, answer)?),
            Err(error) => Err(error),
        },
        Err(error) => Err(error),
    }
}

/// Reads the words after `beside`, a definition and a question, and returns the answer of its store.
pub fn ask_beside(
    alloc: Global,
    tables: &Tables,
    words: Words<'_>,
) -> Result<Option<Answer>, TextError> {
    let mut words = words;
    let mut answer = Answer::new(alloc);
    ask_rest(tables, &mut words, &mut answer)?;
    Ok(Some(answer))
}
