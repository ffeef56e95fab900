//! Whose store questions ask.

use hir_base::ExpressionStoreOwnerId;
use hir_store::{ExpressionStore, ExpressionStoreSourceMap};
use hir_text_nodes::{Answer, TextError};

/// A finished store, and its source map.
pub type Finished = Box<(ExpressionStore, ExpressionStoreSourceMap)>;

/// The store that questions ask.
#[derive(Drop)]
pub enum Subject {
    /// None.
    None,
    /// The one that was finished last.
    Store(Finished),
    /// That of a definition.
    Owner(ExpressionStoreOwnerId),
}

/// Returns what was accepted as the store that questions ask from then on.
pub(crate) fn ask_accepted(
    owner: ExpressionStoreOwnerId,
    answer: &mut Answer,
) -> Result<Subject, TextError> {
    answer.word("accepted")?;
    Ok(Subject::Owner(owner))
}

/// Returns what was refused as the store that questions ask again.
pub(crate) fn ask_again(
    store: ExpressionStore,
    sources: ExpressionStoreSourceMap,
    answer: &Answer,
) -> Result<Subject, TextError> {
    Ok(Subject::Store(Box::new(answer.alloc(), (store, sources))?))
}
