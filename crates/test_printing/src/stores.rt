//! Stores of nodes that lines make.
use hir_store::{ExpressionStore, ExpressionStoreBuilder};
use hir_text_nodes::{TextError, Words};
use hir_text_store::Change;
use std::alloc::Global;
use std::test::Fail;

/// Adds the node of a line.
fn add_line(
    alloc: Global,
    builder: &mut ExpressionStoreBuilder,
    line: &str,
) -> Result<(), TextError> {
    let mut words = Words::new(alloc, line.as_bytes());
    let word = words.keyword();
    let Some(change) = Change::read(word, &mut words)? else {
        return Err(TextError::Syntax);
    };
    words.end()?;
    change.make(builder)
}

/// The store of the nodes that these lines make. In a box, since it is dropped wherever a later call fails.
pub fn store_of(alloc: Global, nodes: &str) -> Result<Box<ExpressionStore>, Fail> {
    let mut builder = Box::new(alloc, ExpressionStoreBuilder::new(alloc))?;
    if !nodes.is_empty() {
        for line in nodes.split('\n') {
            add_line(alloc, &mut builder, line)?;
        }
    }
    let (store, _) = Box::into_inner(builder).finish()?;
    Ok(Box::new(alloc, store)?)
}
