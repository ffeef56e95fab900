//! The question on the blocks of a store with their maps.

use hir_base::BlockId;
use hir_store::{Blocks, ExpressionStore};
use hir_text_nodes::{Answer, Read, TextError, Words, next, put};
use hir_text_store::refuse_missing;
use std::alloc::AllocError;
use std::collections::BTreeMap;

/// The maps of blocks at the end of the line: `N=N..`
pub(crate) fn read_maps(words: &mut Words<'_>) -> Result<BTreeMap<BlockId, u32>, TextError> {
    let mut maps = BTreeMap::new(words.alloc());
    for _ in 0..words.rest().len() {
        if words.is_end() {
            break;
        }
        let block = next(words)?;
        words.expect("=")?;
        let _ = maps.insert(block, u32::read(words)?)?;
    }
    Ok(maps)
}

fn write_blocks(blocks: Blocks<'_, u32>, answer: &mut Answer) -> Result<(), AllocError> {
    for (block, map) in blocks {
        put(answer, &block)?;
        answer.join("=")?;
        answer.join_number(*map)?;
    }
    Ok(())
}

/// `blocks N=N..`: the blocks of the store with these maps.
pub(crate) fn write(
    store: &ExpressionStore,
    maps: &BTreeMap<BlockId, u32>,
    answer: &mut Answer,
) -> Result<(), AllocError> {
    match store.blocks(maps) {
        Ok(blocks) => write_blocks(blocks, answer),
        Err(missing) => refuse_missing(answer, missing),
    }
}
