//! What macro calls expanded to, in the order of their sources.

use crate::refusals::differs;
use hir_base::{HirFileId, InFile, SyntaxNodePtr, TextRange};
use hir_store::ExpressionStoreSourceMap;
use hir_text_nodes::{Answer, put, syntax};
use std::alloc::{AllocError, Global};
use std::collections::BTreeMap;

/// A source by its file, kind, start and end: the order in which sources are written.
#[derive(Clone, Copy, PartialEq, Eq, PartialOrd, Ord, Drop)]
pub(crate) struct Place(u32, u16, u32, u32);

impl Place {
    fn new(source: InFile<SyntaxNodePtr>) -> Place {
        let node = source.value;
        let file = source.file_id.into_raw();
        Place(file, node.kind, node.range.start, node.range.end)
    }

    /// Returns the source of a place.
    pub(crate) fn source(self) -> InFile<SyntaxNodePtr> {
        let Place(file, kind, start, end) = self;
        let range = TextRange { start, end };
        InFile {
            file_id: HirFileId::from_raw(file),
            value: SyntaxNodePtr { kind, range },
        }
    }
}

/// Returns whether the calls that go by value are as many as these, and each expanded to what `expansion`
/// says.
fn agree(sources: &ExpressionStoreSourceMap, count: usize) -> bool {
    let mut left = count;
    let mut agrees = true;
    for (call, expansion) in sources.macro_calls() {
        agrees = agrees && left > 0 && sources.expansion(call) == Some(expansion);
        left = left.saturating_sub(1);
    }
    agrees && left == 0
}

/// Returns what each macro call expanded to, by the places of the calls.
pub(crate) fn expansions_by_place(
    alloc: Global,
    sources: &ExpressionStoreSourceMap,
) -> Result<BTreeMap<Place, u32>, AllocError> {
    let mut places = BTreeMap::new(alloc);
    for (call, expansion) in sources.expansions() {
        let _ = places.insert(Place::new(syntax(*call)), expansion.into_raw())?;
    }
    Ok(places)
}

/// `expansions`
pub(crate) fn put_expansions(
    answer: &mut Answer,
    sources: &ExpressionStoreSourceMap,
) -> Result<(), AllocError> {
    let places = expansions_by_place(answer.alloc(), sources)?;
    if !agree(sources, places.len()) {
        return differs(answer);
    }
    for (place, expansion) in places.iter() {
        put(answer, &place.source())?;
        answer.join("=")?;
        answer.join_number(*expansion)?;
    }
    Ok(())
}
