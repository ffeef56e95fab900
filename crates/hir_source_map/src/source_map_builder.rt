//! The maps while a store is built.

ghost use Rattle.std.specs.Prelude.{◌≡◌};
ghost use Rattle.hir_source_map.specs.Sources.{has_news};

use crate::source_map::ExpressionStoreSourceMap;
use crate::sources::{ExprSources, TypeSources};
use hir_collections::LazyBox;
use std::alloc::Global;

/// The maps to which entries are added: the builder of a store has the calls that add them. Nothing is
/// checked: ids may be of nodes that don't exist.
#[derive(PartialEq, Eq)]
pub struct SourceMapBuilder {
    pub exprs: LazyBox<ExprSources>,
    pub types: LazyBox<TypeSources>,
    /// The allocator of the maps.
    pub alloc: Global,
}

/// Drops its parts one after the other. It is written out so that it is proved once, and that each drop is a
/// call.
impl Drop for SourceMapBuilder {
    fn drop(self) {
        let SourceMapBuilder {
            exprs,
            types,
            alloc,
        } = self;
    }
}

impl SourceMapBuilder {
    ghost use Rattle.hir_source_map.specs.Additions.{no_sources, finish_sources};

    /// Maps without entries. They take their memory from `alloc`, and none yet.
    pub fn new(alloc: Global) -> SourceMapBuilder
        ensures { result ≡ no_sources alloc }
    {
        SourceMapBuilder {
            exprs: LazyBox::new(alloc),
            types: LazyBox::new(alloc),
            alloc,
        }
    }

    /// Finishes the maps, which are read-only afterwards.
    ///
    /// The expression part, which is all but the maps of types and lifetimes, is kept exactly if the store
    /// keeps nodes of it, or if there is an expansion or a diagnostic. Otherwise it is dropped with its
    /// entries.
    pub fn finish(self, keeps_nodes: bool) -> ExpressionStoreSourceMap
        ensures { result ≡ finish_sources keeps_nodes self }
    {
        let SourceMapBuilder {
            exprs,
            types,
            alloc: _,
        } = self;
        let exprs = if keeps_nodes || has_news(&exprs) {
            Some(exprs)
        } else {
            None
        };
        ExpressionStoreSourceMap { exprs, types }
    }
}

/// Returns whether there is an expansion or a diagnostic.
fn has_news(exprs: &LazyBox<ExprSources>) -> bool
    ensures { result ≡ has_news exprs.now }
{
    match exprs.get() {
        Some(exprs) => exprs.has_news(),
        None => false,
    }
}
