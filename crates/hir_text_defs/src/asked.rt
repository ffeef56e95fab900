//! The store that questions ask, beside the tables that it is in.

use crate::bodies::asked_def;
use crate::subject::Subject;
use hir_base::ExpressionStoreOwnerId;
use hir_defs::{Body, StoreOf, Tables};
use hir_store::{ExpressionStore, ExpressionStoreSourceMap};

/// The store that questions ask, with its source map, its owner where it has one, and the tables.
#[derive(Clone, Copy, Drop)]
pub struct Asked<'a> {
    /// The tables.
    pub tables: &'a Tables,
    /// The store.
    pub store: &'a ExpressionStore,
    /// The source map of the store.
    pub sources: &'a ExpressionStoreSourceMap,
    /// The owner of the store, where it has one.
    pub owner: Option<ExpressionStoreOwnerId>,
}

impl<'a> Asked<'a> {
    /// Returns the store of this subject, or of its owner in these tables, where there is one.
    pub fn new(tables: &'a Tables, subject: &'a Subject) -> Option<Asked<'a>> {
        match subject {
            Subject::Store(finished) => Some(Asked {
                tables,
                store: &finished.0,
                sources: &finished.1,
                owner: None,
            }),
            Subject::Owner(owner) => match ExpressionStore::with_source_map(tables, *owner) {
                Ok((store, sources)) => Some(Asked {
                    tables,
                    store,
                    sources,
                    owner: Some(*owner),
                }),
                Err(_) => None,
            },
            Subject::None => None,
        }
    }

    /// Returns the body whose store is asked, where it is a body's.
    pub fn body(&self) -> Option<&'a Body> {
        match asked_def(self.owner) {
            Some(def) => match Body::of(self.tables, def) {
                Ok(body) => Some(body),
                Err(_) => None,
            },
            None => None,
        }
    }
}
