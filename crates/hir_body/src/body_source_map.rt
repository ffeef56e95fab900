//! Where a body comes from.

ghost use Rattle.std.specs.Prelude.{◌≡◌};

use hir_base::{InFile, SelfParamPtr};
use hir_source_map::ExpressionStoreSourceMap;

/// Where a body comes from: the source map of its store, and the source of its `self`.
#[derive(PartialEq, Eq)]
pub struct BodySourceMap {
    store: ExpressionStoreSourceMap,
    self_param_syntax: Option<InFile<SelfParamPtr>>,
}

/// Drops the parts one after the other. This `impl` exists so that the drop is proved once, and is a call
/// where a value is dropped.
impl Drop for BodySourceMap {
    fn drop(self) {
        let BodySourceMap {
            store,
            self_param_syntax: _,
        } = self;
    }
}

impl BodySourceMap {
    /// Returns the source map of a body: that of its store, and the source of its `self`.
    pub fn new(
        store: ExpressionStoreSourceMap,
        self_param_syntax: Option<InFile<SelfParamPtr>>,
    ) -> BodySourceMap
        ensures { result ≡ record { store = store; self_param_syntax = self_param_syntax } }
    {
        BodySourceMap {
            store,
            self_param_syntax,
        }
    }

    /// Returns the source map of the store.
    pub fn store(&self) -> &ExpressionStoreSourceMap
        ensures { result.now ≡ self.now.store }
    {
        &self.store
    }

    /// Returns the source of `self`, where the body has one.
    pub fn self_param_syntax(&self) -> Option<InFile<SelfParamPtr>>
        ensures { result ≡ self.now.self_param_syntax }
    {
        self.self_param_syntax
    }
}
