//! Theorems that a reader relies on, by the crate that proves them. Each is a function of empty body whose
//! contract is the theorem.

pub use hir_base::laws as base;
pub use hir_body::laws as body;
pub use hir_captures::laws as captures;
pub use hir_collections::laws as collections;
pub use hir_node::laws as node;
pub use hir_path::laws as path;
pub use hir_scope::{laws as scope, macro_laws as macros};
pub use hir_signature::{generic_laws as generics, signature_laws as signature};
pub use hir_source_map::laws as source;
pub use hir_store::laws as builder;
pub use hir_store_core::laws as store;
pub use hir_usages::laws as usages;
