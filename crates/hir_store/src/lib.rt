//! The store of lowered bodies and signatures: a builder takes nodes, `finish` tests them once as a whole,
//! and from then on an `ExpressionStore` is a well-formed forest.
#![tactic(auto)]

mod builder;
mod builder_sources;
mod finish;
pub mod laws;

pub use builder::{ExpressionStoreBuilder, Refused};
pub use hir_base::SyntheticSyntax;
pub use hir_node::{NodeId, StoreVisitor, StoreVisitorExt, visit_generic_args};
pub use hir_source_map::{
    Expansions, ExpressionStoreDiagnostics, ExpressionStoreSourceMap, MacroCalls,
    MissingBodyItemKind,
};
pub use hir_store_core::{
    Ancestors, Blocks, ExprRoots, ExpressionStore, Missing, NodeSet, Stored, TypeBoundExt,
};
pub use hir_validate::FinishFault;
