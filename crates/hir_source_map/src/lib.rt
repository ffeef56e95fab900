//! Where the nodes of a store come from: from a pointer into source to a node and back, the patterns of a
//! binding, what macro calls expanded to, and the diagnostics of lowering. The maps are filled while a store
//! is built, and read-only afterwards.
#![tactic(auto)]

mod definitions;
mod diagnostics;
mod iters;
pub mod laws;
mod source_map;
mod source_map_builder;
mod sources;

pub use definitions::{Definitions, define};
pub use diagnostics::{ExpressionStoreDiagnostics, MissingBodyItemKind};
pub use iters::{Expansions, MacroCalls};
pub use source_map::ExpressionStoreSourceMap;
pub use source_map_builder::SourceMapBuilder;
pub use sources::{ExprSources, TypeSources};
