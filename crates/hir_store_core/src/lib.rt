//! The accepted store: expressions, patterns, types and what they name, which are a well-formed forest, with
//! its roots and side tables. This crate reads, walks and searches it; the builder that makes it is in
//! `hir_store`.
#![tactic(auto)]

mod ancestors;
mod anon_consts;
mod blocks;
mod bounds;
mod coroutines;
mod jump_roles;
mod jump_targets;
mod kept_parts;
pub mod laws;
mod lookups;
mod missing;
mod own_exprs;
mod pat_links;
mod pat_turns;
mod pat_visitors;
mod root_list;
mod root_search;
mod roots;
mod side_tables;
mod store;
mod store_iter;
mod stored;
mod stores;
mod try_walks;
mod under;
mod visits;
mod walks;

pub use ancestors::Ancestors;
pub use blocks::Blocks;
pub use bounds::TypeBoundExt;
pub use kept_parts::KeptParts;
pub use missing::Missing;
pub use pat_links::PatLinks;
pub use root_list::RootList;
pub use side_tables::SideTables;
pub use store::ExpressionStore;
pub use store_iter::ExprRoots;
pub use stored::Stored;
pub use stores::{StoreEntry, Stores};
pub use under::NodeSet;
