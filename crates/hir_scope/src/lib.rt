//! Lexical scopes: which bindings each expression of a body or signature sees.
//! `ExprScopes` holds the scopes and finds names in them; `specs/` defines what the chain of a scope has to
//! be.
#![tactic(auto)]

mod constructors;
mod entries;
mod expr_scopes;
mod fault;
mod form;
pub mod laws;
mod lookups;
pub mod macro_laws;
mod macros;
mod open_scopes;
mod order;
mod resolve;
mod scope;
mod scope_chain;
mod scope_ids;
mod tasks;
mod walk;

pub use expr_scopes::{ExprScopes, ScopeData};
pub use fault::ScopesFault;
pub use form::{BorrowedByForm, Form};
pub use macros::Expansion;
pub use order::{visit_form, visit_in_scope_order};
pub use resolve::local_name;
pub use scope::{ScopeEntry, ScopeId, ScopeKind, ScopeMarker};
pub use scope_chain::ScopeChain;
pub use scope_ids::ScopeIds;
