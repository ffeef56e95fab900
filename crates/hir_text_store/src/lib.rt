//! Lines that add to a store, and questions on a store and its source map.
#![tactic(auto)]

mod calls;
mod changes;
mod expansions;
mod questions;
mod refusals;
mod saved;
mod walks;

pub use changes::{Change, done};
pub use questions::{Question, has_node};
pub use refusals::{answer_unknown, differs, refuse, refuse_missing};
