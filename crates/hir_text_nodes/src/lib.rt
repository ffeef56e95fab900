//! The notation of nodes, paths and definitions: words of a line that are read as values, and values that are
//! written as words.
#![tactic(auto)]

mod args;
mod closures;
mod definitions;
mod diagnostics;
mod exprs;
mod forms;
mod generics;
mod literals;
mod nodes;
mod paths;
mod pats;
mod sources;
mod types;

pub use args::join_args;
pub use forms::{
    Quoted, Read, Write, next, opt_next, part, prefixed, put, put_each, put_found, put_prefixed,
    put_yes_or_no,
};
pub use generics::{next_where, next_where_lifetime};
pub use hir_text_words::{Answer, TextError, Words};
pub use literals::put_literal;
pub use nodes::Node;
pub use paths::join_segments;
pub use sources::{opt_abi, opt_edition, opt_hygiene, pointer, precedence_text, put_abi, syntax};
