//! The printer of nodes: what nodes expand to is looked up and written, one token after another.
#![tactic(auto)]

mod expand;
mod fault;
pub mod laws;
mod literals;
mod lookups;
mod names;
mod print;
mod printer;
mod write;

pub use fault::PrintFault;
pub use hir_pretty_docs::{Ending, Lookup, Part, Token, Tokens, colons_first};
pub use printer::Printer;
