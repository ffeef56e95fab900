//! What nodes are printed as: their documents, and the tokens that stand for them.
#![tactic(auto)]

mod blocks;
mod closures;
mod exprs;
mod part;
mod paths;
mod pats;
mod token;
mod tokens;
mod types;

pub use part::Part;
pub use paths::colons_first;
pub use token::{Ending, Lookup, Token};
pub use tokens::Tokens;
