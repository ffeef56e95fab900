//! One error for every refusal of the crates up to printing, so that `?` works in a function that builds a
//! store, finishes it, makes its scopes and prints it.
#![tactic(auto)]

mod error;
mod from;
mod missing_ids;
mod missing_text;
mod named_id;
mod sentences;

pub use error::HirError;
pub use named_id::NamedId;
