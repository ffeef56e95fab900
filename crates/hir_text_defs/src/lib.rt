//! Lines that make bodies, signatures and entries of tables, and questions on them.
#![tactic(auto)]

mod asked;
mod bodies;
mod definitions;
mod entries;
mod generics;
mod pending;
mod questions;
mod subject;

pub use asked::Asked;
pub use bodies::{BodyQuestion, asked_def};
pub use definitions::Definition;
pub use entries::Entry;
pub use pending::{Part, Pending};
pub use questions::Question;
pub use subject::{Finished, Subject};
