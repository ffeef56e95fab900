//! The lines that the program knows: how each is written, and what it says. A line is words separated by one
//! space. Its first word says in a table of forms how the others are read, and each form is one short
//! function, which takes them one by one.
#![tactic(auto)]

mod arms_and_statements;
mod asking;
mod builder;
mod exprs;
pub mod laws;
mod line_error;
mod maker_lines;
mod names;
mod numerals;
mod operators;
mod pats;
mod question;
mod types;
mod words;

pub use asking::ask;
pub use builder::Builder;
pub use line_error::LineError;
pub use maker_lines::make;
pub use question::{BodyQuestion, Question, StoreQuestion};
