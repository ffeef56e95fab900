//! A run of the program: lines that build an expression store and then questions on it are read from a
//! source, and the answers are written to a sink.
#![tactic(auto)]

mod answer;
mod asking;
mod body_builder;
mod body_of_lines;
mod building;
mod captures;
mod disposal;
mod fault;
pub mod laws;
mod output;
mod printing;
mod program;
mod reporting;
mod scope_answers;

pub use fault::RunFault;
pub use program::{run, run_and_report, run_lines, run_to_exit};
pub use reporting::report;
