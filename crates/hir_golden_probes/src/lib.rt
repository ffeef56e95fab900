//! Lines that only golden cases ask, beside those of `hir_text`: whether two calls agree, runs of the
//! program, the texts of faults.
#![tactic(auto)]

mod beside;
mod blocks;
mod equality;
mod faults;
mod paths;
mod precedences;
mod probes;
mod program;
mod roots;
mod scopes;
mod try_walks;

pub use beside::ask_beside;
pub use faults::ask_fault;
pub use probes::{Probe, read_probe};
pub use program::{add_input, answer_run, read_run};
