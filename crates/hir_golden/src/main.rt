//! Compares rows of text with what the public calls answer: the arguments name the files of rows.
//! [README.md](../README.md) says what a row is and what is written.
#![tactic(auto)]

mod answers;
mod files;
mod halt;
mod repeats;
mod report;
mod rows;
mod session;

use files::compare_all;
use std::process::ExitCode;

fn main(rt: HostRuntime) -> ExitCode {
    ExitCode::from(compare_all(&rt))
}
