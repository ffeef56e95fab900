//! Reads lines that build an expression store and questions on it from standard input, and writes
//! the answers.
#![tactic(auto)]

use hir_show_io::StdEnd;
use hir_show_run::run_and_report;
use std::process::ExitCode;

fn main(rt: HostRuntime) -> ExitCode {
    let mut reader = StdEnd::new(rt.stdin());
    let mut writer = StdEnd::new(rt.stdout());
    let mut errors = StdEnd::new(rt.stderr());
    ExitCode::from(run_and_report(rt.alloc(), &mut reader, &mut writer, &mut errors))
}
