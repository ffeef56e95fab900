//! Reads the lines of `hir_text` from standard input, and writes the answer to each question to standard
//! output, as it comes.
#![tactic(auto)]

mod report;
mod run;

use hir_show_io::StdEnd;
use std::process::ExitCode;

fn main(rt: HostRuntime) -> ExitCode {
    let mut reader = StdEnd::new(rt.stdin());
    let mut writer = StdEnd::new(rt.stdout());
    let mut errors = StdEnd::new(rt.stderr());
    let outcome = run::ask_all(rt.alloc(), &mut reader, &mut writer);
    ExitCode::from(report::report(outcome, &mut errors))
}
