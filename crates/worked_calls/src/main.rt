//! A program that runs files of worked cases of single calls: what a call answers on a rule file and on
//! records, as text. The calls are told by [`calls`]; the form of the files is that of [`case_files`].
#![tactic(auto)]

mod calls;
mod ranking;

use calls::Calls;
use case_files::run_program;
use std::process::ExitCode;

// Runs the files of cases that the words name, and ends with 0 where there were cases and all passed, and
// else with 1.
fn main(rt: HostRuntime) -> ExitCode {
    run_program::<Calls, _>(rt)
}
