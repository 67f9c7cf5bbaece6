//! A program that runs files of worked cases of the whole program. Its own commands run `fh_main` over
//! files in memory; all else is that of [`case_files`].
#![tactic(auto)]

mod asked;
mod meeting;
mod own;
mod places;
mod runs;

use case_files::run_program;
use runs::Runs;
use std::process::ExitCode;

// Runs the files of cases that the words name, and ends with 0 where there were cases and all passed, and
// else with 1.
fn main(rt: HostRuntime) -> ExitCode {
    run_program::<Runs, _>(rt)
}
