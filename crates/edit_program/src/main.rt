//! The program: it takes the words of the command line, and has them served over the files of the system
//! and standard output. What it serves is the call `fh_main` of the crate `edit_commands`.
#![tactic(auto)]

use edit_commands::fh_main;
use edit_desk::{FileDesk, OutPrinter};
use record_workers::NoGate;
use run_parts::{Status, refuse_words, words_after_program_name};
use std::env;
use std::process::ExitCode;

// Reads the words after the program's name, has them served, and ends the process with the number of the
// run's status. Where the runtime can't be shared with the desk and the printer, memory was refused, and
// nothing is printed.
fn main(rt: HostRuntime) -> ExitCode {
    let alloc = rt.alloc();
    let Ok(out) = rt.clone() else {
        return ExitCode::from(Status::OutOfMemory.number());
    };
    let Ok(files) = rt.clone() else {
        return ExitCode::from(Status::OutOfMemory.number());
    };
    let mut printer = OutPrinter::new(out);
    let status = match words_after_program_name(alloc, env::args(&rt)) {
        Ok(words) => fh_main(
            &rt,
            alloc,
            &words,
            &mut FileDesk::new(files),
            &mut printer,
            &NoGate,
        ),
        Err(status) => refuse_words(&mut printer, status),
    };
    ExitCode::from(status.number())
}
