//! The whole of a program that runs files of cases: its `main` makes this one call, with the commands of
//! its own.

use crate::commands::Commands;
use crate::fault::Fault;
use crate::report::run_files;
use edit_desk::{FileDesk, OutPrinter, Printer, words_of};
use std::env;
use std::process::ExitCode;
use std::rt::{Env, Files};
use std::sync::Wait;
use std::thread::Threads;

/// Runs the files of cases that the program's words name, and prints what came of each and how many cases
/// passed and failed. `C` has the commands of the program's own. The exit status is 0 where there were
/// cases and all passed, and else 1. It is 1 also where memory was refused, a word is no text or a line
/// was not printed.
pub fn run_program<
    C: Commands,
    R: Threads + Wait + Sync + Env + Files + Print + AllocGlobal + Clone + Drop,
>(rt: R) -> ExitCode {
    let alloc = rt.alloc();
    let Ok(out) = rt.clone() else {
        return ExitCode::from(1);
    };
    let Ok(files) = rt.clone() else {
        return ExitCode::from(1);
    };
    let Ok(words) = words_of(alloc, env::args(&rt)) else {
        return ExitCode::from(1);
    };
    let mut desk = FileDesk::new(files);
    let mut printer = OutPrinter::new(out);
    match run_files::<C, _, _, _>(&rt, alloc, &words, &mut desk, &mut printer) {
        Ok(count) if count.has_passed() => ExitCode::SUCCESS,
        Ok(_) => ExitCode::from(1),
        Err(fault) => leave(&mut printer, fault),
    }
}

// Ends a run that stopped for this fault before all cases were run: the exit status is 1. Refused memory is
// told by a line; of a line that could not be printed nothing more can be said.
fn leave<P: Printer>(printer: &mut P, fault: Fault) -> ExitCode {
    if fault == Fault::OutOfMemory {
        let _told = printer.line(b"out of memory");
    }
    ExitCode::from(1)
}
