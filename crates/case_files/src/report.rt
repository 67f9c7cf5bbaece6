//! Files of cases, run in order, and what is printed of them. It is one line for a file of which all came
//! right, and else each difference.

use crate::commands::Commands;
use crate::difference::{difference, is_same};
use crate::fault::{Fault, FormFault, Kind};
use crate::progress::{Count, Progress};
use crate::steps::{Step, steps_of};
use crate::workplace::Workplace;
use edit_desk::{Desk, FetchError, Printer};
use std::alloc::Global;
use std::sync::Wait;
use std::thread::Threads;

/// The most bytes of a file of cases: 16 MiB.
const MOST_BYTES: u64 = 16_777_216;

/// Fetches and runs the files of cases with these names, and prints what came of each. At last it prints
/// how many cases passed and failed, and answers these counts. A file that can't be read or has no
/// reading counts as one case that failed; the run goes on with the next. The run ends where memory is
/// refused, or a line can't be printed.
pub fn run_files<C: Commands, R: Threads + Wait + Sync, D: Desk, P: Printer>(
    rt: &R,
    alloc: Global,
    names: &[String],
    desk: &mut D,
    printer: &mut P,
) -> Result<Count, Fault> {
    let mut count = Count::none();
    for name in names {
        let more = match desk.fetch(alloc, name, MOST_BYTES) {
            Ok(bytes) => run_file::<C, R, P>(rt, alloc, name, &bytes, printer)?,
            Err(FetchError::OutOfMemory) => return Err(Fault::OutOfMemory),
            Err(_) => refuse_file(alloc, name, printer)?,
        };
        count = count.plus(more);
    }
    let passed = count.passed;
    let failed = count.failed;
    print_line(
        printer,
        &format!(in alloc; "{passed} passed, {failed} failed")?,
    )?;
    Ok(count)
}

// Prints a line of the report, which is given without its line feed. `Fault::Unprinted` where that fails.
fn print_line<P: Printer>(printer: &mut P, line: &str) -> Result<(), Fault> {
    Ok(printer.line(line.as_bytes())?)
}

// Prints that a file could not be read, and counts it as one case that failed.
fn refuse_file<P: Printer>(alloc: Global, name: &str, printer: &mut P) -> Result<Count, Fault> {
    print_line(printer, &format!(in alloc; "{name}: not read")?)?;
    Ok(Count::one_failed())
}

// Prints that the line of this number, from 1, of a file is not in form, and why. The file counts as one
// case that failed.
fn refuse_form<P: Printer>(
    alloc: Global,
    name: &str,
    number: u64,
    kind: Kind,
    printer: &mut P,
) -> Result<Count, Fault> {
    let why = kind.text();
    print_line(printer, &format!(in alloc; "{name}:{number}: {why}")?)?;
    Ok(Count::one_failed())
}

// Reads the bytes of the file `name` as commands, and runs them. A file that is not in form is refused
// before any of its commands is done. `Err` ends the whole run: memory was refused, or a line was not
// printed.
fn run_file<C: Commands, R: Threads + Wait + Sync, P: Printer>(
    rt: &R,
    alloc: Global,
    name: &str,
    bytes: &[u8],
    printer: &mut P,
) -> Result<Count, Fault> {
    match steps_of::<C>(alloc, bytes) {
        Ok(steps) => run_steps::<C, R, P>(rt, alloc, name, &steps, printer),
        Err(FormFault::Line { number, kind }) => refuse_form(alloc, name, number, kind, printer),
        Err(FormFault::OutOfMemory) => Err(Fault::OutOfMemory),
    }
}

// Does the commands of the file `name` in order, and prints how many cases it has, or each difference. A
// difference does not end it. `Err` ends the whole run: memory was refused, or a line was not printed.
fn run_steps<C: Commands, R: Threads + Wait + Sync, P: Printer>(
    rt: &R,
    alloc: Global,
    name: &str,
    steps: &[Step],
    printer: &mut P,
) -> Result<Count, Fault> {
    let mut workplace = Workplace::<C>::new(alloc);
    let mut progress = Progress::new();
    for step in steps {
        let came = workplace.perform(rt, alloc, &step.command)?;
        let is_right = is_same(&step.expected, &came);
        if !is_right {
            show_difference(alloc, name, step, &came, printer)?;
        }
        progress.note_command(step.command.begins_case(), is_right);
    }
    if let Some(cases) = progress.cases_if_right() {
        print_line(printer, &format!(in alloc; "{name}: {cases} cases")?)?;
    }
    Ok(progress.count())
}

// Prints how what came of a command differs from what was to come, below the command with its file and
// line.
fn show_difference<P: Printer>(
    alloc: Global,
    name: &str,
    step: &Step,
    came: &[Vec<u8>],
    printer: &mut P,
) -> Result<(), Fault> {
    let number = step.number;
    let text = step.text;
    print_line(printer, &format!(in alloc; "{name}:{number}: {text}")?)?;
    for line in &difference(alloc, &step.expected, came)? {
        printer.line(line)?;
    }
    Ok(())
}
