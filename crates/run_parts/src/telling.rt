//! What a run prints at its end: its lines where all was done on the desk, or why it is refused. Each
//! call answers the status that the run ends with.
//!
//! In contracts, `PrintsAll` says that all lines were printed and the run ends so, or that one failed and
//! it ends with `WriteFault`.
ghost use Rattle.std.specs.Prelude.{◌≡◌, ◌≢◌, [], ◌∷◌};
ghost use Rattle.run_parts.specs.PrintedLines.{PrintsLine};
ghost use Rattle.run_parts.specs.Faults.{fault_text};
ghost use Rattle.run_parts.specs.declared.fault.Fault.TheVariants as faults;
ghost use Rattle.run_parts.specs.Parts.{PrintsAll, texts_in};

use crate::fault::{OUT_OF_MEMORY, USAGE};
use crate::status::Status;
use edit_desk::{PrintFailed, Printer};

/// Ends a run whose words could not be had, with this `status`: `Usage` where they are no text, and else
/// that for want of memory. It prints the line that belongs to the status.
pub fn refuse_words<P: Printer>(printer: &mut P, status: Status) -> Status
    ensures status { result ≡ status }
    ensures usage { status ≡ Status.Usage → PrintsLine P.Printer printer (fault_text faults.Usage) }
    ensures memory { status ≢ Status.Usage → PrintsLine P.Printer printer (fault_text faults.OutOfMemory) }
{
    match status {
        Status::Usage => refuse(printer, USAGE, status),
        _ => refuse(printer, OUT_OF_MEMORY, status),
    }
}

/// Prints the lines of a run that did all on the desk, in order, and ends it with `status`. They have no
/// line feeds, which the printer adds. Where one fails, no later one is tried, and the run ends with
/// `WriteFault`.
pub fn tell_all<P: Printer>(printer: &mut P, lines: &[Vec<u8>], status: Status) -> Status
    ensures { PrintsAll P.Printer printer (texts_in lines.now) status result }
{
    for line in lines {
        match printer.line(line) {
            Ok(()) => {}
            Err(PrintFailed) => return Status::WriteFault,
        }
    }
    status
}

/// Prints the one line of a run that did all on the desk, and ends it with `status`. The printer adds the
/// line feed. Where the line fails, the run ends with `WriteFault`.
pub fn tell<P: Printer>(printer: &mut P, line: &[u8], status: Status) -> Status
    ensures { PrintsAll P.Printer printer (line.now ∷ []) status result }
{
    match printer.line(line) {
        Ok(()) => status,
        Err(PrintFailed) => Status::WriteFault,
    }
}

/// Prints the line that says why a run is refused, to which the printer adds the line feed. A line that
/// fails changes nothing: the run still ends with `status`.
pub fn refuse<P: Printer>(printer: &mut P, line: &[u8], status: Status) -> Status
    ensures status { result ≡ status }
    ensures printed { PrintsLine P.Printer printer line.now }
{
    let _told = printer.line(line);
    status
}
