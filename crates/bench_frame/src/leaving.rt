//! The end of a bench: what it prints, and its exit status. In contracts, `Told` relates what the printer
//! had printed before and after, and `in_lines` has a text with a line feed behind its last line.
//! `printed_after` and `status_after` are the text and the status after what a bench told, and `IsLeft`
//! says what may be printed by each exit status.
ghost use Rattle.std.specs.Prelude.{◌≡◌, ◌≢◌, ◌⊎◌, IfOk};
ghost use Rattle.std.specs.Process.{exit_status};
ghost use Rattle.edit_desk.specs.Desk.{Told, raised};
ghost use Rattle.edit_desk.specs.Printer.{after_line};
ghost use Rattle.bench_frame.specs.Endings.{IsEnding, IsLeft, PrintsText, in_lines, printed_after, status_after};

use crate::fault::Fault;
use edit_desk::{PrintFailed, Printer};
use foundation::OutOfMemory;
use std::alloc::Global;
use std::process::ExitCode;

/// How a bench ends: the text that it prints, and its exit status.
#[derive(Drop)]
pub struct Ending {
    /// What is printed.
    pub text: String,
    /// The exit status.
    pub status: u8,
}

/// How a bench ends that told this. A text is printed as it is, and the status is 0. Of a fault its words
/// are printed, in a line, and the status is the fault's. `usage` is the bench's text of how it is
/// called.
pub fn ending_of(
    alloc: Global,
    usage: &str,
    told: Result<String, Fault>,
) -> Result<Ending, OutOfMemory>
    ensures { IfOk result (IsEnding usage.now told) }
{
    match told {
        Ok(text) => Ok(Ending { text, status: 0 }),
        Err(fault) => {
            let why = fault.text(usage);
            Ok(Ending {
                text: format!(in alloc; "{why}\n")?,
                status: fault.status(),
            })
        }
    }
}

/// The last call of a bench: prints what it told, or why it told nothing, and answers its exit status, as
/// [`ending_of`] has both. The status is 6 exactly where the printer failed; then some first bytes may be
/// printed. It is 7 also where memory is refused here. `usage` is the bench's text of how it is called.
pub fn leave<P: Printer>(
    alloc: Global,
    printer: &mut P,
    usage: &str,
    told: Result<String, Fault>,
) -> ExitCode
    ensures status { (exit_status result ≡ status_after told) ⊎ (exit_status result ≡ 6) ⊎ (exit_status result ≡ 7) }
    ensures failed { exit_status result ≡ 6 → P.faults printer.new ≡ raised (P.faults printer.old) }
    ensures unfailed { exit_status result ≢ 6 → P.faults printer.new ≡ P.faults printer.old }
    ensures printed { Told (P.printed printer.old) (P.printed printer.new)
        (IsLeft (in_lines (printed_after usage.now told)) (status_after told) (exit_status result)) }
{
    let Ok(ending) = ending_of(alloc, usage, told) else {
        return ExitCode::from(Fault::OutOfMemory.status());
    };
    match print_lines(printer, ending.text.as_bytes()) {
        Ok(()) => ExitCode::from(ending.status),
        Err(PrintFailed) => ExitCode::from(6),
    }
}

// Prints the text, by one call of the printer, with one line feed at its end whether it has one or not.
// Of an empty text nothing is printed. `Err` where the printer failed.
fn print_lines<P: Printer>(printer: &mut P, text: &[u8]) -> Result<(), PrintFailed>
    ensures printed { Told (P.printed printer.old) (P.printed printer.new) (λ old new. PrintsText old new (in_lines text.now) result) }
    ensures faults { P.faults printer.new ≡ after_line result (P.faults printer.old) }
{
    match text.last() {
        None => Ok(()),
        Some(b'\n') => printer.line(&text[..text.len() - 1]),
        Some(_) => printer.line(text),
    }
}
