//! The printer over standard output, which the program has.
ghost use Rattle.std.specs.Prelude.{◌≡◌, ℕ, None, OnOk, take};
ghost use Rattle.std.specs.Io.KnownBytes.{Appends};
ghost use Rattle.edit_desk.specs.Printer.{line_of};

use crate::count::raise_count;
use crate::printer::{PrintFailed, Printer};
use crate::writing::write_whole;
use std::io::{self, Write};
use std::marker::Model;

/// Lines printed to standard output. What was printed is not told. Contracts see the count of faults alone:
/// how many lines failed.
#[derive(Drop)]
pub struct OutPrinter<R: Print + Drop> {
    rt: R,
    faults: u64,
}

impl<R: Print + Drop> Model for OutPrinter<R> {
    ghost use Rattle.std.specs.Prelude.{ℕ};

    ghost Value = { ℕ };

    ghost view = { λ p. p.faults };
}

impl<R: Print + Drop> OutPrinter<R> {
    /// A printer over the program's standard output, which has met no fault.
    pub fn new(rt: R) -> Self
        ensures { result ≡ 0 }
    {
        OutPrinter { rt, faults: 0 }
    }
}

impl<R: Print + Drop> Printer for OutPrinter<R> {
    ghost printed = { λ _. None };

    ghost faults = { λ p. p };

    // Writes the line with its line feed to standard output, and counts a fault where that failed.
    fn line(&mut self, text: &[u8]) -> Result<(), PrintFailed> {
        let answer = write_line(&mut io::writer(&self.rt), text);
        if answer.is_err() {
            raise_count(&mut self.faults);
        }
        answer
    }
}

// Writes the text and one line feed, and has the writer hand on what it still holds. Where it fails, some
// first bytes may be written. In the contract, `Appends` says what was written behind what stood before.
fn write_line<W: Write>(to: &mut W, text: &[u8]) -> Result<(), PrintFailed>
    ensures whole { OnOk result (Appends (W.contents to.old) (W.contents to.new) (line_of text.now)) }
    ensures part { (kept : ℕ) × Appends (W.contents to.old) (W.contents to.new) (take kept (line_of text.now)) }
{
    write_whole(to, text)?;
    write_whole(to, b"\n")?;
    to.flush().map_err(|_| PrintFailed)
}
