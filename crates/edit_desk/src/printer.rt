//! Printers: what lines are printed to. A command is written over any of them.
//!
//! A printer tells contracts what was printed, as one in memory does, or it does not, as that of the
//! system. `Told` says of what was printed before and after a call: both are told and stand in the
//! relation, or neither is told. `Prints` says that the text and one line feed stand behind what was
//! printed before, or first bytes of them where the line fails. `after_line` is the count of faults, one
//! more where it fails.
ghost use Rattle.std.specs.Prelude.{◌≡◌, ℕ, List, Option};
ghost use Rattle.edit_desk.specs.Desk.{Told};
ghost use Rattle.edit_desk.specs.Printer.{Prints, after_line};

/// A line was not printed as a whole.
#[derive(Clone, Copy)]
pub struct PrintFailed;

/// A place that lines are printed to.
pub trait Printer {
    /// What was printed, where the printer tells it.
    ghost printed: { Self → Option (List ℕ) };

    /// How many lines failed. The count stands still at 2^64 - 1.
    ghost faults: { Self → ℕ };

    /// Prints the text and one line feed. Where it fails, some first bytes of them may be printed. No
    /// memory.
    fn line(&mut self, text: &[u8]) -> Result<(), PrintFailed>
        ensures printed { Told (printed self.old) (printed self.new) (λ old new. Prints old new text.now result) }
        ensures faults { faults self.new ≡ after_line result (faults self.old) };
}
