//! A printer in memory, for tests and worked cases: what was printed can be looked at, and a line can be
//! made to fail. What was printed so far is called its page here.
//!
//! In contracts, `line_of` is a line's text with its line feed. `IsDue` says that the next line is the
//! one that is to fail. `IsTooMuch` says that a line is longer than the room that is left, which is
//! `free`.
ghost use Rattle.std.specs.Prelude.{◌≡◌, ◌↔◌, ◌⊎◌, ◌≤◌, ◌-◌, ◌+◌, ◌++◌, [], Some, None, IfOk, IsErr, IsTrue, length, take, vec_capacity};
ghost use Rattle.edit_desk.specs.Desk.{raised};
ghost use Rattle.edit_desk.specs.Page.{IsDue, IsTooMuch, free, printer_room};
ghost use Rattle.edit_desk.specs.Printer.{Prints, after_line, line_of};

use crate::count::raise_count;
use crate::printer::{PrintFailed, Printer};
use foundation::OutOfMemory;
use std::alloc::Global;
use std::marker::Model;

/// How many bytes a printer in memory has room for: 1 MiB.
const ROOM: usize = 1_048_576;

/// Lines printed into memory. One line fails where it was told to, and each that there is no room for.
#[derive(Drop)]
pub struct MemoryPrinter {
    text: Vec<u8>,
    lines: u64,
    fail_at: Option<u64>,
    faults: u64,
}

impl Model for MemoryPrinter {
    ghost use Rattle.std.specs.Prelude.{vec_capacity};
    ghost use Rattle.edit_desk.specs.Page.{Page};

    ghost Value = { Page };

    ghost view = { λ p. record {
      text = p.text.items;
      lines = p.lines;
      fail_at = p.fail_at;
      room = vec_capacity p.text;
      faults = p.faults;
    } };
}

impl MemoryPrinter {
    /// A printer with nothing printed and room for 1 MiB, whose line of the number `fail_at`, counted
    /// from 1, is to fail.
    pub fn new(alloc: Global, fail_at: Option<u64>) -> Result<MemoryPrinter, OutOfMemory>
        ensures { IfOk result (λ printer. printer ≡ record { text = []; lines = 0; fail_at = fail_at; room = printer_room; faults = 0 }) }
    {
        let text = Vec::with_capacity(alloc, ROOM)?;
        Ok(MemoryPrinter {
            text,
            lines: 0,
            fail_at,
            faults: 0,
        })
    }

    /// What was printed so far, with its line feeds. No memory.
    pub fn text(&self) -> &[u8]
        ensures { result.now ≡ self.now.text }
    {
        self.text.as_slice()
    }

    // Whether the next line is the one that is to fail. The numbers are compared without adding 1 to
    // `lines`, which might pass 64 bits.
    fn is_due(&self) -> bool
        ensures { IsTrue result ↔ IsDue self.now }
    {
        match self.fail_at {
            None => false,
            Some(failing) => failing > self.lines && failing - self.lines == 1,
        }
    }
}

impl Printer for MemoryPrinter {
    ghost printed = { λ p. Some p.text };

    ghost faults = { λ p. p.faults };

    // Appends the line with its line feed. The line that is to fail appends nothing. Where there is no room
    // for all of a line, the bytes that fit stand there, and it fails. Each line is counted, and each that
    // failed is counted as a fault.
    fn line(&mut self, text: &[u8]) -> Result<(), PrintFailed>
        ensures printed { Prints self.old.text self.new.text text.now result }
        ensures faults { self.new.faults ≡ after_line result self.old.faults }
        ensures failed { IsErr result ↔ (IsDue self.old ⊎ IsTooMuch self.old text.now) }
        ensures due { IsDue self.old → self.new.text ≡ self.old.text }
        ensures fitting { ¬ IsDue self.old → self.new.text ≡ self.old.text ++ take (free self.old) (line_of text.now) }
        ensures lines { self.new.lines ≡ raised self.old.lines }
        ensures fail_at { self.new.fail_at ≡ self.old.fail_at }
        ensures room { self.new.room ≡ self.old.room }
    {
        let whole = !self.is_due() && append_line(&mut self.text, text);
        raise_count(&mut self.lines);
        if whole {
            return Ok(());
        }
        raise_count(&mut self.faults);
        Err(PrintFailed)
    }
}

// Appends the text of the line and a line feed, as far as there is room. The answer says whether there was
// room for all.
fn append_line(page: &mut Vec<u8>, text: &[u8]) -> bool
    ensures whole { IsTrue result ↔ length (line_of text.now) ≤ vec_capacity page.old - length page.old.items }
    ensures items { page.new.items ≡ page.old.items ++ take (vec_capacity page.old - length page.old.items) (line_of text.now) }
    ensures room { vec_capacity page.new ≡ vec_capacity page.old }
{
    append(page, text) && append(page, b"\n")
}

// Appends the bytes one by one, as far as there is room in what `page` has reserved, so that it takes no
// memory. The answer says whether there was room for all.
fn append(page: &mut Vec<u8>, bytes: &[u8]) -> bool
    ensures whole { IsTrue result ↔ length bytes.now ≤ vec_capacity page.old - length page.old.items }
    ensures items { page.new.items ≡ page.old.items ++ take (vec_capacity page.old - length page.old.items) bytes.now }
    ensures room { vec_capacity page.new ≡ vec_capacity page.old }
{
    for byte in bytes {
        if page.capacity() <= page.len() {
            return false;
        }
        page.push_reserved(*byte);
    }
    true
}
