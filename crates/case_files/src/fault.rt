//! Why a run of cases ends before all are run, and why a file of cases has no reading.
use edit_desk::PrintFailed;
use foundation::OutOfMemory;
use std::alloc::{AllocError, AllocFailed};

/// Why a run of cases ends before all are run.
#[derive(Clone, Copy)]
pub enum Fault {
    /// Memory was refused.
    OutOfMemory,
    /// A line was not printed.
    Unprinted,
}

impl From<OutOfMemory> for Fault {
    // Lets `?` end the run where a call was refused memory.
    fn from(_refused: OutOfMemory) -> Self {
        Fault::OutOfMemory
    }
}

impl From<AllocError> for Fault {
    // Lets `?` end the run where the standard library refuses memory.
    fn from(_refused: AllocError) -> Self {
        Fault::OutOfMemory
    }
}

impl<T: Drop> From<AllocFailed<T>> for Fault {
    // Lets `?` end the run where a list was refused memory to grow.
    fn from(_refused: AllocFailed<T>) -> Self {
        Fault::OutOfMemory
    }
}

impl From<PrintFailed> for Fault {
    // Lets `?` end the run where a line was not printed.
    fn from(_failed: PrintFailed) -> Self {
        Fault::Unprinted
    }
}

/// What is not in form in a line of a file of cases.
#[derive(Clone, Copy)]
pub enum Kind {
    /// The line is no UTF-8.
    NoText,
    /// The words are not parted by single spaces, or a quote is open.
    Words,
    /// There is no such command, or it takes other words.
    Command,
    /// Output stands behind no command.
    Output,
    /// The bytes of a file are not spelled in form.
    Spelling,
    /// The bytes of a file do not end in a line `  > EOF`.
    NoEnd,
}

impl Kind {
    /// The words that are printed behind the file's name and the line's number, for what is out of form.
    pub fn text(self) -> &'static str {
        match self {
            Kind::NoText => "no text",
            Kind::Words => "words out of form",
            Kind::Command => "no such command",
            Kind::Output => "output of no command",
            Kind::Spelling => "bytes out of form",
            Kind::NoEnd => "a file with no end",
        }
    }
}

/// Why a file of cases has no reading.
#[derive(Clone, Copy)]
pub enum FormFault {
    /// A line, by its number from 1, is not in form.
    Line { number: u64, kind: Kind },
    /// Memory was refused.
    OutOfMemory,
}

/// Why a part of a line is not read.
#[derive(Clone, Copy)]
pub enum PartFault {
    /// It is not in form.
    Form { kind: Kind },
    /// Memory was refused.
    OutOfMemory,
}

impl PartFault {
    /// The same fault, as one of the whole file: the part that is not read stands in the line of this
    /// `number`, from 1.
    pub fn at(self, number: u64) -> FormFault {
        match self {
            PartFault::Form { kind } => FormFault::Line { number, kind },
            PartFault::OutOfMemory => FormFault::OutOfMemory,
        }
    }
}

impl From<Kind> for PartFault {
    // Lets `?` pass on what is out of form in a part of a line. The line's number is told later, by `at`.
    fn from(kind: Kind) -> Self {
        PartFault::Form { kind }
    }
}

impl From<AllocError> for PartFault {
    // Lets `?` end the reading of a file where the standard library refuses memory.
    fn from(_refused: AllocError) -> Self {
        PartFault::OutOfMemory
    }
}

impl<T: Drop> From<AllocFailed<T>> for PartFault {
    // Lets `?` end the reading of a file where a list was refused memory to grow.
    fn from(_refused: AllocFailed<T>) -> Self {
        PartFault::OutOfMemory
    }
}
