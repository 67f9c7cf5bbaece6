//! What can be wrong with a reasons file, and with a line of it. The faults stand in the order in which
//! they are told, with the words for each.
use foundation::OutOfMemory;
use record_text::TableFault;
use std::alloc::AllocFailed;
use std::{error, fmt};

/// What is wrong with a line. Of several, the first of these is told.
#[derive(Clone, Copy, Debug, PartialEq, Eq)]
pub enum LineFault {
    /// The record's number is none of the record file.
    Record,
    /// The cause is none of the causes.
    Cause,
    /// The record is left out, and a field, a value or a donor stands in the line.
    NotEmpty,
    /// The survey has no field of this name.
    Field,
    /// The donor's number is none of the record file, or the record's own.
    Donor,
    /// The detail of a change is none of `donor`, `nearest` and `default`.
    Detail,
    /// The line does not stand in the order of the records and of their fields, or a record that is left
    /// out has another line.
    Order,
}

impl fmt::Display for LineFault {
    ghost use Rattle.std.specs.Prelude.{Some};
    ghost use Rattle.reason_lines.specs.Messages.{line_fault_text};

    ghost output = { λ fault. Some (line_fault_text fault) };

    // The fault as the end of a sentence whose subject is the line.
    fn fmt<W: fmt::Write>(&self, f: &mut fmt::Formatter<W>) -> fmt::Result {
        f.write_str(match self {
            LineFault::Record => "does not have the number of a record",
            LineFault::Cause => "does not have a known cause",
            LineFault::NotEmpty => {
                "leaves its record out, but names a field, a value or a donor"
            }
            LineFault::Field => "does not have the name of a field",
            LineFault::Donor => "does not have the number of another record as its donor",
            LineFault::Detail => "does not say how the value was found",
            LineFault::Order => "does not stand in the order of the records and their fields",
        })
    }
}

impl error::Error for LineFault {}

/// Why a reasons file was not read. A text that is no table comes before a faulty header, and that
/// before a faulty line; of the lines the first faulty one decides.
#[derive(Clone, Copy, Debug, PartialEq, Eq)]
pub enum ReasonFault {
    /// The text is no table.
    Table { fault: TableFault },
    /// The header is not that of a reasons file.
    Header,
    /// The line of this number, from 0 behind the header, is the first that is faulty, and this is wrong
    /// with it.
    Line { line: u32, fault: LineFault },
    /// Memory was refused.
    OutOfMemory,
}

impl fmt::Display for ReasonFault {
    ghost use Rattle.std.specs.Prelude.{Some};
    ghost use Rattle.reason_lines.specs.Messages.{fault_text};

    ghost output = { λ fault. Some (fault_text fault) };

    // The fault as a sentence. The lines behind the header are counted from 1 in it.
    fn fmt<W: fmt::Write>(&self, f: &mut fmt::Formatter<W>) -> fmt::Result {
        match self {
            ReasonFault::Table { fault } => write!(f, "the reasons file was not read: {fault}"),
            ReasonFault::Header => f.write_str(
                "the header of the reasons file is not record,cause,field,before,after,donor,detail",
            ),
            ReasonFault::Line { line, fault } => {
                let number = u64::from(*line) + 1;
                write!(
                    f,
                    "line {number} behind the header of the reasons file {fault}"
                )
            }
            ReasonFault::OutOfMemory => f.write_str("out of memory"),
        }
    }
}

impl error::Error for ReasonFault {}

impl From<OutOfMemory> for ReasonFault {
    ghost use Rattle.std.specs.Prelude.{◌≡◌};
    ghost use Rattle.reason_lines.specs.declared.fault.ReasonFault.TheVariants as faults;

    ghost from_gives = { λ _ fault. fault ≡ faults.OutOfMemory };

    // A call below was refused memory: the reading ends with `OutOfMemory`.
    fn from(_refused: OutOfMemory) -> Self {
        ReasonFault::OutOfMemory
    }
}

impl<T: Drop> From<AllocFailed<T>> for ReasonFault {
    ghost use Rattle.std.specs.Prelude.{◌≡◌};
    ghost use Rattle.reason_lines.specs.declared.fault.ReasonFault.TheVariants as faults;

    ghost from_gives = { λ _ fault. fault ≡ faults.OutOfMemory };

    // A list was refused memory to grow: the reading ends with `OutOfMemory`.
    fn from(_refused: AllocFailed<T>) -> Self {
        ReasonFault::OutOfMemory
    }
}

impl From<TableFault> for ReasonFault {
    ghost use Rattle.std.specs.Prelude.{◌≡◌};
    ghost use Rattle.reason_lines.specs.inner.TableFaults.{told_of_table};

    ghost from_gives = { λ fault told. told ≡ told_of_table fault };

    // The fault of a text that is no table; memory that was refused is told as such.
    fn from(fault: TableFault) -> Self {
        match fault {
            TableFault::OutOfMemory => ReasonFault::OutOfMemory,
            _ => ReasonFault::Table { fault },
        }
    }
}
