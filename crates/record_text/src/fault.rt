//! Why a record file was not read, and the words that are printed for it.
use foundation::OutOfMemory;
use std::alloc::{AllocError, AllocFailed};
use std::{error, fmt};

/// Why a record file was not read. Faults of the header come before those of columns, and those before
/// faults of rows. Of the columns the first faulty field decides, and of the rows the first faulty row.
#[derive(Clone, Copy, Debug, PartialEq, Eq)]
pub enum SheetFault {
    /// There is no record at all.
    NoHeader,
    /// The header has more than 256 columns.
    TooManyColumns,
    /// The field of this number, from 0, stands in no column.
    NoColumn { field: u32 },
    /// The field of this number, from 0, stands in several columns.
    DoubleColumn { field: u32 },
    /// There are more than 200,000 rows, and none of the first 200,000 is faulty.
    TooManyRows,
    /// The row of this number, from 0, is the first that has another number of fields than the header.
    RowLength { row_no: u32 },
    /// Memory was refused.
    OutOfMemory,
}

impl fmt::Display for SheetFault {
    ghost use Rattle.std.specs.Prelude.{Some};
    ghost use Rattle.record_text.specs.Messages.{fault_text};

    ghost output = { λ fault. Some (fault_text fault) };

    // Writes the message. Fields and rows, which are numbered from 0, are counted from 1 in it.
    fn fmt<W: fmt::Write>(&self, f: &mut fmt::Formatter<W>) -> fmt::Result {
        match self {
            SheetFault::NoHeader => f.write_str("the record file has no header"),
            SheetFault::TooManyColumns => f.write_str("the header has more than 256 columns"),
            SheetFault::NoColumn { field } => {
                let number = u64::from(*field) + 1;
                write!(f, "no column has the name of field {number}")
            }
            SheetFault::DoubleColumn { field } => {
                let number = u64::from(*field) + 1;
                write!(f, "several columns have the name of field {number}")
            }
            SheetFault::TooManyRows => f.write_str("the record file has more than 200000 rows"),
            SheetFault::RowLength { row_no } => {
                let number = u64::from(*row_no) + 1;
                write!(
                    f,
                    "row {number} has another number of fields than the header"
                )
            }
            SheetFault::OutOfMemory => f.write_str("out of memory"),
        }
    }
}

impl error::Error for SheetFault {}

impl From<OutOfMemory> for SheetFault {
    ghost use Rattle.std.specs.Prelude.{◌≡◌};
    ghost use Rattle.record_text.specs.declared.fault.SheetFault.TheVariants as faults;

    ghost from_gives = { λ _ fault. fault ≡ faults.OutOfMemory };

    // Refused memory becomes the fault `OutOfMemory`, so that `?` passes it on.
    fn from(_refused: OutOfMemory) -> Self {
        SheetFault::OutOfMemory
    }
}

impl From<AllocError> for SheetFault {
    ghost use Rattle.std.specs.Prelude.{◌≡◌};
    ghost use Rattle.record_text.specs.declared.fault.SheetFault.TheVariants as faults;

    ghost from_gives = { λ _ fault. fault ≡ faults.OutOfMemory };

    // Refused memory becomes the fault `OutOfMemory`, so that `?` passes it on.
    fn from(_refused: AllocError) -> Self {
        SheetFault::OutOfMemory
    }
}

impl<T: Drop> From<AllocFailed<T>> for SheetFault {
    ghost use Rattle.std.specs.Prelude.{◌≡◌};
    ghost use Rattle.record_text.specs.declared.fault.SheetFault.TheVariants as faults;

    ghost from_gives = { λ _ fault. fault ≡ faults.OutOfMemory };

    // Refused memory becomes the fault `OutOfMemory`. The element that found no room is dropped.
    fn from(_refused: AllocFailed<T>) -> Self {
        SheetFault::OutOfMemory
    }
}
