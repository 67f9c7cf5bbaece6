//! Why a table was not read, the words that are printed for it, and what it is as a fault of a record file.
use crate::fault::SheetFault;
use foundation::OutOfMemory;
use std::alloc::AllocFailed;
use std::{error, fmt};

/// Why a table was not read: the first of its faults.
#[derive(Clone, Copy, Debug, PartialEq, Eq)]
pub enum TableFault {
    /// There is no record at all.
    NoHeader,
    /// There are more than 4,294,967,295 rows, and none before them is faulty.
    TooManyRows,
    /// The row of this number, from 0, is the first that has another number of fields than the header.
    RowLength { row_no: u32 },
    /// Memory was refused.
    OutOfMemory,
}

impl fmt::Display for TableFault {
    ghost use Rattle.std.specs.Prelude.{Some};
    ghost use Rattle.record_text.specs.Messages.{table_fault_text};

    ghost output = { λ fault. Some (table_fault_text fault) };

    // Writes the message. Rows, which are numbered from 0, are counted from 1 in it.
    fn fmt<W: fmt::Write>(&self, f: &mut fmt::Formatter<W>) -> fmt::Result {
        match self {
            TableFault::NoHeader => f.write_str("the table has no header"),
            TableFault::TooManyRows => f.write_str("the table has more than 4294967295 rows"),
            TableFault::RowLength { row_no } => {
                let number = u64::from(*row_no) + 1;
                write!(
                    f,
                    "row {number} has another number of fields than the header"
                )
            }
            TableFault::OutOfMemory => f.write_str("out of memory"),
        }
    }
}

impl error::Error for TableFault {}

impl From<OutOfMemory> for TableFault {
    ghost use Rattle.std.specs.Prelude.{◌≡◌};
    ghost use Rattle.record_text.specs.declared.table_fault.TableFault.TheVariants as faults;

    ghost from_gives = { λ _ fault. fault ≡ faults.OutOfMemory };

    // Refused memory becomes the fault `OutOfMemory`, so that `?` passes it on.
    fn from(_refused: OutOfMemory) -> Self {
        TableFault::OutOfMemory
    }
}

impl<T: Drop> From<AllocFailed<T>> for TableFault {
    ghost use Rattle.std.specs.Prelude.{◌≡◌};
    ghost use Rattle.record_text.specs.declared.table_fault.TableFault.TheVariants as faults;

    ghost from_gives = { λ _ fault. fault ≡ faults.OutOfMemory };

    // Refused memory becomes the fault `OutOfMemory`. The element that found no room is dropped.
    fn from(_refused: AllocFailed<T>) -> Self {
        TableFault::OutOfMemory
    }
}

impl From<TableFault> for SheetFault {
    ghost use Rattle.std.specs.Prelude.{◌≡◌};
    ghost use Rattle.record_text.specs.inner.Places.{sheet_fault_of};

    ghost from_gives = { λ fault told. told ≡ sheet_fault_of fault };

    // The fault of a record file that has the same name. The rows of record files are read as those of
    // tables are, and `?` turns their faults into these.
    fn from(fault: TableFault) -> Self {
        match fault {
            TableFault::NoHeader => SheetFault::NoHeader,
            TableFault::TooManyRows => SheetFault::TooManyRows,
            TableFault::RowLength { row_no } => SheetFault::RowLength { row_no },
            TableFault::OutOfMemory => SheetFault::OutOfMemory,
        }
    }
}
