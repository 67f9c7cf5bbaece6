//! Why there are no boxes of a record.
use foundation::OutOfMemory;
use std::{error, fmt};

/// Why the boxes of a record are not made.
#[derive(Clone, Copy, Debug)]
pub enum BoxFault {
    /// The sum of the line at this place, from 0, leaves the range, first at the field of this number,
    /// from 0. No earlier line's sum does.
    Overflow { line: u64, field: u32 },
    /// Memory was refused.
    OutOfMemory,
}

impl fmt::Display for BoxFault {
    ghost use Rattle.std.specs.Prelude.{Some};
    ghost use Rattle.categ_combine.specs.Texts.{text_of};

    ghost output = { λ fault. Some (text_of fault) };

    // Writes what is printed of the fault, without a line feed.
    fn fmt<W: fmt::Write>(&self, f: &mut fmt::Formatter<W>) -> fmt::Result {
        match self {
            BoxFault::Overflow { line, field } => {
                write!(
                    f,
                    "a number of line {line} is out of range at field {field}"
                )
            }
            BoxFault::OutOfMemory => f.write_str("out of memory"),
        }
    }
}

impl error::Error for BoxFault {}

impl From<OutOfMemory> for BoxFault {
    ghost use Rattle.std.specs.Prelude.{◌≡◌};
    ghost use Rattle.categ_combine.specs.declared.fault.BoxFault.TheVariants as faults;

    ghost from_gives = { λ _ fault. fault ≡ faults.OutOfMemory };

    // Memory that is refused is one of the faults, so that `?` hands it on.
    fn from(_refused: OutOfMemory) -> Self {
        BoxFault::OutOfMemory
    }
}
