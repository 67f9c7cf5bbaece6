//! The answer where a line's sum at a record leaves the range of numbers.
ghost use Rattle.std.specs.Prelude.{Some, ◌++◌, codes};
ghost use Rattle.std.specs.Fmt.{decimal};

use std::{error, fmt};

/// A number of a line's sum at a record leaves the range, first at the field of this number, from 0.
#[derive(Clone, Copy, Debug)]
pub struct LineOverflow {
    pub field: u32,
}

impl fmt::Display for LineOverflow {
    ghost output = { λ fault. Some (codes "a number is out of range at field " ++ decimal fault.field) };

    // Writes what is printed of the fault, without a line feed: it names the number of the field.
    fn fmt<W: fmt::Write>(&self, f: &mut fmt::Formatter<W>) -> fmt::Result {
        write!(f, "a number is out of range at field {}", self.field)
    }
}

impl error::Error for LineOverflow {}
