//! The answer of exact arithmetic whose numbers pass 128 bits.
use std::{error, fmt};

/// A number that a call has to form is out of range: its absolute value is above `2^127 - 1`. The call's
/// own comment says which numbers these are.
#[derive(Clone, Copy, Debug)]
pub struct Overflow;

impl fmt::Display for Overflow {
    ghost use Rattle.std.specs.Prelude.{Some, codes};

    ghost output = { λ _. Some (codes "a number is out of range") };

    // Writes the words that are printed of an overflow, without a line feed.
    fn fmt<W: fmt::Write>(&self, f: &mut fmt::Formatter<W>) -> fmt::Result {
        f.write_str("a number is out of range")
    }
}

impl error::Error for Overflow {}
