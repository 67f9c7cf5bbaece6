//! The answer that memory was refused, which each call that takes memory may give.
use std::alloc::{AllocError, AllocFailed};
use std::{error, fmt};

/// Memory was refused. Any call that takes memory may answer so: no contract ties this answer to a cause.
#[derive(Clone, Copy, Debug)]
pub struct OutOfMemory;

impl fmt::Display for OutOfMemory {
    ghost use Rattle.std.specs.Prelude.{Some, codes};

    ghost output = { λ _. Some (codes "out of memory") };

    // Writes the words that are printed where memory was refused, without a line feed.
    fn fmt<W: fmt::Write>(&self, f: &mut fmt::Formatter<W>) -> fmt::Result {
        f.write_str("out of memory")
    }
}

impl error::Error for OutOfMemory {}

impl From<AllocError> for OutOfMemory {
    // Lets `?` turn the refusal of a call of the standard library into this answer.
    fn from(_refused: AllocError) -> Self {
        OutOfMemory
    }
}

impl<T: Drop> From<AllocFailed<T>> for OutOfMemory {
    // Lets `?` turn the refusal of a call into this answer where the call gives back what found no room. That
    // is dropped.
    fn from(_refused: AllocFailed<T>) -> Self {
        OutOfMemory
    }
}
