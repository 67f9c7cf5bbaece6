//! A line with its origin, from which a derivation can later be written down.
ghost use Rattle.std.specs.Prelude.{◌≡◌, IfOk};

use crate::line::Line;
use foundation::OutOfMemory;
use std::alloc::Global;

/// Where a line comes from. Places are those in the list that the step took, from 0.
#[derive(Clone, Copy)]
pub enum Origin {
    /// The edit of this number.
    Base(u64),
    /// The line at this place, as it was.
    Same(u64),
    /// `m` times the line at `a` and `n` times the line at `b`, divided by `g`.
    Pair {
        a: u64,
        m: i128,
        b: u64,
        n: i128,
        g: i128,
    },
}

/// A line with its origin.
#[derive(Drop)]
pub struct Derived {
    pub line: Line,
    pub origin: Origin,
}

impl Derived {
    /// An equal line with the same origin.
    pub fn copy(&self, alloc: Global) -> Result<Derived, OutOfMemory>
        ensures { IfOk result (λ copy. copy ≡ self.now) }
    {
        let line = self.line.copy(alloc)?;
        Ok(Derived {
            line,
            origin: self.origin,
        })
    }
}
