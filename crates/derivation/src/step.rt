//! The steps of which derivations are made, as they are also written in proof files.
ghost use Rattle.std.specs.Prelude.{◌≡◌, IfOk};

use foundation::{OutOfMemory, Sequence};
use std::alloc::Global;

/// A step of a derivation. Places are those of given lines and of earlier steps, from 0; fields are those
/// of the survey, from 0.
#[derive(Drop)]
pub enum Step {
    /// The given line at this place.
    Given(u64),
    /// `m` times the line of the step at `a` and `n` times that of the step at `b`, divided by `g`.
    Combine {
        a: u64,
        m: i128,
        b: u64,
        n: i128,
        g: i128,
    },
    /// The box of the sets of the line of the step at this place, which fails at the record.
    Fail(u64),
    /// What the boxes of the steps at these places have in common on the other fields, made whole at the
    /// field (Fellegi and Holt 1976). There is one place for each code of the field, in declared order.
    Cover {
        field: u32,
        parts: Sequence<u64>,
    },
    /// The box of the step at this place, which has the record's code at a kept field, made whole there.
    Fix {
        field: u32,
        part: u64,
    },
}

impl Step {
    /// An equal step.
    pub fn copy(&self, alloc: Global) -> Result<Step, OutOfMemory>
        ensures { IfOk result (λ copy. copy ≡ self.now) }
    {
        match self {
            Step::Given(place) => Ok(Step::Given(*place)),
            Step::Combine { a, m, b, n, g } => Ok(Step::Combine {
                a: *a,
                m: *m,
                b: *b,
                n: *n,
                g: *g,
            }),
            Step::Fail(place) => Ok(Step::Fail(*place)),
            Step::Cover { field, parts } => Ok(Step::Cover {
                field: *field,
                parts: Sequence::from_vec(Vec::from_slice(alloc, parts.as_slice())?),
            }),
            Step::Fix { field, part } => Ok(Step::Fix {
                field: *field,
                part: *part,
            }),
        }
    }
}
