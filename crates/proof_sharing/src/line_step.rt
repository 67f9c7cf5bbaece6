//! Steps that give a line by themselves, as keys of the table of lines.
ghost use Rattle.std.specs.Prelude.{◌≡◌, IfOk, map, option_map, slice_index_or};
ghost use Rattle.derivation.specs.SharedLines.{as_tabled};
ghost use Rattle.proof_sharing.specs.inner.Tables.{step_of};

use derivation::Step;
use foundation::{OutOfMemory, Sequence};
use std::alloc::Global;

/// A step that names a given line or combines two, as [`Step`] has them. It can be hashed and copied, which
/// a step with a list can't.
#[derive(Clone, Copy, PartialEq, Eq, Hash)]
pub(crate) enum LineStep {
    Given(u64),
    Combine {
        a: u64,
        m: i128,
        b: u64,
        n: i128,
        g: i128,
    },
}

impl LineStep {
    /// The step that the key stands for.
    pub(crate) fn step(self) -> Step
        ensures { result ≡ step_of self }
    {
        match self {
            LineStep::Given(place) => Step::Given(place),
            LineStep::Combine { a, m, b, n, g } => Step::Combine { a, m, b, n, g },
        }
    }
}

/// The steps that the keys stand for, in order.
pub(crate) fn steps_of(alloc: Global, keys: &[LineStep]) -> Result<Sequence<Step>, OutOfMemory>
    ensures { IfOk result (λ steps. steps ≡ map step_of keys.now) }
{
    let mut steps = Vec::with_capacity(alloc, keys.len())?;
    for key in keys {
        steps.push(key.step())?;
    }
    Ok(Sequence::from_vec(steps))
}

/// The step of a leaf as it stands in the table, where a combination names its two lines by their places in
/// the table. `places` has the place there of each step of the leaf before this one. None for a step that
/// makes a box, which the table has not.
pub(crate) fn as_tabled(places: &[u64], step: &Step) -> Option<LineStep>
    ensures { option_map step_of result ≡ as_tabled places.now step.now }
{
    match step {
        Step::Given(place) => Some(LineStep::Given(*place)),
        Step::Combine { a, m, b, n, g } => Some(LineStep::Combine {
            a: number_at(places, *a),
            m: *m,
            b: number_at(places, *b),
            n: *n,
            g: *g,
        }),
        Step::Fail(_) | Step::Cover { .. } | Step::Fix { .. } => None,
    }
}

/// The number at `place`, from 0, of the list, or 0 where the list has none there. So it is looked up where
/// a step of a leaf stands in the table, or among the steps that are kept.
pub(crate) fn number_at(numbers: &[u64], place: u64) -> u64
    ensures { result ≡ slice_index_or numbers.now place 0 }
{
    if place < numbers.len() as u64 {
        numbers[place as usize]
    } else {
        0
    }
}
