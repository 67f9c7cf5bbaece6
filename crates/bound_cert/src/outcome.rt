//! What an edit finds of a record, as a proof file says it. It is a change with its tree, no correction with its
//! tree, or why the search ended before.
use crate::cert::Cert;
use crate::path::Path;
use edit_line::Place;

/// The first number that left the range in a search.
#[derive(Clone, Copy)]
pub enum Event {
    /// A number of the combination of two lines, at this place of it. The lines are named by their places,
    /// from 0, in the system before the path's last field was eliminated.
    Step {
        first: u64,
        second: u64,
        place: Place,
    },
    /// A number of the sum at the record of the line at this place in the path's system, from 0, at this
    /// field.
    Test {
        line: u64,
        field: u32,
    },
}

/// What is found of a record.
#[derive(Drop)]
pub enum Outcome {
    /// A correction changes the fields that the path changes; it has this weight, and the tree shows that
    /// none is lighter.
    Change { path: Path, weight: u64, cert: Cert },
    /// The search ended before this path, since its work would have passed the budget; so much work was
    /// done before it.
    Budget { path: Path, work: u64 },
    /// The search ended at this path, where a number left the range.
    Overflow { path: Path, event: Event },
    /// There is no correction, as the tree shows.
    Contradictory { cert: Cert },
}

/// Why the fields of a change are given no values: the first number that left the range.
#[derive(Clone, Copy)]
pub enum GiftFault {
    /// The bound that the line at this place sets for the field.
    Bound { field: u32, line: u64 },
    /// The test of this rule at the record that was made.
    Test { rule: u32 },
}

/// What a proof file says of a record: what was found, and why no values were given where a number left the
/// range.
#[derive(Drop)]
pub struct RowProof {
    pub outcome: Outcome,
    pub gift: Option<GiftFault>,
}
