//! What becomes of a record whose fields without a value are to be filled, and what is found of one such
//! field.
use derivation::Step;
use edit_model::{Row, Value};
use foundation::Sequence;

/// A field without a value, the value that the rules force there, and what shows it. The proofs are one for
/// each line that would make the value another one: steps that refute it.
#[derive(Drop)]
pub struct Forced {
    pub field: u32,
    pub value: Value,
    pub proofs: Sequence<Sequence<Step>>,
}

/// What becomes of a record whose fields without a value are to be filled.
#[derive(Drop)]
pub enum Filled {
    /// The record with the values that are forced, and a list of these.
    Done { row: Row, forced: Sequence<Forced> },
    /// No consistent point has the record's values, as these steps show.
    Blocked { steps: Sequence<Step> },
    /// The work of the walks would pass the budget; this much was done before.
    Budget { work: u64 },
    /// A number leaves the range in the test of this number, from 1 on. Test 0 is the walk over the edits
    /// alone, and the giving of a candidate.
    Overflow { test: u32 },
}

/// What the tests of a field find. `tests` is how many were made of the record in all by then, and `work`
/// how much work that took.
#[derive(Drop)]
pub(crate) enum Tested {
    /// The walk of each test closes, by these steps, so that the field is forced.
    Closed {
        proofs: Sequence<Sequence<Step>>,
        tests: u32,
        work: u64,
    },
    /// The walk of one test stays open, so that the field is not forced.
    Free {
        tests: u32,
        work: u64,
    },
    /// One test ends what is done for the record: the budget is passed, or a number leaves the range.
    Stopped(Filled),
}
