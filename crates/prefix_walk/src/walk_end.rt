//! What a walk along a path ends in.
use derivation::Step;
use foundation::Sequence;

/// What a walk along a path ends in. The work is that of all walks of which this is one.
#[derive(Drop)]
pub enum WalkEnd {
    /// The path and all that it extends are open.
    Open { work: u64 },
    /// One of these is closed, by these steps; the work is with it.
    Closed { steps: Sequence<Step>, work: u64 },
    /// The work would pass the budget at the next of these; the work is without it.
    Budget { work: u64 },
    /// A number that is computed for one of these leaves the range.
    Overflow,
}
