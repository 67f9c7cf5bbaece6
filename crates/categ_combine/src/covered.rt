//! The answer of the elimination of a categorical field, whose work has a limit.
use crate::box_from::BoxFrom;
use foundation::Sequence;

/// What the elimination of a categorical field gives.
#[derive(Drop)]
pub enum Covered {
    /// The boxes without the field, and how many pairs of a cover and a box were looked at.
    Done {
        boxes: Sequence<BoxFrom>,
        pairs: u64,
    },
    /// There are more pairs than may be looked at.
    Passed,
}
