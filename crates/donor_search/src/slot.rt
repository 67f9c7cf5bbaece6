//! A donor in the order of a field's buckets.

/// A donor with its bucket at a field, counted from the lowest that a number can have.
#[derive(Clone, Copy)]
pub struct Slot {
    pub bucket: u128,
    pub donor: u32,
}
