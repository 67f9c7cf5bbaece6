//! What a line of a reasons file says. Records and fields are numbered from 0.

/// How the value of a changed field was found.
#[derive(Clone, Copy, Debug, PartialEq, Eq)]
pub enum How {
    /// It is the donor's.
    Donor,
    /// It is the nearest to the donor's, or to 0, that the rules allow.
    Nearest,
    /// It is 0 or the first code.
    Default,
}

/// A field of a record was changed: one line of the file.
#[derive(Clone, Copy, Debug, PartialEq, Eq)]
pub struct Change {
    /// The record.
    pub record: u32,
    /// The number of the field, in declared order.
    pub field: u32,
    /// How its value was found.
    pub how: How,
    /// The record that gave its values, where one did.
    pub donor: Option<u32>,
}

/// Why a record was not released.
#[derive(Clone, Copy, Debug, PartialEq, Eq)]
pub enum Cause {
    /// The next path of the search would have passed the budget of work.
    Budget,
    /// A number left the range.
    Overflow,
    /// No values at all meet the rules.
    Contradictory,
    /// It has no values of the last period.
    NoLast,
    /// No correction leaves the values of the last period alone.
    NoCorrection,
}

/// A record was not released: one line of the file.
#[derive(Clone, Copy, Debug, PartialEq, Eq)]
pub struct LeftOut {
    /// The record.
    pub record: u32,
    /// Why.
    pub cause: Cause,
}

/// What a line says.
#[derive(Clone, Copy)]
pub(crate) enum Entry {
    /// A field was changed.
    Changed(Change),
    /// A record was left out.
    LeftOut(LeftOut),
}
