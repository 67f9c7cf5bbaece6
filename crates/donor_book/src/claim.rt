//! Claims of donors, and what they are answered. Whoever claims is called a row.
use foundation::Sequence;

/// What a claim is answered.
#[derive(Clone, Copy, Debug, PartialEq, Eq)]
pub enum Claim {
    /// The row is given this donor.
    Given(u32),
    /// Each donor of the ranking has been given as often as the limit allows.
    Nobody,
    /// The row had claimed before, and was given this donor then, or nobody.
    Had(Option<u32>),
}

/// A row that has claimed, with the donor that it was given, or None for nobody. Rows and donors are
/// numbered from 0.
#[derive(Clone, Copy)]
pub struct Won {
    /// The row that claimed.
    pub row_no: u32,
    /// The donor that it was given, or None for nobody.
    pub reply: Option<u32>,
}

/// A claim of a donor, and its answer. Rows and donors are numbered from 0.
#[derive(Drop)]
pub struct Entry {
    /// The row that claims.
    pub row_no: u32,
    /// The donors that it ranks, the nearest first.
    pub ranking: Sequence<u32>,
    /// The donor that it was given, or None for nobody.
    pub reply: Option<u32>,
}
