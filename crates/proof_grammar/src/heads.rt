//! What the first line of a leaf or of a record says, and the limits of a run. A reader has these of a
//! part before it reads the lines behind.
use bound_cert::{Event, GiftFault, Path};

/// The first line of a leaf: its path, why nothing below it is looked at, and how many steps follow.
#[derive(Drop)]
pub enum LeafHead {
    /// `bound`: the path itself weighs at least the weight that is to be shown.
    BoundAt(Path),
    /// `bad`: the path keeps a field without a value.
    BadAt(Path),
    /// `line`: this number of steps proves a line that fails at the fields that the path keeps.
    LineAt(Path, u64),
    /// `box`: this number of steps proves that all codes are forbidden.
    BoxAt(Path, u64),
}

/// The first line of a record, and how many leaves follow behind it.
#[derive(Drop)]
pub enum RowHead {
    /// `clean`: the record is right as it stands.
    CleanAt,
    /// `change`: one less than the weight, the path, and how many leaves. A weight of 0 can't be held,
    /// since that is a clean record.
    ChangeAt(u64, Path, u64),
    /// `gift`: the record would be changed, but a number left the range while values were given. The
    /// weight, the path, which number, and how many leaves.
    GiftAt(u64, Path, GiftFault, u64),
    /// `budget`: the search ended before this path, after this much work.
    BudgetAt(Path, u64),
    /// `step` or `test`: a number left the range at this path.
    EventAt(Path, Event),
    /// `contradictory`: no change corrects the record, as this number of leaves shows.
    ContradictoryAt(u64),
}

/// The limits of a run.
#[derive(Drop)]
pub struct RunLimits {
    /// How often a donor may be given.
    pub limit: u32,
    /// How many donors a row ranks at most.
    pub near: u32,
    /// How much work the search for a record's change may take.
    pub budget: u64,
}
