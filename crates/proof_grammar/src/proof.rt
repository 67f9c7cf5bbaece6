//! Proofs, as they are held in memory: what a proof file spells.
use bound_cert::RowProof;
use derivation::Step;
use donor_book::Entry;
use foundation::Sequence;

/// What a run shows of itself: its limits, which lines it dropped and why, what it found of each record, and
/// the claims of donors.
#[derive(Drop)]
pub struct Proof {
    /// The version of its text: 1, or 2, in which the lines that all records share are written once.
    pub version: u32,
    /// How often a donor may be given.
    pub limit: u32,
    /// How many donors a row ranks at most.
    pub near: u32,
    /// How much work the search for a record's change may take.
    pub budget: u64,
    /// For each line of the rules None where it is kept, or the steps that show that it follows.
    pub verdicts: Sequence<Option<Sequence<Step>>>,
    /// The steps of the lines that all records share, of which each gives a line; none in version 1.
    pub table: Sequence<Step>,
    /// For each record what was found. A given line past those of the rules is one of the table.
    pub rows: Sequence<RowProof>,
    /// The claims, in the order in which they were answered.
    pub claims: Sequence<Entry>,
}
