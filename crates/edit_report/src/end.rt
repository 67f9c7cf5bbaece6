//! What became of a record, from which all that a run tells of it is made.
use back_subst::Gift;
use bound_cert::RowProof;

/// What became of a record. `proof` has what its search found. `donor` is its donor's number, from 0, if it
/// has one. `gift` has the values that it was given, and is None for a record that is not released. The
/// `gift` in `proof` is another thing: the fault for which a change was given no values, and else None.
#[derive(Drop)]
pub struct RowEnd {
    pub proof: RowProof,
    pub donor: Option<u32>,
    pub gift: Option<Gift>,
}
