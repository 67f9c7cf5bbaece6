//! The answer for one record of a panel.
use back_subst::Gift;
use bound_cert::{Cert, Path, RowProof};

/// What becomes of a record whose fixed fields keep their values.
#[derive(Drop)]
pub enum Linked {
    /// The path changes the record into a correction that leaves the fixed fields alone. It has this weight,
    /// and the tree shows that none of these is lighter; the changed fields have these values.
    Change {
        path: Path,
        weight: u64,
        cert: Cert,
        gift: Gift,
    },
    /// Some fixed field has no value.
    NoLast,
    /// No correction leaves the fixed fields alone, as the tree shows.
    NoCorrection {
        cert: Cert,
    },
    /// The search would pass its budget, or a number leaves the range in it or in the giving of values.
    Stopped(RowProof),
}
