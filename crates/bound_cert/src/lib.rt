//! Proof trees: that no correction of a record weighs less than it is said to, leaf by leaf, for who trusts
//! nobody. A path says of the first fields whether each is kept or changed. The leaves of a full tree of
//! paths stand for all corrections, and at each leaf a small proof says why none there is lighter. Begin
//! with [`check_cert`]: it accepts a tree exactly where it is valid (`specs/ValidTrees.antt`), and then no
//! correction is lighter.
#![tactic(auto)]

mod cert;
mod check;
mod fault;
mod leaf_check;
mod order;
mod outcome;
mod path;
mod path_fields;
mod sharing;
mod task;
mod verdict;

pub use cert::{Cert, Leaf, LeafWhy};
pub use check::check_cert;
pub use fault::CertFault;
pub use outcome::{Event, GiftFault, Outcome, RowProof};
pub use path::Path;
pub use sharing::sharing_laws;
