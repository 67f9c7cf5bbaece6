//! Why a proof tree is not accepted.
use foundation::OutOfMemory;
use std::{error, fmt};

/// Why a tree is not accepted.
#[derive(Clone, Copy, Debug)]
pub enum CertFault {
    /// The first leaf, from 0, whose path is not the next of a full tree, or which is not valid. Of one that
    /// is not valid also its first step, from 0, that is not, if there is one. For no leaves the leaf is 0.
    Bad { leaf: u64, step: Option<u64> },
    /// Memory was refused.
    OutOfMemory,
}

impl fmt::Display for CertFault {
    ghost use Rattle.std.specs.Prelude.{Some};
    ghost use Rattle.bound_cert.specs.Texts.{text_of};

    ghost output = { λ fault. Some (text_of fault) };

    // Writes what is printed of the fault, without a line feed. Leaves and steps are told by their places,
    // from 0.
    fn fmt<W: fmt::Write>(&self, f: &mut fmt::Formatter<W>) -> fmt::Result {
        match self {
            CertFault::Bad { leaf, step: None } => write!(
                f,
                "the leaf at place {leaf} is not valid"
            ),
            CertFault::Bad {
                leaf,
                step: Some(step),
            } => write!(
                f,
                "the step at place {step} of the leaf at place {leaf} is not valid"
            ),
            CertFault::OutOfMemory => f.write_str("out of memory"),
        }
    }
}

impl error::Error for CertFault {}

impl From<OutOfMemory> for CertFault {
    ghost use Rattle.std.specs.Prelude.{◌≡◌};
    ghost use Rattle.bound_cert.specs.declared.fault.CertFault.TheVariants as faults;

    ghost from_gives = { λ _ fault. fault ≡ faults.OutOfMemory };

    // The fault of a check in which memory was refused, so that `?` passes it on.
    fn from(_refused: OutOfMemory) -> Self {
        CertFault::OutOfMemory
    }
}
