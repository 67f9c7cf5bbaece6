//! Why a list of steps is refused.
use foundation::OutOfMemory;
use std::alloc::{AllocError, AllocFailed};
use std::{error, fmt};

/// Why a list of steps proves nothing.
#[derive(Clone, Copy, Debug)]
pub enum StepsFault {
    /// The step at this place, from 0, is the first that is not valid. For no steps the place is 0.
    Bad { place: u64 },
    /// Memory was refused.
    OutOfMemory,
}

impl fmt::Display for StepsFault {
    ghost use Rattle.std.specs.Prelude.{Some};
    ghost use Rattle.derivation.specs.Texts.{text_of};

    ghost output = { λ fault. Some (text_of fault) };

    // Writes what is printed of the fault, without a line feed.
    fn fmt<W: fmt::Write>(&self, f: &mut fmt::Formatter<W>) -> fmt::Result {
        match self {
            StepsFault::Bad { place } => write!(f, "the step at place {place} is not valid"),
            StepsFault::OutOfMemory => f.write_str("out of memory"),
        }
    }
}

impl error::Error for StepsFault {}

impl From<OutOfMemory> for StepsFault {
    ghost use Rattle.std.specs.Prelude.{◌≡◌};
    ghost use Rattle.derivation.specs.declared.fault.StepsFault.TheVariants as faults;

    ghost from_gives = { λ _ fault. fault ≡ faults.OutOfMemory };

    // Memory that is refused is one of the faults, so that `?` hands it on.
    fn from(_refused: OutOfMemory) -> Self {
        StepsFault::OutOfMemory
    }
}

impl From<AllocError> for StepsFault {
    ghost use Rattle.std.specs.Prelude.{◌≡◌};
    ghost use Rattle.derivation.specs.declared.fault.StepsFault.TheVariants as faults;

    ghost from_gives = { λ _ fault. fault ≡ faults.OutOfMemory };

    // Memory that the standard library refuses is one of the faults, so that `?` hands it on.
    fn from(_refused: AllocError) -> Self {
        StepsFault::OutOfMemory
    }
}

impl<T: Drop> From<AllocFailed<T>> for StepsFault {
    ghost use Rattle.std.specs.Prelude.{◌≡◌};
    ghost use Rattle.derivation.specs.declared.fault.StepsFault.TheVariants as faults;

    ghost from_gives = { λ _ fault. fault ≡ faults.OutOfMemory };

    // Memory that is refused is one of the faults, so that `?` hands it on. What found no room is
    // dropped.
    fn from(_refused: AllocFailed<T>) -> Self {
        StepsFault::OutOfMemory
    }
}
