//! Why an elimination has no answer: a number of a combination is out of range, or memory was refused. A
//! fault of a step becomes one of the fold that takes the step. In contracts, `told_step` and
//! `told_system` have the overflow that a fault tells, and nothing for want of memory.
ghost use Rattle.std.specs.Prelude.{◌≡◌, option_map};
ghost use Rattle.linear_elim.specs.Systems.{overflow_at};
ghost use Rattle.linear_elim.specs.Told.{told_step, told_system};

use edit_line::Place;
use foundation::OutOfMemory;
use std::alloc::AllocFailed;
use std::{error, fmt};

/// Why a step has no lines.
#[derive(Clone, Copy, Debug)]
pub enum StepFault {
    /// A number of the combination of two lines is out of range. The lines are named by their places in
    /// the list that the step took.
    Overflow {
        first: u64,
        second: u64,
        place: Place,
    },
    /// Memory was refused.
    OutOfMemory,
}

impl fmt::Display for StepFault {
    ghost use Rattle.std.specs.Prelude.{Some};
    ghost use Rattle.linear_elim.specs.Texts.{step_text};

    ghost output = { λ fault. Some (step_text fault) };

    // Writes what is printed of the fault, without a line feed. The numbers of an overflow are left out.
    fn fmt<W: fmt::Write>(&self, f: &mut fmt::Formatter<W>) -> fmt::Result {
        f.write_str(match self {
            StepFault::Overflow { .. } => "a number of a combination is out of range",
            StepFault::OutOfMemory => "out of memory",
        })
    }
}

impl error::Error for StepFault {}

/// Why there is no system.
#[derive(Clone, Copy, Debug)]
pub enum SystemFault {
    /// In the step at this field a number of the combination of two lines is out of range. The lines are
    /// named by their places in the list that the step took.
    Overflow {
        field: u32,
        first: u64,
        second: u64,
        place: Place,
    },
    /// Memory was refused.
    OutOfMemory,
}

impl fmt::Display for SystemFault {
    ghost use Rattle.std.specs.Prelude.{Some};
    ghost use Rattle.linear_elim.specs.Texts.{system_text};

    ghost output = { λ fault. Some (system_text fault) };

    // Writes what is printed of the fault, without a line feed. The numbers of an overflow are left out.
    fn fmt<W: fmt::Write>(&self, f: &mut fmt::Formatter<W>) -> fmt::Result {
        f.write_str(match self {
            SystemFault::Overflow { .. } => "a number of a combination is out of range",
            SystemFault::OutOfMemory => "out of memory",
        })
    }
}

impl error::Error for SystemFault {}

impl From<OutOfMemory> for StepFault {
    ghost use Rattle.std.specs.Prelude.{◌≡◌};
    ghost use Rattle.linear_elim.specs.declared.fault.StepFault.TheVariants as faults;

    ghost from_gives = { λ _ fault. fault ≡ faults.OutOfMemory };

    // Memory that is refused is one of the faults, so that `?` hands it on.
    fn from(_refused: OutOfMemory) -> Self {
        StepFault::OutOfMemory
    }
}

impl From<OutOfMemory> for SystemFault {
    ghost use Rattle.std.specs.Prelude.{◌≡◌};
    ghost use Rattle.linear_elim.specs.declared.fault.SystemFault.TheVariants as faults;

    ghost from_gives = { λ _ fault. fault ≡ faults.OutOfMemory };

    // Memory that is refused is one of the faults, so that `?` hands it on.
    fn from(_refused: OutOfMemory) -> Self {
        SystemFault::OutOfMemory
    }
}

impl<T: Drop> From<AllocFailed<T>> for StepFault {
    ghost use Rattle.std.specs.Prelude.{◌≡◌};
    ghost use Rattle.linear_elim.specs.declared.fault.StepFault.TheVariants as faults;

    ghost from_gives = { λ _ fault. fault ≡ faults.OutOfMemory };

    // Memory that is refused is one of the faults, so that `?` hands it on. What found no room is
    // dropped.
    fn from(_refused: AllocFailed<T>) -> Self {
        StepFault::OutOfMemory
    }
}

/// The fault of a fold that stops in the step at this field: the step's fault, with the field named.
/// Want of memory names none.
pub(crate) fn at_field(fault: StepFault, field: u32) -> SystemFault
    ensures { told_system result ≡ option_map (overflow_at field) (told_step fault) }
{
    match fault {
        StepFault::Overflow {
            first,
            second,
            place,
        } => SystemFault::Overflow {
            field,
            first,
            second,
            place,
        },
        StepFault::OutOfMemory => SystemFault::OutOfMemory,
    }
}
