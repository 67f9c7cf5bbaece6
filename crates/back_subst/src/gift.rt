//! What giving values to a record answers: the record with its values and how each was found, or why there
//! are none.
use edit_model::Row;
use foundation::{OutOfMemory, Sequence};

/// How the value at a changed field was found.
#[derive(Clone, Copy)]
pub enum How {
    /// It is the donor's.
    Donor,
    /// There is no donor, and it is 0 or the first code.
    Default,
    /// It is the allowed value nearest to the target.
    Nearest,
}

/// A record that was given values, and how each was found: one `How` for each changed field, in path order.
#[derive(Drop)]
pub struct Gift {
    pub row: Row,
    pub how: Sequence<How>,
}

/// Why no values are given.
#[derive(Clone, Copy)]
pub enum GiveFault {
    /// A number of a bound of the field leaves the range. The line at this place gives the bound, in the
    /// system by which the field is given its number.
    Bound { field: u32, line: u64 },
    /// A number leaves the range in the final test of the rule of this number, from 0.
    Test { rule: u32 },
    /// Memory was refused.
    OutOfMemory,
}

impl From<OutOfMemory> for GiveFault {
    ghost use Rattle.std.specs.Prelude.{◌≡◌};
    ghost use Rattle.back_subst.specs.declared.gift.GiveFault.TheVariants as faults;

    ghost from_gives = { λ _ fault. fault ≡ faults.OutOfMemory };

    // The fault of a call to which memory was refused, so that `?` passes it on.
    fn from(_refused: OutOfMemory) -> Self {
        GiveFault::OutOfMemory
    }
}
