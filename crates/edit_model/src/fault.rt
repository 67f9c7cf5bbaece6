//! Why no survey is made of the parts that are given for it.
use foundation::OutOfMemory;
use std::{error, fmt};

/// Why there is no survey of the given parts.
#[derive(Clone, Copy, Debug)]
pub enum SurveyFault {
    /// The parts are not those of a well-formed survey.
    Malformed,
    /// Memory was refused.
    OutOfMemory,
}

impl fmt::Display for SurveyFault {
    ghost use Rattle.std.specs.Prelude.{Some};
    ghost use Rattle.edit_model.specs.Faults.{fault_text};

    ghost output = { λ fault. Some (fault_text fault) };

    // Writes the fault in words, as it is printed, without a line feed.
    fn fmt<W: fmt::Write>(&self, f: &mut fmt::Formatter<W>) -> fmt::Result {
        f.write_str(match self {
            SurveyFault::Malformed => "the survey is not well formed",
            SurveyFault::OutOfMemory => "out of memory",
        })
    }
}

impl error::Error for SurveyFault {}

impl From<OutOfMemory> for SurveyFault {
    ghost use Rattle.std.specs.Prelude.{◌≡◌};
    ghost use Rattle.edit_model.specs.declared.fault.SurveyFault.TheVariants as faults;

    ghost from_gives = { λ _ fault. fault ≡ faults.OutOfMemory };

    // Refused memory becomes the fault `OutOfMemory`, so that `?` passes it on.
    fn from(_refused: OutOfMemory) -> Self {
        SurveyFault::OutOfMemory
    }
}
