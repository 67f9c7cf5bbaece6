//! Why files are no valid release, and the words that `check` prints for it.
use foundation::OutOfMemory;
use std::{error, fmt};

/// Which condition of a valid release fails.
#[derive(Clone, Copy, Debug)]
pub enum Why {
    /// The bytes are no proof: the line is the first that can't go on.
    Grammar,
    /// The limits, or the counts of lines or of records, do not fit the rules and the records.
    Head,
    /// A line of the rules is dropped, and the steps do not refute its negation. What is told is the line
    /// of the first step that is not valid, or the one that drops the line.
    Drop,
    /// A step of the table gives no line: the line is the first such step.
    Table,
    /// What is said of a record is not right: its path, its weight, or its tree.
    Cert,
    /// The released file is not what the proof tells of. Line 0 is the file as a whole.
    RowText,
    /// The claims of donors are not right: the line is that of the first wrong one. Where all are right and
    /// some record that claims a donor has none, it is that of their count.
    Claims,
}

impl fmt::Display for Why {
    ghost use Rattle.std.specs.Prelude.{Some};
    ghost use Rattle.cert_check.specs.Texts.{why_text};

    ghost output = { λ why. Some (why_text why) };

    // Writes the name of the condition, as `Cert`.
    fn fmt<W: fmt::Write>(&self, f: &mut fmt::Formatter<W>) -> fmt::Result {
        f.write_str(match self {
            Why::Grammar => "Grammar",
            Why::Head => "Head",
            Why::Drop => "Drop",
            Why::Table => "Table",
            Why::Cert => "Cert",
            Why::RowText => "RowText",
            Why::Claims => "Claims",
        })
    }
}

/// Why files are no valid release.
#[derive(Clone, Copy, Debug)]
pub enum CheckFault {
    /// The line of the proof file, from 1, at which the first condition fails, and which condition that
    /// is. Line 0 is the released file as a whole.
    Rejected { line: u64, why: Why },
    /// Memory was refused.
    OutOfMemory,
}

impl fmt::Display for CheckFault {
    ghost use Rattle.std.specs.Prelude.{Some};
    ghost use Rattle.cert_check.specs.Texts.{fault_text};

    ghost output = { λ fault. Some (fault_text fault) };

    // Writes the line of the proof and the name of the condition, as `proof line 7 Cert`.
    fn fmt<W: fmt::Write>(&self, f: &mut fmt::Formatter<W>) -> fmt::Result {
        match self {
            CheckFault::Rejected { line, why } => write!(f, "proof line {line} {why}"),
            CheckFault::OutOfMemory => f.write_str("out of memory"),
        }
    }
}

impl error::Error for CheckFault {}

impl From<OutOfMemory> for CheckFault {
    ghost use Rattle.std.specs.Prelude.{◌≡◌};
    ghost use Rattle.cert_check.specs.declared.fault.CheckFault.TheVariants as faults;

    ghost from_gives = { λ _ fault. fault ≡ faults.OutOfMemory };

    // Refused memory becomes the fault `OutOfMemory`, so that `?` passes it on.
    fn from(_refused: OutOfMemory) -> Self {
        CheckFault::OutOfMemory
    }
}
