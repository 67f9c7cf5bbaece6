//! How a run of a program ends, and the number that the process then answers.
ghost use Rattle.std.specs.Prelude.{◌≡◌};

/// How a run of the program ended.
#[derive(Clone, Copy)]
pub enum Status {
    /// Every record was released, or the files are a valid release, or all lines were printed, or a survey
    /// was stored.
    Done,
    /// Some record is unresolved, and was left out.
    SomeUnresolved,
    /// The words are no command.
    Usage,
    /// The rule file has no reading.
    Rules,
    /// The record file has no reading, or that of the last period.
    Records,
    /// A file could not be read.
    ReadFault,
    /// A file could not be written, or a line not printed.
    WriteFault,
    /// Memory was refused.
    OutOfMemory,
    /// A file has more bytes than its limit.
    TooLong,
    /// The files are no valid release.
    Rejected,
    /// No categorical field has the name of the field of the classes.
    Class,
}

impl Status {
    ghost use Rattle.run_parts.specs.StatusNumbers.{status_number};

    /// The number that the process ends with, as `Usage` is 2. No status has the number 10.
    pub fn number(self) -> u8
        ensures { result ≡ status_number self }
    {
        match self {
            Status::Done => 0,
            Status::SomeUnresolved => 1,
            Status::Usage => 2,
            Status::Rules => 3,
            Status::Records => 4,
            Status::ReadFault => 5,
            Status::WriteFault => 6,
            Status::OutOfMemory => 7,
            Status::TooLong => 8,
            Status::Rejected => 9,
            Status::Class => 11,
        }
    }
}
