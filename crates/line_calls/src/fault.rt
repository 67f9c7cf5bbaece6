//! Why a worked call is not made, and the words that are told of it.
use edit_language::{RulesFault, RulesKind};
use foundation::OutOfMemory;
use proof_text::ProofFault;
use std::alloc::{AllocError, AllocFailed};
use std::{error, fmt};

/// Why a call is not made.
#[derive(Clone, Copy, Debug)]
pub enum CallFault {
    /// There is no such call, or it takes other words.
    Words,
    /// There is no file of this name.
    NoFile,
    /// The rule file has no reading.
    Rules { line: u32, kind: RulesKind },
    /// A record is not spelled in form.
    Record,
    /// The survey has no field of this name, or none of the kind that is asked for, or the field has no
    /// such code.
    Field,
    /// A path is no list of letters K and C, or is too long.
    Path,
    /// The file of steps, or of a tree, has no reading.
    Steps { line: u64 },
    /// There is no box, line or row of this number.
    Number,
    /// A line is over other fields than the survey's, which none is.
    Shape,
    /// The search gives no change, so that no values are given.
    NoChange,
    /// Memory was refused.
    OutOfMemory,
}

impl fmt::Display for CallFault {
    // The words that stand in the output of a call that is not made.
    fn fmt<W: fmt::Write>(&self, f: &mut fmt::Formatter<W>) -> fmt::Result {
        match self {
            CallFault::Words => f.write_str("words out of form"),
            CallFault::NoFile => f.write_str("no such file"),
            CallFault::Rules { line, kind } => write!(f, "rules: line {line}: {kind}"),
            CallFault::Record => f.write_str("no record"),
            CallFault::Field => f.write_str("no such field or code"),
            CallFault::Path => f.write_str("no path"),
            CallFault::Steps { line } => write!(f, "steps: line {line}"),
            CallFault::Number => f.write_str("no such number"),
            CallFault::Shape => f.write_str("a line over other fields"),
            CallFault::NoChange => f.write_str("no change"),
            CallFault::OutOfMemory => f.write_str("out of memory"),
        }
    }
}

impl error::Error for CallFault {}

impl From<OutOfMemory> for CallFault {
    // A call below was refused memory, and `?` hands it on.
    fn from(_refused: OutOfMemory) -> Self {
        CallFault::OutOfMemory
    }
}

impl From<AllocError> for CallFault {
    // The standard library was refused memory, and `?` hands it on.
    fn from(_refused: AllocError) -> Self {
        CallFault::OutOfMemory
    }
}

impl<T: Drop> From<AllocFailed<T>> for CallFault {
    // A list was refused memory to grow, and `?` hands it on. What found no room is dropped.
    fn from(_refused: AllocFailed<T>) -> Self {
        CallFault::OutOfMemory
    }
}

impl From<RulesFault> for CallFault {
    // The rule file has no reading, which is told with its line, from 1; or memory for it was refused.
    fn from(fault: RulesFault) -> Self {
        match fault {
            RulesFault::At { line, kind } => CallFault::Rules { line, kind },
            RulesFault::OutOfMemory => CallFault::OutOfMemory,
        }
    }
}

impl From<ProofFault> for CallFault {
    // The file of steps, or of a tree, has no reading, which is told with its line; or memory for it was
    // refused.
    fn from(fault: ProofFault) -> Self {
        match fault {
            ProofFault::At { line } => CallFault::Steps { line },
            ProofFault::OutOfMemory => CallFault::OutOfMemory,
        }
    }
}
