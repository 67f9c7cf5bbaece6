//! What is wrong with a rule text, and the words that are printed for it.
ghost use Rattle.std.specs.Prelude.{◌≡◌};
ghost use Rattle.edit_language.specs.Faults.{kind_number};

use foundation::OutOfMemory;
use std::alloc::{AllocError, AllocFailed};
use std::{error, fmt};

/// What is wrong with a line of a rule text.
#[derive(Clone, Copy, Debug)]
pub enum RulesKind {
    /// A byte outside a comment is neither printable ASCII nor a tab.
    BadByte,
    /// The line is no declaration and no rule.
    Syntax,
    /// A name is not declared on an earlier line as a field of the kind that its place needs.
    UnknownField,
    /// A declared name was declared on an earlier line.
    DoubleField,
    /// A code of a rule is no code of its field.
    UnknownCode,
    /// A code stands twice in one list.
    DoubleCode,
    /// A number has decimals or is out of its limits.
    NumberRange,
    /// There are too many fields, codes or rules.
    TooMany,
    /// A number test stands among the conditions where it may not.
    ConditionForm,
}

impl RulesKind {
    /// The kind's number, from 1 to 9. Of several kinds of fault on one line, the one of the least number
    /// is answered.
    pub fn number(self) -> u8
        ensures { result ≡ kind_number self }
    {
        match self {
            RulesKind::BadByte => 1,
            RulesKind::Syntax => 2,
            RulesKind::UnknownField => 3,
            RulesKind::DoubleField => 4,
            RulesKind::UnknownCode => 5,
            RulesKind::DoubleCode => 6,
            RulesKind::NumberRange => 7,
            RulesKind::TooMany => 8,
            RulesKind::ConditionForm => 9,
        }
    }
}

impl fmt::Display for RulesKind {
    ghost use Rattle.std.specs.Prelude.{Some};
    ghost use Rattle.edit_language.specs.Faults.{kind_name};

    ghost output = { λ kind. Some (kind_name kind) };

    // Writes the name of the kind, as `Syntax`.
    fn fmt<W: fmt::Write>(&self, f: &mut fmt::Formatter<W>) -> fmt::Result {
        f.write_str(match self {
            RulesKind::BadByte => "BadByte",
            RulesKind::Syntax => "Syntax",
            RulesKind::UnknownField => "UnknownField",
            RulesKind::DoubleField => "DoubleField",
            RulesKind::UnknownCode => "UnknownCode",
            RulesKind::DoubleCode => "DoubleCode",
            RulesKind::NumberRange => "NumberRange",
            RulesKind::TooMany => "TooMany",
            RulesKind::ConditionForm => "ConditionForm",
        })
    }
}

/// Why a rule text was not read.
#[derive(Clone, Copy, Debug)]
pub enum RulesFault {
    /// The first line, from 1, that has a fault, and the least kind of fault that it has.
    At { line: u32, kind: RulesKind },
    /// Memory was refused.
    OutOfMemory,
}

impl fmt::Display for RulesFault {
    ghost use Rattle.std.specs.Prelude.{Some};
    ghost use Rattle.edit_language.specs.Faults.{fault_text};

    ghost output = { λ fault. Some (fault_text fault) };

    // Writes the line, and the number and the name of the kind, as `line 3 kind 2 Syntax`.
    fn fmt<W: fmt::Write>(&self, f: &mut fmt::Formatter<W>) -> fmt::Result {
        match self {
            RulesFault::At { line, kind } => {
                let number = kind.number();
                write!(f, "line {line} kind {number} {kind}")
            }
            RulesFault::OutOfMemory => f.write_str("out of memory"),
        }
    }
}

impl error::Error for RulesFault {}

impl From<OutOfMemory> for RulesFault {
    ghost use Rattle.std.specs.Prelude.{◌≡◌};
    ghost use Rattle.edit_language.specs.declared.fault.RulesFault.TheVariants as faults;

    ghost from_gives = { λ _ fault. fault ≡ faults.OutOfMemory };

    // Refused memory becomes the fault `OutOfMemory`, so that `?` passes it on.
    fn from(_refused: OutOfMemory) -> Self {
        RulesFault::OutOfMemory
    }
}

impl From<AllocError> for RulesFault {
    ghost use Rattle.std.specs.Prelude.{◌≡◌};
    ghost use Rattle.edit_language.specs.declared.fault.RulesFault.TheVariants as faults;

    ghost from_gives = { λ _ fault. fault ≡ faults.OutOfMemory };

    // Refused memory becomes the fault `OutOfMemory`, so that `?` passes it on.
    fn from(_refused: AllocError) -> Self {
        RulesFault::OutOfMemory
    }
}

impl<T: Drop> From<AllocFailed<T>> for RulesFault {
    ghost use Rattle.std.specs.Prelude.{◌≡◌};
    ghost use Rattle.edit_language.specs.declared.fault.RulesFault.TheVariants as faults;

    ghost from_gives = { λ _ fault. fault ≡ faults.OutOfMemory };

    // Refused memory becomes the fault `OutOfMemory`. The element that found no room is dropped.
    fn from(_refused: AllocFailed<T>) -> Self {
        RulesFault::OutOfMemory
    }
}
