//! Why a run ends before all is done: each cause, the status that the run then ends with, and the line
//! that is printed.
ghost use Rattle.std.specs.Prelude.{◌≡◌, ◌<◌, ◌++◌, IfOk, length};
ghost use Rattle.run_parts.specs.Refused.{IsOfFields, check_fault, rules_fault};
ghost use Rattle.edit_report.specs.Reasons.{name_of};
ghost use Rattle.run_parts.specs.declared.fault.Fault.TheVariants as faults;
ghost use Rattle.run_parts.specs.Faults.{fault_status, fault_text, last_refusal, records_fault_of, records_fault_text, sheet_refusal};

use crate::status::Status;
use cert_check::{CheckFault, Why};
use edit_language::{RulesFault, RulesKind};
use edit_model::{Field, Name};
use foundation::OutOfMemory;
use record_text::SheetFault;
use std::alloc::Global;
use std::marker::Model;

/// What is printed where the words are no command, without its line feed. It takes no memory.
pub const USAGE: &[u8] = b"fault: usage";

/// What is printed where memory was refused, without its line feed. It takes no memory.
pub const OUT_OF_MEMORY: &[u8] = b"fault: out of memory";

/// The name of a file or of a field, as the command line gives it. Contracts see its bytes.
#[derive(Drop)]
pub struct AskedName<'a> {
    text: &'a str,
}

impl<'a> Model for AskedName<'a> {
    ghost use Rattle.std.specs.Prelude.{ℕ, List};

    ghost Value = { List ℕ };

    ghost view = { λ n. n.text.now };
}

impl<'a> AskedName<'a> {
    /// The name that this text is. No memory.
    pub fn new(text: &'a str) -> Self
        ensures { result ≡ text.now }
    {
        AskedName { text }
    }

    /// The bytes of the name. No memory.
    pub fn as_bytes(&self) -> &[u8]
        ensures { result.now ≡ self.now }
    {
        self.text.as_bytes()
    }
}

/// Why a file of records has no reading.
#[derive(Drop)]
pub enum RecordsFault {
    /// There is no record at all.
    NoHeader,
    /// The field of this name stands in no column.
    NoColumn { field: Name },
    /// The field of this name stands in several columns.
    DoubleColumn { field: Name },
    /// The row of this number, from 0, has another number of fields than the header.
    RowLength { row_no: u32 },
    /// There are too many rows.
    TooManyRows,
    /// The header has too many columns.
    TooManyColumns,
    /// The key stands in no column, or in several.
    NoKey,
}

/// Why a run ended before all was done.
#[derive(Drop)]
pub enum Fault<'a> {
    /// The words are no command.
    Usage,
    /// The rule file has no reading: its first faulty line, from 1, and the least kind of fault of that line.
    Rules { line: u32, kind: RulesKind },
    /// No categorical field has this name, which was given for the field of the classes.
    Class { name: AskedName<'a> },
    /// The record file has no reading.
    Records { fault: RecordsFault },
    /// The file of the last period has no reading.
    Last { fault: RecordsFault },
    /// The file could not be read.
    Read { name: AskedName<'a> },
    /// The file could not be written.
    Write { name: AskedName<'a> },
    /// The file has more bytes than its limit.
    TooLong { name: AskedName<'a> },
    /// The files are no valid release: the line of the proof, from 1 or 0 for none, and which condition fails.
    Rejected { line: u64, why: Why },
    /// Memory was refused.
    OutOfMemory,
}

impl<'a> Fault<'a> {
    /// The fault of a run whose record file was not read for `fault`: `Records`, or `OutOfMemory` where
    /// memory was refused. A field that `fault` tells by its number is one of `fields`.
    pub fn of_records(fields: &[Field], fault: SheetFault) -> Self
        requires { IsOfFields fields.now fault }
        ensures { result ≡ sheet_refusal fields.now fault }
    {
        match RecordsFault::of(fields, fault) {
            Some(fault) => Fault::Records { fault },
            None => Fault::OutOfMemory,
        }
    }

    /// The fault of a run whose file of the last period was not read for `fault`: `Last`, or `OutOfMemory`
    /// where memory was refused. A field that `fault` tells by its number is one of `fields`.
    pub fn of_last(fields: &[Field], fault: SheetFault) -> Self
        requires { IsOfFields fields.now fault }
        ensures { result ≡ last_refusal fields.now fault }
    {
        match RecordsFault::of(fields, fault) {
            Some(fault) => Fault::Last { fault },
            None => Fault::OutOfMemory,
        }
    }

    /// The status with which a run ends that is refused for this fault. The record file and that of the
    /// last period have the same one.
    pub fn status(&self) -> Status
        ensures { result ≡ fault_status self.now }
    {
        match self {
            Fault::Usage => Status::Usage,
            Fault::Rules { .. } => Status::Rules,
            Fault::Class { .. } => Status::Class,
            Fault::Records { .. } => Status::Records,
            Fault::Last { .. } => Status::Records,
            Fault::Read { .. } => Status::ReadFault,
            Fault::Write { .. } => Status::WriteFault,
            Fault::TooLong { .. } => Status::TooLong,
            Fault::Rejected { .. } => Status::Rejected,
            Fault::OutOfMemory => Status::OutOfMemory,
        }
    }

    /// The line that is printed of a run that is refused for this fault, without its line feed.
    pub fn line(&self, alloc: Global) -> Result<Vec<u8>, OutOfMemory>
        ensures { IfOk result (λ line. line.items ≡ fault_text self.now) }
    {
        match self {
            Fault::Usage => Ok(USAGE.to_vec(alloc)?),
            Fault::Rules { line, kind } => rules_line(alloc, *line, *kind),
            Fault::Class { name } => join_bytes(alloc, b"fault: class ", name.as_bytes()),
            Fault::Records { fault } => fault.line(alloc, b"fault: records "),
            Fault::Last { fault } => fault.line(alloc, b"fault: last "),
            Fault::Read { name } => join_bytes(alloc, b"fault: read ", name.as_bytes()),
            Fault::Write { name } => join_bytes(alloc, b"fault: write ", name.as_bytes()),
            Fault::TooLong { name } => join_bytes(alloc, b"fault: too long ", name.as_bytes()),
            Fault::Rejected { line, why } => rejected_line(alloc, *line, *why),
            Fault::OutOfMemory => Ok(OUT_OF_MEMORY.to_vec(alloc)?),
        }
    }
}

impl From<RulesFault> for Fault<'_> {
    ghost use Rattle.std.specs.Prelude.{◌≡◌};

    ghost from_gives = { λ error fault. fault ≡ rules_fault error };

    // The fault of a run whose rules were not read for `error`.
    fn from(error: RulesFault) -> Self {
        match error {
            RulesFault::At { line, kind } => Fault::Rules { line, kind },
            RulesFault::OutOfMemory => Fault::OutOfMemory,
        }
    }
}

impl From<CheckFault> for Fault<'_> {
    ghost use Rattle.std.specs.Prelude.{◌≡◌};

    ghost from_gives = { λ error fault. fault ≡ check_fault error };

    // The fault of a run whose files the audit of a release did not accept, for `error`.
    fn from(error: CheckFault) -> Self {
        match error {
            CheckFault::Rejected { line, why } => Fault::Rejected { line, why },
            CheckFault::OutOfMemory => Fault::OutOfMemory,
        }
    }
}

impl RecordsFault {
    // What `fault` says of a file of records that was not read. A field, which `fault` tells by its number
    // in `fields`, is told by its name. None where memory was refused, which says nothing of the records.
    fn of(fields: &[Field], fault: SheetFault) -> Option<RecordsFault>
        requires { IsOfFields fields.now fault }
        ensures { result ≡ records_fault_of fields.now fault }
    {
        let what = match fault {
            SheetFault::NoHeader => RecordsFault::NoHeader,
            SheetFault::TooManyColumns => RecordsFault::TooManyColumns,
            SheetFault::NoColumn { field } => RecordsFault::NoColumn {
                field: name_of(fields, field),
            },
            SheetFault::DoubleColumn { field } => RecordsFault::DoubleColumn {
                field: name_of(fields, field),
            },
            SheetFault::TooManyRows => RecordsFault::TooManyRows,
            SheetFault::RowLength { row_no } => RecordsFault::RowLength { row_no },
            SheetFault::OutOfMemory => return None,
        };
        Some(what)
    }

    // The line that is printed of a file without a reading, without its line feed. `file` are the words in
    // front, which say which file it is.
    fn line(&self, alloc: Global, file: &[u8]) -> Result<Vec<u8>, OutOfMemory>
        ensures { IfOk result (λ line. line.items ≡ file.now ++ records_fault_text self.now) }
    {
        let text = self.text(alloc)?;
        join_bytes(alloc, file, &text)
    }

    // What is wrong with the file, as it is printed, such as `kind 14 RowLength row 3`. It is the kind's
    // number and name, and which field or row, a row counted from 1.
    fn text(&self, alloc: Global) -> Result<Vec<u8>, OutOfMemory>
        ensures { IfOk result (λ text. text.items ≡ records_fault_text self.now) }
    {
        match self {
            RecordsFault::NoHeader => Ok(b"kind 11 NoHeader".to_vec(alloc)?),
            RecordsFault::NoColumn { field } => {
                join_bytes(alloc, b"kind 12 NoColumn field ", field.as_bytes())
            }
            RecordsFault::DoubleColumn { field } => {
                join_bytes(alloc, b"kind 13 DoubleColumn field ", field.as_bytes())
            }
            RecordsFault::RowLength { row_no } => {
                let number = u64::from(*row_no) + 1;
                Ok(format!(in alloc; "kind 14 RowLength row {number}")?.into_bytes())
            }
            RecordsFault::TooManyRows => Ok(b"kind 15 TooManyRows".to_vec(alloc)?),
            RecordsFault::TooManyColumns => Ok(b"kind 16 TooManyColumns".to_vec(alloc)?),
            RecordsFault::NoKey => Ok(b"kind 17 NoKey".to_vec(alloc)?),
        }
    }
}

// The line that is printed of a rule file without a reading, as `fault: rules line 3 kind 2 Syntax`,
// without its line feed. `line` is the first faulty one, from 1.
fn rules_line(alloc: Global, line: u32, kind: RulesKind) -> Result<Vec<u8>, OutOfMemory>
    ensures { IfOk result (λ text. text.items ≡ fault_text (faults.Rules line kind)) }
{
    let fault = RulesFault::At { line, kind };
    Ok(format!(in alloc; "fault: rules {fault}")?.into_bytes())
}

// The line that is printed of files that are no valid release, as `fault: proof line 7 Cert`, without its
// line feed. `line` is that of the proof, 0 for none, and `why` the condition that fails.
fn rejected_line(alloc: Global, line: u64, why: Why) -> Result<Vec<u8>, OutOfMemory>
    ensures { IfOk result (λ text. text.items ≡ fault_text (faults.Rejected line why)) }
{
    Ok(format!(in alloc; "fault: proof line {line} {why}")?.into_bytes())
}

// A copy of the name of the field of this number, from 0. `Name::new` never refuses the bytes, since they
// are a name's already.
fn name_of(fields: &[Field], number: u32) -> Name
    requires { number < length fields.now }
    ensures { result ≡ name_of fields.now number }
{
    let Some(name) = Name::new(fields[number as usize].name.as_bytes()) else {
        unreachable!()
    };
    name
}

// The bytes of both texts, one after the other, such as the words of a fault and the name of a file.
fn join_bytes(alloc: Global, first: &[u8], second: &[u8]) -> Result<Vec<u8>, OutOfMemory>
    ensures { IfOk result (λ all. all.items ≡ first.now ++ second.now) }
{
    let mut all = first.to_vec(alloc)?;
    all.extend_from_slice(second)?;
    Ok(all)
}
