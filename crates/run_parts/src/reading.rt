//! The files of a run as they are fetched from the desk and read: rules, records, rows of the last
//! period, or bytes alone. The clauses of each call say what the file holds (`read`), which refusals may
//! come (`kind`) and what each says of the file (`cause`). They also say what is asked of the desk, which
//! stores nothing.
//!
//! In contracts, `HoldsRules` says that the file of this name reads as the survey, and as no other.
//! `HoldsRecords` says so of a sheet. `HoldsBytes` says that the file has just these bytes. `asked` says
//! which calls the desk is asked for, `faults` how its count of faults stands after them, and `unchanged`
//! that no file is changed.
ghost use Rattle.std.specs.Prelude.{◌≡◌, ◌≤◌, ◌∷◌, [], ℕ, List, IfErr, IfOk, length};
ghost use Rattle.std.specs.List.{AllByRecursion};
ghost use Rattle.edit_desk.specs.Desk.{PutsOnRecord, fetched};
ghost use Rattle.edit_model.specs.PlainNumbers.{HasPlainNumbers};
ghost use Rattle.edit_model.specs.Surveys.{IsWellFormed};
ghost use Rattle.run_parts.specs.Limits.{most_bytes};
ghost use Rattle.run_parts.specs.Readings.{HoldsBytes, HoldsRecords, HoldsRules};
ghost use Rattle.run_parts.specs.Refused.{IsOfFields};
ghost use Rattle.run_parts.specs.declared.fault.Fault.TheVariants as faults;
ghost use Rattle.run_parts.specs.Parts.{AreCallsOf, IsOfFetch, IsOfLast, IsOfRecords, IsOfRules, faults_after};
ghost use Rattle.run_parts.specs.Parts.{RefusesLast, RefusesLong, RefusesRecords, RefusesRules, TellsUnread};
ghost use Rattle.record_text.specs.Sheets.{IsSheet};

use crate::fault::{AskedName, Fault};
use crate::refusal::Refusal;
use edit_desk::{Desk, FetchError};
use edit_language::read_rules;
use edit_model::Survey;
use foundation::OutOfMemory;
use record_text::{Sheet, SheetFault, read_records};
use std::alloc::Global;

/// The most bytes of a file of rules or records, and of a released file: 64 MiB.
pub const MOST_BYTES: u64 = 67_108_864;

/// The most bytes of a proof: 512 MiB.
pub const MOST_PROOF_BYTES: u64 = 536_870_912;

/// The survey that the rule file of this name reads as. Refused where the file can't be read, is longer
/// than [`MOST_BYTES`] or is no text of rules, and for want of memory.
pub fn fetch_survey<'a, D: Desk>(
    alloc: Global,
    name: &'a str,
    desk: &mut D,
) -> Result<Survey, Refusal<'a>>
    ensures read { IfOk result (λ survey. HoldsRules (D.files desk.old) name.now survey) }
    ensures well_formed { IfOk result (λ survey. IsWellFormed survey) }
    ensures kind { IfErr result (IsOfRules name.now) }
    ensures cause { IfErr result (λ fault. RefusesRules name.now (D.files desk.old) fault) }
    ensures asked { PutsOnRecord (D.calls desk.old) (D.calls desk.new) (AreCallsOf (fetched name.now ∷ []) result) }
    ensures faults { D.faults desk.new ≡ faults_after result (D.faults desk.old) }
    ensures unchanged { D.files desk.new ≡ D.files desk.old }
{
    let bytes = fetch_file(alloc, name, MOST_BYTES, desk)?;
    match read_rules(alloc, &bytes) {
        Ok(survey) => Ok(survey),
        Err(fault) => Err(Refusal::of(alloc, Fault::from(fault))),
    }
}

/// The sheet of the survey's records that the record file of this name reads as. Refused where the file
/// can't be read, is longer than [`MOST_BYTES`] or holds no records of the survey's fields, and for want
/// of memory. Numbers of the sheet are as small as numerals of record files spell them (`HasPlainNumbers`).
pub fn fetch_sheet<'a, D: Desk>(
    alloc: Global,
    name: &'a str,
    survey: &Survey,
    desk: &mut D,
) -> Result<Sheet, Refusal<'a>>
    ensures read { IfOk result (λ sheet. HoldsRecords (D.files desk.old) name.now survey.now.fields sheet) }
    ensures sheet { IfOk result (λ sheet. (bytes : List ℕ) × IsSheet survey.now.fields bytes sheet) }
    ensures plain { IfOk result (λ sheet. AllByRecursion HasPlainNumbers sheet.rows) }
    ensures kind { IfErr result (IsOfRecords name.now) }
    ensures cause { IfErr result (λ fault. RefusesRecords name.now survey.now.fields (D.files desk.old) fault) }
    ensures asked { PutsOnRecord (D.calls desk.old) (D.calls desk.new) (AreCallsOf (fetched name.now ∷ []) result) }
    ensures faults { D.faults desk.new ≡ faults_after result (D.faults desk.old) }
    ensures unchanged { D.files desk.new ≡ D.files desk.old }
{
    let found = fetch_records(alloc, name, survey, desk)?;
    match found {
        Ok(sheet) => Ok(sheet),
        Err(fault) => Err(Refusal::of(alloc, Fault::of_records(survey.fields(), fault))),
    }
}

/// The sheet of the survey's records that the file of the last period reads as, where `survey` is that of
/// its columns. It is refused as [`fetch_sheet`] is, but that what is wrong with the file is told as a
/// fault of the last file (`Fault::Last`).
pub fn fetch_last<'a, D: Desk>(
    alloc: Global,
    name: &'a str,
    survey: &Survey,
    desk: &mut D,
) -> Result<Sheet, Refusal<'a>>
    ensures read { IfOk result (λ sheet. HoldsRecords (D.files desk.old) name.now survey.now.fields sheet) }
    ensures sheet { IfOk result (λ sheet. (bytes : List ℕ) × IsSheet survey.now.fields bytes sheet) }
    ensures plain { IfOk result (λ sheet. AllByRecursion HasPlainNumbers sheet.rows) }
    ensures kind { IfErr result (IsOfLast name.now) }
    ensures cause { IfErr result (λ fault. RefusesLast name.now survey.now.fields (D.files desk.old) fault) }
    ensures asked { PutsOnRecord (D.calls desk.old) (D.calls desk.new) (AreCallsOf (fetched name.now ∷ []) result) }
    ensures faults { D.faults desk.new ≡ faults_after result (D.faults desk.old) }
    ensures unchanged { D.files desk.new ≡ D.files desk.old }
{
    let found = fetch_records(alloc, name, survey, desk)?;
    match found {
        Ok(sheet) => Ok(sheet),
        Err(fault) => Err(Refusal::of(alloc, Fault::of_last(survey.fields(), fault))),
    }
}

// The sheet of the survey's records that the file of this `name` reads as. The inner `Err` is what is wrong
// with its bytes, which the caller turns into its own refusal. Refused, as [`fetch_file`] is, where the
// bytes themselves can't be had.
fn fetch_records<'a, D: Desk>(
    alloc: Global,
    name: &'a str,
    survey: &Survey,
    desk: &mut D,
) -> Result<Result<Sheet, SheetFault>, Refusal<'a>>
    ensures read { IfOk result (λ found. IfOk found (λ sheet. HoldsRecords (D.files desk.old) name.now survey.now.fields sheet)) }
    ensures sheet { IfOk result (λ found. IfOk found (λ sheet. (bytes : List ℕ) × IsSheet survey.now.fields bytes sheet)) }
    ensures plain { IfOk result (λ found. IfOk found (λ sheet. AllByRecursion HasPlainNumbers sheet.rows)) }
    ensures fields { IfOk result (λ found. IfErr found (IsOfFields survey.now.fields)) }
    ensures unread { IfOk result (λ found. IfErr found (TellsUnread name.now survey.now.fields (D.files desk.old))) }
    ensures kind { IfErr result (IsOfFetch name.now) }
    ensures cause { IfErr result (λ fault. RefusesLong most_bytes (D.files desk.old) fault) }
    ensures asked { PutsOnRecord (D.calls desk.old) (D.calls desk.new) (AreCallsOf (fetched name.now ∷ []) result) }
    ensures faults { D.faults desk.new ≡ faults_after result (D.faults desk.old) }
    ensures unchanged { D.files desk.new ≡ D.files desk.old }
{
    let bytes = fetch_file(alloc, name, MOST_BYTES, desk)?;
    Ok(read_records(alloc, survey, &bytes))
}

/// The bytes of the file of this `name`. Refused where it can't be read (`Fault::Read`) or has more than
/// `most` bytes (`Fault::TooLong`), and for want of memory.
pub fn fetch_file<'a, D: Desk>(
    alloc: Global,
    name: &'a str,
    most: u64,
    desk: &mut D,
) -> Result<Vec<u8>, Refusal<'a>>
    ensures bytes { IfOk result (λ bytes. HoldsBytes (D.files desk.old) name.now most bytes.items) }
    ensures short { IfOk result (λ bytes. length bytes.items ≤ most) }
    ensures kind { IfErr result (IsOfFetch name.now) }
    ensures cause { IfErr result (λ fault. RefusesLong most (D.files desk.old) fault) }
    ensures asked { PutsOnRecord (D.calls desk.old) (D.calls desk.new) (AreCallsOf (fetched name.now ∷ []) result) }
    ensures faults { D.faults desk.new ≡ faults_after result (D.faults desk.old) }
    ensures unchanged { D.files desk.new ≡ D.files desk.old }
{
    let Ok((failed, too_long)) = fetch_refusals(alloc, name) else {
        return Err(Refusal::out_of_memory());
    };
    match desk.fetch(alloc, name, most) {
        Ok(bytes) => Ok(bytes),
        Err(FetchError::Failed) => Err(failed),
        Err(FetchError::TooLong { .. }) => Err(too_long),
        Err(FetchError::OutOfMemory) => Err(Refusal::out_of_memory()),
    }
}

// Two refusals for a file of this `name`: for one that can't be read, and for one that is too long. They
// are made before the fetch, so that a failed one is told without memory.
fn fetch_refusals<'a>(
    alloc: Global,
    name: &'a str,
) -> Result<(Refusal<'a>, Refusal<'a>), OutOfMemory>
    ensures failed { IfOk result (λ both. both.0 ≡ faults.Read name.now) }
    ensures too_long { IfOk result (λ both. both.1 ≡ faults.TooLong name.now) }
{
    let failed = Refusal::new(
        alloc,
        Fault::Read {
            name: AskedName::new(name),
        },
    )?;
    let too_long = Refusal::new(
        alloc,
        Fault::TooLong {
            name: AskedName::new(name),
        },
    )?;
    Ok((failed, too_long))
}
