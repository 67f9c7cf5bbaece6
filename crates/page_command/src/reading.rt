//! The released file and the reasons, as they are fetched and read. Either is refused where it can't be
//! read, is too long or has no reading, and for want of memory. In contracts, `RefusesFile` says which
//! of these holds. `PutsOnRecord` says which calls the desk was asked, and `faults_behind` counts its
//! faults.
ghost use Rattle.std.specs.Prelude.{◌≡◌, IfErr, IfOk};
ghost use Rattle.std.specs.List.Sorted.{IsNonDecreasingBy};
ghost use Rattle.edit_desk.specs.Desk.{PutsOnRecord};
ghost use Rattle.reason_lines.specs.declared.entry.Change.{Change as AnyChange};
ghost use Rattle.run_parts.specs.Readings.{HoldsRecords};
ghost use Rattle.run_parts.specs.Refused.{IsOfFields};
ghost use Rattle.page_command.specs.PageSources.{HoldsReasons};
ghost use Rattle.page_command.specs.inner.PageParts.{AreFileCalls, AreNoReasonLines, AreNoReleased, RefusesFile};
ghost use Rattle.page_command.specs.inner.PageParts.{TellsReleased, TellsReasons, faults_behind};

use crate::page_fault::ToldFault;
use crate::refusal::PageRefusal;
use edit_desk::Desk;
use edit_model::{Field, Survey};
use reason_lines::{ReasonFault, Reasons, read_reasons};
use record_text::{Sheet, SheetFault, read_records};
use run_parts::{Fault, MOST_BYTES, fetch_file};
use std::alloc::Global;

/// Fetches the released file `name`, and reads it as a sheet of the survey's records.
pub(crate) fn fetch_released<'a, D: Desk>(
    alloc: Global,
    name: &'a str,
    survey: &Survey,
    desk: &mut D,
) -> Result<Sheet, PageRefusal<'a>>
    ensures read { IfOk result (λ sheet. HoldsRecords (D.files desk.old) name.now survey.now.fields sheet) }
    ensures cause { IfErr result (RefusesFile name.now (D.files desk.old) (AreNoReleased survey.now.fields)) }
    ensures asked { PutsOnRecord (D.calls desk.old) (D.calls desk.new) (AreFileCalls name.now result) }
    ensures faults { D.faults desk.new ≡ faults_behind result (D.faults desk.old) }
    ensures unchanged { D.files desk.new ≡ D.files desk.old }
{
    let bytes = fetch_file(alloc, name, MOST_BYTES, desk)?;
    match read_records(alloc, survey, &bytes) {
        Ok(sheet) => Ok(sheet),
        Err(fault) => Err(released_refusal(alloc, survey.fields(), fault)),
    }
}

/// Fetches the reasons file `name`, and reads it as the reasons for `rows` records of the survey. The changes
/// stand in the order of their records (`rising`).
pub(crate) fn fetch_reasons<'a, D: Desk>(
    alloc: Global,
    name: &'a str,
    survey: &Survey,
    rows: u32,
    desk: &mut D,
) -> Result<Reasons, PageRefusal<'a>>
    ensures read { IfOk result (λ reasons. HoldsReasons (D.files desk.old) name.now survey.now.fields rows reasons) }
    ensures rising { IfOk result (λ reasons. IsNonDecreasingBy (λ (c : AnyChange). c.record) reasons.changes) }
    ensures cause { IfErr result (RefusesFile name.now (D.files desk.old) (AreNoReasonLines survey.now.fields rows)) }
    ensures asked { PutsOnRecord (D.calls desk.old) (D.calls desk.new) (AreFileCalls name.now result) }
    ensures faults { D.faults desk.new ≡ faults_behind result (D.faults desk.old) }
    ensures unchanged { D.files desk.new ≡ D.files desk.old }
{
    let bytes = fetch_file(alloc, name, MOST_BYTES, desk)?;
    match read_reasons(alloc, survey, rows, &bytes) {
        Ok(reasons) => Ok(reasons),
        Err(fault) => Err(reasons_refusal(alloc, fault)),
    }
}

// The refusal for a released file of records of these fields that was not read. It is for want of memory
// where the fault is that, or where no memory is left for its line.
fn released_refusal<'a>(alloc: Global, fields: &[Field], fault: SheetFault) -> PageRefusal<'a>
    requires { IsOfFields fields.now fault }
    ensures { TellsReleased fields.now fault result }
{
    let Fault::Records { fault } = Fault::of_records(fields, fault) else {
        return PageRefusal::out_of_memory();
    };
    match ToldFault::of_released(alloc, fault) {
        Ok(told) => PageRefusal::Unfit(told),
        Err(_) => PageRefusal::out_of_memory(),
    }
}

// The refusal for reasons that were not read. It is for want of memory where the fault is that, or where
// no memory is left for its line.
fn reasons_refusal<'a>(alloc: Global, fault: ReasonFault) -> PageRefusal<'a>
    ensures { TellsReasons fault result }
{
    if matches!(fault, ReasonFault::OutOfMemory) {
        return PageRefusal::out_of_memory();
    }
    match ToldFault::of_reasons(alloc, fault) {
        Ok(told) => PageRefusal::Unfit(told),
        Err(_) => PageRefusal::out_of_memory(),
    }
}
