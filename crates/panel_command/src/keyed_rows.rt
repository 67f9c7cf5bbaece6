//! One of the two files of rows that are joined by a key. It is fetched and read, and the column of the
//! key is found in it. The clauses say what the file holds (`read`, `sheet`, `within`), which refusals may
//! come (`kind`), and what each says of the file (`cause`). They also say what is asked of the desk
//! (`asked`), how often it failed (`faults`), and that its files stay (`unchanged`).
ghost use Rattle.std.specs.Prelude.{◌≡◌, ◌<◌, ◌∷◌, [], ℕ, List, IfErr, IfOk, length};
ghost use Rattle.edit_desk.specs.Desk.{PutsOnRecord, fetched};
ghost use Rattle.record_text.specs.Sheets.{IsSheet};
ghost use Rattle.run_parts.specs.Parts.{AreCallsOf, IsOfLast, IsOfRecords, faults_after};
ghost use Rattle.panel_command.specs.PanelInput.{HoldsKeyed};
ghost use Rattle.panel_command.specs.inner.KeyedRows.{RefusesLastRows, RefusesOwnRows};

use edit_desk::Desk;
use edit_model::Survey;
use panel_link::key_column;
use record_text::Sheet;
use run_parts::{Fault, RecordsFault, Refusal, fetch_last, fetch_sheet};
use std::alloc::Global;

/// The sheet of the survey's records that the record file `name` reads as, and the column of the key in
/// it, from 0. Refused where the file can't be fetched or has no reading, and as `NoKey` where the key
/// stands in no column or in several.
pub(crate) fn fetch_own_rows<'a, D: Desk>(
    alloc: Global,
    name: &'a str,
    key: &str,
    survey: &Survey,
    desk: &mut D,
) -> Result<(Sheet, u32), Refusal<'a>>
    ensures read { IfOk result (λ both. HoldsKeyed (D.files desk.old) name.now survey.now.fields key.now both.0 both.1) }
    ensures sheet { IfOk result (λ both. (bytes : List ℕ) × IsSheet survey.now.fields bytes both.0) }
    ensures within { IfOk result (λ both. both.1 < length both.0.header) }
    ensures kind { IfErr result (IsOfRecords name.now) }
    ensures cause { IfErr result (λ fault. RefusesOwnRows name.now survey.now.fields key.now (D.files desk.old) fault) }
    ensures asked { PutsOnRecord (D.calls desk.old) (D.calls desk.new) (AreCallsOf (fetched name.now ∷ []) result) }
    ensures faults { D.faults desk.new ≡ faults_after result (D.faults desk.old) }
    ensures unchanged { D.files desk.new ≡ D.files desk.old }
{
    let sheet = fetch_sheet(alloc, name, survey, desk)?;
    let Some(column) = key_column(&sheet, key.as_bytes()) else {
        let fault = RecordsFault::NoKey;
        return Err(Refusal::of(alloc, Fault::Records { fault }));
    };
    Ok((sheet, column))
}

/// The sheet of the survey's records that the last file `name` reads as, and the column of the key in it,
/// from 0. Refused where the file can't be fetched or has no reading, and as `NoKey` where the key stands
/// in no column or in several. What is wrong is told as a fault of the last file (`Fault::Last`).
pub(crate) fn fetch_last_rows<'a, D: Desk>(
    alloc: Global,
    name: &'a str,
    key: &str,
    survey: &Survey,
    desk: &mut D,
) -> Result<(Sheet, u32), Refusal<'a>>
    ensures read { IfOk result (λ both. HoldsKeyed (D.files desk.old) name.now survey.now.fields key.now both.0 both.1) }
    ensures sheet { IfOk result (λ both. (bytes : List ℕ) × IsSheet survey.now.fields bytes both.0) }
    ensures within { IfOk result (λ both. both.1 < length both.0.header) }
    ensures kind { IfErr result (IsOfLast name.now) }
    ensures cause { IfErr result (λ fault. RefusesLastRows name.now survey.now.fields key.now (D.files desk.old) fault) }
    ensures asked { PutsOnRecord (D.calls desk.old) (D.calls desk.new) (AreCallsOf (fetched name.now ∷ []) result) }
    ensures faults { D.faults desk.new ≡ faults_after result (D.faults desk.old) }
    ensures unchanged { D.files desk.new ≡ D.files desk.old }
{
    let sheet = fetch_last(alloc, name, survey, desk)?;
    let Some(column) = key_column(&sheet, key.as_bytes()) else {
        let fault = RecordsFault::NoKey;
        return Err(Refusal::of(alloc, Fault::Last { fault }));
    };
    Ok((sheet, column))
}
