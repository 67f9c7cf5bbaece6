//! The two files of rows, once the rules were read: the records, and the rows of the last period. The
//! clauses of a call say what the files hold (`held`), and which refusals may come (`kind`) for what (`cause`).
//! Its calls on record are told with that by which the rules were fetched (`asked`).
ghost use Rattle.std.specs.Prelude.{◌≡◌, ◌<◌, ◌∷◌, [], ℕ, List, IfErr, IfOk, length};
ghost use Rattle.edit_desk.specs.Desk.{PutsOnRecord, fetched};
ghost use Rattle.record_text.specs.Sheets.{IsSheet};
ghost use Rattle.panel_files.specs.LastFields.{AreLastFields, last_fields, own_fields};
ghost use Rattle.run_parts.specs.Parts.{AreCallsOf, faults_after};
ghost use Rattle.run_parts.specs.Readings.{HoldsRules};
ghost use Rattle.panel_command.specs.PanelInput.{HoldsKeyed, HoldsPanel, IsOfPanelInput, RefusesPanel, WithLast};
ghost use Rattle.panel_command.specs.inner.PanelRows.{ArePartsOf};

use crate::keyed_rows::{fetch_last_rows, fetch_own_rows};
use command_words::PanelWords;
use edit_desk::Desk;
use edit_model::{FieldSet, Survey};
use foundation::OutOfMemory;
use panel_files::{last_survey, own_survey};
use record_text::Sheet;
use run_parts::Refusal;
use std::alloc::Global;
use std::marker::Model;

/// The rows of both files. `own_key` and `last_key` are the columns of the key in these, from 0.
#[derive(Drop)]
pub(crate) struct PanelRows {
    pub(crate) own: Sheet,
    pub(crate) last: Sheet,
    pub(crate) own_key: u32,
    pub(crate) last_key: u32,
}

impl Model for PanelRows {
    ghost use Rattle.panel_files.specs.Joined.{PanelFiles};

    ghost Value = { PanelFiles };

    ghost view = { λ r. record { own = r.own; last = r.last; own_key = r.own_key; last_key = r.last_key } };
}

// The surveys by which the two files are read: that of the records, and that of the last period.
#[derive(Drop)]
struct PartSurveys {
    own: Survey,
    last: Survey,
}

impl PartSurveys {
    // The surveys of the two files of `survey`. That of the last period has the fields of `set`, which are
    // the last fields, and that of the records has all others.
    fn of(alloc: Global, survey: &Survey, set: FieldSet) -> Result<PartSurveys, OutOfMemory>
        requires set { AreLastFields survey.now.fields set }
        ensures parts { IfOk result (λ parts. ArePartsOf parts survey.now set) }
    {
        let own = own_survey(alloc, survey, set)?;
        let last = last_survey(alloc, survey, set)?;
        Ok(PartSurveys { own, last })
    }
}

/// Fetches and reads the two files of rows, where the rules were read as `survey`, with the last fields
/// `set`. The first refusal ends the call; want of memory for the surveys of both files comes before these
/// are fetched.
pub(crate) fn fetch_rows<'a, D: Desk>(
    alloc: Global,
    asked: &PanelWords<'a>,
    survey: &Survey,
    set: FieldSet,
    desk: &mut D,
) -> Result<PanelRows, Refusal<'a>>
    requires rules { HoldsRules (D.files desk.old) asked.now.rules survey.now }
    requires set { AreLastFields survey.now.fields set }
    ensures held { IfOk result (λ rows. HoldsPanel (D.files desk.old) asked.now
        (record { survey = survey.now; set = set; files = rows })) }
    ensures own { IfOk result (λ rows. (bytes : List ℕ) × IsSheet (own_fields survey.now.fields set) bytes rows.own) }
    ensures last { IfOk result (λ rows. (bytes : List ℕ) × IsSheet (last_fields survey.now.fields set) bytes rows.last) }
    ensures own_key { IfOk result (λ rows. rows.own_key < length rows.own.header) }
    ensures last_key { IfOk result (λ rows. rows.last_key < length rows.last.header) }
    ensures kind { IfErr result IsOfPanelInput }
    ensures cause { IfErr result (λ fault. RefusesPanel asked.now (D.files desk.old) fault) }
    ensures asked { PutsOnRecord (D.calls desk.old) (D.calls desk.new) (λ calls.
        AreCallsOf (fetched asked.now.rules ∷ fetched asked.now.records ∷ fetched asked.now.last ∷ []) result
        (fetched asked.now.rules ∷ calls)) }
    ensures faults { D.faults desk.new ≡ faults_after result (D.faults desk.old) }
    ensures unchanged { D.files desk.new ≡ D.files desk.old }
{
    let Ok(parts) = PartSurveys::of(alloc, survey, set) else {
        return Err(Refusal::out_of_memory());
    };
    fetch_parts(alloc, asked, &parts, desk)
}

// Fetches and reads the two files of rows by these surveys: first the records with their key, then the rows
// of the last period with theirs.
fn fetch_parts<'a, D: Desk>(
    alloc: Global,
    asked: &PanelWords<'a>,
    parts: &PartSurveys,
    desk: &mut D,
) -> Result<PanelRows, Refusal<'a>>
    requires parts { WithLast (D.files desk.old) asked.now (ArePartsOf parts.now) }
    ensures own_held { IfOk result (λ rows.
        HoldsKeyed (D.files desk.old) asked.now.records parts.now.own.fields asked.now.key rows.own rows.own_key) }
    ensures last_held { IfOk result (λ rows.
        HoldsKeyed (D.files desk.old) asked.now.last parts.now.last.fields asked.now.key rows.last rows.last_key) }
    ensures own { IfOk result (λ rows. (bytes : List ℕ) × IsSheet parts.now.own.fields bytes rows.own) }
    ensures last { IfOk result (λ rows. (bytes : List ℕ) × IsSheet parts.now.last.fields bytes rows.last) }
    ensures own_key { IfOk result (λ rows. rows.own_key < length rows.own.header) }
    ensures last_key { IfOk result (λ rows. rows.last_key < length rows.last.header) }
    ensures kind { IfErr result IsOfPanelInput }
    ensures cause { IfErr result (λ fault. RefusesPanel asked.now (D.files desk.old) fault) }
    ensures asked { PutsOnRecord (D.calls desk.old) (D.calls desk.new) (λ calls.
        AreCallsOf (fetched asked.now.rules ∷ fetched asked.now.records ∷ fetched asked.now.last ∷ []) result
        (fetched asked.now.rules ∷ calls)) }
    ensures faults { D.faults desk.new ≡ faults_after result (D.faults desk.old) }
    ensures unchanged { D.files desk.new ≡ D.files desk.old }
{
    let (own, own_key) = fetch_own_rows(alloc, asked.records, asked.key, &parts.own, desk)?;
    let (last, last_key) = fetch_last_rows(alloc, asked.last, asked.key, &parts.last, desk)?;
    Ok(PanelRows {
        own,
        last,
        own_key,
        last_key,
    })
}
