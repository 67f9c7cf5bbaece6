//! The three files that the command reads: the rules, the records, and the rows of the last period. The
//! clauses of the call say what the files hold (`held`), and which refusals may come (`kind`). They say what
//! each says of the files (`cause`), and when one has to come (`due`).
ghost use Rattle.std.specs.Prelude.{◌≡◌, ◌<◌, ◌∷◌, [], ℕ, List, IfErr, IfOk, IfSome, length};
ghost use Rattle.edit_desk.specs.Desk.{PutsOnRecord, fetched};
ghost use Rattle.edit_model.specs.Surveys.{IsWellFormed};
ghost use Rattle.record_text.specs.Sheets.{IsSheet};
ghost use Rattle.panel_files.specs.LastFields.{last_fields, own_fields};
ghost use Rattle.run_parts.specs.Parts.{AreCallsOf, done_end, faults_after};
ghost use Rattle.run_parts.specs.Readings.{AnswersDue};
ghost use Rattle.panel_command.specs.PanelInput.{HoldsPanel, IsOfPanelInput, IsPanelDue, RefusesPanel};

use crate::panel_rows::{PanelRows, fetch_rows};
use command_words::PanelWords;
use edit_desk::Desk;
use edit_model::{FieldSet, Survey};
use panel_files::last_set;
use panel_release::Panel;
use run_parts::{Refusal, fetch_survey};
use std::alloc::Global;
use std::marker::Model;

/// What is read of the three files: the survey, the set of its last fields, and the rows of both files.
#[derive(Drop)]
pub(crate) struct PanelInput {
    survey: Survey,
    set: FieldSet,
    rows: PanelRows,
}

impl Model for PanelInput {
    ghost use Rattle.panel_release.specs.PanelReleases.{PanelCase};

    ghost Value = { PanelCase };

    ghost view = { λ p. record { survey = p.survey; set = p.set; files = p.rows } };
}

impl PanelInput {
    /// What was read, borrowed, as the correction takes it. No memory.
    pub(crate) fn panel(&self) -> Panel
        ensures { result ≡ self.now }
    {
        Panel {
            survey: &self.survey,
            set: self.set,
            own: &self.rows.own,
            last: &self.rows.last,
            own_key: self.rows.own_key,
            last_key: self.rows.last_key,
        }
    }
}

/// Fetches and reads the rules, then the records with their key, then the rows of the last period with
/// theirs. The first refusal in this order ends the call. It comes where a file can't be fetched or has no
/// reading, where the key is not in one column, or for want of memory.
pub(crate) fn fetch_panel<'a, D: Desk>(
    alloc: Global,
    asked: &PanelWords<'a>,
    desk: &mut D,
) -> Result<PanelInput, Refusal<'a>>
    ensures held { IfOk result (HoldsPanel (D.files desk.old) asked.now) }
    ensures well_formed { IfOk result (λ panel. IsWellFormed panel.survey) }
    ensures own { IfOk result (λ panel. (bytes : List ℕ)
        × IsSheet (own_fields panel.survey.fields panel.set) bytes panel.files.own) }
    ensures last { IfOk result (λ panel. (bytes : List ℕ)
        × IsSheet (last_fields panel.survey.fields panel.set) bytes panel.files.last) }
    ensures own_key { IfOk result (λ panel. panel.files.own_key < length panel.files.own.header) }
    ensures last_key { IfOk result (λ panel. panel.files.last_key < length panel.files.last.header) }
    ensures kind { IfErr result IsOfPanelInput }
    ensures cause { IfErr result (λ fault. RefusesPanel asked.now (D.files desk.old) fault) }
    ensures due { IfSome (D.files desk.old) (λ files. AnswersDue (IsPanelDue asked.now files) (done_end result)) }
    ensures asked { PutsOnRecord (D.calls desk.old) (D.calls desk.new)
        (AreCallsOf (fetched asked.now.rules ∷ fetched asked.now.records ∷ fetched asked.now.last ∷ []) result) }
    ensures faults { D.faults desk.new ≡ faults_after result (D.faults desk.old) }
    ensures unchanged { D.files desk.new ≡ D.files desk.old }
{
    let survey = fetch_survey(alloc, asked.rules, desk)?;
    let set = last_set(&survey);
    let rows = fetch_rows(alloc, asked, &survey, set, desk)?;
    Ok(PanelInput { survey, set, rows })
}
