//! What an edit reads before it edits: the rules, the class field that the words name, and the records. In
//! contracts `Either` stands for both commands, `edit` without a class field and `classed` with one. The
//! clauses of the call say what the files hold (`held`), and which refusals may come (`kind`). They also
//! say what each refusal says of the files (`cause`), and when one has to come (`due`). `AnswersDue` says
//! that a status that is due is answered, unless a file could not be read or memory was refused. `asked`
//! says which calls the desk is asked for, `faults` how its count of faults stands after them, and
//! `unchanged` that no file is changed.
ghost use Rattle.std.specs.Prelude.{◌≡◌, ◌∷◌, [], ℕ, List, IfErr, IfOk, IfSome, option_copied};
ghost use Rattle.std.specs.List.{AllByRecursion};
ghost use Rattle.edit_desk.specs.Desk.{PutsOnRecord, fetched};
ghost use Rattle.edit_model.specs.PlainNumbers.{HasPlainNumbers};
ghost use Rattle.edit_model.specs.Surveys.{IsWellFormed};
ghost use Rattle.record_text.specs.Sheets.{IsSheet};
ghost use Rattle.run_parts.specs.Parts.{AreCallsOf, done_end, faults_after};
ghost use Rattle.run_parts.specs.Readings.{AnswersDue};
ghost use Rattle.edit_command.specs.inner.EitherRun.{HoldsEither, IsEitherDue, IsOfEitherInput, RefusesEither};

use crate::class_field::class_field_asked;
use edit_desk::Desk;
use edit_model::Survey;
use record_text::Sheet;
use run_parts::{Refusal, fetch_sheet, fetch_survey};
use std::alloc::Global;

/// What is read of the rules and the records: the survey, the number of its class field, if one is asked
/// for, and the sheet.
#[derive(Drop)]
pub(crate) struct EditInput {
    pub(crate) survey: Survey,
    pub(crate) class_field: Option<u32>,
    pub(crate) sheet: Sheet,
}

/// Fetches and reads the rules, finds the class field where `class` names one, and then fetches and reads
/// the records. `rules` and `records` are the files' names. The first refusal in this order ends the
/// call.
pub(crate) fn fetch_edit<'a, D: Desk>(
    alloc: Global,
    rules: &'a str,
    records: &'a str,
    class: Option<&'a str>,
    desk: &mut D,
) -> Result<EditInput, Refusal<'a>>
    ensures held { IfOk result (λ input. HoldsEither (D.files desk.old) rules.now records.now (option_copied class.entry)
        input.survey input.class_field input.sheet) }
    ensures well_formed { IfOk result (λ input. IsWellFormed input.survey) }
    ensures sheet { IfOk result (λ input. (bytes : List ℕ) × IsSheet input.survey.fields bytes input.sheet) }
    ensures plain { IfOk result (λ input. AllByRecursion HasPlainNumbers input.sheet.rows) }
    ensures kind { IfErr result (IsOfEitherInput (option_copied class.entry)) }
    ensures cause { IfErr result (λ fault. RefusesEither rules.now records.now (option_copied class.entry) (D.files desk.old) fault) }
    ensures due { IfSome (D.files desk.old)
        (λ files. AnswersDue (IsEitherDue rules.now records.now (option_copied class.entry) files) (done_end result)) }
    ensures asked { PutsOnRecord (D.calls desk.old) (D.calls desk.new)
        (AreCallsOf (fetched rules.now ∷ fetched records.now ∷ []) result) }
    ensures faults { D.faults desk.new ≡ faults_after result (D.faults desk.old) }
    ensures unchanged { D.files desk.new ≡ D.files desk.old }
{
    let survey = fetch_survey(alloc, rules, desk)?;
    let class_field = class_field_asked(alloc, &survey, class)?;
    let sheet = fetch_sheet(alloc, records, &survey, desk)?;
    Ok(EditInput {
        survey,
        class_field,
        sheet,
    })
}
