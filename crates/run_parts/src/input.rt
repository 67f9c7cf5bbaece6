//! The two files that most commands begin with: the rules and the records, as they are fetched and read,
//! in this order. The clauses of the call say what the files hold (`rules`, `records`), and which refusals
//! may come (`kind`). They also say what each refusal says of the files (`cause`), and when one has to
//! come (`due`).
//!
//! `asked` says which calls the desk is asked for, `faults` how its count of faults stands after them, and
//! `unchanged` that no file is changed.
ghost use Rattle.std.specs.Prelude.{◌≡◌, ◌∷◌, [], ℕ, List, IfErr, IfOk, IfSome};
ghost use Rattle.std.specs.List.{AllByRecursion};
ghost use Rattle.edit_desk.specs.Desk.{PutsOnRecord, fetched};
ghost use Rattle.edit_model.specs.PlainNumbers.{HasPlainNumbers};
ghost use Rattle.edit_model.specs.Surveys.{IsWellFormed};
ghost use Rattle.record_text.specs.Sheets.{IsSheet};
ghost use Rattle.run_parts.specs.Faults.{IsOfInput};
ghost use Rattle.run_parts.specs.Parts.{AreCallsOf, done_end, faults_after};
ghost use Rattle.run_parts.specs.Readings.{AnswersDue, HoldsRecords, HoldsRules, IsInputDue, RefusesInput};

use crate::reading::{fetch_sheet, fetch_survey};
use crate::refusal::Refusal;
use edit_desk::Desk;
use edit_model::Survey;
use record_text::Sheet;
use std::alloc::Global;

/// The survey that the rule file reads as, and then the sheet of its records that the record file reads
/// as. `rules` and `records` are the files' names. The first refusal ends the call; where the rules are
/// refused, the records are not fetched.
pub fn fetch_input<'a, D: Desk>(
    alloc: Global,
    rules: &'a str,
    records: &'a str,
    desk: &mut D,
) -> Result<(Survey, Sheet), Refusal<'a>>
    ensures rules { IfOk result (λ both. HoldsRules (D.files desk.old) rules.now both.0) }
    ensures well_formed { IfOk result (λ both. IsWellFormed both.0) }
    ensures records { IfOk result (λ both. HoldsRecords (D.files desk.old) records.now both.0.fields both.1) }
    ensures sheet { IfOk result (λ both. (bytes : List ℕ) × IsSheet both.0.fields bytes both.1) }
    ensures plain { IfOk result (λ both. AllByRecursion HasPlainNumbers both.1.rows) }
    ensures kind { IfErr result IsOfInput }
    ensures cause { IfErr result (λ fault. RefusesInput rules.now records.now (D.files desk.old) fault) }
    ensures due { IfSome (D.files desk.old) (λ files. AnswersDue (IsInputDue rules.now records.now files) (done_end result)) }
    ensures asked { PutsOnRecord (D.calls desk.old) (D.calls desk.new)
        (AreCallsOf (fetched rules.now ∷ fetched records.now ∷ []) result) }
    ensures faults { D.faults desk.new ≡ faults_after result (D.faults desk.old) }
    ensures unchanged { D.files desk.new ≡ D.files desk.old }
{
    let survey = fetch_survey(alloc, rules, desk)?;
    let sheet = fetch_sheet(alloc, records, &survey, desk)?;
    Ok((survey, sheet))
}
