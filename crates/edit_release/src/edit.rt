//! The edit of a sheet: its records are edited, and what became of them is written as a release. In
//! contracts, `IsReleaseOf` says that the release is the edit of this sheet on these terms. `HasGuarantee`
//! says that its files tell ends and claims of which the release guarantee holds. By that each record that
//! is released is a correction of least weight.
ghost use Rattle.std.specs.Prelude.{◌≡◌, ◌<◌, ◌≤◌, ◌↔◌, ℕ, List, IfOk, IfSome, IsTrue, length};
ghost use Rattle.std.specs.List.{AllByRecursion, AllZip};
ghost use Rattle.donor_measure.specs.Measures.{Measures};
ghost use Rattle.donor_measure.specs.Yardsticks.{yardsticks_of};
ghost use Rattle.edit_line.specs.EditSets.{SayTheRules};
ghost use Rattle.edit_model.specs.PlainNumbers.{HasPlainNumbers};
ghost use Rattle.record_text.specs.Sheets.{IsSheet};
ghost use Rattle.pruned_rules.specs.Pruned.{kept_edits, rule_verdicts};
ghost use Rattle.record_ends.specs.Ends.{IsEndOf};
ghost use Rattle.record_ends.specs.Said.{Says};
ghost use Rattle.record_editing.specs.Donations.{AreDonations, AreInOrder, AreTerms};
ghost use Rattle.edit_release.specs.Releases.{AllGiven, HasGuarantee, IsReleaseOf};

use crate::edited_sheet::EditedSheet;
use crate::proof::proof_file;
use crate::release::Release;
use crate::texts::ReleaseTexts;
use donor_measure::Measure;
use edit_line::Edits;
use edit_model::{Survey, Value};
use edit_report::RowEnd;
use foundation::OutOfMemory;
use pruned_rules::prune_rules;
use record_editing::{Terms, edit_records};
use record_text::Sheet;
use record_workers::Gate;
use redundancy::Verdict;
use std::alloc::Global;
use std::sync::Wait;
use std::thread::Threads;

/// The edit of a sheet of the survey's records, by 1 to 64 workers side by side. Lines of the rules that
/// follow from the others are dropped first, and the records are searched by those that are kept. The terms
/// are a budget from 1 to 1,000,000,000, a limit from 1 to 1,000, and 1 to 64 donors that a record ranks
/// (`AreTerms`). The gate is told of each record that a worker draws. The measure is one of the survey. The
/// records' numbers are plain: numerators below 10^21, denominators of at most 10^6.
pub fn edit_sheet<
    R: Threads + Wait + Sync,
    F: Fn(u32, &Value, &Value) -> u64 + Send + Sync,
    G: Gate,
>(
    rt: &R,
    alloc: Global,
    survey: Survey,
    sheet: Sheet,
    measure: Measure<F>,
    terms: Terms,
    workers: u32,
    gate: &G,
) -> Result<Release, OutOfMemory>
    requires read { (bytes : List ℕ) × IsSheet survey.fields bytes sheet }
    requires plain { AllByRecursion HasPlainNumbers sheet.rows }
    requires measures { Measures F.Fn measure.closure measure.yardsticks }
    requires yardsticks { measure.yardsticks ≡ yardsticks_of survey.fields }
    requires terms { AreTerms terms }
    requires field { IfSome terms.class_field (λ field. field < length survey.fields) }
    requires workers { (1 ≤ workers) × (workers ≤ 64) }
    ensures guaranteed { IfOk result (HasGuarantee survey sheet terms) }
    ensures edit { IfOk result (IsReleaseOf survey sheet terms workers) }
{
    let (edits, verdicts) = kept_rules(alloc, &survey)?;
    let edited = edit_records(
        rt, alloc, survey, edits, sheet, measure, terms, workers, gate,
    )?;
    release_of(alloc, EditedSheet::of(edited), verdicts, terms)
}

// The edits that the records are searched by, and the verdict on each line of the rules. A line that follows
// from the others is dropped. Refused for want of memory alone.
fn kept_rules(alloc: Global, survey: &Survey) -> Result<(Edits, Vec<Verdict>), OutOfMemory>
    ensures edits { IfOk result (λ kept. kept.0 ≡ kept_edits survey.now) }
    ensures same { IfOk result (λ kept. SayTheRules survey.now kept.0) }
    ensures verdicts { IfOk result (λ kept. kept.1.items ≡ rule_verdicts survey.now) }
{
    let pruned = prune_rules(alloc, survey)?;
    let edits = pruned.kept_edits(alloc, survey)?;
    Ok((edits, pruned.verdicts))
}

// What is released of a sheet whose records are edited: the texts of all files and the summary. The verdicts
// are those on the lines of the rules. The ends say what became of each record, in row order, and the history
// has their claims. Nothing is searched or decided here.
fn release_of(
    alloc: Global,
    edited: EditedSheet,
    verdicts: Vec<Verdict>,
    terms: Terms,
) -> Result<Release, OutOfMemory>
    requires read { (bytes : List ℕ) × IsSheet edited.survey.fields bytes edited.sheet }
    requires terms { AreTerms terms }
    requires verdicts { verdicts.items ≡ rule_verdicts edited.survey }
    requires ends { AllZip (IsEndOf edited.survey (kept_edits edited.survey) terms.budget edited.sheet.rows)
        edited.sheet.rows edited.ends.items }
    requires say { AllZip (Says edited.survey (kept_edits edited.survey) terms.budget) edited.sheet.rows edited.ends.items }
    requires donations { AreDonations edited.survey edited.sheet.rows terms edited.ends.items edited.history.items }
    ensures guaranteed { IfOk result (HasGuarantee edited.survey edited.sheet terms) }
    ensures edit { IfOk result (λ release. (workers : ℕ) → (workers ≡ 1
        → AreInOrder edited.survey edited.sheet.rows terms.class_field edited.ends.items edited.history.items)
        → IsReleaseOf edited.survey edited.sheet terms workers release) }
{
    let _fields = edited.survey.fields(); // read for what it says: the survey is well formed
    let whole = are_given(edited.ends.as_slice());
    let texts = ReleaseTexts::of(alloc, &edited)?;
    let proof = proof_file(alloc, edited, verdicts, terms)?;
    let ReleaseTexts {
        reasons,
        released,
        summary,
    } = texts;
    Ok(Release {
        proof,
        reasons,
        released,
        summary,
        whole,
    })
}

// Whether each record was given values, so that every one is released.
fn are_given(ends: &[RowEnd]) -> bool
    ensures { IsTrue result ↔ AllGiven ends.now }
{
    ends.iter().all(|end| end.gift.is_some())
}
