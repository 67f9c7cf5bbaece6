//! What is counted of the records of a panel, for the line that is printed and the status of the run. In
//! contracts, `AreCountsOf` says that the counts are those of records that ended so, and `CountsOne` that
//! one record more is counted. `IsResolution` says that a record which ended so is counted in this way.
ghost use Rattle.std.specs.Prelude.{◌≡◌, ◌<◌, ◌≤◌, [], List, IfOk, length, not};
ghost use Rattle.std.specs.List.{list_any};
ghost use Rattle.foundation.specs.Limits.{most_records};
ghost use Rattle.edit_model.specs.Parts.{SurveyParts};
ghost use Rattle.edit_model.specs.declared.field.Field as field;
ghost use Rattle.bound_cert.specs.Trees.{all_kept};
ghost use Rattle.edit_report.specs.Ends.{IsEnd};
ghost use Rattle.edit_report.specs.Summaries.{is_unresolved, summary_of};
ghost use Rattle.edit_report.specs.declared.end.RowEnd as row_end;
ghost use Rattle.panel_release.specs.PanelReleases.{end_of};
ghost use Rattle.panel_release.specs.inner.Counts.{AreCountsOf, AreFew, CountsOne, IsPathResolution, IsResolution};

use bound_cert::Path;
use edit_model::Survey;
use edit_report::summary_line;
use foundation::OutOfMemory;
use panel_link::Linked;
use std::alloc::Global;

/// How a record is counted: as clean, changed or unresolved.
#[derive(Clone, Copy)]
pub(crate) enum Resolution {
    /// It was given values, and keeps all its own.
    Clean,
    /// It was given other values, and its change weighs so much.
    Changed { weight: u64 },
    /// It was given no values.
    Unresolved,
}

/// How a record with this answer is counted. No memory.
pub(crate) fn resolution_of(survey: &Survey, answer: &Linked) -> Resolution
    requires { IsEnd survey.now.fields (end_of answer.now) }
    ensures { IsResolution survey.now.fields (end_of answer.now) result }
{
    match answer {
        Linked::Change { path, .. } => path_resolution(survey, path),
        Linked::NoLast => Resolution::Unresolved,
        Linked::NoCorrection { .. } => Resolution::Unresolved,
        Linked::Stopped(_) => Resolution::Unresolved,
    }
}

// How a record is counted that was given the values of this path. A path that changes no field leaves it
// clean, and any other one changes it, by the path's weight.
fn path_resolution(survey: &Survey, path: &Path) -> Resolution
    requires { length path.now ≤ length survey.now.fields }
    ensures { IsPathResolution survey.now.fields path.now result }
{
    if keeps_all_fields(path.letters()) {
        Resolution::Clean
    } else {
        Resolution::Changed {
            weight: path.weight(survey),
        }
    }
}

// Whether the path keeps all its fields, so that the record is clean. A letter that is true is a changed
// field. No memory.
fn keeps_all_fields(path: &[bool]) -> bool
    ensures { result ≡ all_kept path.now }
{
    path.iter().all(|changed| !*changed)
}

/// How many records there are, how many of them are clean, changed and unresolved, and what the changes
/// weigh together. No count is beyond what the records of a file can have (`AreFew`), so that no sum
/// overflows.
#[derive(Clone, Copy)]
pub(crate) struct Counts {
    pub(crate) records: u32,
    pub(crate) clean: u32,
    pub(crate) changed: u32,
    pub(crate) unresolved: u32,
    pub(crate) weight: u128,
}

impl Counts {
    /// The counts of no record. No memory.
    pub(crate) fn of_none() -> Counts
        ensures counts { (fields : List field.Field) → AreCountsOf fields [] result }
        ensures few { AreFew result }
        ensures none { result.records ≡ 0 }
    {
        Counts {
            records: 0,
            clean: 0,
            changed: 0,
            unresolved: 0,
            weight: 0,
        }
    }

    /// Counts one record more, as `resolution` says. No memory.
    pub(crate) fn add(&mut self, resolution: Resolution)
        requires few { AreFew self.old }
        requires more { self.old.records < most_records }
        ensures few { AreFew self.new }
        ensures counts { (fields : List field.Field) (end : row_end.RowEnd) → IsResolution fields end resolution
            → CountsOne fields end self.old self.new }
    {
        self.records += 1;
        match resolution {
            Resolution::Clean => self.clean += 1,
            Resolution::Changed { weight } => {
                self.changed += 1;
                self.weight += u128::from(weight);
            }
            Resolution::Unresolved => self.unresolved += 1,
        }
    }

    /// Whether no record is unresolved, by which the status of the run is chosen. No memory.
    pub(crate) fn none_unresolved(&self) -> bool
        ensures { (fields : List field.Field) (ends : List row_end.RowEnd) → AreCountsOf fields ends self.now
            → result ≡ not (list_any is_unresolved ends) }
    {
        self.unresolved == 0
    }

    /// The line that tells the counts, without its line feed:
    /// `records N clean N changed N unresolved N weight N`.
    pub(crate) fn summary(&self, alloc: Global) -> Result<Vec<u8>, OutOfMemory>
        ensures { IfOk result (λ line. (survey : SurveyParts) (ends : List row_end.RowEnd) → AreCountsOf survey.fields ends self.now
            → line.items ≡ summary_of survey ends) }
    {
        summary_line(
            alloc,
            self.records as usize,
            self.clean as usize,
            self.changed as usize,
            self.unresolved as usize,
            self.weight,
        )
    }
}
