//! The four files that the command reads, and what they read as. In contracts, `HoldsSources` says that
//! the desk has four files that read as this. `Refuses` says that there is the cause that a refusal
//! tells. `IsPageDue` says with which status the files are to be refused. `AnswersDue` says that such a
//! status is answered, unless a file can't be read or memory is refused. `PutsOnRecord` says which calls
//! the desk was asked.
ghost use Rattle.std.specs.Prelude.{◌≡◌, IfErr, IfOk, IfSome};
ghost use Rattle.std.specs.List.Sorted.{IsNonDecreasingBy};
ghost use Rattle.edit_desk.specs.Desk.{PutsOnRecord};
ghost use Rattle.edit_model.specs.Surveys.{IsWellFormed};
ghost use Rattle.reason_lines.specs.declared.entry.Change.{Change as AnyChange};
ghost use Rattle.release_figures.specs.Releases.{release_parts};
ghost use Rattle.run_parts.specs.Readings.{AnswersDue};
ghost use Rattle.page_command.specs.PageFaults.{IsPageDue};
ghost use Rattle.page_command.specs.PageSources.{HoldsSources};
ghost use Rattle.page_command.specs.inner.PageParts.{AreReadCalls, IsOfRead, Refuses, faults_behind, refusal_status};

use crate::reading::{fetch_reasons, fetch_released};
use crate::refusal::PageRefusal;
use command_words::PageWords;
use edit_desk::Desk;
use edit_model::Survey;
use reason_lines::Reasons;
use record_text::Sheet;
use release_figures::Release;
use run_parts::fetch_input;
use std::alloc::Global;
use std::marker::Model;

/// What is read of the four files. The changes of the reasons stand in the order of their records.
#[derive(Drop)]
pub(crate) struct Sources {
    pub(crate) survey: Survey,
    pub(crate) records: Sheet,
    pub(crate) released: Sheet,
    pub(crate) reasons: Reasons,
}

impl Model for Sources {
    ghost use Rattle.std.specs.List.Sorted.{IsNonDecreasingBy};
    ghost use Rattle.reason_lines.specs.declared.entry.Change.{Change};
    ghost use Rattle.release_figures.specs.Releases.{ReleaseParts};

    ghost Value = { ReleaseParts };

    ghost view = { λ s. record { survey = s.survey; records = s.records; released = s.released; reasons = s.reasons } };

    ghost invariant = { λ s. IsNonDecreasingBy (λ (c : Change). c.record) s.reasons.changes };
}

impl Sources {
    /// The release that the page is about: the survey, both sheets and the reasons, lent. No memory.
    pub(crate) fn release(&self) -> Release<'_>
        ensures is { release_parts result ≡ self.now }
        ensures rising { IsNonDecreasingBy (λ (c : AnyChange). c.record) result.reasons.now.changes }
    {
        Release {
            survey: &self.survey,
            records: &self.records,
            released: &self.released,
            reasons: &self.reasons,
        }
    }
}

/// Fetches and reads the rules, the records, the released file and the reasons, in this order. The first
/// refusal ends the call, and no later file is fetched. It comes where a file can't be fetched, is too long or
/// has no reading, or for want of memory.
pub(crate) fn fetch_sources<'a, D: Desk>(
    alloc: Global,
    asked: &PageWords<'a>,
    desk: &mut D,
) -> Result<Sources, PageRefusal<'a>>
    ensures held { IfOk result (HoldsSources (D.files desk.old) asked.now) }
    ensures well_formed { IfOk result (λ sources. IsWellFormed sources.survey) }
    ensures kind { IfErr result IsOfRead }
    ensures cause { IfErr result (Refuses asked.now (D.files desk.old)) }
    ensures due { IfErr result (λ refusal.
        IfSome (D.files desk.old) (λ files. AnswersDue (IsPageDue asked.now files) (refusal_status refusal))) }
    ensures asked { PutsOnRecord (D.calls desk.old) (D.calls desk.new) (AreReadCalls asked.now result) }
    ensures faults { D.faults desk.new ≡ faults_behind result (D.faults desk.old) }
    ensures unchanged { D.files desk.new ≡ D.files desk.old }
{
    let (survey, records) = fetch_input(alloc, asked.rules, asked.records, desk)?;
    let released = fetch_released(alloc, asked.released, &survey, desk)?;
    let reasons = fetch_reasons(alloc, asked.reasons, &survey, records.len(), desk)?;
    Ok(Sources {
        survey,
        records,
        released,
        reasons,
    })
}
