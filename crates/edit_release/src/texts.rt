//! What an edit writes beside its proof. In contracts, `AreEnds` says that there is an end for each record of the
//! sheet, and that each is one that its record can have.
ghost use Rattle.std.specs.Prelude.{◌≡◌, ℕ, List, IfOk, map};
ghost use Rattle.edit_report.specs.Ends.{AreEnds};
ghost use Rattle.edit_report.specs.Reasons.{reasons_text_of};
ghost use Rattle.edit_report.specs.Released.{released_text_of};
ghost use Rattle.edit_report.specs.Summaries.{summary_lines};
ghost use Rattle.record_text.specs.Sheets.{IsSheet};

use crate::edited_sheet::EditedSheet;
use edit_report::{reasons_text, released_text, summary_text};
use foundation::OutOfMemory;
use std::alloc::Global;

/// The bytes of the reasons file and of the released file, and the two summary lines.
#[derive(Drop)]
pub(crate) struct ReleaseTexts {
    pub(crate) reasons: Vec<u8>,
    pub(crate) released: Vec<u8>,
    pub(crate) summary: [Vec<u8>; 2],
}

impl ReleaseTexts {
    /// The texts of an edited sheet.
    pub(crate) fn of(alloc: Global, edited: &EditedSheet) -> Result<ReleaseTexts, OutOfMemory>
        requires read { (bytes : List ℕ) × IsSheet edited.now.survey.fields bytes edited.now.sheet }
        requires ends { AreEnds edited.now.survey edited.now.sheet edited.now.ends.items }
        ensures reasons { IfOk result (λ texts. texts.reasons.items
            ≡ reasons_text_of edited.now.survey edited.now.sheet edited.now.ends.items) }
        ensures released { IfOk result (λ texts. texts.released.items
            ≡ released_text_of edited.now.survey edited.now.sheet edited.now.ends.items) }
        ensures summary { IfOk result (λ texts. map (λ line. line.items) texts.summary
            ≡ summary_lines edited.now.survey edited.now.ends.items edited.now.history.items) }
    {
        let EditedSheet {
            survey,
            sheet,
            ends,
            history,
        } = edited;
        let ends = ends.as_slice();
        let reasons = reasons_text(alloc, sheet, survey, ends)?;
        let released = released_text(alloc, sheet, survey, ends)?;
        let summary = summary_text(alloc, survey, ends, history.as_slice())?;
        Ok(ReleaseTexts {
            reasons,
            released,
            summary,
        })
    }
}
