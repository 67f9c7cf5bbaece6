//! A sheet whose records are edited, without what the workers shared.
ghost use Rattle.std.specs.Prelude.{◌≡◌};

use donor_book::Entry;
use edit_model::{Survey, Value};
use edit_report::RowEnd;
use record_editing::Edited;
use record_pieces::Rest;
use record_text::Sheet;

/// A sheet of the survey's records, what became of each of them, in order, and the claims of donors.
#[derive(Drop)]
pub(crate) struct EditedSheet {
    pub(crate) survey: Survey,
    pub(crate) sheet: Sheet,
    pub(crate) ends: Vec<RowEnd>,
    pub(crate) history: Vec<Entry>,
}

impl EditedSheet {
    /// The sheet of these edited records. The index of donors, the pool and whatever else the workers shared is
    /// let go, so that its memory serves the texts that are made next.
    pub(crate) fn of<F: Fn(u32, &Value, &Value) -> u64 + Send + Sync>(
        edited: Edited<F>,
    ) -> EditedSheet
        ensures survey { result.survey ≡ edited.rest.survey }
        ensures sheet { result.sheet ≡ edited.rest.sheet }
        ensures ends { result.ends ≡ edited.ends }
        ensures history { result.history ≡ edited.history }
    {
        let Edited {
            ends,
            history,
            rest,
        } = edited;
        let Rest { survey, sheet, .. } = rest;
        EditedSheet {
            survey,
            sheet,
            ends,
            history,
        }
    }

    /// What became of each record, and the claims of donors. The survey and the sheet are let go.
    pub(crate) fn into_told(self) -> (Vec<RowEnd>, Vec<Entry>)
        ensures ends { result.0 ≡ self.ends }
        ensures history { result.1 ≡ self.history }
    {
        (self.ends, self.history)
    }
}
