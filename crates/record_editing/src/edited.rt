//! What an edit of a sheet's records answers.
use donor_book::Entry;
use edit_report::RowEnd;
use record_pieces::Rest;

/// What became of the records of a sheet: the end of each, in order. The claims of donors stand class by
/// class, in each in the order in which they were answered. `rest` has the survey, the edits, the sheet and
/// the pool of systems by which the records were edited.
#[derive(Drop)]
pub struct Edited<F> {
    pub ends: Vec<RowEnd>,
    pub history: Vec<Entry>,
    pub rest: Rest<F>,
}
