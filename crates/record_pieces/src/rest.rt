//! All by which the records of a sheet are edited, beside the tickets and the books of claims.
use crate::decks::Decks;
use donor_measure::Measure;
use edit_line::Edits;
use edit_model::Survey;
use record_text::Sheet;
use shared_edits::Pool;
use std::sync::Arc;

/// What all workers read while they edit the records of one sheet: the survey and its edits, the sheet and
/// its donors by classes, and how far two records are apart. `near` is how many donors a record ranks at
/// most, `budget` the most work of the search in one record. The pool alone changes meanwhile: workers put
/// the systems there that they derive. It is the rest of what they share beside tickets and books.
#[derive(Drop)]
pub struct Rest<F> {
    pub survey: Survey,
    pub edits: Arc<Edits>,
    pub sheet: Sheet,
    pub decks: Decks,
    pub measure: Measure<F>,
    pub near: u32,
    pub budget: u64,
    pub pool: Pool,
}
