//! What the walks and the tests of one record have in common, whose fields are to be filled.
use edit_line::Edits;
use edit_model::{Row, Survey};
use std::sync::Arc;

/// What is done for a record: the edits, the record, its own path, and the budget of all its walks.
#[derive(Clone, Copy)]
pub(crate) struct Task<'a> {
    pub survey: &'a Survey,
    pub edits: &'a Arc<Edits>,
    pub row: &'a Row,
    pub path: &'a [bool],
    pub budget: u64,
}
