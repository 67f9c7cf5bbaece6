//! What one search is asked, handed down as one value.
use edit_line::Edits;
use edit_model::{Row, Survey};
use std::sync::Arc;

/// What is asked of a search: a record under a survey's edits, and the most work that may be spent.
#[derive(Clone, Copy)]
pub(crate) struct Task<'a> {
    pub(crate) survey: &'a Survey,
    pub(crate) edits: &'a Arc<Edits>,
    pub(crate) row: &'a Row,
    pub(crate) budget: u64,
}
