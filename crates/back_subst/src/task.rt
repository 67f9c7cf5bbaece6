//! What the steps of giving values to one record have in common.
use edit_line::Edits;
use edit_model::{FieldSet, Row, Survey};
use std::sync::Arc;

/// What values are given for: a record under a survey's edits, the set of its changed fields, and the
/// donor, if there is one.
#[derive(Clone, Copy)]
pub(crate) struct Task<'a> {
    pub(crate) survey: &'a Survey,
    pub(crate) edits: &'a Arc<Edits>,
    pub(crate) row: &'a Row,
    pub(crate) changed: FieldSet,
    pub(crate) donor: Option<&'a Row>,
}
