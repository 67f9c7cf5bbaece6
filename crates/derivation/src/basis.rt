//! What the steps of one derivation may build on, handed down as one value.
use edit_line::Line;
use edit_model::{FieldSet, Row, Survey};

/// What the steps may build on: the given lines, which of them are usable, place by place, and the record's
/// values at the kept fields.
#[derive(Clone, Copy)]
pub(crate) struct Basis<'a> {
    pub(crate) survey: &'a Survey,
    pub(crate) given: &'a [Line],
    pub(crate) usable: &'a [bool],
    pub(crate) row: &'a Row,
    pub(crate) kept: FieldSet,
}
