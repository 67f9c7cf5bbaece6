//! What the check of a record looks at: what all records share, and what is the record's own.
use edit_line::Line;
use edit_model::{Row, Survey};
use record_text::Texts;

/// By what the records of a survey are checked. `given` are the lines of the rules, and then those of the
/// proof's table; `usable` says of each whether a tree may name it. `columns` has the column of each
/// field, and `budget` is the most work of a search.
#[derive(Clone, Copy)]
pub(crate) struct Checking<'a> {
    pub(crate) survey: &'a Survey,
    pub(crate) given: &'a [Line],
    pub(crate) usable: &'a [bool],
    pub(crate) columns: &'a [u32],
    pub(crate) budget: u64,
}

/// A record: the texts and the values that were read, and the texts that are released of it, if some are.
#[derive(Clone, Copy)]
pub(crate) struct RowAt<'a> {
    pub(crate) reads: &'a Texts,
    pub(crate) row: &'a Row,
    pub(crate) texts: Option<&'a Texts>,
}
