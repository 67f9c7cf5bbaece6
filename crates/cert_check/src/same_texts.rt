//! Whether a released row has the texts that were read, in all columns but those of the changed fields.
ghost use Rattle.std.specs.Prelude.{◌≡◌, length};
ghost use Rattle.bound_cert.specs.Paths.{changes};
ghost use Rattle.cert_check.specs.Released.{may_be_released, same_from, stands_changed};

use crate::changed_fields::changes;
use crate::checking::Checking;
use record_text::Texts;

/// Whether each released text is the one that was read, or that of a field that `path` changes. `reads`
/// and `texts` are the row as read and as released, and have as many texts. No memory.
pub(crate) fn are_same(checking: &Checking, path: &[bool], reads: &Texts, texts: &Texts) -> bool
    requires { length texts.now ≡ length reads.now }
    ensures { result ≡ same_from (changes checking.now.survey.now.fields path.now) checking.now.columns.now 0 reads.now texts.now }
{
    for column in 0..reads.len() {
        if !may_be_released(checking, path, column, reads.get(column), texts.get(column)) {
            return false;
        }
    }
    true
}

// Whether `text` may be released in this column, from 0, where `read` was read. It may where it is the
// same, or where a field that `path` changes stands in this column.
fn may_be_released(
    checking: &Checking,
    path: &[bool],
    column: usize,
    read: &[u8],
    text: &[u8],
) -> bool
    ensures { result ≡ may_be_released (changes checking.now.survey.now.fields path.now) checking.now.columns.now column read.now text.now }
{
    text == read || stands_changed(checking, path, column)
}

// Whether a field that the path changes stands in this column, from 0. A further column has no field.
fn stands_changed(checking: &Checking, path: &[bool], column: usize) -> bool
    ensures { result ≡ stands_changed (changes checking.now.survey.now.fields path.now) 0 checking.now.columns.now column }
{
    for (field, place) in checking.columns.iter().enumerate() {
        if *place as usize == column && changes(checking.survey, path, field) {
            return true;
        }
    }
    false
}
