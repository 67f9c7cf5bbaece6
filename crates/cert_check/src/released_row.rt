//! Whether the row that is released of a record gives what it has to. Those are the texts that were read
//! but for the changed fields, other values for these, and a clean record.
//!
//! In contracts, `IsChecking` says that the parts of `checking` fit each other, and `FitsFiles` that those
//! of the record fit them. `Decides` says that the answer is true exactly where the claim holds.
//! `rules_in` and `files_in` are `checking` and `files` as values.
ghost use Rattle.std.specs.Prelude.{◌<◌, All, IfOk, length};
ghost use Rattle.std.specs.Bool.{Decides};
ghost use Rattle.edit_model.specs.Rows.{IsRow};
ghost use Rattle.cert_check.specs.RowChecks.{AreReleasedTexts};
ghost use Rattle.cert_check.specs.inner.Checks.{FitsFiles, GivesClean, IsChecking, files_in, rules_in};

use crate::changed_fields::changes_some;
use crate::checking::{Checking, RowAt};
use crate::new_values::new_values;
use crate::same_texts::are_same;
use edit_model::{Row, is_clean};
use foundation::OutOfMemory;
use record_text::Texts;
use std::alloc::Global;

/// Whether the released file has the right row for the record, of which `path` changes some fields or
/// none. A right row has the texts that were read, but for other values at the changed fields. With these
/// the record is clean. False where the released file has no row for the record.
pub(crate) fn has_right_row(
    alloc: Global,
    checking: &Checking,
    files: &RowAt,
    path: &[bool],
) -> Result<bool, OutOfMemory>
    requires checking { IsChecking checking.now }
    requires files { FitsFiles checking.now files.now }
    ensures { IfOk result (λ b. Decides b (AreReleasedTexts (rules_in checking.now) (files_in files.now) path.now)) }
{
    let Some(texts) = files.texts else {
        return Ok(false);
    };
    if !are_same(checking, path, files.reads, texts) {
        return Ok(false);
    }
    if changes_some(path) {
        gives_clean(alloc, checking, files.row, path, texts)
    } else {
        Ok(is_clean(checking.survey, files.row))
    }
}

// Whether the released `texts` give each changed field a value other than the one that was read, and the
// record is clean with them. False where some changed field has no such value.
fn gives_clean(
    alloc: Global,
    checking: &Checking,
    row: &Row,
    path: &[bool],
    texts: &Texts,
) -> Result<bool, OutOfMemory>
    requires checking { IsChecking checking.now }
    requires row { IsRow checking.now.survey.now.fields row.now }
    requires within { All (λ column. column < length texts.now) checking.now.columns.now }
    ensures { IfOk result (λ b. Decides b (GivesClean checking.now path.now texts.now row.now)) }
{
    match new_values(alloc, checking, row, path, texts)? {
        Some(values) => Ok(is_clean(checking.survey, &Row::new(checking.survey, values))),
        None => Ok(false),
    }
}
