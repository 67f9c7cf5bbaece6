//! The rows of a released file, read as texts: whether it has the records' header and as many rows as the
//! proof tells.
//!
//! In contracts, `AreRowsOf` says that the bytes are this header and these rows. `AreInLimits` says that a
//! record file may have such a header and `count` rows. `Decides` says that the answer is true exactly
//! where the claim holds.
ghost use Rattle.std.specs.Prelude.{◌≡◌, [], ℕ, List, IfNone, IfOk, IfSome, length};
ghost use Rattle.std.specs.Bool.{Decides};
ghost use Rattle.cert_check.specs.inner.Rows.{AreInLimits, AreRowsOf};

use edit_model::Survey;
use foundation::OutOfMemory;
use record_text::{Sheet, SheetFault, Texts, read_records};
use std::alloc::Global;

/// The rows of the released bytes, where these are a record file with this `header` and `count` rows. Each
/// row has to have as many texts as the header. None where the bytes are no such file. It is read as one of
/// no fields, so that its texts stand for no values yet.
pub(crate) fn released_rows(
    alloc: Global,
    header: &Texts,
    bytes: &[u8],
    count: u32,
) -> Result<Option<Sheet>, OutOfMemory>
    requires { AreInLimits header.now count }
    ensures some { IfOk result (λ found. IfSome found (λ sheet. AreRowsOf header.now bytes.now count sheet.row_texts)) }
    ensures none { IfOk result (λ found. IfNone found ((rows : List (List (List ℕ))) → ¬ AreRowsOf header.now bytes.now count rows)) }
{
    match read_records(alloc, &no_fields(alloc)?, bytes) {
        Ok(sheet) => Ok(if_fits(header, sheet, count)),
        Err(fault) if fault == SheetFault::OutOfMemory => Err(OutOfMemory),
        Err(_) => Ok(None),
    }
}

// A survey of no fields, for which any header will do.
fn no_fields(alloc: Global) -> Result<Survey, OutOfMemory>
    ensures { IfOk result (λ survey. survey.fields ≡ []) }
{
    Survey::of(alloc, Vec::new(alloc), Vec::new(alloc))
}

// The sheet of the released file, if it has this header and `count` rows, and else None.
fn if_fits(header: &Texts, sheet: Sheet, count: u32) -> Option<Sheet>
    ensures some { IfSome result (λ kept. (kept ≡ sheet) × (sheet.header ≡ header.now) × (length sheet.rows ≡ count)) }
    ensures none { IfNone result ((sheet.header ≡ header.now) → ¬ (length sheet.rows ≡ count)) }
{
    if are_equal(sheet.header(), header) && sheet.len() == count {
        Some(sheet)
    } else {
        None
    }
}

// Whether both lists have the same texts in the same order.
fn are_equal(texts: &Texts, others: &Texts) -> bool
    ensures { Decides result (texts.now ≡ others.now) }
{
    if texts.len() != others.len() {
        return false;
    }
    for place in 0..texts.len() {
        if texts.get(place) != others.get(place) {
            return false;
        }
    }
    true
}
