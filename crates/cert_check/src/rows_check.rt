//! Whether what a proof says of all records is right: each is checked with the released row that is its
//! own.
//!
//! In contracts, `FindsAmong` says that what is said of all records is right, or that the answer is its
//! first fault.
ghost use Rattle.std.specs.Prelude.{◌≡◌, ◌<◌, ◌^◌, All, IfOk, drop, length, option_map};
ghost use Rattle.std.specs.List.{AllByRecursion, flat_map};
ghost use Rattle.cert_check.specs.Releases.{behind, next_texts};
ghost use Rattle.cert_check.specs.inner.Checks.{IsChecking, files_in, rules_in};
ghost use Rattle.cert_check.specs.inner.Finds.{FindsAmong, files_at};
ghost use Rattle.edit_model.specs.Rows.{IsRow};
ghost use Rattle.proof_grammar.specs.ProofLines.{row_lines};

use crate::checking::{Checking, RowAt};
use crate::line_counts::row_line_count;
use crate::places::is_released;
use crate::row_check::{RowFault, row_fault};
use foundation::OutOfMemory;
use proof_text::RowPlace;
use record_text::{Sheet, Texts};
use std::alloc::Global;

/// The first fault of what the proof says of the records, or None. Its offset counts lines from the head
/// of the first record, which is 0. `saids` has, for each record, the place where the proof speaks of it.
/// Each is read there and dropped again. `released` has the rows of the released records, in order.
pub(crate) fn rows_fault(
    alloc: Global,
    checking: &Checking,
    saids: &[RowPlace],
    records: &Sheet,
    released: &Sheet,
) -> Result<Option<RowFault>, OutOfMemory>
    requires checking { IsChecking checking.now }
    requires one_each { length saids.now ≡ length records.now.rows }
    requires rows { AllByRecursion (IsRow checking.now.survey.now.fields) records.now.rows }
    requires within { All (λ column. column < length records.now.header) checking.now.columns.now }
    requires long { AllByRecursion (λ texts. length texts ≡ length records.now.header) records.now.row_texts }
    requires as_long { AllByRecursion (λ texts. length texts ≡ length records.now.header) released.now.row_texts }
    requires few { length (flat_map row_lines saids.now) < 2 ^ 64 }
    ensures { IfOk result (λ found. FindsAmong
        (rules_in checking.now) saids.now records.now.row_texts records.now.rows released.now.row_texts found) }
{
    let mut offset = 0;
    let mut next = 0;
    for row_no in 0..records.len() {
        let place = &saids[row_no as usize];
        let files = files_at(place, records, row_no, released, next);
        let said = place.read(alloc)?;
        if let Some(fault) = row_fault(alloc, checking, &files, &said)? {
            return Ok(Some(RowFault {
                offset: offset + fault.offset,
                why: fault.why,
            }));
        }
        offset += row_line_count(&said);
        next = next_released_row(place, released, next);
    }
    Ok(None)
}

// What is looked at of the record of the number `row_no`, from 0. It is what was read of it, and the row at
// `next` if the proof says that it is released. `place` is where the proof speaks of it.
fn files_at<'a>(
    place: &RowPlace,
    records: &'a Sheet,
    row_no: u32,
    released: &'a Sheet,
    next: u32,
) -> RowAt<'a>
    requires rows { row_no < length records.now.rows }
    requires row_texts { row_no < length records.now.row_texts }
    ensures { files_in result ≡ files_at place.now records.now row_no (drop next released.now.row_texts) }
{
    RowAt {
        reads: records.raw(row_no),
        row: records.row(row_no),
        texts: texts_at(place, released, next),
    }
}

// The texts of the released row at place `next`. None where the proof releases nothing of the record, or
// the released file has no further row, which the check of the record then refuses.
fn texts_at<'a>(place: &RowPlace, released: &'a Sheet, next: u32) -> Option<&'a Texts>
    ensures { option_map (λ t. t.now) result ≡ next_texts place.now (drop next released.now.row_texts) }
{
    if is_released(place) && next < released.len() {
        Some(released.raw(next))
    } else {
        None
    }
}

// The place, from 0, of the first released row that is left for later records, once this one is checked.
// It is one further than `next` where this record took the row at `next`, and else `next` itself.
fn next_released_row(place: &RowPlace, released: &Sheet, next: u32) -> u32
    ensures { drop result released.now.row_texts ≡ behind place.now (drop next released.now.row_texts) }
{
    if is_released(place) && next < released.len() {
        next + 1
    } else {
        next
    }
}
