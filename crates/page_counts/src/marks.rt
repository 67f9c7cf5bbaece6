//! Which records the reasons name, as one mark for each record: true where it is so. A record of the reasons
//! past the last mark is passed over.
ghost use Rattle.std.specs.Prelude.{◌≡◌, ◌||◌, ◌<◌, ℕ, IfOk, false, replicate, slice_index_or, slice_set, true, vec_len};
ghost use Rattle.page_counts.specs.Records.{is_changed, is_left_out};

use foundation::OutOfMemory;
use reason_lines::{Change, LeftOut};
use std::alloc::Global;

/// For each of `rows` records whether it was changed.
pub(crate) fn changed_marks(
    alloc: Global,
    rows: u32,
    changes: &[Change],
) -> Result<Vec<bool>, OutOfMemory>
    ensures length { IfOk result (λ marks. vec_len marks ≡ rows) }
    ensures marked { IfOk result (λ marks. (k : ℕ) → k < rows → slice_index_or marks.items k false ≡ is_changed changes.now k) }
{
    let mut marks = no_marks(alloc, rows)?;
    mark_changed(&mut marks, changes);
    Ok(marks)
}

/// For each of `rows` records whether it was left out.
pub(crate) fn left_out_marks(
    alloc: Global,
    rows: u32,
    left_out: &[LeftOut],
) -> Result<Vec<bool>, OutOfMemory>
    ensures length { IfOk result (λ marks. vec_len marks ≡ rows) }
    ensures marked { IfOk result (λ marks. (k : ℕ) → k < rows → slice_index_or marks.items k false ≡ is_left_out left_out.now k) }
{
    let mut marks = no_marks(alloc, rows)?;
    mark_left_out(&mut marks, left_out);
    Ok(marks)
}

/// For each of `rows` records whether it was changed or left out.
pub(crate) fn unclean_marks(
    alloc: Global,
    rows: u32,
    changes: &[Change],
    left_out: &[LeftOut],
) -> Result<Vec<bool>, OutOfMemory>
    ensures length { IfOk result (λ marks. vec_len marks ≡ rows) }
    ensures marked { IfOk result (λ marks. (k : ℕ) → k < rows
        → slice_index_or marks.items k false ≡ (is_changed changes.now k || is_left_out left_out.now k)) }
{
    let mut marks = changed_marks(alloc, rows, changes)?;
    mark_left_out(&mut marks, left_out);
    Ok(marks)
}

// A mark for each of `rows` records, all false.
fn no_marks(alloc: Global, rows: u32) -> Result<Vec<bool>, OutOfMemory>
    ensures { IfOk result (λ marks. marks.items ≡ replicate rows false) }
{
    Ok(vec![in alloc; false; rows as usize]?)
}

// Marks the records of the changes; one past the last mark is passed over.
fn mark_changed(marks: &mut Vec<bool>, changes: &[Change])
    ensures same { vec_len marks.new ≡ vec_len marks.old }
    ensures marked { (k : ℕ) → k < vec_len marks.old
        → slice_index_or marks.new.items k false ≡ (slice_index_or marks.old.items k false || is_changed changes.now k) }
{
    for change in changes {
        mark(marks, change.record);
    }
}

// Marks the records that were left out; one past the last mark is passed over.
fn mark_left_out(marks: &mut Vec<bool>, left_out: &[LeftOut])
    ensures same { vec_len marks.new ≡ vec_len marks.old }
    ensures marked { (k : ℕ) → k < vec_len marks.old
        → slice_index_or marks.new.items k false ≡ (slice_index_or marks.old.items k false || is_left_out left_out.now k) }
{
    for left in left_out {
        mark(marks, left.record);
    }
}

// Marks the record of this number, where there is a mark for it.
fn mark(marks: &mut Vec<bool>, number: u32)
    ensures { marks.new.items ≡ slice_set marks.old.items number true }
{
    let place = number as usize;
    if place < marks.len() {
        marks[place] = true;
    }
}
