//! The least and the greatest marks of donors that follow one another in the walk, so that many are told to
//! be far at once. In contracts, `mark_at` is the mark of a donor at a field in a flat list of marks, and
//! `range_at` the range at a place. `IsWithin` says that a mark is in a range.
ghost use Rattle.std.specs.Prelude.{◌≡◌, ◌+◌, ◌*◌, ◌<◌, ◌≤◌, ℕ, IfOk, OnOk, length};
ghost use Rattle.donor_search.specs.Decks.{IsWithin, block_size, mark_at, range_at};

use foundation::OutOfMemory;
use std::alloc::Global;

/// How many donors a block has.
pub(crate) const BLOCK: usize = 32;

/// The least and the greatest mark at a field in a block of donors.
#[derive(Clone, Copy)]
pub struct MarkRange {
    pub low: u16,
    pub high: u16,
}

/// The ranges of the marks in each whole block of donors, one block after the other, each with one range for
/// each field. A last block of fewer than 32 has none. `donors` says how many donors there are. `marks` has
/// `count` marks of each of them, one for each field, one donor after the other.
pub(crate) fn ranges_of(
    alloc: Global,
    marks: &[u16],
    count: usize,
    donors: usize,
) -> Result<Vec<MarkRange>, OutOfMemory>
    requires { donors * count ≤ length marks.now }
    ensures size { IfOk result (λ ranges. (block : ℕ) → block * block_size + block_size ≤ donors
        → block * count + count ≤ length ranges.items) }
    ensures within { IfOk result (λ ranges. (block j field : ℕ)
        → block * block_size + block_size ≤ donors → j < block_size → field < count
        → IsWithin (range_at ranges.items (block * count + field)) (mark_at marks.now count (block * block_size + j) field)) }
{
    let mut ranges = Vec::new(alloc);
    let mut block = 0;
    while donors - block * BLOCK >= BLOCK {
        push_ranges(&mut ranges, marks, count, block * BLOCK)?;
        block += 1;
    }
    Ok(ranges)
}

// Appends the ranges of the block that begins with the donor at place `start`, one for each of the `count`
// fields.
fn push_ranges(
    ranges: &mut Vec<MarkRange>,
    marks: &[u16],
    count: usize,
    start: usize,
) -> Result<(), OutOfMemory>
    requires { (start + block_size) * count ≤ length marks.now }
    ensures size { OnOk result (length ranges.new.items ≡ length ranges.old.items + count) }
    ensures kept { OnOk result ((i : ℕ) → i < length ranges.old.items → range_at ranges.new.items i ≡ range_at ranges.old.items i) }
    ensures within { OnOk result ((j field : ℕ) → j < block_size → field < count
        → IsWithin (range_at ranges.new.items (length ranges.old.items + field)) (mark_at marks.now count (start + j) field)) }
{
    for field in 0..count {
        ranges.push(range_of(marks, count, start, field))?;
    }
    Ok(())
}

// The range of the marks at a field in the block that begins with the donor at place `start`. The mark of
// donor d at field f stands at d * count + f.
fn range_of(marks: &[u16], count: usize, start: usize, field: usize) -> MarkRange
    requires marks { (start + block_size) * count ≤ length marks.now }
    requires field { field < count }
    ensures { (j : ℕ) → j < block_size → IsWithin result (mark_at marks.now count (start + j) field) }
{
    let mut range = MarkRange {
        low: u16::MAX,
        high: 0,
    };
    for j in 0..BLOCK {
        let mark = marks[(start + j) * count + field];
        range = MarkRange {
            low: range.low.min(mark),
            high: range.high.max(mark),
        };
    }
    range
}
