//! From where to where a field's numbers reach, in thousandths, and the bins over them. The thousandths of a
//! number can't be told where its numerator is above 10^33 in size. In contracts, `AreBinsOf` says which
//! bins these are, and `ends_of` has the two ends of a range, or None.
ghost use Rattle.std.specs.Prelude.{◌≡◌, ◌≤◌, ◌^◌, unsigned_abs};
ghost use Rattle.std.specs.Int.{int_max, int_min};
ghost use Rattle.std.specs.List.{list_all};
ghost use Rattle.release_figures.specs.inner.Ranges.{AreBinsOf, AreEndsOf, IsEnd, ends_of, is_whole, joined_ends, point_ends, unit_over};

use crate::range::Range;
use edit_model::Value;
use fraction128::Fraction;
use page_counts::{Bins, bins_over, greatest, least, thousandths_of};

// The least width of bins over whole numbers alone, in thousandths.
const WHOLE_UNIT: i128 = 1000;

// The least width of bins over other numbers, in thousandths.
const UNIT: i128 = 1;

/// The bins over the numbers of both columns, from the least to the greatest, and not narrower than 1
/// where all of them are whole. None where there is no number, or the thousandths can be told of neither
/// column's least number, nor of its greatest. No memory.
pub(crate) fn bins_of(before: &[Value], after: &[Value]) -> Option<Bins>
    ensures { AreBinsOf before.now after.now result }
{
    let range = join_ranges(range_of(before), range_of(after))?;
    Some(bins_over(range.least, range.greatest, unit_of(before, after)))
}

// The least width that bins over the numbers of both columns may have, in thousandths: 1000 where all of
// them are whole, so that bins begin at whole numbers, and else 1.
fn unit_of(before: &[Value], after: &[Value]) -> i128
    ensures is { result ≡ unit_over before.now after.now }
    ensures small { unsigned_abs result ≤ 10 ^ 36 }
{
    if are_whole(before) && are_whole(after) {
        WHOLE_UNIT
    } else {
        UNIT
    }
}

// Whether all numbers among the values are whole.
fn are_whole(values: &[Value]) -> bool
    ensures { result ≡ list_all is_whole values.now }
{
    values.iter().all(|value| is_whole(value))
}

// Whether the value is no number, or a whole one.
fn is_whole(value: &Value) -> bool
    ensures { result ≡ is_whole value.now }
{
    match value {
        Value::Number(number) => number.denominator() == 1,
        Value::Code(_) | Value::Bad => true,
    }
}

// From the least to the greatest of the numbers among the values. Where the thousandths of one of the
// two can't be told, it is the other alone. None where no number is left.
fn range_of(values: &[Value]) -> Option<Range>
    ensures { AreEndsOf (IsEnd values.now) (ends_of result) }
{
    join_ranges(single_range(least(values)), single_range(greatest(values)))
}

// The range that has this number alone, in thousandths. None where there is no number, or its thousandths
// can't be told.
fn single_range(number: Option<Fraction>) -> Option<Range>
    ensures { ends_of result ≡ point_ends number }
{
    let thousandths = thousandths_of(&number?)?;
    Some(Range {
        least: thousandths,
        greatest: thousandths,
    })
}

// One range over two, from the least to the greatest of both. It is the one that there is where the other is
// None, and None where both are.
fn join_ranges(one: Option<Range>, other: Option<Range>) -> Option<Range>
    ensures { ends_of result ≡ joined_ends (ends_of one) (ends_of other) }
{
    match (one, other) {
        (Some(one), Some(other)) => Some(range_over(one, other)),
        (Some(range), None) => Some(range),
        (None, other) => other,
    }
}

// One range over two, from the lesser of their least numbers to the greater of their greatest.
fn range_over(one: Range, other: Range) -> Range
    ensures least { result.least ≡ int_min one.least other.least }
    ensures greatest { result.greatest ≡ int_max one.greatest other.greatest }
{
    Range {
        least: one.least.min(other.least),
        greatest: one.greatest.max(other.greatest),
    }
}
