//! Sums, the greatest of numbers, and lengths in a picture. In contracts, `parts_of` is what definitions see of
//! a bar.
ghost use Rattle.std.specs.Prelude.{◌≡◌, map};
ghost use Rattle.page_figures.specs.Drawings.{longest_label, most_parts, parts_of};
ghost use Rattle.page_figures.specs.Figures.{greatest_in, reach};
ghost use Rattle.page_figures.specs.Sums.{greatest_of, scaled, total_of};

use crate::figure::{Bar, Form};

/// The units that stand for a value where `most` units stand for `greatest`: value * most / greatest,
/// rounded down. It is at most `most`, 0 for 0, and at least 1 for a value above it. No memory.
pub(crate) fn scaled_length(value: u64, greatest: u64, most: u64) -> u64
    ensures { result ≡ scaled most greatest value }
{
    if value == 0 {
        return 0;
    }
    let units = u128::from(value) * u128::from(most) / u128::from(greatest.max(1));
    match u64::try_from(units) {
        Ok(units) => units.min(most).max(1),
        Err(_) => most.max(1),
    }
}

/// The sum of the numbers; past 64 bits it is 2^64 - 1. No memory.
pub(crate) fn total_of(parts: &[u64]) -> u64
    ensures { result ≡ total_of parts.now }
{
    let mut total = 0_u64;
    for part in parts {
        total = total.saturating_add(*part);
    }
    total
}

/// The number to whose scale bars are drawn: the greatest of their totals where they are stacked, and
/// else of their single numbers. It is 0 where there are no bars. No memory.
pub(crate) fn greatest_in(form: Form, bars: &[Bar]) -> u64
    ensures { result ≡ greatest_in form (map parts_of bars.now) }
{
    let mut greatest = 0;
    for bar in bars {
        greatest = greatest.max(reach(form, bar.parts));
    }
    greatest
}

// How far a bar of this form reaches: to the sum of its parts, or to the greatest of them. No memory.
fn reach(form: Form, parts: &[u64]) -> u64
    ensures { result ≡ reach form parts.now }
{
    match form {
        Form::Stacked => total_of(parts),
        Form::Upright => greatest_of(parts),
    }
}

// The greatest of the numbers, and 0 where there are none. No memory.
fn greatest_of(parts: &[u64]) -> u64
    ensures { result ≡ greatest_of parts.now }
{
    let mut greatest = 0;
    for part in parts {
        greatest = greatest.max(*part);
    }
    greatest
}

/// How many bytes the longest label has, and 0 where there are no bars. No memory.
pub(crate) fn longest_label(bars: &[Bar]) -> usize
    ensures { result ≡ longest_label (map parts_of bars.now) }
{
    let mut longest = 0;
    for bar in bars {
        longest = longest.max(bar.label.len());
    }
    longest
}

/// How many numbers the bar with the most of them has, and 0 where there are no bars. No memory.
pub(crate) fn most_parts(bars: &[Bar]) -> usize
    ensures { result ≡ most_parts (map parts_of bars.now) }
{
    let mut most = 0;
    for bar in bars {
        most = most.max(bar.parts.len());
    }
    most
}
