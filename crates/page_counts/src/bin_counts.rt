//! How many of a field's numbers each bin of a histogram has. A number is in a bin by its thousandths,
//! rounded down. One whose thousandths can't be told is in no bin. In contracts, `is_beyond` says of a
//! value that it is a number in no bin.
ghost use Rattle.std.specs.Prelude.{◌≡◌, ◌≤◌, IfOk, count_by, map};
ghost use Rattle.page_counts.specs.Bins.{bin_counts, bin_low, is_between, is_beyond};
ghost use Rattle.page_counts.specs.Thousandths.{thousandths_at};

use crate::bins::Bins;
use crate::columns::number_count;
use crate::thousandth::thousandths;
use edit_model::Value;
use foundation::{OutOfMemory, Sequence};
use std::alloc::Global;

/// How many values each bin has, and how many numbers are in none of them.
#[derive(Drop)]
pub struct BinCounts {
    pub counts: Sequence<usize>,
    pub beyond: usize,
}

/// How many of the values each bin has, in the order of the bins. Beside that, how many of the numbers among
/// them are in no bin. Codes and missing values are counted nowhere.
pub fn histogram(alloc: Global, values: &[Value], bins: &Bins) -> Result<BinCounts, OutOfMemory>
    ensures counts { IfOk result (λ found. found.counts ≡ bin_counts bins.now values.now) }
    ensures beyond { IfOk result (λ found. found.beyond ≡ count_by (is_beyond bins.now) values.now) }
{
    let thousandths = thousandths(alloc, values)?;
    let mut counts = Vec::with_capacity(alloc, bins.count() as usize)?;
    for i in 0..bins.count() {
        counts.push(count_among(&thousandths, bins, i, i + 1))?;
    }
    Ok(BinCounts {
        counts: Sequence::from_vec(counts),
        beyond: beyond_count(values, &thousandths, bins),
    })
}

// How many of these thousandths are in the bins from number `first` on that come before number `end`, both
// from 0. A number whose thousandths are None is in no bin.
fn count_among(thousandths: &[Option<i128>], bins: &Bins, first: u32, end: u32) -> usize
    requires first { first ≤ 20 }
    requires end { end ≤ 20 }
    ensures { result ≡ count_by (is_between (bin_low bins.now first) (bin_low bins.now end)) thousandths.now }
{
    count_between(thousandths, bins.low(first), bins.low(end))
}

// How many of these thousandths are at least `low` and below `high`; None is not counted.
fn count_between(thousandths: &[Option<i128>], low: i128, high: i128) -> usize
    ensures { result ≡ count_by (is_between low high) thousandths.now }
{
    thousandths
        .iter()
        .filter(|number| is_between(**number, low, high))
        .count()
}

// Whether these thousandths are at least `low` and below `high`; false for None.
fn is_between(thousandths: Option<i128>, low: i128, high: i128) -> bool
    ensures { result ≡ is_between low high thousandths }
{
    match thousandths {
        Some(t) => low <= t && t < high,
        None => false,
    }
}

// How many numbers among the values are in no bin: all but those that are in some. `thousandths` are those
// of the values.
fn beyond_count(values: &[Value], thousandths: &[Option<i128>], bins: &Bins) -> usize
    requires { thousandths.now ≡ map thousandths_at values.now }
    ensures { result ≡ count_by (is_beyond bins.now) values.now }
{
    number_count(values) - count_among(thousandths, bins, 0, bins.count())
}
