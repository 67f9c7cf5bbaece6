//! The bars of a field's values before and after: one for each bin of a numerical field, or for each
//! code of a categorical one. In contracts, `bar_parts` is what definitions see of a bar.
ghost use Rattle.std.specs.Prelude.{◌≡◌, ◌<◌, ◌≤◌, IfOk, Some, length, map, slice_index};
ghost use Rattle.page_sections.specs.Sections.{bar_parts};
ghost use Rattle.page_sections.specs.ValueSection.{bin_bar, bin_bars, code_bar, code_bars};

use crate::own_bar::{OwnBar, pair_bar};
use edit_model::Name;
use foundation::OutOfMemory;
use page_counts::{Bins, CodeCounts, decimal_text};
use release_figures::NumberValues;
use std::alloc::Global;

/// A bar for each bin of a numerical field, with the counts before and after; none where there are no
/// bins.
pub(crate) fn bin_bars(alloc: Global, numbers: &NumberValues) -> Result<Vec<OwnBar>, OutOfMemory>
    ensures { IfOk result (λ bars. map bar_parts bars.items ≡ bin_bars numbers.now.bins numbers.now) }
{
    match &numbers.bins {
        Some(bins) => bars_of(alloc, bins, numbers),
        None => Ok(Vec::new(alloc)),
    }
}

// A bar for each of these bins, in order, with the counts before and after.
fn bars_of(alloc: Global, bins: &Bins, numbers: &NumberValues) -> Result<Vec<OwnBar>, OutOfMemory>
    ensures { IfOk result (λ bars. map bar_parts bars.items ≡ bin_bars (Some bins.now) numbers.now) }
{
    let mut bars = Vec::new(alloc);
    for i in 0..bins.count() {
        bars.push(bin_bar(alloc, bins, numbers, i)?)?;
    }
    Ok(bars)
}

// The bar of bin `i`, from 0: its label is where the bin begins, and its numbers are how many values it has
// before and after.
fn bin_bar(
    alloc: Global,
    bins: &Bins,
    numbers: &NumberValues,
    i: u32,
) -> Result<OwnBar, OutOfMemory>
    requires { i ≤ 20 }
    ensures { IfOk result (λ bar. bar_parts bar ≡ bin_bar bins.now numbers.now i) }
{
    let label = decimal_text(alloc, bins.low(i))?;
    let before = count_at(numbers.before.counts.as_slice(), i as usize);
    let after = count_at(numbers.after.counts.as_slice(), i as usize);
    pair_bar(alloc, &label, before, after)
}

/// A bar for each code of a categorical field, and then one for the values that are none. `names` are
/// the codes.
pub(crate) fn code_bars(
    alloc: Global,
    names: &[Name],
    before: &CodeCounts,
    after: &CodeCounts,
) -> Result<Vec<OwnBar>, OutOfMemory>
    ensures { IfOk result (λ bars. map bar_parts bars.items ≡ code_bars names.now before.now after.now) }
{
    let mut bars = Vec::new(alloc);
    for i in 0..names.len() {
        bars.push(code_bar(alloc, names, before, after, i)?)?;
    }
    bars.push(pair_bar(alloc, b"no value", before.none, after.none)?)?;
    Ok(bars)
}

// The bar of code `i`, from 0: its name, and how many values it has before and after.
fn code_bar(
    alloc: Global,
    names: &[Name],
    before: &CodeCounts,
    after: &CodeCounts,
    i: usize,
) -> Result<OwnBar, OutOfMemory>
    requires { i < length names.now }
    ensures { IfOk result (λ bar. bar_parts bar ≡ code_bar names.now before.now after.now i) }
{
    let first = count_at(before.by_code.as_slice(), i);
    let second = count_at(after.by_code.as_slice(), i);
    pair_bar(alloc, names[i].as_bytes(), first, second)
}

// The count of the bin or code `i`, from 0, and 0 where there is no such count.
fn count_at(counts: &[usize], i: usize) -> usize
    ensures { result ≡ slice_index counts.now i }
{
    match counts.get(i) {
        Some(count) => *count,
        None => 0,
    }
}
