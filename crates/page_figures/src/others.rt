//! The sum of the bars that have no place in a picture, as one bar more. In contracts, `parts_of` is what
//! definitions see of a bar.
ghost use Rattle.std.specs.Prelude.{◌≡◌, ◌++◌, ◌∷◌, [], codes, get_or, IfOk, map};
ghost use Rattle.std.specs.Fmt.{decimal};
ghost use Rattle.page_figures.specs.Drawings.{parts_of};
ghost use Rattle.page_figures.specs.Figures.{sum_at, sums_of};

use crate::figure::Bar;
use crate::scale::most_parts;
use foundation::OutOfMemory;
use std::alloc::Global;

/// What the sum of `count` bars is called, such as `5 others`.
pub(crate) fn others_label(alloc: Global, count: usize) -> Result<Vec<u8>, OutOfMemory>
    ensures { IfOk result (λ label. label.items ≡ decimal count ++ codes " others") }
{
    Ok(format!(in alloc; "{count} others")?.into_bytes())
}

/// The sums of the numbers of these bars, one for each series; a bar that lacks one counts as 0 there.
pub(crate) fn sums_of(alloc: Global, bars: &[Bar]) -> Result<Vec<u64>, OutOfMemory>
    ensures { IfOk result (λ sums. sums.items ≡ sums_of (map parts_of bars.now)) }
{
    let mut sums = Vec::new(alloc);
    for place in 0..most_parts(bars) {
        sums.push(sum_at(bars, place))?;
    }
    Ok(sums)
}

/// A list of these bars, with the bar `more` behind them.
pub(crate) fn bars_with<'a>(
    alloc: Global,
    bars: &'a [Bar],
    more: Bar<'a>,
) -> Result<Vec<Bar<'a>>, OutOfMemory>
    ensures { IfOk result (λ all. map parts_of all.items ≡ map parts_of bars.now ++ parts_of more.entry ∷ []) }
{
    let mut all = Vec::new(alloc);
    for bar in bars {
        all.push(Bar {
            label: bar.label,
            parts: bar.parts,
        })?;
    }
    all.push(more)?;
    Ok(all)
}

// The sum of the numbers of the series at `place`, from 0; past 64 bits it is 2^64 - 1. No memory.
fn sum_at(bars: &[Bar], place: usize) -> u64
    ensures { result ≡ sum_at place (map parts_of bars.now) }
{
    let mut sum = 0_u64;
    for bar in bars {
        sum = sum.saturating_add(part_at(bar, place));
    }
    sum
}

// The bar's number of the series at `place`, from 0, and 0 where the bar has none. No memory.
fn part_at(bar: &Bar, place: usize) -> u64
    ensures { result ≡ get_or bar.now.parts.now place 0 }
{
    match bar.parts.get(place) {
        Some(part) => *part,
        None => 0,
    }
}
