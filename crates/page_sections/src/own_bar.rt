//! Bars that own their labels and numbers, and their figures: the sections make such bars, and page_figures
//! draws them. In contracts, `bar_parts` is what definitions see of a bar, and `added` says what content is
//! put last in the page.
ghost use Rattle.std.specs.Prelude.{◌≡◌, IfOk, OnOk, map};
ghost use Rattle.page_markup.specs.OpenPages.{added};
ghost use Rattle.page_figures.specs.Drawings.{figure_parts, parts_of};
ghost use Rattle.page_sections.specs.Sections.{bars_content, count_bar, histogram_content, bar_parts, pair_bar, size_bar};

use foundation::OutOfMemory;
use page_counts::SizeCount;
use page_figures::{Bar, Figure, push_bars, push_histogram};
use page_markup::PageWriter;
use std::alloc::Global;

/// A bar, or a bin of a histogram: what it is called, and its numbers, one for each series.
#[derive(Drop)]
pub(crate) struct OwnBar {
    pub label: Vec<u8>,
    pub parts: Vec<u64>,
}

/// A bar with this label and one number.
pub(crate) fn count_bar(alloc: Global, label: &[u8], count: usize) -> Result<OwnBar, OutOfMemory>
    ensures { IfOk result (λ bar. bar_parts bar ≡ count_bar label.now count) }
{
    Ok(OwnBar {
        label: Vec::from_slice(alloc, label)?,
        parts: vec![in alloc; count as u64]?,
    })
}

/// A bar with this label and two numbers: a count before and after.
pub(crate) fn pair_bar(
    alloc: Global,
    label: &[u8],
    before: usize,
    after: usize,
) -> Result<OwnBar, OutOfMemory>
    ensures { IfOk result (λ bar. bar_parts bar ≡ pair_bar label.now before after) }
{
    Ok(OwnBar {
        label: Vec::from_slice(alloc, label)?,
        parts: vec![in alloc; before as u64, after as u64]?,
    })
}

/// A bar for each of these sizes, in order, with how many have it.
pub(crate) fn size_bars(alloc: Global, counts: &[SizeCount]) -> Result<Vec<OwnBar>, OutOfMemory>
    ensures { IfOk result (λ bars. map bar_parts bars.items ≡ map size_bar counts.now) }
{
    let mut bars = Vec::new(alloc);
    for count in counts {
        bars.push(size_bar(alloc, *count)?)?;
    }
    Ok(bars)
}

// The bar of a size: the size is its label, and how many have it is its number.
fn size_bar(alloc: Global, count: SizeCount) -> Result<OwnBar, OutOfMemory>
    ensures { IfOk result (λ bar. bar_parts bar ≡ size_bar count) }
{
    let size = count.size;
    let label = format!(in alloc; "{size}")?;
    count_bar(alloc, label.as_bytes(), count.count)
}

/// Adds bars that lie one below the other, and the table of their numbers. `series` are the names of
/// their parts.
pub(crate) fn push_own_bars(
    alloc: Global,
    page: &mut PageWriter,
    figure: &Figure,
    series: &[&[u8]],
    bars: &[OwnBar],
) -> Result<(), OutOfMemory>
    ensures { OnOk result (page.new ≡ added
        (bars_content (figure_parts figure.now) (map (λ s. s.now) series.now) (map bar_parts bars.now)) page.old) }
{
    let bars = lend_bars(alloc, bars)?;
    push_bars(alloc, page, figure, series, &bars)
}

/// Adds a histogram, and the table of its numbers: for each bin upright bars side by side. `series` are the
/// names of the bars of a bin.
pub(crate) fn push_own_histogram(
    alloc: Global,
    page: &mut PageWriter,
    figure: &Figure,
    series: &[&[u8]],
    bins: &[OwnBar],
) -> Result<(), OutOfMemory>
    ensures { OnOk result (page.new ≡ added
        (histogram_content (figure_parts figure.now) (map (λ s. s.now) series.now) (map bar_parts bins.now)) page.old) }
{
    let bins = lend_bars(alloc, bins)?;
    push_histogram(alloc, page, figure, series, &bins)
}

// The same bars as figures take them: their labels and numbers are lent, and not copied.
fn lend_bars(alloc: Global, bars: &[OwnBar]) -> Result<Vec<Bar<'_>>, OutOfMemory>
    ensures { IfOk result (λ lent. map parts_of lent.items ≡ map bar_parts bars.now) }
{
    let mut lent = Vec::new(alloc);
    for bar in bars {
        lent.push(Bar {
            label: &bar.label,
            parts: &bar.parts,
        })?;
    }
    Ok(lent)
}
