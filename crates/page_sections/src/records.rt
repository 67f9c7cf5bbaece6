//! The section on what became of the records. In contracts, `added` says what content is put last in the
//! page's innermost open element, and `bar_parts` is what definitions see of a bar.
ghost use Rattle.std.specs.Prelude.{◌≡◌, ◌++◌, IfOk, OnOk, map};
ghost use Rattle.page_markup.specs.OpenPages.{added};
ghost use Rattle.page_sections.specs.RecordSection.{cause_bars, record_bars, record_section};
ghost use Rattle.page_sections.specs.Sections.{bar_parts};

use crate::own_bar::{OwnBar, count_bar, push_own_bars};
use crate::section::open_section;
use foundation::OutOfMemory;
use page_counts::RecordCounts;
use page_figures::Figure;
use page_markup::PageWriter;
use std::alloc::Global;

const FIGURE: Figure = Figure {
    id: 1,
    title: b"Records by what became of them",
    description: b"A bar for the clean records, one for the changed ones, and one for each cause by which records were left out.",
    subject: b"record",
};

const NOTE: &[u8] =
    b"A record that is neither clean nor changed was left out, for the cause that is named.";

/// Adds the section on what became of the records.
pub(crate) fn push_records(
    alloc: Global,
    page: &mut PageWriter,
    counts: &RecordCounts,
) -> Result<(), OutOfMemory>
    ensures { OnOk result (page.new ≡ added (record_section counts.now) page.old) }
{
    let bars = record_bars(alloc, counts)?;
    open_section(page, b"Records", NOTE)?;
    push_own_bars(alloc, page, &FIGURE, &[b"records"], &bars)?;
    page.close()
}

// A bar for the clean records, one for the changed ones, and one for each cause by which records were
// left out.
fn record_bars(alloc: Global, counts: &RecordCounts) -> Result<Vec<OwnBar>, OutOfMemory>
    ensures { IfOk result (λ bars. map bar_parts bars.items ≡ record_bars counts.now) }
{
    let clean = count_bar(alloc, b"clean", counts.clean)?;
    let changed = count_bar(alloc, b"changed", counts.changed)?;
    let mut bars = vec![in alloc; clean, changed]?;
    push_cause(alloc, &mut bars, b"budget", counts.budget)?;
    push_cause(alloc, &mut bars, b"overflow", counts.overflow)?;
    push_cause(alloc, &mut bars, b"contradictory", counts.contradictory)?;
    push_cause(alloc, &mut bars, b"nolast", counts.no_last)?;
    push_cause(alloc, &mut bars, b"nocorrection", counts.no_correction)?;
    Ok(bars)
}

// Appends the bar of the cause `word`, by which `count` records were left out. Nothing is appended where
// there are none.
fn push_cause(
    alloc: Global,
    bars: &mut Vec<OwnBar>,
    word: &[u8],
    count: usize,
) -> Result<(), OutOfMemory>
    ensures { OnOk result (map bar_parts bars.new.items ≡ map bar_parts bars.old.items ++ cause_bars word.now count) }
{
    if count != 0 {
        bars.push(count_bar(alloc, word, count)?)?;
    }
    Ok(())
}
