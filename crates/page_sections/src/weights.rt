//! The section on what the changes of records weigh. In contracts, `added` says what content is put last
//! in the page's innermost open element.
ghost use Rattle.std.specs.Prelude.{◌≡◌, OnOk};
ghost use Rattle.page_markup.specs.OpenPages.{added};
ghost use Rattle.page_sections.specs.WeightSection.{weight_section};

use crate::own_bar::{push_own_histogram, size_bars};
use crate::section::open_section;
use foundation::OutOfMemory;
use page_counts::SizeCount;
use page_figures::Figure;
use page_markup::PageWriter;
use std::alloc::Global;

const FIGURE: Figure = Figure {
    id: 4,
    title: b"Changed records by the weight of their changes",
    description: b"An upright bar for each weight that occurs: how many changed records have it.",
    subject: b"weight",
};

const NOTE: &[u8] =
    b"What the changes of a record weigh is the sum of the weights of its changed fields.";

/// Adds the section on what the changes of records weigh: an upright bar for each of these weights.
pub(crate) fn push_weights(
    alloc: Global,
    page: &mut PageWriter,
    weights: &[SizeCount],
) -> Result<(), OutOfMemory>
    ensures { OnOk result (page.new ≡ added (weight_section weights.now) page.old) }
{
    let bins = size_bars(alloc, weights)?;
    open_section(page, b"Weights of changes", NOTE)?;
    push_own_histogram(alloc, page, &FIGURE, &[b"records"], &bins)?;
    page.close()
}
