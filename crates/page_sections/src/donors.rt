//! The section on how often donors gave. In contracts, `added` says what content is put last in the
//! page's innermost open element.
ghost use Rattle.std.specs.Prelude.{◌≡◌, OnOk};
ghost use Rattle.page_markup.specs.OpenPages.{added};
ghost use Rattle.page_sections.specs.DonorSection.{donor_section};

use crate::own_bar::{push_own_histogram, size_bars};
use crate::section::open_section;
use foundation::OutOfMemory;
use page_counts::SizeCount;
use page_figures::Figure;
use page_markup::PageWriter;
use std::alloc::Global;

const FIGURE: Figure = Figure {
    id: 5,
    title: b"Donors by how many records they gave to",
    description: b"An upright bar for each number of records given to: how many donors gave to so many.",
    subject: b"given to",
};

const NOTE: &[u8] = b"A donor is a record that gave values to others.";

/// Adds the section on how often donors gave: an upright bar for each of these numbers of records.
pub(crate) fn push_donors(
    alloc: Global,
    page: &mut PageWriter,
    gifts: &[SizeCount],
) -> Result<(), OutOfMemory>
    ensures { OnOk result (page.new ≡ added (donor_section gifts.now) page.old) }
{
    let bins = size_bars(alloc, gifts)?;
    open_section(page, b"Donors", NOTE)?;
    push_own_histogram(alloc, page, &FIGURE, &[b"donors"], &bins)?;
    page.close()
}
