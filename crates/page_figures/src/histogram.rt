//! The drawing of upright bars side by side, over the same bins. Places are in units from the left and from
//! above. In contracts, `added` says what content is put last in the page's innermost open element, and
//! `parts_of` is what definitions see of a bin.
ghost use Rattle.std.specs.Prelude.{◌≡◌, [], map, OnOk};
ghost use Rattle.page_markup.specs.OpenPages.{added};
ghost use Rattle.page_markup.specs.Trees.Content.{Element, Nothing};
ghost use Rattle.page_markup.specs.declared.tag.Tag.TheVariants.{Group};
ghost use Rattle.page_figures.specs.Drawings.{bin_content, bin_drawing, bins_content, figure_parts, layout_of, level_content};
ghost use Rattle.page_figures.specs.Drawings.{next_wait, parts_of, tick_content, uprights};
ghost use Rattle.page_figures.specs.declared.colour.Colour.TheVariants.{First};

use crate::colour::Colour;
use crate::drawing::{Place, open_drawing, push_line, push_rectangle};
use crate::elements::push_words;
use crate::figure::{Bar, Figure};
use crate::label::{push_label, push_number_at};
use crate::scale::{longest_label, most_parts, scaled_length};
use foundation::OutOfMemory;
use page_markup::{PageWriter, Tag};
use std::alloc::Global;

// Bars stand on `GROUND`, and the greatest has `GREATEST` units. Bins begin at 88, and take 640 units
// together. A letter takes 14 units, and of a label at most `LETTERS` bytes are shown.
const GROUND: u64 = 264;

const GREATEST: u64 = 240;

const LETTERS: usize = 12;

/// Adds the drawing of the bins, to the scale of the number `greatest`. It has a line at that number,
/// the bins, and the line on which they stand.
pub(crate) fn push_bin_drawing(
    alloc: Global,
    page: &mut PageWriter,
    figure: &Figure,
    bins: &[Bar],
    greatest: u64,
) -> Result<(), OutOfMemory>
    ensures { OnOk result (page.new ≡ added (bin_drawing (figure_parts figure.now) greatest (map parts_of bins.now)) page.old) }
{
    open_drawing(alloc, page, figure, b"0 0 784 296")?;
    push_level(page, b"grid", greatest, GROUND - GREATEST)?;
    push_bins(page, bins, Layout::of(bins, greatest))?;
    push_level(page, b"axis", 0, GROUND)?;
    page.close()
}

// Adds a horizontal line of a class of the style sheet, `y` units from above, with the number to its left.
fn push_level(page: &mut PageWriter, class: &[u8], number: u64, y: u64) -> Result<(), OutOfMemory>
    ensures { OnOk result (page.new ≡ added (level_content class.now number y Nothing) page.old) }
{
    page.open(Tag::Group, &[])?;
    push_line(page, class, 88, y, 784, y)?;
    push_number_at(page, 80, y, number)?;
    page.close()
}

/// What all bins of a drawing share.
#[derive(Clone, Copy)]
pub(crate) struct Layout {
    /// The number to whose scale they are drawn.
    pub greatest: u64,
    /// The width of a bin.
    pub pitch: u64,
    /// How far from its left end the middle of its bars is.
    pub middle: u64,
    /// The width of a bar.
    pub width: u64,
    /// How many bins a label takes: the first of these has it, and the others have none.
    pub step: u64,
}

impl Layout {
    // The layout of these bins. A bin has its share of 640 units, but from 1 to 80, and its bars have
    // four fifths of that. A label takes so many bins that at least 9 units are free behind it. No
    // memory.
    fn of(bins: &[Bar], greatest: u64) -> Layout
        ensures { result ≡ layout_of greatest (map parts_of bins.now) }
    {
        let pitch = (640 / (bins.len() as u64).max(1)).clamp(1, 80);
        let letters = longest_label(bins).min(LETTERS) as u64;
        Layout {
            greatest,
            pitch,
            middle: pitch * 2 / 5,
            width: (pitch * 4 / 5 / (most_parts(bins) as u64).max(1)).max(1),
            step: 1 + (letters * 14 + 9) / pitch,
        }
    }
}

// Adds the bins, from the left; the first one has a label.
fn push_bins(page: &mut PageWriter, bins: &[Bar], layout: Layout) -> Result<(), OutOfMemory>
    ensures { OnOk result (page.new ≡ added
        (Element Group [] (bins_content layout 88 0 (map parts_of bins.now)) Nothing) page.old) }
{
    page.open(Tag::Group, &[])?;
    let mut x = 88_u64;
    let mut wait = 0;
    for bin in bins {
        push_bin(page, *bin, layout, x, wait)?;
        x = x.saturating_add(layout.pitch);
        wait = next_wait(wait, layout.step);
    }
    page.close()
}

// How many bins come before the next that has a label, where it was `wait` at the bin before. Behind a
// bin with a label it is `step - 1`. No memory.
fn next_wait(wait: u64, step: u64) -> u64
    ensures { result ≡ next_wait step wait }
{
    if wait == 0 {
        step.saturating_sub(1)
    } else {
        wait - 1
    }
}

// Adds a bin whose left end is at `x`. It has its label where `wait` is 0, and else none. A mouse that rests
// on the bin shows the whole label.
fn push_bin(
    page: &mut PageWriter,
    bin: Bar,
    layout: Layout,
    x: u64,
    wait: u64,
) -> Result<(), OutOfMemory>
    ensures { OnOk result (page.new ≡ added (bin_content layout x wait (parts_of bin.entry) Nothing) page.old) }
{
    page.open(Tag::Group, &[])?;
    push_words(page, Tag::Title, &[], bin.label)?;
    push_uprights(page, bin.parts, layout, x)?;
    push_tick(page, bin.label, x.saturating_add(layout.middle), wait)?;
    page.close()
}

// Adds the label of a bin, with its middle at `x`, where `wait` is 0, and else nothing.
fn push_tick(page: &mut PageWriter, label: &[u8], x: u64, wait: u64) -> Result<(), OutOfMemory>
    ensures { OnOk result (page.new ≡ added (tick_content label.now x wait) page.old) }
{
    match wait {
        0 => push_label(page, x, 288, b"middle", label, LETTERS),
        _ => Ok(()),
    }
}

// Adds a group with the bars of a bin, side by side from the left end `start` on: one for each of `parts`, the
// bin's counts, each in the next colour. A count of `layout.greatest` is drawn at full height, and one of 0
// as a bar without height.
fn push_uprights(
    page: &mut PageWriter,
    parts: &[u64],
    layout: Layout,
    start: u64,
) -> Result<(), OutOfMemory>
    ensures { OnOk result (page.new ≡ added
        (Element Group [] (uprights layout.greatest layout.width start First parts.now) Nothing) page.old) }
{
    page.open(Tag::Group, &[])?;
    let mut x = start;
    let mut colour = Colour::First;
    for part in parts {
        let height = scaled_length(*part, layout.greatest, GREATEST);
        let place = Place {
            x,
            y: GROUND.saturating_sub(height),
            width: layout.width,
            height,
        };
        push_rectangle(page, colour, place)?;
        x = x.saturating_add(layout.width);
        colour = colour.next();
    }
    page.close()
}
