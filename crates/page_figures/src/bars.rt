//! The drawing of horizontal bars, one below the other, each of parts that stand side by side. Places are
//! in units from the left and from above. In contracts, `added` says what content is put last in the page's
//! innermost open element, and `parts_of` is what definitions see of a bar.
ghost use Rattle.std.specs.Prelude.{◌≡◌, [], map, OnOk};
ghost use Rattle.page_markup.specs.OpenPages.{added};
ghost use Rattle.page_markup.specs.Trees.Content.{Element, Nothing};
ghost use Rattle.page_markup.specs.declared.tag.Tag.TheVariants.{Group};
ghost use Rattle.page_figures.specs.Drawings.{bar_content, bar_drawing, bars_below, figure_parts, parts_content, parts_of};
ghost use Rattle.page_figures.specs.declared.colour.Colour.TheVariants.{First};

use crate::colour::Colour;
use crate::drawing::{Place, open_drawing, push_line, push_rectangle};
use crate::elements::push_words;
use crate::figure::{Bar, Figure};
use crate::label::{push_label, push_number_at};
use crate::scale::{scaled_length, total_of};
use foundation::OutOfMemory;
use page_markup::{PageWriter, Tag};
use std::alloc::Global;

// Labels end at 216, bars begin at `START`, the longest has `LONGEST` units, and totals end at 784. A
// bar takes `PITCH` units of height. Of a label at most `LETTERS` bytes are shown.
const START: u64 = 224;

const LONGEST: u64 = 480;

const PITCH: u64 = 26;

const LETTERS: usize = 16;

/// Adds the drawing of the bars, to the scale of the total `greatest`. A bar of a greater total has a
/// scale of its own, and is as long as the longest. The sum of others may be such a bar.
pub(crate) fn push_bar_drawing(
    alloc: Global,
    page: &mut PageWriter,
    figure: &Figure,
    bars: &[Bar],
    greatest: u64,
) -> Result<(), OutOfMemory>
    ensures { OnOk result (page.new ≡ added (bar_drawing (figure_parts figure.now) greatest (map parts_of bars.now)) page.old) }
{
    let height = (bars.len() as u64).saturating_mul(PITCH);
    let view = format!(in alloc; "0 0 784 {height}")?;
    open_drawing(alloc, page, figure, view.as_bytes())?;
    push_bars_below(page, bars, greatest)?;
    push_line(page, b"axis", START, 0, START, height)?;
    page.close()
}

// Adds the bars, from above, each `PITCH` units below the one before, to the scale of the total
// `greatest`.
fn push_bars_below(page: &mut PageWriter, bars: &[Bar], greatest: u64) -> Result<(), OutOfMemory>
    ensures { OnOk result (page.new ≡ added
        (Element Group [] (bars_below greatest 0 (map parts_of bars.now)) Nothing) page.old) }
{
    page.open(Tag::Group, &[])?;
    let mut y = 0_u64;
    for bar in bars {
        push_bar(page, *bar, greatest, y)?;
        y = y.saturating_add(PITCH);
    }
    page.close()
}

// Adds a bar with its label and its total, to the scale of the total `greatest`; `y` is where it begins
// above. A mouse that rests on it shows the whole label.
fn push_bar(page: &mut PageWriter, bar: Bar, greatest: u64, y: u64) -> Result<(), OutOfMemory>
    ensures { OnOk result (page.new ≡ added (bar_content greatest y (parts_of bar.entry) Nothing) page.old) }
{
    page.open(Tag::Group, &[])?;
    push_words(page, Tag::Title, &[], bar.label)?;
    let line = y.saturating_add(18);
    push_label(page, 216, line, b"end", bar.label, LETTERS)?;
    let total = total_of(bar.parts);
    push_parts(page, bar.parts, greatest.max(total), y)?;
    push_number_at(page, 784, line, total)?;
    page.close()
}

// Adds the parts of a bar, from the left, each in the next colour. `greatest` is the number for which a
// bar has `LONGEST` units, and `y` is where the bar begins above.
fn push_parts(
    page: &mut PageWriter,
    parts: &[u64],
    greatest: u64,
    y: u64,
) -> Result<(), OutOfMemory>
    ensures { OnOk result (page.new ≡ added
        (Element Group [] (parts_content greatest y 224 First parts.now) Nothing) page.old) }
{
    page.open(Tag::Group, &[])?;
    let mut x = START;
    let mut colour = Colour::First;
    for part in parts {
        let width = scaled_length(*part, greatest, LONGEST);
        let place = Place {
            x,
            y: y.saturating_add(4),
            width,
            height: 18,
        };
        push_rectangle(page, colour, place)?;
        x = x.saturating_add(width);
        colour = colour.next();
    }
    page.close()
}
