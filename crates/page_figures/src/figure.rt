//! Pictures with the tables of their numbers. In contracts, `added` says what content is put last in the
//! page's innermost open element. `figure_parts` and `parts_of` are what definitions see of a figure and
//! of a bar.
ghost use Rattle.std.specs.Prelude.{◌≡◌, IfOk, map, OnOk};
ghost use Rattle.page_markup.specs.OpenPages.{added};
ghost use Rattle.page_figures.specs.Drawings.{figure_parts, parts_of};
ghost use Rattle.page_figures.specs.Figures.{columns_of, drawing_content, entries_of, figure_content, has_totals};
ghost use Rattle.page_figures.specs.Figures.{numbers_content, picture_content, shown_content, summed_content};
ghost use Rattle.page_figures.specs.Tables.{entry_of};
ghost use Rattle.page_figures.specs.declared.figure.Form.TheVariants as form;

use crate::bars::push_bar_drawing;
use crate::elements::push_words;
use crate::histogram::push_bin_drawing;
use crate::legend::push_legend;
use crate::others::{bars_with, others_label, sums_of};
use crate::scale::{greatest_in, total_of};
use crate::table::{Cell, push_table};
use foundation::OutOfMemory;
use page_markup::{PageWriter, Tag};
use std::alloc::Global;

/// What a picture is called.
#[derive(Clone, Copy)]
pub struct Figure<'a> {
    /// A number that no other figure of the page has.
    pub id: u64,
    /// Its title, which is the caption of its table too.
    pub title: &'a [u8],
    /// What it shows, for those who hear the page read aloud.
    pub description: &'a [u8],
    /// What a bar stands for, as `field`: the head of the table's first column.
    pub subject: &'a [u8],
}

/// A bar of a picture, or a bin of a histogram.
#[derive(Clone, Copy)]
pub struct Bar<'a> {
    /// What it is called.
    pub label: &'a [u8],
    /// Its numbers, one for each series.
    pub parts: &'a [u64],
}

/// How the numbers of a bar stand in a picture.
#[derive(Clone, Copy)]
pub enum Form {
    /// One behind the other, in a bar that lies.
    Stacked,
    /// Side by side, each upright.
    Upright,
}

// The most bars that a picture has.
const MOST: usize = 64;

// What is said where bars are summed.
const NOTE: &[u8] =
    b"The others are summed in one bar, which may not be to scale. The table has them one by one.";

/// Adds a picture of bars that lie one below the other, each with a part for each of the `series`. The
/// table of their numbers follows, with the total of each bar. Where there are more than 64 bars, those
/// from the 64th on are summed in one; the table has them all. Where memory runs out, a part of it may
/// be in the page.
pub fn push_bars(
    alloc: Global,
    page: &mut PageWriter,
    figure: &Figure,
    series: &[&[u8]],
    bars: &[Bar],
) -> Result<(), OutOfMemory>
    ensures { OnOk result (page.new ≡ added
        (figure_content form.Stacked (figure_parts figure.now) (map (λ s. s.now) series.now) (map parts_of bars.now)) page.old) }
{
    push_figure(alloc, page, Form::Stacked, figure, series, bars)
}

/// Adds a histogram, with an upright bar for each of the `series` in each bin, and the table of their
/// numbers. Where there are more than 64 bins, those from the 64th on are summed in one; the table has
/// them all. Where memory runs out, a part of it may be in the page.
pub fn push_histogram(
    alloc: Global,
    page: &mut PageWriter,
    figure: &Figure,
    series: &[&[u8]],
    bins: &[Bar],
) -> Result<(), OutOfMemory>
    ensures { OnOk result (page.new ≡ added
        (figure_content form.Upright (figure_parts figure.now) (map (λ s. s.now) series.now) (map parts_of bins.now)) page.old) }
{
    push_figure(alloc, page, Form::Upright, figure, series, bins)
}

// Adds a figure of this form: its title, its picture, and the table of its numbers. `series` are the names of
// the numbers that each bar has.
fn push_figure(
    alloc: Global,
    page: &mut PageWriter,
    form: Form,
    figure: &Figure,
    series: &[&[u8]],
    bars: &[Bar],
) -> Result<(), OutOfMemory>
    ensures { OnOk result (page.new ≡ added
        (figure_content form (figure_parts figure.now) (map (λ s. s.now) series.now) (map parts_of bars.now)) page.old) }
{
    page.open(Tag::Figure, &[])?;
    push_words(page, Tag::FigureCaption, &[], figure.title)?;
    push_picture(alloc, page, form, figure, series, bars)?;
    push_figure_table(alloc, page, form, figure, series, bars)?;
    page.close()
}

// Adds the legend and the drawing, or the words `nothing to show` where there are no bars.
fn push_picture(
    alloc: Global,
    page: &mut PageWriter,
    form: Form,
    figure: &Figure,
    series: &[&[u8]],
    bars: &[Bar],
) -> Result<(), OutOfMemory>
    ensures { OnOk result (page.new ≡ added
        (picture_content form (figure_parts figure.now) (map (λ s. s.now) series.now) (map parts_of bars.now)) page.old) }
{
    if bars.is_empty() {
        return push_words(page, Tag::Paragraph, &[], b"nothing to show");
    }
    push_legend(page, series)?;
    push_shown_bars(alloc, page, form, figure, bars)
}

// Adds the drawing of the bars. Where there are more than `MOST`, a note is added first. Only the first 63
// are drawn one by one then, and all others as one bar of their sums.
fn push_shown_bars(
    alloc: Global,
    page: &mut PageWriter,
    form: Form,
    figure: &Figure,
    bars: &[Bar],
) -> Result<(), OutOfMemory>
    ensures { OnOk result (page.new ≡ added (shown_content form (figure_parts figure.now) (map parts_of bars.now)) page.old) }
{
    if bars.len() <= MOST {
        return push_drawing(alloc, page, form, figure, bars, greatest_in(form, bars));
    }
    push_words(page, Tag::Paragraph, &[], NOTE)?;
    let (first, rest) = bars.split_at(MOST - 1);
    push_bars_and_sum(alloc, page, form, figure, first, rest)
}

// Adds the drawing of the bars `first`, and of one bar more, which has the sums of the bars `rest`. The scale
// is that of `first` alone.
fn push_bars_and_sum(
    alloc: Global,
    page: &mut PageWriter,
    form: Form,
    figure: &Figure,
    first: &[Bar],
    rest: &[Bar],
) -> Result<(), OutOfMemory>
    ensures { OnOk result (page.new ≡ added
        (summed_content form (figure_parts figure.now) (map parts_of first.now) (map parts_of rest.now)) page.old) }
{
    let label = others_label(alloc, rest.len())?;
    let sums = sums_of(alloc, rest)?;
    let others = Bar {
        label: &label,
        parts: &sums,
    };
    let bars = bars_with(alloc, first, others)?;
    push_drawing(alloc, page, form, figure, &bars, greatest_in(form, first))
}

// Adds the drawing of bars in this form, to the scale of the number `greatest`.
fn push_drawing(
    alloc: Global,
    page: &mut PageWriter,
    form: Form,
    figure: &Figure,
    bars: &[Bar],
    greatest: u64,
) -> Result<(), OutOfMemory>
    ensures { OnOk result (page.new ≡ added
        (drawing_content form (figure_parts figure.now) greatest (map parts_of bars.now)) page.old) }
{
    match form {
        Form::Stacked => push_bar_drawing(alloc, page, figure, bars, greatest),
        Form::Upright => push_bin_drawing(alloc, page, figure, bars, greatest),
    }
}

// Adds the table of a picture, a row for each bar. Totals stand in it where bars have several parts that
// are drawn as one bar.
fn push_figure_table(
    alloc: Global,
    page: &mut PageWriter,
    form: Form,
    figure: &Figure,
    series: &[&[u8]],
    bars: &[Bar],
) -> Result<(), OutOfMemory>
    ensures { OnOk result (page.new ≡ added
        (numbers_content form (figure_parts figure.now) (map (λ s. s.now) series.now) (map parts_of bars.now)) page.old) }
{
    let totals = has_totals(form, series.len());
    let columns = columns_of(alloc, figure.subject, series, totals)?;
    let mut rows = Vec::new(alloc);
    for bar in bars {
        rows.push(cells_of(alloc, bar, totals)?)?;
    }
    push_table(page, figure.title, &columns, &rows)
}

// Whether the table of a picture has totals, where there are this many `series`. No memory.
fn has_totals(form: Form, series: usize) -> bool
    ensures { result ≡ has_totals form series }
{
    match form {
        Form::Stacked => series > 1,
        Form::Upright => false,
    }
}

// The names of the table's columns: the subject, each series, and `total` where the table has totals.
fn columns_of<'a>(
    alloc: Global,
    subject: &'a [u8],
    series: &[&'a [u8]],
    totals: bool,
) -> Result<Vec<&'a [u8]>, OutOfMemory>
    ensures { IfOk result (λ columns.
        map (λ c. c.now) columns.items ≡ columns_of subject.now (map (λ s. s.now) series.now) totals) }
{
    let mut columns = vec![in alloc; subject]?;
    columns.extend_from_slice(series)?;
    if totals {
        columns.push(b"total")?;
    }
    Ok(columns)
}

// The cells of a bar's row: its label, its numbers, and their total where the table has totals.
fn cells_of<'a>(alloc: Global, bar: &Bar<'a>, totals: bool) -> Result<Vec<Cell<'a>>, OutOfMemory>
    ensures { IfOk result (λ cells. map entry_of cells.items ≡ entries_of totals (parts_of bar.now)) }
{
    let mut cells = vec![in alloc; Cell::Text(bar.label)]?;
    for part in bar.parts {
        cells.push(Cell::Number(*part))?;
    }
    if totals {
        cells.push(Cell::Number(total_of(bar.parts)))?;
    }
    Ok(cells)
}
