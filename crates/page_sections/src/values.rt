//! The section on the values of the fields before and after. In contracts, `added` says what content is put
//! last in the page's innermost open element, and `bar_parts` is what definitions see of a bar. `i` is
//! everywhere the number of a field, from 0.
ghost use Rattle.std.specs.Prelude.{◌≡◌, ◌++◌, codes, IfOk, OnOk, map, slice_get};
ghost use Rattle.edit_language.specs.Meaning.{field_codes, kind_codes};
ghost use Rattle.page_markup.specs.OpenPages.{added};
ghost use Rattle.page_figures.specs.Sums.{plus};
ghost use Rattle.page_sections.specs.Sections.{histogram_content, bar_parts};
ghost use Rattle.page_sections.specs.ValueSection.{bin_description, code_description, field_values, numbers_content, shown_values};
ghost use Rattle.page_sections.specs.ValueSection.{value_figure, value_section, value_series, values_from};

use crate::fields::name_at;
use crate::own_bar::{OwnBar, push_own_histogram};
use crate::section::open_section;
use crate::totals::push_totals;
use crate::value_bars::{bin_bars, code_bars};
use edit_model::{Field, Kind, Name};
use foundation::OutOfMemory;
use page_figures::{Figure, push_words};
use page_markup::{PageWriter, Tag};
use release_figures::{FieldValues, NumberValues};
use std::alloc::Global;

const NOTE: &[u8] = b"The released records alone, as they came and as they were released.";

const BINS: &[u8] =
    b"Two upright bars for each bin: how many values were in it before, and how many are after. A bin is named by its lower end.";

const CODES: &[u8] =
    b"Two upright bars for each code: how many values it had before, and how many it has after.";

const SERIES: &[&[u8]] = &[b"before", b"after"];

/// Adds the section on the values of the fields before and after.
pub(crate) fn push_values(
    alloc: Global,
    page: &mut PageWriter,
    fields: &[Field],
    values: &[FieldValues],
) -> Result<(), OutOfMemory>
    ensures { OnOk result (page.new ≡ added (value_section fields.now values.now) page.old) }
{
    open_section(page, b"Values before and after", NOTE)?;
    push_fields(alloc, page, fields, values)?;
    page.close()
}

// Adds the name of each field, and what is shown of it, in declared order.
fn push_fields(
    alloc: Global,
    page: &mut PageWriter,
    fields: &[Field],
    values: &[FieldValues],
) -> Result<(), OutOfMemory>
    ensures { OnOk result (page.new ≡ added (values_from fields.now 0 values.now) page.old) }
{
    for (i, of_field) in values.iter().enumerate() {
        push_field(alloc, page, fields, i, of_field)?;
    }
    Ok(())
}

// Adds the name of a field as a heading, and what is shown of it.
fn push_field(
    alloc: Global,
    page: &mut PageWriter,
    fields: &[Field],
    i: usize,
    values: &FieldValues,
) -> Result<(), OutOfMemory>
    ensures { OnOk result (page.new ≡ added (field_values fields.now i values.now) page.old) }
{
    push_words(page, Tag::Heading3, &[], name_at(fields, i))?;
    push_shown_values(alloc, page, fields, i, values)
}

// Adds what is shown of a field: bins and totals of a numerical one, or the codes of a categorical one.
fn push_shown_values(
    alloc: Global,
    page: &mut PageWriter,
    fields: &[Field],
    i: usize,
    values: &FieldValues,
) -> Result<(), OutOfMemory>
    ensures { OnOk result (page.new ≡ added (shown_values fields.now i values.now) page.old) }
{
    let name = name_at(fields, i);
    match values {
        FieldValues::Numbers { numbers } => push_numbers(alloc, page, name, i, numbers),
        FieldValues::Codes { before, after } => {
            let bins = code_bars(alloc, codes_at(fields, i), before, after)?;
            push_codes(alloc, page, name, i, &bins)
        }
    }
}

// Adds what is shown of a numerical field: its bins, and then its totals.
fn push_numbers(
    alloc: Global,
    page: &mut PageWriter,
    name: &[u8],
    i: usize,
    numbers: &NumberValues,
) -> Result<(), OutOfMemory>
    ensures { OnOk result (page.new ≡ added (numbers_content name.now i numbers.now) page.old) }
{
    let bins = bin_bars(alloc, numbers)?;
    push_bins(alloc, page, name, i, &bins)?;
    push_totals(alloc, page, numbers)
}

// Adds the histogram of a numerical field: the bins, each named by its lower end.
fn push_bins(
    alloc: Global,
    page: &mut PageWriter,
    name: &[u8],
    i: usize,
    bins: &[OwnBar],
) -> Result<(), OutOfMemory>
    ensures { OnOk result (page.new ≡ added
        (histogram_content (value_figure name.now i bin_description (codes "from")) value_series (map bar_parts bins.now)) page.old) }
{
    let title = title_of(alloc, name)?;
    let figure = Figure {
        id: id_of(i),
        title: &title,
        description: BINS,
        subject: b"from",
    };
    push_own_histogram(alloc, page, &figure, SERIES, bins)
}

// Adds the histogram of a categorical field: a bin for each code, and one for the values that are none.
fn push_codes(
    alloc: Global,
    page: &mut PageWriter,
    name: &[u8],
    i: usize,
    bins: &[OwnBar],
) -> Result<(), OutOfMemory>
    ensures { OnOk result (page.new ≡ added
        (histogram_content (value_figure name.now i code_description (codes "code")) value_series (map bar_parts bins.now)) page.old) }
{
    let title = title_of(alloc, name)?;
    let figure = Figure {
        id: id_of(i),
        title: &title,
        description: CODES,
        subject: b"code",
    };
    push_own_histogram(alloc, page, &figure, SERIES, bins)
}

// The title of a field's figure: `Values of ` and the name.
fn title_of(alloc: Global, name: &[u8]) -> Result<Vec<u8>, OutOfMemory>
    ensures { IfOk result (λ title. title.items ≡ codes "Values of " ++ name.now) }
{
    let mut title = Vec::from_slice(alloc, b"Values of ")?;
    title.extend_from_slice(name)?;
    Ok(title)
}

// The number of a field's figure, by which a browser tells figures apart. It is from 10 on, since the other
// figures of the page have lower ones.
fn id_of(i: usize) -> u64
    ensures { result ≡ plus i 10 }
{
    (i as u64).saturating_add(10)
}

// The codes of the field of this number, none where there is no such field or it is numerical.
fn codes_at(fields: &[Field], i: usize) -> &[Name]
    ensures { result.now ≡ field_codes (slice_get fields.now i) }
{
    match fields.get(i) {
        Some(field) => codes_of(&field.kind),
        None => &[],
    }
}

// The codes of a field of this kind; none where it is numerical.
fn codes_of(kind: &Kind) -> &[Name]
    ensures { result.now ≡ kind_codes kind.now }
{
    match kind {
        Kind::Code { codes } => codes.as_slice(),
        Kind::Number { .. } => &[],
    }
}
