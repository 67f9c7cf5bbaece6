//! The section on how often fields were changed. In contracts, `added` says what content is put last in the
//! page's innermost open element, and `bar_parts` is what definitions see of a bar.
ghost use Rattle.std.specs.Prelude.{◌≡◌, IfOk, OnOk, map, slice_get};
ghost use Rattle.edit_language.specs.Printing.{name_at};
ghost use Rattle.page_markup.specs.OpenPages.{added};
ghost use Rattle.page_sections.specs.FieldSection.{change_parts, field_bar, field_section};
ghost use Rattle.page_sections.specs.Sections.{bar_parts};

use crate::own_bar::{OwnBar, push_own_bars};
use crate::section::open_section;
use edit_model::Field;
use foundation::OutOfMemory;
use page_counts::{Amount, FieldCount};
use page_figures::Figure;
use page_markup::PageWriter;
use release_figures::ReleaseFigures;
use std::alloc::Global;

const FIGURE: Figure = Figure {
    id: 2,
    title: b"Changes of each field",
    description: b"A bar for each field, that with the most changes first, in parts by how the new values were found.",
    subject: b"field",
};

const NOTE: &[u8] =
    b"A new value is that of a donor, or the nearest to it, or to 0, that the rules allow, or 0 or the first code.";

const SERIES: &[&[u8]] = &[b"from a donor", b"nearest allowed", b"default"];

/// Adds the section on how often fields were changed.
pub(crate) fn push_fields(
    alloc: Global,
    page: &mut PageWriter,
    fields: &[Field],
    figures: &ReleaseFigures,
) -> Result<(), OutOfMemory>
    ensures { OnOk result (page.new ≡ added (field_section fields.now figures.now) page.old) }
{
    let amounts = figures.fields_by_changes.as_slice();
    let bars = field_bars(alloc, fields, figures.fields.as_slice(), amounts)?;
    open_section(page, b"Fields", NOTE)?;
    push_own_bars(alloc, page, &FIGURE, SERIES, &bars)?;
    page.close()
}

// A bar for each of these amounts, in their order: an amount has the number of a field and how often it was
// changed. `counts` has how often each field was changed in each way, in declared order.
fn field_bars(
    alloc: Global,
    fields: &[Field],
    counts: &[FieldCount],
    amounts: &[Amount],
) -> Result<Vec<OwnBar>, OutOfMemory>
    ensures { IfOk result (λ bars. map bar_parts bars.items ≡ map (field_bar fields.now counts.now) amounts.now) }
{
    let mut bars = Vec::new(alloc);
    for amount in amounts {
        bars.push(field_bar(alloc, fields, counts, *amount)?)?;
    }
    Ok(bars)
}

// The bar of the field whose number the amount has: its name, and how often it was changed in each way.
fn field_bar(
    alloc: Global,
    fields: &[Field],
    counts: &[FieldCount],
    amount: Amount,
) -> Result<OwnBar, OutOfMemory>
    ensures { IfOk result (λ bar. bar_parts bar ≡ field_bar fields.now counts.now amount) }
{
    let number = amount.number as usize;
    Ok(OwnBar {
        label: Vec::from_slice(alloc, name_at(fields, number))?,
        parts: change_parts(alloc, counts, number)?,
    })
}

/// The name of the field of this number, from 0, and no byte where there is no such field. No memory.
pub(crate) fn name_at(fields: &[Field], number: usize) -> &[u8]
    ensures { result.now ≡ name_at fields.now number }
{
    match fields.get(number) {
        Some(field) => field.name.as_bytes(),
        None => b"",
    }
}

// How often the field of this number, from 0, was changed: with a donor's value, with the nearest one that
// the rules allow, and by default. No parts where there is no such field.
fn change_parts(
    alloc: Global,
    counts: &[FieldCount],
    number: usize,
) -> Result<Vec<u64>, OutOfMemory>
    ensures { IfOk result (λ parts. parts.items ≡ change_parts (slice_get counts.now number)) }
{
    match counts.get(number) {
        Some(count) => Ok(vec![in alloc;
            count.donor as u64,
            count.nearest as u64,
            count.default as u64,
        ]?),
        None => Ok(Vec::new(alloc)),
    }
}
