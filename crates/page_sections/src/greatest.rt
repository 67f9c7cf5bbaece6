//! The section on the records whose changes weigh most, change by change. In contracts, `added` says
//! what content is put last in the page. `entry_of` is what definitions see of a cell, and `release_parts`
//! of a release. `numbers` are everywhere the numbers of the released records, from 0 and in order. An
//! amount has the number of a record, from 0, and what its changes weigh.
ghost use Rattle.std.specs.Prelude.{◌≡◌, ◌++◌, IfOk, OnOk, map};
ghost use Rattle.page_markup.specs.OpenPages.{added};
ghost use Rattle.page_figures.specs.Tables.{entry_of};
ghost use Rattle.page_sections.specs.GreatestSection.{change_row, greatest_rows, greatest_section};
ghost use Rattle.page_sections.specs.GreatestSection.{record_rows, rows_of_change, shown};
ghost use Rattle.release_figures.specs.Releases.{release_parts};

use crate::fields::name_at;
use crate::section::open_section;
use crate::sheet_text::released_text;
use foundation::OutOfMemory;
use page_counts::Amount;
use page_figures::{Cell, push_table};
use page_markup::PageWriter;
use reason_lines::Change;
use release_figures::{Release, ReleaseFigures, text_in};
use std::alloc::Global;

const NOTE: &[u8] =
    b"A row for each changed field, with the bytes that were read and those that were released.";

const COLUMNS: &[&[u8]] = &[b"record", b"weight", b"field", b"before", b"after"];

/// Adds the section on the records whose changes weigh most: a table with a row for each of their
/// changes.
pub(crate) fn push_greatest(
    alloc: Global,
    page: &mut PageWriter,
    release: &Release,
    figures: &ReleaseFigures,
) -> Result<(), OutOfMemory>
    ensures { OnOk result (page.new ≡ added (greatest_section (release_parts release.now) figures.now) page.old) }
{
    let numbers = figures.released.as_slice();
    let rows = greatest_rows(alloc, release, numbers, figures.greatest.as_slice())?;
    open_section(page, b"Greatest changes", NOTE)?;
    push_table(
        page,
        b"The twenty records whose changes weigh most",
        COLUMNS,
        &rows,
    )?;
    page.close()
}

// The rows of the records whose numbers `greatest` has, in their order: one for each change of each.
fn greatest_rows<'a>(
    alloc: Global,
    release: &Release<'a>,
    numbers: &[u32],
    greatest: &[Amount],
) -> Result<Vec<Vec<Cell<'a>>>, OutOfMemory>
    ensures { IfOk result (λ rows.
        map (λ r. map entry_of r.items) rows.items ≡ greatest_rows (release_parts release.now) numbers.now greatest.now) }
{
    let mut rows = Vec::new(alloc);
    for amount in greatest {
        push_record_rows(alloc, &mut rows, release, numbers, *amount)?;
    }
    Ok(rows)
}

// Appends a row for each change of the record whose number the amount has.
fn push_record_rows<'a>(
    alloc: Global,
    rows: &mut Vec<Vec<Cell<'a>>>,
    release: &Release<'a>,
    numbers: &[u32],
    amount: Amount,
) -> Result<(), OutOfMemory>
    ensures { OnOk result (map (λ r. map entry_of r.items) rows.new.items
        ≡ map (λ r. map entry_of r.items) rows.old.items ++ record_rows (release_parts release.now) numbers.now amount) }
{
    let changes = release.reasons.changes.as_slice();
    for change in changes {
        push_change(alloc, rows, release, numbers, amount, change)?;
    }
    Ok(())
}

// Appends the row of a change, where it is one of the record whose number the amount has, and else nothing.
fn push_change<'a>(
    alloc: Global,
    rows: &mut Vec<Vec<Cell<'a>>>,
    release: &Release<'a>,
    numbers: &[u32],
    amount: Amount,
    change: &Change,
) -> Result<(), OutOfMemory>
    ensures { OnOk result (map (λ r. map entry_of r.items) rows.new.items
        ≡ map (λ r. map entry_of r.items) rows.old.items
        ++ rows_of_change (release_parts release.now) numbers.now amount change.now) }
{
    if change.record == amount.number {
        rows.push(change_row(alloc, release, numbers, amount, change)?)?;
    }
    Ok(())
}

// The row of a change. It has the number of its record, from 1, and what all changes of that record weigh,
// which `amount` has. Then come the name of the changed field, and its bytes before and after. `numbers` are
// those of the released records. The name is empty where the survey has no such field, and the bytes after
// where the record was not released.
fn change_row<'a>(
    alloc: Global,
    release: &Release<'a>,
    numbers: &[u32],
    amount: Amount,
    change: &Change,
) -> Result<Vec<Cell<'a>>, OutOfMemory>
    ensures { IfOk result (λ row. map entry_of row.items ≡ change_row (release_parts release.now) numbers.now amount change.now) }
{
    let name = name_at(release.survey.fields(), change.field as usize);
    let before = text_in(release.records, change.field, amount.number as usize);
    let after = released_text(release.released, numbers, change.field, amount.number);
    Ok(vec![in alloc;
        Cell::Number(u64::from(amount.number) + 1),
        Cell::Number(shown_size(amount.size)),
        Cell::Text(name),
        Cell::Text(before),
        Cell::Text(after),
    ]?)
}

// A weight as a cell shows it: past 64 bits it is 2^64 - 1.
fn shown_size(size: u128) -> u64
    ensures { result ≡ shown size }
{
    match u64::try_from(size) {
        Ok(size) => size,
        Err(_) => u64::MAX,
    }
}
