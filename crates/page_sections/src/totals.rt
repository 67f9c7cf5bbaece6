//! The totals of a numerical field's values. In contracts, `added` says what content is put last in the
//! page's innermost open element. `entry_of` is what definitions see of a cell.
ghost use Rattle.std.specs.Prelude.{◌≡◌, IfOk, OnOk, map};
ghost use Rattle.page_markup.specs.OpenPages.{added};
ghost use Rattle.page_figures.specs.Tables.{entry_of};
ghost use Rattle.page_sections.specs.ValueSection.{count_row, sum_words, total_rows, totals_content};

use foundation::OutOfMemory;
use fraction128::Fraction;
use page_figures::{Cell, push_table};
use page_markup::PageWriter;
use release_figures::NumberValues;
use std::alloc::Global;

/// Adds the table of the totals before and after: the sum, how many values are none, and how many are in
/// no bin.
pub(crate) fn push_totals(
    alloc: Global,
    page: &mut PageWriter,
    numbers: &NumberValues,
) -> Result<(), OutOfMemory>
    ensures { OnOk result (page.new ≡ added (totals_content numbers.now) page.old) }
{
    let before = sum_words(alloc, &numbers.before.sum)?;
    let after = sum_words(alloc, &numbers.after.sum)?;
    let rows = total_rows(alloc, numbers, &before, &after)?;
    push_table(page, b"Totals", &[b"", b"before", b"after"], &rows)
}

// The three rows of the table: the sum, the values that are none, and the numbers in no bin. `before` and
// `after` are the words of the sums.
fn total_rows<'a>(
    alloc: Global,
    numbers: &NumberValues,
    before: &'a [u8],
    after: &'a [u8],
) -> Result<Vec<Vec<Cell<'a>>>, OutOfMemory>
    requires before { before.now ≡ sum_words numbers.now.before.sum }
    requires after { after.now ≡ sum_words numbers.now.after.sum }
    ensures { IfOk result (λ rows. map (λ r. map entry_of r.items) rows.items ≡ total_rows numbers.now) }
{
    let first = &numbers.before;
    let second = &numbers.after;
    let sum = vec![in alloc; Cell::Text(b"sum"), Cell::Text(before), Cell::Text(after)]?;
    let none = count_row(alloc, b"no value", first.none, second.none)?;
    let beyond = count_row(alloc, b"in no bin", first.beyond, second.beyond)?;
    Ok(vec![in alloc; sum, none, beyond]?)
}

// A row of the table: a label, and the counts before and after.
fn count_row<'a>(
    alloc: Global,
    label: &'a [u8],
    before: usize,
    after: usize,
) -> Result<Vec<Cell<'a>>, OutOfMemory>
    ensures { IfOk result (λ row. map entry_of row.items ≡ count_row label.now before after) }
{
    Ok(vec![in alloc;
        Cell::Text(label),
        Cell::Number(before as u64),
        Cell::Number(after as u64),
    ]?)
}

// A sum in words: the number, or `past 128 bits` where it left the range.
fn sum_words(alloc: Global, sum: &Option<Fraction>) -> Result<Vec<u8>, OutOfMemory>
    ensures { IfOk result (λ words. words.items ≡ sum_words sum.now) }
{
    match sum {
        Some(sum) => sum.write_text(alloc),
        None => Ok(Vec::from_slice(alloc, b"past 128 bits")?),
    }
}
