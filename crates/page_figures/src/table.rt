//! Tables of numbers and texts. In contracts, `added` says what content is put last in the page's
//! innermost open element. `entry_of` is what definitions see of a cell.
ghost use Rattle.std.specs.Prelude.{◌≡◌, [], map, OnOk};
ghost use Rattle.page_markup.specs.OpenPages.{added};
ghost use Rattle.page_markup.specs.Trees.Content.{Element, Nothing};
ghost use Rattle.page_markup.specs.declared.tag.Tag.TheVariants.{TableBody, TableHead};
ghost use Rattle.page_figures.specs.Tables.{cell_content, entry_of, grid_content, head_content};
ghost use Rattle.page_figures.specs.Tables.{names_row, row_content, rows_content, table_content};

use crate::elements::{open_classed, push_number, push_words};
use foundation::OutOfMemory;
use page_markup::{Attribute, PageWriter, Tag, Value};

/// What a cell of a table shows.
#[derive(Clone, Copy)]
pub enum Cell<'a> {
    /// A number, which stands at the right of its column.
    Number(u64),
    /// A text, whatever its bytes are.
    Text(&'a [u8]),
}

const COLUMN: &[(Attribute, Value)] = &[(Attribute::Scope, Value::Words(b"col"))];

const HEAD: &[(Attribute, Value)] = &[(Attribute::Scope, Value::Words(b"row"))];

const NUMBER: &[(Attribute, Value)] = &[(Attribute::Class, Value::Words(b"number"))];

/// Adds a table in a box that scrolls: its caption, its columns' names, and its rows. The first cell of
/// a row is its head. Where memory runs out, a part of it may be in the page.
pub fn push_table(
    page: &mut PageWriter,
    caption: &[u8],
    columns: &[&[u8]],
    rows: &[Vec<Cell>],
) -> Result<(), OutOfMemory>
    ensures { OnOk result (page.new ≡ added
        (table_content caption.now (map (λ c. c.now) columns.now) (map (λ r. map entry_of r.items) rows.now)) page.old) }
{
    open_classed(page, Tag::Division, b"table")?;
    push_grid(page, caption, columns, rows)?;
    page.close()
}

// Adds the table itself, which stands in the box.
fn push_grid(
    page: &mut PageWriter,
    caption: &[u8],
    columns: &[&[u8]],
    rows: &[Vec<Cell>],
) -> Result<(), OutOfMemory>
    ensures { OnOk result (page.new ≡ added
        (grid_content caption.now (map (λ c. c.now) columns.now) (map (λ r. map entry_of r.items) rows.now)) page.old) }
{
    page.open(Tag::Table, &[])?;
    push_words(page, Tag::Caption, &[], caption)?;
    push_columns(page, columns)?;
    push_rows(page, rows)?;
    page.close()
}

// Adds the head of a table, which holds the one row that names the columns.
fn push_columns(page: &mut PageWriter, columns: &[&[u8]]) -> Result<(), OutOfMemory>
    ensures { OnOk result (page.new ≡ added
        (Element TableHead [] (names_row (map (λ c. c.now) columns.now)) Nothing) page.old) }
{
    page.open(Tag::TableHead, &[])?;
    push_names(page, columns)?;
    page.close()
}

// Adds the row that names the columns: a head cell for each of these names.
fn push_names(page: &mut PageWriter, columns: &[&[u8]]) -> Result<(), OutOfMemory>
    ensures { OnOk result (page.new ≡ added (names_row (map (λ c. c.now) columns.now)) page.old) }
{
    page.open(Tag::Row, &[])?;
    for column in columns {
        push_words(page, Tag::HeaderCell, COLUMN, column)?;
    }
    page.close()
}

// Adds the body of a table: a row for each of `rows`, which has its cells.
fn push_rows(page: &mut PageWriter, rows: &[Vec<Cell>]) -> Result<(), OutOfMemory>
    ensures { OnOk result (page.new ≡ added
        (Element TableBody [] (rows_content (map (λ r. map entry_of r.items) rows.now)) Nothing) page.old) }
{
    page.open(Tag::TableBody, &[])?;
    for row in rows {
        page.open(Tag::Row, &[])?;
        push_cells(page, row)?;
        page.close()?;
    }
    page.close()
}

// Adds the cells of a row, of which the first is its head. A row of no cells is left empty.
fn push_cells(page: &mut PageWriter, cells: &[Cell]) -> Result<(), OutOfMemory>
    ensures { OnOk result (page.new ≡ added (row_content (map entry_of cells.now)) page.old) }
{
    let Some((head, rest)) = cells.split_first() else {
        return Ok(());
    };
    push_head(page, *head)?;
    for cell in rest {
        push_cell(page, *cell)?;
    }
    Ok(())
}

// Adds the first cell of a row, as the head of that row.
fn push_head(page: &mut PageWriter, cell: Cell) -> Result<(), OutOfMemory>
    ensures { OnOk result (page.new ≡ added (head_content (entry_of cell.entry) Nothing) page.old) }
{
    match cell {
        Cell::Number(number) => push_number(page, Tag::HeaderCell, HEAD, number),
        Cell::Text(words) => push_words(page, Tag::HeaderCell, HEAD, words),
    }
}

// Adds a cell behind the first; a number stands at the right.
fn push_cell(page: &mut PageWriter, cell: Cell) -> Result<(), OutOfMemory>
    ensures { OnOk result (page.new ≡ added (cell_content (entry_of cell.entry) Nothing) page.old) }
{
    match cell {
        Cell::Number(number) => push_number(page, Tag::Cell, NUMBER, number),
        Cell::Text(words) => push_words(page, Tag::Cell, &[], words),
    }
}
