//! The bytes of a field in a row of a sheet. Fields, rows and columns are numbered from 0.
ghost use Rattle.std.specs.Prelude.{◌≡◌, [], slice_index_or};
ghost use Rattle.release_figures.specs.ReleasedValues.{text_in};

use record_text::{Sheet, Texts};

/// The bytes of a field in the row of the number `row`, from 0; no byte where there is no such row. Of a field
/// that the sheet has not, they are those of column 0. No memory.
pub fn text_in(sheet: &Sheet, field: u32, row: usize) -> &[u8]
    ensures { result.now ≡ text_in sheet.now field row }
{
    if row >= sheet.len() as usize {
        return b"";
    }
    text_at(sheet.raw(row as u32), column_of(sheet, field))
}

// The text of a column, from 0; no byte where there is no such column.
fn text_at(texts: &Texts, column: u32) -> &[u8]
    ensures { result.now ≡ slice_index_or texts.now column [] }
{
    if column as usize >= texts.len() {
        return b"";
    }
    texts.get(column as usize)
}

// The column in which a field stands, from 0. It is 0 where there is no such field.
fn column_of(sheet: &Sheet, field: u32) -> u32
    ensures { result ≡ slice_index_or sheet.now.columns field 0 }
{
    match sheet.columns().get(field as usize) {
        Some(column) => *column,
        None => 0,
    }
}
