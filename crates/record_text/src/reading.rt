//! Record files are read here: from the bytes of a file and the fields of a survey to a [`Sheet`], or to
//! the first fault.
//!
//! In contracts, `IsSheet` says that the bytes give this sheet, and `IsSheetFault` that this is their
//! first fault. A place is where csv's reader stands in the bytes: `IsAt` says where it is, and `start_of`
//! is the place before the first record. `AreRowsBehind` says that these are all rows from there on, and
//! `IsRowFault` that this is their first fault.
ghost use Rattle.std.specs.Prelude.{◌≡◌, ◌≢◌, ◌<◌, ◌≤◌, ℕ, List, All, IfErr, IfOk, length};
ghost use Rattle.std.specs.List.{AllByRecursion};
ghost use Rattle.edit_model.specs.PlainNumbers.{HasPlainNumbers};
ghost use Rattle.edit_model.specs.Surveys.{IsKind};
ghost use Rattle.record_text.specs.inner.Places.{AreRowsBehind, IsAt, IsRowFault, Place, start_of};
ghost use Rattle.record_text.specs.Sheets.{IsOnlyFault, IsSheet, IsSheetFault, SheetParts};
ghost use Rattle.record_text.specs.Values.{AreRows, AreValues};

use crate::columns::{MOST_COLUMNS, find_columns};
use crate::fault::SheetFault;
use crate::field_text::value_of_text;
use crate::row_texts::read_row_texts;
use crate::sheet::Sheet;
use crate::stream::{open_records, read_next};
use crate::texts::Texts;
use csv::{ByteRecord, Reader};
use edit_model::{Field, Row, Survey, Value};
use foundation::OutOfMemory;
use std::alloc::Global;

/// The most rows that a sheet has.
const MOST_ROWS: u32 = 200_000;

/// Reads a record file. The first record is the header, in which each field of the survey stands in one
/// column. The others are the rows. Columns stand in any order, and further ones are kept. A field's text
/// that is no numeral or no code of the field is Bad. The fault is the first in the order of
/// [`SheetFault`]. The bytes have no other sheet, and no other fault. Numbers have numerators below 10^21
/// and denominators of at most 10^6 (`HasPlainNumbers`).
pub fn read_records(alloc: Global, survey: &Survey, bytes: &[u8]) -> Result<Sheet, SheetFault>
    ensures sheet { IfOk result (λ sheet. IsSheet survey.now.fields bytes.now sheet) }
    ensures plain { IfOk result (λ sheet. AllByRecursion HasPlainNumbers sheet.rows) }
    ensures fault { IfErr result (λ e. e ≢ SheetFault.OutOfMemory → IsSheetFault survey.now.fields bytes.now e) }
    ensures only { IfOk result (λ sheet. (other : SheetParts) → IsSheet survey.now.fields bytes.now other → other ≡ sheet) }
    ensures first { IfErr result (λ e. e ≢ SheetFault.OutOfMemory → IsOnlyFault survey.now.fields bytes.now e) }
    ensures unread { IfErr result (λ e. e ≢ SheetFault.OutOfMemory
        → (sheet : SheetParts) → ¬ IsSheet survey.now.fields bytes.now sheet) }
{
    read_sheet(alloc, survey, bytes)
}

/// The sheet that csv's reader of these bytes gives. The fault is the first in the order of
/// [`SheetFault`]. That there is no other one follows from these two clauses, so `read_records` shows it
/// apart.
fn read_sheet(alloc: Global, survey: &Survey, bytes: &[u8]) -> Result<Sheet, SheetFault>
    ensures sheet { IfOk result (λ sheet. IsSheet survey.now.fields bytes.now sheet) }
    ensures fault { IfErr result (λ e. e ≢ SheetFault.OutOfMemory → IsSheetFault survey.now.fields bytes.now e) }
{
    let mut reader = open_records(alloc, bytes);
    let mut csv_record = ByteRecord::new(alloc);
    sheet_of(alloc, survey, &mut reader, &mut csv_record)
}

/// The sheet that a reader before the first record gives: the header, the columns of the fields in it, and
/// all rows. The fault is the first in the order of [`SheetFault`]. `csv_record` is overwritten. The
/// reader stays the caller's, so that no way out of here drops it.
fn sheet_of(
    alloc: Global,
    survey: &Survey,
    reader: &mut Reader<&[u8]>,
    csv_record: &mut ByteRecord,
) -> Result<Sheet, SheetFault>
    ensures sheet { IfOk result (λ sheet. (bytes : List ℕ) → IsAt reader.old (start_of bytes)
        → IsSheet survey.now.fields bytes sheet) }
    ensures fault { IfErr result (λ e. e ≢ SheetFault.OutOfMemory → (bytes : List ℕ) → IsAt reader.old (start_of bytes)
        → IsSheetFault survey.now.fields bytes e) }
{
    if !read_next(reader, csv_record)? {
        return Err(SheetFault::NoHeader);
    }
    if csv_record.len() > MOST_COLUMNS {
        return Err(SheetFault::TooManyColumns);
    }
    let header = Texts::of_header(alloc, csv_record)?;
    let columns = find_columns(alloc, survey.fields(), &header)?;
    let (row_texts, rows) = read_rows(alloc, survey, &columns, header.len(), reader, csv_record)?;
    Ok(Sheet::from_parts(header, columns, row_texts, rows))
}

/// The texts and the values of all further records, from where the reader stands. `RowLength` at the first
/// that has not `width` texts, as the header has; `TooManyRows` where more than 200,000 follow. `columns`
/// has the column, from 0, of each field. `csv_record` is overwritten.
fn read_rows(
    alloc: Global,
    survey: &Survey,
    columns: &[u32],
    width: usize,
    reader: &mut Reader<&[u8]>,
    csv_record: &mut ByteRecord,
) -> Result<(Vec<Texts>, Vec<Row>), SheetFault>
    requires columns { length columns.now ≡ length survey.now.fields }
    requires within { All (λ column. column < width) columns.now }
    ensures rows { IfOk result (λ parts. AreRowsBehind reader.old survey.now.fields columns.now width parts.0.items parts.1.items) }
    ensures equal { IfOk result (λ parts. length parts.0.items ≡ length parts.1.items) }
    ensures few { IfOk result (λ parts. length parts.1.items ≤ 200000) }
    ensures fault { IfErr result (λ e. e ≢ SheetFault.OutOfMemory
        → (here : Place) → IsAt reader.old here → IsRowFault width here e) }
{
    let row_texts = read_row_texts(alloc, MOST_ROWS, width, reader, csv_record)?;
    let rows = rows_of(alloc, survey, columns, width, &row_texts)?;
    Ok((row_texts, rows))
}

/// The values of the rows whose texts are `row_texts`, in order. `columns` has the column of each field,
/// and each row has `width` texts, one for each column.
fn rows_of(
    alloc: Global,
    survey: &Survey,
    columns: &[u32],
    width: usize,
    row_texts: &[Texts],
) -> Result<Vec<Row>, OutOfMemory>
    requires columns { length columns.now ≡ length survey.now.fields }
    requires within { All (λ column. column < width) columns.now }
    requires equal { All (λ texts. length texts ≡ width) row_texts.now }
    ensures { IfOk result (λ rows. AreRows survey.now.fields columns.now row_texts.now rows.items) }
{
    let mut rows = Vec::with_capacity(alloc, row_texts.len())?;
    for texts in row_texts {
        let row = read_row(alloc, survey, columns, texts)?;
        rows.push(row)?;
    }
    Ok(rows)
}

/// The values of the row that has these texts, one for each field of the survey. `columns` has the column
/// of each field.
fn read_row(
    alloc: Global,
    survey: &Survey,
    columns: &[u32],
    texts: &Texts,
) -> Result<Row, OutOfMemory>
    requires columns { length columns.now ≡ length survey.now.fields }
    requires within { All (λ column. column < length texts.now) columns.now }
    ensures { IfOk result (λ row. AreValues survey.now.fields columns.now texts.now row) }
{
    let values = read_values(alloc, survey.fields(), columns, texts)?;
    Ok(Row::new(survey, values))
}

/// The value of each field, in declared order, from the text in the field's column (`columns`). Each
/// column is one of the row's.
fn read_values(
    alloc: Global,
    fields: &[Field],
    columns: &[u32],
    texts: &Texts,
) -> Result<Vec<Value>, OutOfMemory>
    requires kinds { All (λ f. IsKind f.kind) fields.now }
    requires columns { length columns.now ≡ length fields.now }
    requires within { All (λ column. column < length texts.now) columns.now }
    ensures { IfOk result (λ values. AreValues fields.now columns.now texts.now values.items) }
{
    let mut values = Vec::with_capacity(alloc, fields.len())?;
    for (number, field) in fields.iter().enumerate() {
        let text = texts.get(columns[number] as usize);
        values.push(value_of_text(&field.kind, text))?;
    }
    Ok(values)
}
