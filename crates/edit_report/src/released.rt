//! The released file: the records that were given values, with the texts of these. In contracts, `IsLayout`
//! says that each field has a column, and `IsEnd` that the values given are those of the path that was
//! found. `records_text` is records as a CSV file has them, and `texts_from` the texts of a row from a
//! column on.
ghost use Rattle.std.specs.Prelude.{◌≡◌, ◌<◌, ◌≤◌, ◌++◌, ◌∷◌, [], ℕ, List, Some, IfOk, IfSome, OnOk, length};
ghost use Rattle.edit_model.specs.FieldSets.{has_number};
ghost use Rattle.edit_model.specs.Rows.{IsRow};
ghost use Rattle.record_text.specs.Sheets.{IsSheet};
ghost use Rattle.record_text.specs.Texts.{records_text};
ghost use Rattle.edit_report.specs.Ends.{AreEnds, IsEnd};
ghost use Rattle.edit_report.specs.Released.{column_text, released_text_of, released_texts, released_of, row_with, texts_from, given_text};
ghost use Rattle.edit_report.specs.Layouts.{IsLayout};

use crate::changed::{changed_set, keeps_every_field, path_found};
use crate::end::RowEnd;
use crate::layout::Layout;
use crate::value_text::text_at;
use edit_model::{FieldSet, Row, Survey};
use foundation::OutOfMemory;
use record_text::{RecordWriter, Sheet, Texts};
use std::alloc::Global;

/// The values that a record has now, and the set of the fields at which they are new.
#[derive(Clone, Copy)]
struct NewValues<'a> {
    row: &'a Row,
    changed: FieldSet,
}

/// The bytes of the released file: the header as it was read, and then, in order, one row for each record
/// that was given values. A changed field has the text of its new value, every other column the bytes that
/// were read. `ends` has what became of each record of the sheet.
pub fn released_text(
    alloc: Global,
    sheet: &Sheet,
    survey: &Survey,
    ends: &[RowEnd],
) -> Result<Vec<u8>, OutOfMemory>
    requires sheet { (bytes : List ℕ) × IsSheet survey.now.fields bytes sheet.now }
    requires ends { AreEnds survey.now sheet.now ends.now }
    ensures { IfOk result (λ text. text.items ≡ released_text_of survey.now sheet.now ends.now) }
{
    let mut writer = RecordWriter::new(alloc);
    push_file(alloc, &mut writer, sheet, survey, ends)?;
    Ok(writer.into_bytes())
}

// Writes the released file, of which nothing is written yet: the header, and then the rows of the records
// that were given values. The writer stays the caller's, so that no way out of here drops it.
fn push_file(
    alloc: Global,
    writer: &mut RecordWriter,
    sheet: &Sheet,
    survey: &Survey,
    ends: &[RowEnd],
) -> Result<(), OutOfMemory>
    requires empty { writer.old ≡ [] }
    requires sheet { (bytes : List ℕ) × IsSheet survey.now.fields bytes sheet.now }
    requires ends { AreEnds survey.now sheet.now ends.now }
    ensures { OnOk result (writer.new ≡ released_text_of survey.now sheet.now ends.now) }
{
    let layout = Layout::of_sheet(alloc, sheet)?;
    writer.push(sheet.header())?;
    for row_no in 0..sheet.len() {
        let end = &ends[row_no as usize];
        push_released(alloc, writer, survey, &layout, sheet.raw(row_no), end)?;
    }
    Ok(())
}

/// Writes the row of a record that was given values; nothing for one that was not. `read` has the texts of
/// the record as it was read. Where all fields are kept, these are written without a copy.
pub fn push_released(
    alloc: Global,
    writer: &mut RecordWriter,
    survey: &Survey,
    layout: &Layout,
    read: &Texts,
    end: &RowEnd,
) -> Result<(), OutOfMemory>
    requires layout { IsLayout survey.now.fields layout.now }
    requires width { length read.now ≡ layout.now.width }
    requires end { IsEnd survey.now.fields end.now }
    ensures { OnOk result (writer.new ≡ writer.old ++ records_text (released_of survey.now.fields layout.now.columns read.now end.now)) }
{
    let Some(gift) = &end.gift else {
        return Ok(());
    };
    let path = path_found(&end.proof.outcome);
    if keeps_every_field(path) {
        return writer.push(read);
    }
    let texts = released_texts(alloc, survey, layout, read, path, &gift.row)?;
    writer.push(&texts)
}

// The texts of a record afterwards, column by column. A field that the path changes has the text of its
// value in `new`, and every other column the one that was read.
fn released_texts(
    alloc: Global,
    survey: &Survey,
    layout: &Layout,
    read: &Texts,
    path: &[bool],
    new: &Row,
) -> Result<Texts, OutOfMemory>
    requires layout { IsLayout survey.now.fields layout.now }
    requires width { length read.now ≡ layout.now.width }
    requires short { length path.now ≤ length survey.now.fields }
    requires new { IsRow survey.now.fields new.now }
    ensures { IfOk result (λ texts. texts ≡ released_texts survey.now.fields layout.now.columns path.now new.now read.now) }
{
    row_texts(alloc, survey, layout, read, changed_set(survey, path), new)
}

/// The texts of a record afterwards, column by column. A field of the set `changed` has the text of its new
/// value, and every other column the one that was read.
pub fn row_texts(
    alloc: Global,
    survey: &Survey,
    layout: &Layout,
    read: &Texts,
    changed: FieldSet,
    new: &Row,
) -> Result<Texts, OutOfMemory>
    requires layout { IsLayout survey.now.fields layout.now }
    requires width { length read.now ≡ layout.now.width }
    requires new { IsRow survey.now.fields new.now }
    ensures { IfOk result (λ texts. texts ≡ texts_from survey.now.fields layout.now.columns (has_number changed) new.now 0 read.now) }
{
    let values = NewValues { row: new, changed };
    let mut texts = Texts::new(alloc);
    for column in 0..layout.width() {
        let field = layout.field_at(column);
        push_column(alloc, &mut texts, survey, &values, field, read.get(column))?;
    }
    Ok(texts)
}

// Appends the text of one column, of which `read` was read. A further column, which has no field, keeps
// that text, and a field has what [`push_text`] says.
fn push_column(
    alloc: Global,
    texts: &mut Texts,
    survey: &Survey,
    values: &NewValues,
    field: Option<usize>,
    read: &[u8],
) -> Result<(), OutOfMemory>
    requires values { IsRow survey.now.fields values.now.row.now }
    requires field { IfSome field (λ f. f < length survey.now.fields) }
    ensures { OnOk result (texts.new
        ≡ texts.old ++ column_text survey.now.fields (has_number values.now.changed) values.now.row.now field read.now ∷ []) }
{
    match field {
        None => texts.push(read),
        Some(field) => push_text(alloc, texts, survey, values, field, read),
    }
}

// Appends the text of the field's value where it is new, and else the one that was read.
fn push_text(
    alloc: Global,
    texts: &mut Texts,
    survey: &Survey,
    values: &NewValues,
    field: usize,
    read: &[u8],
) -> Result<(), OutOfMemory>
    requires values { IsRow survey.now.fields values.now.row.now }
    requires field { field < length survey.now.fields }
    ensures { OnOk result (texts.new
        ≡ texts.old ++ column_text survey.now.fields (has_number values.now.changed) values.now.row.now (Some field) read.now ∷ []) }
{
    let _fields = survey.fields(); // read for what it says: there are at most 64
    let field = field as u32;
    if values.changed.has(field) {
        texts.push(&text_at(alloc, survey, values.row, field)?)
    } else {
        texts.push(read)
    }
}
