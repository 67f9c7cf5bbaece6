//! The reasons file. For each changed field it tells what was there before and after, and how the new value
//! was found. For each record that is not released it tells why. In contracts, `IsEnd` says that the values
//! given are those of the path that was found. `records_text` is records as a CSV file has them.
ghost use Rattle.std.specs.Prelude.{◌≡◌, ◌<◌, ◌++◌, ◌∷◌, [], ℕ, List, IfOk, OnOk, length, slice_index_or};
ghost use Rattle.record_text.specs.Sheets.{IsSheet};
ghost use Rattle.record_text.specs.Texts.{records_text};
ghost use Rattle.edit_model.specs.Rows.{IsRow};
ghost use Rattle.edit_report.specs.Ends.{AreEnds, IsEnd, IsGift, path_found};
ghost use Rattle.edit_report.specs.Reasons.{cause_line, donor_text, how_text, line_texts, reasons_header, reasons_of, reasons_text_of, unresolved_line};
ghost use Rattle.edit_report.specs.Layouts.{IsLayout};
ghost use Rattle.edit_report.specs.inner.Lines.{field_line, gift_lines};

use crate::changed::{changed_fields, path_found};
use crate::detail::{cause_text, detail_text, name_of, number_text};
use crate::end::RowEnd;
use crate::layout::Layout;
use crate::value_text::text_at;
use back_subst::{Gift, How};
use bound_cert::RowProof;
use edit_model::{Row, Survey};
use foundation::OutOfMemory;
use record_text::{RecordWriter, Sheet, Texts};
use std::alloc::Global;

/// A record as the reasons file tells of it: its number, from 0, the texts that were read, and what became
/// of it.
#[derive(Drop)]
pub struct Record<'a> {
    pub number: u32,
    pub read: &'a Texts,
    pub end: &'a RowEnd,
}

/// A changed field of a record: the record's values now, the field's number, and how the value there was
/// found.
#[derive(Clone, Copy)]
struct ChangedField<'a> {
    new: &'a Row,
    field: u32,
    how: How,
}

/// The texts of the line of a changed field, but for the cause: the record's number, the field's name with
/// its text before and after, the donor's number, and how the value was found.
#[derive(Clone, Copy)]
struct ChangedLine<'a> {
    number: &'a [u8],
    name: &'a [u8],
    before: &'a [u8],
    after: &'a [u8],
    donor: &'a [u8],
    how: &'a [u8],
}

/// The bytes of the reasons file: its header, and then the lines of each record, in the records' order. A
/// record that was given values has one for each changed field, in path order; one that was not has one.
/// `ends` has what became of each record of the sheet.
pub fn reasons_text(
    alloc: Global,
    sheet: &Sheet,
    survey: &Survey,
    ends: &[RowEnd],
) -> Result<Vec<u8>, OutOfMemory>
    requires sheet { (bytes : List ℕ) × IsSheet survey.now.fields bytes sheet.now }
    requires ends { AreEnds survey.now sheet.now ends.now }
    ensures { IfOk result (λ text. text.items ≡ reasons_text_of survey.now sheet.now ends.now) }
{
    let mut writer = RecordWriter::new(alloc);
    push_file(alloc, &mut writer, sheet, survey, ends)?;
    Ok(writer.into_bytes())
}

// Writes the reasons file, of which nothing is written yet: its header, and then the lines of each record.
// The writer stays the caller's, so that no way out of here drops it.
fn push_file(
    alloc: Global,
    writer: &mut RecordWriter,
    sheet: &Sheet,
    survey: &Survey,
    ends: &[RowEnd],
) -> Result<(), OutOfMemory>
    requires empty { writer.old ≡ [] }
    requires sheet { (bytes : List ℕ) × IsSheet survey.now.fields bytes sheet.now }
    requires ends { AreEnds survey.now sheet.now ends.now }
    ensures { OnOk result (writer.new ≡ reasons_text_of survey.now sheet.now ends.now) }
{
    let layout = Layout::of_sheet(alloc, sheet)?;
    push_reasons_header(writer)?;
    for row_no in 0..sheet.len() {
        let row = Record {
            number: row_no,
            read: sheet.raw(row_no),
            end: &ends[row_no as usize],
        };
        push_reasons(alloc, writer, survey, &layout, &row)?;
    }
    Ok(())
}

/// Writes the header of the reasons file, the names of its seven columns.
pub fn push_reasons_header(writer: &mut RecordWriter) -> Result<(), OutOfMemory>
    ensures { OnOk result (writer.new ≡ writer.old ++ records_text (reasons_header ∷ [])) }
{
    writer.push_slices(&[
        b"record", b"cause", b"field", b"before", b"after", b"donor", b"detail",
    ])
}

/// Writes the lines of a record: one for each field that is changed, in path order. A record that was given
/// no values has one line, and a clean one none.
pub fn push_reasons(
    alloc: Global,
    writer: &mut RecordWriter,
    survey: &Survey,
    layout: &Layout,
    row: &Record,
) -> Result<(), OutOfMemory>
    requires layout { IsLayout survey.now.fields layout.now }
    requires width { length row.now.read.now ≡ layout.now.width }
    requires end { IsEnd survey.now.fields row.now.end.now }
    ensures { OnOk result (writer.new ≡ writer.old ++ records_text
        (reasons_of survey.now.fields layout.now.columns row.now.number row.now.read.now row.now.end.now)) }
{
    match &row.end.gift {
        None => push_unresolved(alloc, writer, survey, row.number, &row.end.proof),
        Some(gift) => push_changes(alloc, writer, survey, layout, row, gift),
    }
}

// Writes the line of a record that was given no values: why, and where the search or the giving of values
// ended.
fn push_unresolved(
    alloc: Global,
    writer: &mut RecordWriter,
    survey: &Survey,
    number: u32,
    found: &RowProof,
) -> Result<(), OutOfMemory>
    ensures { OnOk result (writer.new ≡ writer.old ++ records_text (unresolved_line survey.now.fields number found.now ∷ [])) }
{
    let detail = detail_text(alloc, survey, found)?;
    push_cause(alloc, writer, number, cause_text(&found.outcome), &detail)
}

/// Writes the line of a record that is not released for this cause, with this detail. Its number is counted
/// from 0, and told from 1.
pub fn push_cause(
    alloc: Global,
    writer: &mut RecordWriter,
    number: u32,
    cause: &[u8],
    detail: &[u8],
) -> Result<(), OutOfMemory>
    ensures { OnOk result (writer.new ≡ writer.old ++ records_text (cause_line number cause.now detail.now ∷ [])) }
{
    let number = number_text(alloc, number)?;
    writer.push_slices(&[&number, cause, b"", b"", b"", b"", detail])
}

// Writes the lines of the fields that a record's path changes, in path order. The gift has the new values,
// and how that at each changed field was found, in the same order (`IsGift`).
fn push_changes(
    alloc: Global,
    writer: &mut RecordWriter,
    survey: &Survey,
    layout: &Layout,
    row: &Record,
    gift: &Gift,
) -> Result<(), OutOfMemory>
    requires layout { IsLayout survey.now.fields layout.now }
    requires width { length row.now.read.now ≡ layout.now.width }
    requires gift { IsGift survey.now.fields (path_found row.now.end.now.proof.outcome) gift.now }
    ensures { OnOk result (writer.new ≡ writer.old ++ records_text (gift_lines survey.now.fields layout.now row.now gift.now)) }
{
    let changed = changed_fields(alloc, survey, path_found(&row.end.proof.outcome))?;
    let fields = changed.as_slice();
    let hows = gift.how.as_slice();
    for place in 0..fields.len() {
        let change = ChangedField {
            new: &gift.row,
            field: fields[place],
            how: hows[place],
        };
        push_change(alloc, writer, survey, layout, row, &change)?;
    }
    Ok(())
}

// Writes the line of a changed field of the record `row`.
fn push_change(
    alloc: Global,
    writer: &mut RecordWriter,
    survey: &Survey,
    layout: &Layout,
    row: &Record,
    change: &ChangedField,
) -> Result<(), OutOfMemory>
    requires layout { IsLayout survey.now.fields layout.now }
    requires width { length row.now.read.now ≡ layout.now.width }
    requires new { IsRow survey.now.fields change.now.new.now }
    requires field { change.now.field < length survey.now.fields }
    ensures { OnOk result
        (writer.new ≡ writer.old ++ records_text (field_line survey.now.fields layout.now row.now change.now ∷ [])) }
{
    let number = number_text(alloc, row.number)?;
    let after = text_at(alloc, survey, change.new, change.field)?;
    let donor = donor_text(alloc, row.end.donor)?;
    let line = ChangedLine {
        number: &number,
        name: name_of(survey, change.field),
        before: text_in(row.read, layout.column(change.field)),
        after: &after,
        donor: &donor,
        how: how_text(change.how),
    };
    push_line(writer, &line)
}

// The text that was read in a column, empty where there is no such column: a field of a panel's other file
// has none here. No memory.
fn text_in(texts: &Texts, column: usize) -> &[u8]
    ensures { result.now ≡ slice_index_or texts.now column [] }
{
    if column < texts.len() {
        texts.get(column)
    } else {
        &[]
    }
}

// Writes the line of a changed field, with the cause `changed`.
fn push_line(writer: &mut RecordWriter, line: &ChangedLine) -> Result<(), OutOfMemory>
    ensures { OnOk result (writer.new ≡ writer.old ++ records_text
        (line_texts line.now.number.now line.now.name.now line.now.before.now line.now.after.now line.now.donor.now
        line.now.how.now ∷ [])) }
{
    writer.push_slices(&[
        line.number,
        b"changed",
        line.name,
        line.before,
        line.after,
        line.donor,
        line.how,
    ])
}

// The number of the donor of this number, from 0, as it is told: from 1. An empty text where there is no
// donor.
fn donor_text(alloc: Global, donor: Option<u32>) -> Result<Vec<u8>, OutOfMemory>
    ensures { IfOk result (λ text. text.items ≡ donor_text donor) }
{
    match donor {
        None => Ok(Vec::new(alloc)),
        Some(donor) => number_text(alloc, donor),
    }
}

// The word for how a value was found.
fn how_text(how: How) -> &'static [u8]
    ensures { result.now ≡ how_text how }
{
    match how {
        How::Donor => b"donor",
        How::Default => b"default",
        How::Nearest => b"nearest",
    }
}
