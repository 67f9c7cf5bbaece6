//! Sheets: record files as read. The editor takes its records from one, and writes the released file from
//! its texts.
ghost use Rattle.std.specs.Prelude.{◌≡◌, ◌<◌, ◌≤◌, ◌==◌, [], length, slice_index, slice_index_or};
ghost use Rattle.record_text.specs.Columns.{IsOneColumn};
ghost use Rattle.record_text.specs.Sheets.{SheetParts};

use crate::columns::one_column;
use crate::texts::Texts;
use edit_model::Row;
use foundation::Sequence;
use std::marker::Model;

/// A record file as read: its header, the column of each field, and for each row its texts and its values.
#[derive(Drop)]
pub struct Sheet {
    header: Texts,
    columns: Vec<u32>,
    row_texts: Vec<Texts>,
    rows: Vec<Row>,
}

impl Model for Sheet {
    ghost use Rattle.std.specs.Prelude.{◌≡◌, ◌≤◌, length};
    ghost use Rattle.record_text.specs.Sheets.{SheetParts};

    ghost Value = { SheetParts };

    ghost view = { λ s. record { header = s.header; columns = s.columns.items; row_texts = s.row_texts.items; rows = s.rows.items } };

    ghost invariant = { λ s. (length s.row_texts.items ≡ length s.rows.items) × (length s.rows.items ≤ 200000) × (length s.header ≤ 256) };
}

/// The parts of a sheet: the header, the column of each field, and the texts and the values of its rows.
/// All are in the order of the file, but that the columns are in that of the fields.
#[derive(Drop)]
pub struct SheetRows {
    pub header: Texts,
    pub columns: Sequence<u32>,
    pub row_texts: Sequence<Texts>,
    pub rows: Sequence<Row>,
}

impl Sheet {
    /// The sheet of these parts. `columns` has the column of each field. Each row has its texts and its
    /// values at the same place of both lists. There are at most 200,000 rows and 256 columns. No memory.
    pub(crate) fn from_parts(
        header: Texts,
        columns: Vec<u32>,
        row_texts: Vec<Texts>,
        rows: Vec<Row>,
    ) -> Sheet
        requires equal { length row_texts.items ≡ length rows.items }
        requires few { length rows.items ≤ 200000 }
        requires few_columns { length header ≤ 256 }
        ensures { result ≡ record { header = header; columns = columns.items; row_texts = row_texts.items; rows = rows.items } }
    {
        Sheet {
            header,
            columns,
            row_texts,
            rows,
        }
    }

    /// How many rows there are, at most 200,000. No memory.
    pub fn len(&self) -> u32
        ensures few { result ≤ 200000 }
        ensures rows { result ≡ length self.now.rows }
        ensures row_texts { result ≡ length self.now.row_texts }
    {
        self.rows.len() as u32
    }

    /// Whether there is no row. No memory.
    pub fn is_empty(&self) -> bool
        ensures { result ≡ (length self.now.rows == 0) }
    {
        self.rows.is_empty()
    }

    /// The values of the row of this number, from 0. No memory.
    pub fn row(&self, row_no: u32) -> &Row
        requires { row_no < length self.now.rows }
        ensures { result.now ≡ slice_index_or self.now.rows row_no [] }
    {
        &self.rows[row_no as usize]
    }

    /// The texts of the header. No memory.
    pub fn header(&self) -> &Texts
        ensures { result.now ≡ self.now.header }
    {
        &self.header
    }

    /// The texts of the row of this number, from 0, as they stand in the file: one for each column of the
    /// header. No memory.
    pub fn raw(&self, row_no: u32) -> &Texts
        requires { row_no < length self.now.row_texts }
        ensures { result.now ≡ slice_index_or self.now.row_texts row_no [] }
    {
        &self.row_texts[row_no as usize]
    }

    /// The column, from 0, in which the field of this number stands. No memory.
    pub fn column(&self, field: u32) -> u32
        requires { field < length self.now.columns }
        ensures { result ≡ slice_index self.now.columns field }
    {
        self.columns[field as usize]
    }

    /// The column, from 0, whose header text, without blanks at its ends, is the name. None where the name
    /// stands in no column, or in several. No memory.
    pub fn column_named(&self, name: &[u8]) -> Option<u32>
        ensures { IsOneColumn name.now self.now.header result }
    {
        one_column(name, &self.header)
    }

    /// The column, from 0, of each field, in declared order. No memory.
    pub fn columns(&self) -> &[u32]
        ensures { result.now ≡ self.now.columns }
    {
        &self.columns
    }

    /// The parts of the sheet, without a copy. No memory.
    pub fn into_parts(self) -> SheetRows
        ensures header { result.header ≡ self.header }
        ensures columns { result.columns ≡ self.columns }
        ensures row_texts { result.row_texts ≡ self.row_texts }
        ensures rows { result.rows ≡ self.rows }
    {
        SheetRows {
            header: self.header,
            columns: Sequence::from_vec(self.columns),
            row_texts: Sequence::from_vec(self.row_texts),
            rows: Sequence::from_vec(self.rows),
        }
    }
}
