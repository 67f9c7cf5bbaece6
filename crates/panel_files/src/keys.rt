//! The rows of a file by their keys: a record finds its row of the last period in a table of these. In
//! contracts, `last_rows` are the rows that the records find, and `row_with_key` is the one row that has a key.
ghost use Rattle.std.specs.Prelude.{◌≡◌, ◌<◌, ℕ, [], All, List, IfOk, OnOk, length, map, slice_index_or};
ghost use Rattle.std.specs.Map.{lookup};
ghost use Rattle.std.specs.Str.{bytes_eq};
ghost use Rattle.panel_files.specs.Joined.{files_by_key, key_of, last_rows, row_with_key};
ghost use Rattle.panel_files.specs.inner.KeyEntries.{IsNoted, row_after};
ghost use Rattle.panel_files.specs.inner.KeyRows.{row_in};

use foundation::OutOfMemory;
use indexmap::IndexMap;
use record_text::{Sheet, trimmed};
use std::alloc::Global;
use std::marker::Model;

/// The keys of a file's rows, each with the one row that has it, or with none where several have it. A key
/// is found in constant time.
#[derive(Drop)]
pub(crate) struct KeyTable {
    rows: IndexMap<Vec<u8>, Option<u32>>,
}

impl Model for KeyTable {
    ghost use Rattle.std.specs.Prelude.{ℕ, List, Option, map};

    ghost Value = { List (List ℕ × Option ℕ) };

    ghost view = { λ t. map (λ e. (e.0.items, e.1)) t.rows.entries };
}

impl KeyTable {
    /// The table of the rows of a sheet. The key of a row is its text in this column, without blanks at
    /// its ends; an empty text is a key like any other.
    pub(crate) fn of(alloc: Global, sheet: &Sheet, column: u32) -> Result<KeyTable, OutOfMemory>
        requires { All (λ texts. column < length texts) sheet.now.row_texts }
        ensures { IfOk result (λ table. (key : List ℕ) → row_in table key ≡ row_with_key column key sheet.now.row_texts) }
    {
        let mut table = KeyTable {
            rows: IndexMap::new(alloc),
        };
        for row_no in 0..sheet.len() {
            let key = key_at(sheet, row_no, column);
            table.note_key(alloc, key, row_no)?;
        }
        Ok(table)
    }

    /// The row that alone has the key, from 0. None where no row has it, or several have. No memory.
    pub(crate) fn row_of(&self, key: &[u8]) -> Option<u32>
        ensures { result ≡ row_in self.now key.now }
    {
        match self.rows.get(key) {
            Some(row) => *row,
            None => None,
        }
    }

    // For each row of another sheet, in order, the row of the table that alone has its key, from 0. None where
    // no row of the table has the key, or several have. The key is the text in this column, without blanks
    // at its ends.
    fn rows_for(
        &self,
        alloc: Global,
        sheet: &Sheet,
        column: u32,
    ) -> Result<Vec<Option<u32>>, OutOfMemory>
        requires { All (λ texts. column < length texts) sheet.now.row_texts }
        ensures { IfOk result (λ rows. rows.items ≡ map (λ texts. row_in self.now (key_of column texts)) sheet.now.row_texts) }
    {
        let mut rows = Vec::new(alloc);
        for row_no in 0..sheet.len() {
            rows.push(self.row_of(key_at(sheet, row_no, column)))?;
        }
        Ok(rows)
    }

    // Notes in the table that the row has the key; for all other keys it is as before (`IsNoted`). A key that
    // another row has already stands in the table without a row from then on.
    fn note_key(&mut self, alloc: Global, key: &[u8], row_no: u32) -> Result<(), OutOfMemory>
        ensures { OnOk result (IsNoted self.old self.new key.now row_no) }
    {
        let row = self.row_after(key, row_no);
        let key = Vec::from_slice(alloc, key)?;
        let _ = self.rows.insert(key, row)?; // what the key had before
        Ok(())
    }

    // What the table is to have for the key when one row more has it: that row, or None where a row has
    // it already.
    fn row_after(&self, key: &[u8], row_no: u32) -> Option<u32>
        ensures { result ≡ row_after (lookup (bytes_eq key.now) self.now) row_no }
    {
        if self.rows.contains_key(key) {
            None
        } else {
            Some(row_no)
        }
    }
}

/// For each record, in order, the row of the last period that alone has its key, from 0. None where no row
/// has the key, or several have. `own` has the records, and `last` the rows of the last period. Their keys
/// are the texts in the columns `own_key` and `last_key`, without blanks at the ends; an empty text is a key
/// like any other.
pub fn last_rows(
    alloc: Global,
    own: &Sheet,
    own_key: u32,
    last: &Sheet,
    last_key: u32,
) -> Result<Vec<Option<u32>>, OutOfMemory>
    requires own { All (λ texts. own_key < length texts) own.now.row_texts }
    requires last { All (λ texts. last_key < length texts) last.now.row_texts }
    ensures { IfOk result (λ rows. rows.items ≡ last_rows (files_by_key own.now own_key last.now last_key)) }
{
    let table = KeyTable::of(alloc, last, last_key)?;
    table.rows_for(alloc, own, own_key)
}

// The key of the row of this number: its text in this column, without blanks at its ends. No memory.
fn key_at(sheet: &Sheet, row_no: u32, column: u32) -> &[u8]
    requires row { row_no < length sheet.now.row_texts }
    requires column { All (λ texts. column < length texts) sheet.now.row_texts }
    ensures { result.now ≡ key_of column (slice_index_or sheet.now.row_texts row_no []) }
{
    trimmed(sheet.raw(row_no).get(column as usize))
}
