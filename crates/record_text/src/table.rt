//! Tables: CSV texts of which nothing is known but that their rows are as long as their header. Reasons
//! files are read back so.
//!
//! In contracts, `IsTable` says that the bytes give this table, and `IsTableFault` that this is their
//! first fault. `IsAt` says where csv's reader stands. `most_table_rows` is 2^32 - 1.
ghost use Rattle.std.specs.Prelude.{◌≡◌, ◌≢◌, ◌≤◌, ℕ, List, IfErr, IfOk, length};
ghost use Rattle.record_text.specs.inner.Places.{IsAt, start_of};
ghost use Rattle.record_text.specs.Tables.{IsTable, IsTableFault, TableParts, most_table_rows};

use crate::row_texts::read_row_texts;
use crate::stream::{open_records, read_next};
use crate::table_fault::TableFault;
use crate::texts::Texts;
use csv::{ByteRecord, Reader};
use std::alloc::Global;
use std::marker::Model;

/// A table as read: its header, and the texts of its rows. Each row has as many texts as the header.
#[derive(Drop)]
pub struct Table {
    header: Texts,
    rows: Vec<Texts>,
}

impl Model for Table {
    ghost use Rattle.std.specs.Prelude.{◌≤◌, length};
    ghost use Rattle.record_text.specs.Tables.{TableParts, most_table_rows};

    ghost Value = { TableParts };

    ghost view = { λ t. record { header = t.header; rows = t.rows.items } };

    ghost invariant = { λ t. length t.rows.items ≤ most_table_rows };
}

impl Table {
    /// The texts of the header. No memory.
    pub fn header(&self) -> &Texts
        ensures { result.now ≡ self.now.header }
    {
        &self.header
    }

    /// The texts of the rows, in order: at most 2^32 - 1 rows. No memory.
    pub fn rows(&self) -> &[Texts]
        ensures rows { result.now ≡ self.now.rows }
        ensures few { length result.now ≤ most_table_rows }
    {
        &self.rows
    }
}

/// Reads any CSV text, by csv's default settings: the first record is the header, and the others are the
/// rows. Byte order marks in front are taken off, as of record files. The fault is the first in the order
/// of the text. The bytes have no other table, and no other fault.
pub fn read_table(alloc: Global, bytes: &[u8]) -> Result<Table, TableFault>
    ensures table { IfOk result (λ table. IsTable bytes.now table) }
    ensures fault { IfErr result (λ e. e ≢ TableFault.OutOfMemory → IsTableFault bytes.now e) }
    ensures only { IfOk result (λ table. (other : TableParts) → IsTable bytes.now other → other ≡ table) }
    ensures first { IfErr result (λ e. e ≢ TableFault.OutOfMemory → (other : TableFault) → IsTableFault bytes.now other → other ≡ e) }
    ensures unread { IfErr result (λ e. e ≢ TableFault.OutOfMemory → (table : TableParts) → ¬ IsTable bytes.now table) }
{
    table_in(alloc, bytes)
}

// The table that csv's reader of these bytes gives, or the first fault. That there is no other one follows
// from these two clauses, so `read_table` shows it apart.
fn table_in(alloc: Global, bytes: &[u8]) -> Result<Table, TableFault>
    ensures table { IfOk result (λ table. IsTable bytes.now table) }
    ensures fault { IfErr result (λ e. e ≢ TableFault.OutOfMemory → IsTableFault bytes.now e) }
{
    let mut reader = open_records(alloc, bytes);
    let mut csv_record = ByteRecord::new(alloc);
    table_of(alloc, &mut reader, &mut csv_record)
}

// The table that a reader before the first record gives: the header and all rows. The fault is the first
// in the order of the text. `csv_record` is overwritten. The reader stays the caller's, so that no way out
// of here drops it.
fn table_of(
    alloc: Global,
    reader: &mut Reader<&[u8]>,
    csv_record: &mut ByteRecord,
) -> Result<Table, TableFault>
    ensures table { IfOk result (λ table. (bytes : List ℕ) → IsAt reader.old (start_of bytes) → IsTable bytes table) }
    ensures fault { IfErr result (λ e. e ≢ TableFault.OutOfMemory → (bytes : List ℕ) → IsAt reader.old (start_of bytes)
        → IsTableFault bytes e) }
{
    if !read_next(reader, csv_record)? {
        return Err(TableFault::NoHeader);
    }
    let header = Texts::of_header(alloc, csv_record)?;
    let rows = read_row_texts(alloc, u32::MAX, header.len(), reader, csv_record)?;
    Ok(Table { header, rows })
}
