//! The rows of a CSV file behind its header, as texts. Both readers share this: that of record files, and
//! that of tables.
//!
//! In contracts a place is where csv's reader stands in the bytes, which `IsAt` tells. `AreRecords` says
//! that these are all records from there on. `rows_fault` is the first fault among such records, and
//! `IsTextsFault` says that this is it.
ghost use Rattle.std.specs.Prelude.{◌≡◌, ◌≢◌, IfErr, IfOk, None};
ghost use Rattle.csv.specs.Reading.{AreRecords, default_config};
ghost use Rattle.record_text.specs.Tables.{rows_fault};
ghost use Rattle.record_text.specs.inner.Places.{IsAt, IsTextsFault, Place};

use crate::stream::read_next;
use crate::table_fault::TableFault;
use crate::texts::Texts;
use csv::{ByteRecord, Reader};
use std::alloc::Global;

/// The texts of all further records, from where csv's reader stands to the end; there may be none.
/// `RowLength` at the first record that has not `width` texts: it has the record's number, from 0.
/// `TooManyRows` where more than `most` follow. `csv_record` is overwritten: it is room that the caller
/// lends.
pub(crate) fn read_row_texts(
    alloc: Global,
    most: u32,
    width: usize,
    reader: &mut Reader<&[u8]>,
    csv_record: &mut ByteRecord,
) -> Result<Vec<Texts>, TableFault>
    ensures records { IfOk result (λ row_texts. (here : Place) → IsAt reader.old here
        → AreRecords default_config here.state here.left row_texts.items) }
    ensures faultless { IfOk result (λ row_texts. rows_fault most width 0 row_texts.items ≡ None) }
    ensures fault { IfErr result (λ e. e ≢ TableFault.OutOfMemory
        → (here : Place) → IsAt reader.old here → IsTextsFault most width here e) }
{
    let mut row_texts = Vec::new(alloc);
    for row_no in 0..most {
        if !read_next(reader, csv_record)? {
            return Ok(row_texts);
        }
        if csv_record.len() != width {
            return Err(TableFault::RowLength { row_no });
        }
        let texts = Texts::of_record(alloc, csv_record)?;
        row_texts.push(texts)?;
    }
    if read_next(reader, csv_record)? {
        return Err(TableFault::TooManyRows);
    }
    Ok(row_texts)
}
