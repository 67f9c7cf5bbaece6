//! csv's reader, as this crate sets it: it opens the bytes of a file, and gives one record after another.
//!
//! In contracts a place is where csv's reader stands in the bytes. `IsAt` says that a reader stands there,
//! and `start_of` is the place before the first record. `Reads` says that one call took the next record,
//! or that there is none.
ghost use Rattle.std.specs.Prelude.{◌≡◌, IfOk};
ghost use Rattle.csv.specs.Records.{fields_of};
ghost use Rattle.record_text.specs.inner.Places.{IsAt, Place, Reads, start_of};

use crate::trim::without_mark;
use csv::{ByteRecord, Reader, ReaderBuilder};
use foundation::OutOfMemory;
use std::alloc::Global;

/// csv's reader of these bytes, without one byte order mark in front, by its default settings, before the
/// first record. Records may differ in length, so that faults of length are the caller's to see.
pub(crate) fn open_records(alloc: Global, bytes: &[u8]) -> Reader<&[u8]>
    ensures { IsAt result (start_of bytes.now) }
{
    ReaderBuilder::new()
        .has_headers(false)
        .flexible(true)
        .from_reader(alloc, without_mark(bytes))
}

/// Puts the next record into `csv_record`, in the memory that it has, and answers true; false where there
/// is no further record. csv may also refuse for an input error, or for a record of another length.
/// Neither happens here: the reader reads a slice, and records may differ in length. So each refusal is
/// answered as want of memory.
pub(crate) fn read_next(
    reader: &mut Reader<&[u8]>,
    csv_record: &mut ByteRecord,
) -> Result<bool, OutOfMemory>
    ensures { IfOk result (λ found. (here : Place) → IsAt reader.old here → Reads here found (fields_of csv_record.new) reader.new) }
{
    match reader.read_byte_record(csv_record) {
        Ok(found) => Ok(found),
        Err(_) => Err(OutOfMemory),
    }
}
