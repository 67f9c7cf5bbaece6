//! Records that are written all at once, into one piece of memory.
ghost use Rattle.std.specs.Prelude.{◌≡◌, IfOk};
ghost use Rattle.record_text.specs.Texts.{records_text};

use crate::record_writer::RecordWriter;
use crate::texts::Texts;
use foundation::OutOfMemory;
use std::alloc::Global;

/// The records as csv's default writer writes them, each ended by a line feed. They may differ in length.
/// Without records the answer has no byte.
pub fn write_rows(alloc: Global, rows: &[Texts]) -> Result<Vec<u8>, OutOfMemory>
    ensures { IfOk result (λ bytes. bytes.items ≡ records_text rows.now) }
{
    let mut writer = RecordWriter::new(alloc);
    for texts in rows {
        writer.push(texts)?;
    }
    Ok(writer.into_bytes())
}
