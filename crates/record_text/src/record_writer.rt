//! Records that are written one after another, as the released file and the reasons file are.
//!
//! In contracts, `records_text` is what records are written as, each with its line feed.
ghost use Rattle.std.specs.Prelude.{◌≡◌, ◌++◌, ◌∷◌, [], OnErr, OnOk, map};
ghost use Rattle.record_text.specs.Texts.{records_text};
ghost use Rattle.record_text.specs.inner.Writers.{IsUnused};

use crate::texts::Texts;
use csv::{Writer, WriterBuilder};
use foundation::OutOfMemory;
use std::alloc::Global;
use std::marker::Model;

/// Records that are written one after another, as csv's default writer writes them, each ended by a line
/// feed. Where memory is refused, what was written stays as before. Writing into memory gives no output
/// error, and records may differ in length, so csv refuses for want of memory alone. Part of a record
/// can't be taken back from csv's writer: so each record has one to itself, and goes behind `text` when it
/// is whole.
#[derive(Drop)]
pub struct RecordWriter {
    text: Vec<u8>,
    alloc: Global,
}

impl Model for RecordWriter {
    ghost use Rattle.std.specs.Prelude.{ℕ, List};

    ghost Value = { List ℕ };

    ghost view = { λ w. w.text.items };
}

impl RecordWriter {
    /// A writer that has written nothing. Takes no memory.
    pub fn new(alloc: Global) -> RecordWriter
        ensures { result ≡ [] }
    {
        RecordWriter {
            text: Vec::new(alloc),
            alloc,
        }
    }

    /// Writes a record of these texts behind those that were written. Where memory is refused, nothing is
    /// written.
    pub fn push(&mut self, texts: &Texts) -> Result<(), OutOfMemory>
        ensures written { OnOk result (self.new ≡ self.old ++ records_text (texts.now ∷ [])) }
        ensures refused { OnErr result (self.new ≡ self.old) }
    {
        let slices = texts.slices(self.alloc)?;
        self.push_slices(&slices)
    }

    /// Writes a record of these texts behind those that were written, as `push` does. They need not be
    /// kept together in a [`Texts`].
    pub fn push_slices(&mut self, texts: &[&[u8]]) -> Result<(), OutOfMemory>
        ensures written { OnOk result (self.new ≡ self.old ++ records_text (map (λ text. text.now) texts.now ∷ [])) }
        ensures refused { OnErr result (self.new ≡ self.old) }
    {
        let mut writer = csv_writer(self.alloc);
        if writer.write_fields(texts).is_err() || writer.flush().is_err() {
            return Err(OutOfMemory);
        }
        self.text.extend_from_slice(writer.get_ref())?;
        Ok(())
    }

    /// The text of all records that were written. No memory.
    pub fn into_bytes(self) -> Vec<u8>
        ensures { result.items ≡ self }
    {
        let RecordWriter { text, .. } = self;
        text
    }
}

// A writer that has written nothing, of records that may differ in length.
fn csv_writer(alloc: Global) -> Writer<Vec<u8>>
    ensures { IsUnused result }
{
    WriterBuilder::new()
        .flexible(true)
        .from_writer(Vec::new(alloc))
}
