//! The texts of one record of a CSV file, as the reader gives them and the writers take them.
ghost use Rattle.std.specs.Prelude.{◌≡◌, ◌<◌, ◌==◌, ◌++◌, ◌∷◌, [], IfOk, OnErr, OnOk, length, map, slice_index_or};
ghost use Rattle.csv.specs.Records.{fields_of, prev};
ghost use Rattle.record_text.specs.Trimming.{header_of};

use crate::trim::header_text;
use csv::ByteRecord;
use foundation::OutOfMemory;
use std::alloc::Global;
use std::marker::Model;

/// The texts of one record's fields, in order. They share one piece of memory, in which each begins where
/// the one before ends.
///
/// csv's record would hold them as well. But what other crates can cite of this one reaches the types of
/// private fields, and csv's record reaches all statements of `serde`: each crate whose types reach a
/// `Texts` would write them down.
#[derive(Drop)]
pub struct Texts {
    bytes: Vec<u8>,
    ends: Vec<usize>,
}

impl Model for Texts {
    ghost use Rattle.std.specs.Prelude.{◌≡◌, ℕ, List, length};
    ghost use Rattle.csv.specs.Records.{Rising, cut_from, last_end};

    ghost Value = { List (List ℕ) };

    ghost view = { λ t. cut_from 0 t.ends.items t.bytes.items };

    ghost invariant = { λ t. Rising 0 t.ends.items (length t.bytes.items) × (last_end 0 t.ends.items ≡ length t.bytes.items) };
}

impl Texts {
    /// A list without texts. Takes no memory.
    pub fn new(alloc: Global) -> Texts
        ensures { result ≡ [] }
    {
        Texts {
            bytes: Vec::new(alloc),
            ends: Vec::new(alloc),
        }
    }

    /// A list without texts, with room for so many bytes and texts.
    fn with_room(alloc: Global, bytes: usize, texts: usize) -> Result<Texts, OutOfMemory>
        ensures { IfOk result (λ texts. texts ≡ []) }
    {
        let ends = Vec::with_capacity(alloc, texts)?;
        Ok(Texts {
            bytes: Vec::with_capacity(alloc, bytes)?,
            ends,
        })
    }

    /// A copy of the texts of a record that csv gave. `csv_record` itself is overwritten by the next
    /// record.
    pub(crate) fn of_record(alloc: Global, csv_record: &ByteRecord) -> Result<Texts, OutOfMemory>
        ensures { IfOk result (λ texts. texts ≡ fields_of csv_record.now) }
    {
        let mut copy = Texts::with_room(alloc, csv_record.as_slice().len(), csv_record.len())?;
        for text in csv_record {
            copy.push(text)?;
        }
        Ok(copy)
    }

    /// A copy of the texts of the header that csv gave, as the names of columns. The first text is without
    /// the byte order marks in front of it, however many.
    pub(crate) fn of_header(alloc: Global, csv_record: &ByteRecord) -> Result<Texts, OutOfMemory>
        ensures { IfOk result (λ texts. texts ≡ header_of (fields_of csv_record.now)) }
    {
        let mut copy = Texts::new(alloc);
        for text in csv_record {
            copy.push(header_text(copy.is_empty(), text))?;
        }
        Ok(copy)
    }

    /// Adds a text at the end. Where memory is refused, the texts are as before.
    pub fn push(&mut self, text: &[u8]) -> Result<(), OutOfMemory>
        ensures added { OnOk result (self.new ≡ self.old ++ text.now ∷ []) }
        ensures refused { OnErr result (self.new ≡ self.old) }
    {
        self.ends.reserve(1)?;
        self.bytes.extend_from_slice(text)?;
        self.ends.push_reserved(self.bytes.len());
        Ok(())
    }

    /// The text at a place, from 0. No memory.
    pub fn get(&self, place: usize) -> &[u8]
        requires { place < length self.now }
        ensures { result.now ≡ slice_index_or self.now place [] }
    {
        let (start, end) = span_of(&self.ends, place);
        &self.bytes[start..end]
    }

    /// How many texts there are. No memory.
    pub fn len(&self) -> usize
        ensures { result ≡ length self.now }
    {
        self.ends.len()
    }

    /// Whether there is no text. No memory.
    pub fn is_empty(&self) -> bool
        ensures { result ≡ (length self.now == 0) }
    {
        self.ends.is_empty()
    }

    /// The texts as slices, for csv's writer. No byte is copied.
    pub(crate) fn slices(&self, alloc: Global) -> Result<Vec<&[u8]>, OutOfMemory>
        ensures { IfOk result (λ slices. map (λ text. text.now) slices.items ≡ self.now) }
    {
        let count = self.len();
        let mut slices = Vec::with_capacity(alloc, count)?;
        for place in 0..count {
            slices.push(self.get(place))?;
        }
        Ok(slices)
    }
}

/// Where the text at a place begins and ends. It begins where the one before ends, and the first at 0.
fn span_of(ends: &[usize], place: usize) -> (usize, usize)
    requires { place < length ends.now }
    ensures start { result.0 ≡ prev 0 ends.now place }
    ensures end { result.1 ≡ slice_index_or ends.now place 0 }
{
    let start = if place == 0 { 0 } else { ends[place - 1] };
    (start, ends[place])
}
